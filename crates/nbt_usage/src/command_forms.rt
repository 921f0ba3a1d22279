//! The program's commands: the arguments of each, and what the help says of them.
ghost use Rattle.std.specs.Prelude.{◌≡◌, IfNone, IfSome, Some};
ghost use Rattle.clap.specs.Words.{subcommand_name_of};
ghost use Rattle.nbt_usage.specs.CommandLine.{IsCommand, Picks, word_of};

use crate::help::{
    AGREE_HELP, BUILD_HELP, LIST_HELP, MERGE_HELP, NAME_HELP, REPLAY_HELP, SAVE_HELP, SHOW_HELP,
};
use crate::limits::{INPUT_HELP, MOST_INPUT, MOST_KEYS, PER_SOURCE_HELP};
use clap::ArgMatches;

/// An argument of a command: what it is called, and what the help says of it.
pub enum Argument {
    /// An option that is given or not.
    Flag(&'static str, &'static str),
    /// A word that is required.
    Word(&'static str, &'static str),
    /// Words, any number of them.
    Words(&'static str, &'static str),
    /// Words, at least one.
    SomeWords(&'static str, &'static str),
    /// `--keys N`.
    Keys,
    /// An option that is a decimal number: also what the help calls it by, and the most it may be.
    Number(&'static str, &'static str, &'static str, u64),
}

/// A command.
pub struct CommandForm {
    /// The word that names it.
    pub name: &'static str,
    /// What the help says of it.
    pub about: &'static str,
    /// What it takes, in this order.
    pub arguments: &'static [Argument],
    /// What the help of the command ends with.
    pub after: &'static str,
}

impl CommandForm {
    /// Whether the command takes no words but options.
    pub fn takes_options_alone(&self) -> bool {
        self.arguments.iter().all(|argument| {
            matches!(
                argument,
                Argument::Flag(_, _) | Argument::Keys | Argument::Number(_, _, _, _)
            )
        })
    }
}

const PER_SOURCE: Argument = Argument::Number("per-source", "N", PER_SOURCE_HELP, MOST_KEYS);

const INPUT_LIMIT: Argument = Argument::Number("input-limit", "BYTES", INPUT_HELP, MOST_INPUT);

const COMMENTS: Argument = Argument::Flag(
    "comments",
    "Print the comments of the capture, each in its place",
);

const JSON: Argument = Argument::Flag(
    "json",
    "Print JSON: an object for each line, in a line of its own",
);

/// All commands.
pub const FORMS: [CommandForm; 8] = [
    CommandForm {
        name: "name",
        about: "Print the spelling of a name, or with --bytes the text of a spelling",
        arguments: &[
            Argument::Flag(
                "bytes",
                "VALUE is a spelling in hexadecimal: print the text of its name",
            ),
            Argument::Word(
                "VALUE",
                "The text of a name, such as 'FRED<20>.NETBIOS.COM'; with --bytes its spelling",
            ),
        ],
        after: NAME_HELP,
    },
    CommandForm {
        name: "show",
        about: "Show the packets of the capture on standard input",
        arguments: &[
            INPUT_LIMIT,
            COMMENTS,
            Argument::Flag(
                "brief",
                "Print a phrase for each packet: who asks, claims, answers or sends what",
            ),
            Argument::Flag(
                "partial",
                "Print what still stands of packets that are refused or cut",
            ),
            JSON,
        ],
        after: SHOW_HELP,
    },
    CommandForm {
        name: "build",
        about: "Print the capture line of a packet",
        arguments: &[
            Argument::Flag("broadcast", "The packet of port 137 is broadcast"),
            Argument::Word("WHAT", "The packet to build"),
            Argument::Words("ARG", "The fields of the packet, as listed below"),
        ],
        after: BUILD_HELP,
    },
    CommandForm {
        name: "replay",
        about: "Replay the capture on standard input in a station with these names, and print the \
                report",
        arguments: &[
            Argument::Keys,
            PER_SOURCE,
            INPUT_LIMIT,
            COMMENTS,
            JSON,
            Argument::SomeWords(
                "NAME",
                "A name of the station, such as 'FRED<20>.NETBIOS.COM'",
            ),
        ],
        after: REPLAY_HELP,
    },
    CommandForm {
        name: "save",
        about: "Print the reassembly table of the capture on standard input, in hexadecimal",
        arguments: &[Argument::Keys, PER_SOURCE, INPUT_LIMIT],
        after: SAVE_HELP,
    },
    CommandForm {
        name: "merge",
        about: "Print the join of the saved tables on standard input, a line each",
        arguments: &[Argument::Keys, PER_SOURCE],
        after: MERGE_HELP,
    },
    CommandForm {
        name: "list",
        about: "Print what the saved tables on standard input, a line each, know together of each \
                key",
        arguments: &[Argument::Keys, PER_SOURCE, JSON],
        after: LIST_HELP,
    },
    CommandForm {
        name: "agree",
        about: "Print whether the two saved tables on standard input, a line each, are equal",
        arguments: &[Argument::Flag(
            "list",
            "Where they differ, print what either has of each key at which they do",
        )],
        after: AGREE_HELP,
    },
];

/// A command of the program, called by its word in lower case.
pub enum Subcommand {
    Name,
    Show,
    Build,
    Replay,
    Save,
    Merge,
    List,
    Agree,
}

impl Subcommand {
    /// The command that clap entered, and its own matches.
    pub fn entered<'m, 'a>(matches: &'m ArgMatches<'a>) -> Option<(Subcommand, &'m ArgMatches<'a>)>
        ensures found { IfSome result (λ entered.
            Picks matches.now (word_of entered.0) entered.1.now) }
        ensures unknown { IfNone result (¬ IsCommand (subcommand_name_of matches.now)) }
    {
        let (word, inner) = matches.subcommand()?;
        Some((Subcommand::named(word)?, inner))
    }

    /// The command that a word names.
    fn named(word: &str) -> Option<Subcommand>
        ensures found { IfSome result (λ command. word.now ≡ word_of command) }
        ensures unknown { IfNone result (¬ IsCommand (Some word.now)) }
    {
        match word {
            "name" => Some(Subcommand::Name),
            "show" => Some(Subcommand::Show),
            "build" => Some(Subcommand::Build),
            "replay" => Some(Subcommand::Replay),
            "save" => Some(Subcommand::Save),
            "merge" => Some(Subcommand::Merge),
            "list" => Some(Subcommand::List),
            "agree" => Some(Subcommand::Agree),
            _ => None,
        }
    }
}
