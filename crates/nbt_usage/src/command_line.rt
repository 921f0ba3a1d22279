//! The program's command line, made of the forms of its commands, and what clap answers of it.
ghost use Rattle.std.specs.Prelude.{◌≡◌, IfOk, false};
ghost use Rattle.std.specs.List.{fold};
ghost use Rattle.clap.specs.Words.{App, app_of, new_app, rule_of};
ghost use Rattle.clap.specs.declared.builder.command.Command.TheViews.{out-Command as fields_of};
ghost use Rattle.nbt_usage.specs.CommandLine.{answer_to, nbt_app, number_rule, words_rule};
ghost use Rattle.nbt_usage.specs.Code.CommandForms.{argument_rule, form_app, with_argument, with_form};

use crate::command_forms::{Argument, CommandForm, FORMS};
use crate::help::STATUSES;
use crate::limits::{KEYS_HELP, KEYS_WORD, MOST_KEYS};
use clap::builder::ValueParser;
use clap::error::ErrorKind;
use clap::{Arg, ArgAction, Command};
use std::alloc::{AllocError, Global};

/// The program's version, as `--version` prints it.
const VERSION: &str = "0.1.0";

/// The command line: a subcommand and its arguments.
///
/// # Errors
///
/// `AllocError` where memory ran out.
pub fn command<'a>(alloc: Global) -> Result<Command<'a>, AllocError>
    ensures { IfOk result (λ command. app_of command ≡ nbt_app) }
{
    let about = "NetBIOS packets on the command line";
    let top = described(alloc, "nbt", about, STATUSES)
        .version(VERSION)
        .subcommand_required(true);
    with_commands(alloc, top, &FORMS)
}

/// A command with the subcommands of these forms more.
fn with_commands<'a>(
    alloc: Global,
    command: Command<'a>,
    forms: &[CommandForm],
) -> Result<Command<'a>, AllocError>
    ensures { (app : App) → app_of command.entry ≡ app
        → IfOk result (λ whole. app_of whole ≡ fold with_form app forms.now) }
{
    let mut command = command;
    for form in forms {
        command = command.subcommand(command_of(alloc, form)?)?;
    }
    Ok(command)
}

/// The command of a form.
fn command_of<'a>(alloc: Global, form: &CommandForm) -> Result<Command<'a>, AllocError>
    ensures app { IfOk result (λ command. app_of command ≡ form_app form.now) }
    ensures local { IfOk result (λ command. (fields_of command).has_globals ≡ false) }
{
    let command = described(alloc, form.name, form.about, form.after);
    with_arguments(alloc, command, form.arguments)
}

/// A command with these arguments more, none of which its subcommands inherit.
fn with_arguments<'a>(
    alloc: Global,
    command: Command<'a>,
    arguments: &[Argument],
) -> Result<Command<'a>, AllocError>
    ensures app { IfOk result (λ whole. app_of whole
        ≡ fold with_argument (app_of command.entry) arguments.now) }
    ensures local { IfOk result (λ whole. (fields_of command.entry).has_globals ≡ false
        → (fields_of whole).has_globals ≡ false) }
{
    let mut command = command;
    for argument in arguments {
        command = command.arg(arg_of(alloc, argument))?;
    }
    Ok(command)
}

/// A command of this name, with the texts before and after its help.
fn described<'a>(alloc: Global, name: &'a str, about: &'a str, after: &'a str) -> Command<'a>
    ensures app { app_of result ≡ new_app name.entry.now }
    ensures local { (fields_of result).has_globals ≡ false }
{
    Command::new(alloc, name).about(about).after_help(after)
}

/// An argument, as clap has it.
fn arg_of<'a>(alloc: Global, argument: &Argument) -> Arg<'a>
    ensures rule { rule_of result ≡ argument_rule argument.now }
    ensures local { result.global ≡ false }
{
    match argument {
        Argument::Flag(name, help) => Arg::new(alloc, *name)
            .long(*name)
            .help(*help)
            .action(ArgAction::SetTrue),
        Argument::Word(name, help) => Arg::new(alloc, *name)
            .help(*help)
            .required(true)
            .action(ArgAction::Set),
        Argument::Words(name, help) => words(alloc, *name, *help, 0),
        Argument::SomeWords(name, help) => words(alloc, *name, *help, 1).required(true),
        Argument::Keys => number(alloc, "keys", "N", KEYS_HELP, MOST_KEYS).default_value(KEYS_WORD),
        Argument::Number(name, value, help, most) => number(alloc, *name, *value, *help, *most),
    }
}

/// Words, at least so many.
fn words<'a>(alloc: Global, name: &'a str, help: &'a str, least: usize) -> Arg<'a>
    ensures rule { rule_of result ≡ words_rule name.entry.now least }
    ensures local { result.global ≡ false }
{
    Arg::new(alloc, name)
        .help(help)
        .num_args(least..)
        .action(ArgAction::Append)
}

/// An option that is a decimal number from 1 to `most`, which the help calls by `value`.
fn number<'a>(alloc: Global, name: &'a str, value: &'a str, help: &'a str, most: u64) -> Arg<'a>
    ensures rule { rule_of result ≡ number_rule name.entry.now most }
    ensures local { result.global ≡ false }
{
    Arg::new(alloc, name)
        .long(name)
        .value_name(value)
        .help(help)
        .value_parser(ValueParser::unsigned(1, most))
        .action(ArgAction::Set)
}

/// What is asked for, or wrong, where clap has no matches of the words.
pub enum ClapAnswer {
    /// The help or the version is asked for: clap's text is the output.
    Asked,
    /// The words are no command line of the program: clap's text says why.
    Misused,
    /// Memory ran out.
    NoMemory,
}

impl ClapAnswer {
    /// The answer that goes with a kind of clap's error.
    pub fn to(kind: ErrorKind) -> ClapAnswer
        ensures { result ≡ answer_to kind }
    {
        match kind {
            ErrorKind::DisplayHelp | ErrorKind::DisplayVersion => ClapAnswer::Asked,
            ErrorKind::OutOfMemory => ClapAnswer::NoMemory,
            _ => ClapAnswer::Misused,
        }
    }
}
