//! What a terminal gets besides: the advice beside a fault, what a table lacks, and where a command
//! that reads standard input is given files.
ghost use Rattle.std.specs.Prelude.{◌≡◌, OnErr, OnOk, map, string_bytes};
ghost use Rattle.std.specs.Io.KnownBytes.{Appends};
ghost use Rattle.nb_streams.specs.Devices.{AppendsFront};
ghost use Rattle.nbt_usage.specs.declared.errors.Audience.TheVariants.{Programs};
ghost use Rattle.nbt_usage.specs.declared.hints.TheConstants.{UNHELPED};
ghost use Rattle.nbt_usage.specs.Refusals.{AsksHelp};

use crate::advice::print_advice;
use crate::command_forms::{Argument, CommandForm, FORMS};
use crate::errors::Errors;
use crate::mistakes::mistake_line;
use crate::refusals::refusal_of;
use clap::error::ErrorKind;
use clap::{ArgMatches, Error};
use nb_streams::NoMemory;
use nbt_command::{Fault, print};
use std::alloc::Global;
use std::io::Write;
use std::ops::Range;

/// What is said of an input that is a pcap file.
const LOOK: &str =
    "a pcap or pcapng file: `nbt-look FILE` shows it, `nbt-look --lines FILE` makes a capture\n";

/// What is said of words after `help` that are none of its.
pub const UNHELPED: &str =
    "nbt help: the words are neither a command nor a refusal: `nbt show --help` ends with what \
     `show` refuses, and `man nbt` lists all refusals\n";

/// Tells a person what a fault means and what to do then, as a line; of the words of a packet,
/// where they are matched, which is wrong and what was wanted. Where there is no memory for it, or
/// the device fails, nothing else changes.
pub fn print_hint<E: Write>(
    alloc: Global,
    fault: Fault,
    matches: Option<&ArgMatches<'_>>,
    errors: &mut Errors<'_, E>,
)
    ensures quiet { errors.old.audience ≡ Programs → errors.new ≡ errors.old }
{
    let Some(signature) = errors.signature() else {
        return;
    };
    if signature.is_pcap() && !matches!(fault, Fault::Write | Fault::Memory) {
        errors.tell(LOOK);
    } else if let Some(mistake) = mistake_in(alloc, fault, matches) {
        errors.tell(mistake.as_str());
    } else if let Some(refusal) = refusal_of(fault) {
        let _ = print_advice(alloc, refusal, &mut errors.output.device);
    }
}

/// What is wrong with the words of a packet that the matches have, as a line, if it can be said.
fn mistake_in(alloc: Global, fault: Fault, matches: Option<&ArgMatches<'_>>) -> Option<String> {
    let Fault::Build(fault) = fault else {
        return None;
    };
    let (_, build) = matches?.subcommand()?;
    let words = build.get_strs("ARG").unwrap_or(&[]);
    let line = mistake_line(alloc, fault, build.get_str("WHAT")?, words).ok()?;
    if line.is_empty() { None } else { Some(line) }
}

/// Tells a person how a command reads the files that the words give it, as a line, where clap
/// refuses the words for one.
pub fn print_input<E: Write>(
    alloc: Global,
    words: &[String],
    error: &Error,
    errors: &mut Errors<'_, E>,
)
    ensures quiet { errors.old.audience ≡ Programs → errors.new ≡ errors.old }
{
    if errors.signature().is_none() || !matches!(error.kind(), ErrorKind::UnknownArgument) {
        return;
    }
    if let Ok(line) = input_line(alloc, words) {
        errors.tell(line.as_str());
    }
}

/// Says, in a line, that the words after `help` are neither a command nor a refusal, and where
/// refusals are listed, where clap refuses such words.
///
/// # Errors
///
/// [`Fault::Write`] where the device failed.
pub fn print_unhelped<E: Write>(words: &[String], errors: &mut Errors<'_, E>) -> Result<(), Fault>
    ensures said { AsksHelp (map string_bytes words.now) → OnOk result
        (Appends (E.contents errors.old.output.device.inner)
        (E.contents errors.new.output.device.inner) UNHELPED.now) }
    ensures err { OnErr result (AppendsFront (E.contents errors.old.output.device.inner)
        (E.contents errors.new.output.device.inner) UNHELPED.now) }
    ensures other { ¬ AsksHelp (map string_bytes words.now) → errors.new ≡ errors.old }
{
    match words {
        [_, help, ..] if help.as_str() == "help" => {
            print(&mut errors.output.device, UNHELPED.as_bytes())
        }
        _ => Ok(()),
    }
}

/// Tells a person how many keys the ticks of a capture dropped, if they dropped any.
pub fn print_dropped<E: Write>(dropped: u64, errors: &mut Errors<'_, E>)
    ensures quiet { errors.old.audience ≡ Programs → errors.new ≡ errors.old }
{
    if dropped > 0 && errors.signature().is_some() {
        let _ = writeln!(errors.output, "nbt: keys that ticks dropped: {dropped}");
    }
}

/// How a command reads the files that these words give it, if they give it any.
fn input_line(alloc: Global, words: &[String]) -> Result<String, NoMemory> {
    let mut line = String::new(alloc);
    if let Some(start) = first_file(words) {
        let mut behind = words.iter().enumerate().skip(start);
        let option = behind.find(|(_, word)| word.as_str().starts_with('-'));
        let end = option.map_or(words.len(), |(place, _)| place);
        push_reading(words, start..end, &mut line)?;
    }
    Ok(line)
}

/// The place of the first word after the command that is no option and no option's value, where it
/// takes options alone; none where a word before that is no option of the command, or the word
/// stands there twice, or a word behind `--` looks like an option.
fn first_file(words: &[String]) -> Option<usize> {
    let command = words.get(1)?.as_str();
    let form = FORMS
        .iter()
        .find(|form| form.name == command && form.takes_options_alone())?;
    let mut behind_dashes = words
        .iter()
        .skip_while(|word| word.as_str() != "--")
        .skip(1);
    if behind_dashes.any(|word| word.as_str().starts_with('-')) {
        return None;
    }
    let mut is_value = false;
    for (place, word) in words.iter().enumerate().skip(2) {
        let word = word.as_str();
        if word.starts_with('-') {
            if is_value {
                return None;
            }
            is_value = takes_value(form, word)?;
        } else if is_value {
            is_value = false;
        } else {
            let mut alike = words.iter().skip(2).filter(|other| other.as_str() == word);
            return (alike.count() == 1).then_some(place);
        }
    }
    None
}

/// Whether the word behind this option of the command is its value.
fn takes_value(form: &CommandForm, option: &str) -> Option<bool> {
    let halves = option.split_once('=');
    let (option, is_given) = halves.map_or((option, false), |(option, _)| (option, true));
    let name = option.strip_prefix("--")?;
    if name.is_empty() {
        return Some(false);
    }
    form.arguments.iter().find_map(|argument| match argument {
        Argument::Flag(flag, _) if *flag == name => Some(false),
        Argument::Keys if name == "keys" => Some(!is_given),
        Argument::Number(number, _, _, _) if *number == name => Some(!is_given),
        _ => None,
    })
}

/// Says how the command reads the files at these places.
fn push_reading(words: &[String], files: Range<usize>, line: &mut String) -> Result<(), NoMemory> {
    let Range { start, end } = files;
    let is_one = end.saturating_sub(start) == 1;
    push_words(words, 1..2, "", line)?;
    line.push_str(" reads standard input: ")?;
    if !is_one {
        line.push_str("cat")?;
        push_words(words, start..end, " ", line)?;
        line.push_str(" | ")?;
    }
    line.push_str("nbt")?;
    push_words(words, 1..start, " ", line)?;
    push_words(words, end..words.len(), " ", line)?;
    if is_one {
        push_words(words, start..end, " <", line)?;
    }
    line.push_str("\n")?;
    Ok(())
}

/// Adds the words at these places, each after a lead.
fn push_words(
    words: &[String],
    places: Range<usize>,
    lead: &str,
    line: &mut String,
) -> Result<(), NoMemory> {
    for word in words.iter().take(places.end).skip(places.start) {
        line.push_str(lead)?;
        push_word(word.as_str(), line)?;
    }
    Ok(())
}

/// Adds a word as a shell takes it, or `FILE` for one that a terminal doesn't show.
fn push_word(word: &str, line: &mut String) -> Result<(), NoMemory> {
    let quote = if !word.is_empty() && word.bytes().all(|byte| is_plain(byte)) {
        ""
    } else {
        "'"
    };
    let is_shown = word.bytes().all(|byte| byte.is_ascii_graphic() && byte != b'\''
        || byte == b' ');
    if is_shown {
        write!(line, "{quote}{word}{quote}")?;
    } else {
        line.push_str("FILE")?;
    }
    Ok(())
}

/// Whether a byte of a word means nothing else to a shell.
fn is_plain(byte: u8) -> bool {
    byte.is_ascii_alphanumeric() || b"%+,-./:=@_".contains(&byte)
}
