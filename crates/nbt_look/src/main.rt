//! `nbt-look`: the NetBIOS packets of capture files, a line for each, in words.
#![tactic(auto)]

mod asked;
mod asking;
mod capture_text;
mod choosing;
mod colours;
mod command_line;
mod counting;
mod ends;
mod entries;
mod frame_members;
mod heading;
mod hearing;
mod kinds;
mod last;
mod laws;
mod lister;
mod listing;
mod looking;
mod messages;
mod objects;
mod output;
mod printing;
mod program;
mod progress;
mod reporting;
mod signature;
mod sources;
mod standing;
mod times;
mod totals;
mod wanted;
mod widths;

use crate::asking::{AskFault, asked_of};
use crate::command_line::command;
use crate::looking::look_at_all;
use crate::messages::{BAD_USAGE, FAILED, fail, refuse};
use clap::error::ErrorKind;
use clap::{ArgMatches, Error};
use std::alloc::{AllocError, Global};
use std::env;
use std::io::{IsTerminal, Write};
use std::process::ExitCode;

fn main(rt: HostRuntime) -> ExitCode {
    ExitCode::from(start(&rt))
}

/// Runs the program with the words of its process, and answers its exit status.
fn start(rt: &HostRuntime) -> u8 {
    let Some(words) = words_of(rt) else {
        return fail(rt, "the command line can't be read");
    };
    let Ok(command) = command(rt.alloc()) else {
        return fail(rt, "memory ran out");
    };
    match command.try_get_matches_from(words.as_slice()) {
        Ok(matches) => look_as(rt, &matches),
        Err(error) => stop(rt, &error),
    }
}

/// The words that the program was called with, its own name first.
fn words_of(rt: &HostRuntime) -> Option<Vec<String>> {
    let mut words = Vec::new(rt.alloc());
    for word in env::args(rt).ok()? {
        words.push(word).ok()?;
    }
    Some(words)
}

/// Shows the files that are asked for, as it is asked for, and answers the exit status.
fn look_as(rt: &HostRuntime, matches: &ArgMatches<'_>) -> u8 {
    let Ok(titles) = titles_of(rt.alloc(), matches) else {
        return fail(rt, "memory ran out");
    };
    match asked_of(rt.alloc(), matches, is_plain(rt)) {
        Ok(asked) => look_at_all(rt, titles.as_slice(), asked),
        Err(AskFault::Word(word, why)) => refuse(rt, word, why, BAD_USAGE),
        Err(AskFault::NoMemory) => fail(rt, "memory ran out"),
    }
}

/// Whether standard output is no terminal, or one that is to have no colours: `NO_COLOR` isn't
/// empty, or `TERM` is `dumb`.
fn is_plain(rt: &HostRuntime) -> bool {
    if !rt.stdout().is_terminal() {
        return true;
    }
    matches!(env::var(rt, "NO_COLOR"), Ok(word) if !word.is_empty())
        || matches!(env::var(rt, "TERM"), Ok(word) if word.as_str() == "dumb")
}

/// The names of files, those of `-r` first.
fn titles_of<'a>(alloc: Global, matches: &ArgMatches<'a>) -> Result<Vec<&'a str>, AllocError> {
    let mut titles = Vec::new(alloc);
    titles.extend_from_slice(matches.get_strs("read").unwrap_or(&[]))?;
    titles.extend_from_slice(matches.get_strs("FILE").unwrap_or(&[]))?;
    Ok(titles)
}

/// Says what clap has in the place of matches: help, the version, or what is wrong.
fn stop(rt: &HostRuntime, error: &Error) -> u8 {
    match error.kind() {
        ErrorKind::OutOfMemory => fail(rt, "memory ran out"),
        ErrorKind::DisplayHelp | ErrorKind::DisplayVersion => {
            let mut output = rt.stdout();
            match write!(output, "{error}") {
                Ok(()) => 0,
                Err(_) => FAILED,
            }
        }
        _ => {
            let mut errors = rt.stderr();
            let _ = write!(errors, "{error}");
            BAD_USAGE
        }
    }
}
