//! `nb_examples`: makes the calls that the lines of its input say, and prints each line that has
//! another answer, then how many lines there were. The calls of tables and stations stand here.
#![tactic(auto)]

mod caller;
mod calls;
mod comparing;
mod definitions;
mod events;
mod examples;
mod hearing;
mod inserting;
mod joining;
mod line_reading;
mod plain;
mod reading;
mod replays;
mod stations;
mod steps;
mod taking;

use crate::examples::Examples;
use nb_examples_words::fault::ExampleFault;
use std::alloc::Global;
use std::io;
use std::io::{ErrorKind, Write};
use std::process::ExitCode;

/// Answers 0 where each answer was the one that stands in its line, 1 where one wasn't, and 3
/// where the lines couldn't be read, what they answer not be printed, or memory ran out.
fn main(rt: HostRuntime) -> ExitCode {
    ExitCode::from(match run(&rt) {
        Ok(0) => 0,
        Ok(_) => 1,
        Err(fault) => {
            let _ = writeln!(rt.stderr(), "nb_examples: {fault}");
            3
        }
    })
}

/// Takes in each line of standard input, and answers how many examples were wrong.
fn run(rt: &HostRuntime) -> Result<u64, ExampleFault> {
    let mut output = rt.stdout();
    let mut examples = Examples { count: 0, wrong: 0 };
    for line in rt.lines(rt.alloc()) {
        take(rt.alloc(), line, &mut examples, &mut output)?;
    }
    writeln!(
        output,
        "{} examples, {} wrong",
        examples.count, examples.wrong
    )?;
    Ok(examples.wrong)
}

/// Takes in a line of standard input, if it could be read.
fn take<W: Write>(
    alloc: Global,
    line: io::Result<String>,
    examples: &mut Examples,
    output: &mut W,
) -> Result<(), ExampleFault> {
    match line {
        Ok(line) => examples.take(alloc, line.as_str(), output),
        Err(error) => Err(match error.kind() {
            ErrorKind::OutOfMemory => ExampleFault::NoMemory,
            _ => ExampleFault::Read,
        }),
    }
}
