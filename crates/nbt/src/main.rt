//! `nbt`: NetBIOS packets on the command line.
#![tactic(auto)]

mod flushing;
mod program;
mod streams;

use crate::flushing::{FlushingInput, SharedOutput};
use crate::program::{report, run};
use crate::streams::{Call, run_for};
use nbt_command::Fault;
use nbt_usage::{Audience, Errors, Output, Signature, SignatureInput, UNREAD};
use std::alloc::Global;
use std::cell::{Cell, RefCell};
use std::env;
use std::io::{BufWriter, ErrorKind, IsTerminal, Read, Write};
use std::process::ExitCode;

fn main(rt: HostRuntime) -> ExitCode {
    let signature = Cell::new(UNREAD);
    let code = match run_buffered(&rt, &signature) {
        Ok(code) => code,
        Err(fault) => {
            let mut errors = Errors {
                output: Output::new(rt.stderr()),
                audience: audience_of(&rt, &signature),
            };
            report(rt.alloc(), Err(fault), None, &mut errors).code()
        }
    };
    ExitCode::from(code)
}

/// Who reads standard error: a person where it is a terminal.
fn audience_of<'a>(rt: &HostRuntime, signature: &'a Cell<Signature>) -> Audience<'a> {
    if rt.stderr().is_terminal() {
        Audience::Person(signature)
    } else {
        Audience::Programs
    }
}

/// Runs the program over the streams of its process, through buffers of fixed size. What it prints
/// is written out before each read of the input, so that it shows while more is waited for, and all
/// of it in the end. Where that fails, this is reported alone.
fn run_buffered(rt: &HostRuntime, signature: &Cell<Signature>) -> Result<u8, Fault> {
    let words = words_of(rt)?;
    let stdout = buffered(rt.alloc(), rt.stdout())?;
    let mut errors = buffered(rt.alloc(), rt.stderr())?;
    let printed = RefCell::new(stdout);
    let call = Call {
        alloc: rt.alloc(),
        words: words.as_slice(),
        audience: audience_of(rt, signature),
    };
    let input = SignatureInput::new(rt.stdin(), signature);
    let answer = run_flushing(call, input, &printed, &mut errors);
    let mut output = printed.into_inner();
    let shown = flushed(answer, &mut output);
    // What a failed flush left is let go: it isn't written once more.
    let (_stdout, _left) = output.into_parts();
    if shown.is_ok() {
        let _ = errors.flush();
    }
    let (_stderr, _unwritten) = errors.into_parts();
    shown
}

/// What the program answers once its output is flushed.
fn flushed<W: Write>(answer: Result<u8, Fault>, output: &mut W) -> Result<u8, Fault> {
    let code = answer?;
    output.flush().map_err(|_| Fault::Write)?;
    Ok(code)
}

/// Runs the program over this input, before each read of which the output in the cell is flushed.
fn run_flushing<R: Read + Drop, W: Write, E: Write>(
    call: Call<'_>,
    input: R,
    printed: &RefCell<W>,
    errors: &mut E,
) -> Result<u8, Fault> {
    let mut input = FlushingInput::new(input, printed);
    let mut output = SharedOutput::new(printed);
    let code = match call.audience {
        Audience::Programs => run(call.alloc, call.words, &mut input, &mut output, errors),
        Audience::Person(_) => run_for(call, &mut input, &mut output, errors),
    };
    if input.flush_failed() {
        return Err(Fault::Write);
    }
    Ok(code)
}

/// A device with a buffer of fixed size before it.
fn buffered<W: Write + Drop>(alloc: Global, device: W) -> Result<BufWriter<Output<W>>, Fault> {
    BufWriter::new(alloc, Output::new(device)).map_err(|_| Fault::Memory)
}

/// The words that the program was called with, its own name first.
fn words_of(rt: &HostRuntime) -> Result<Vec<String>, Fault> {
    let given = env::args(rt).map_err(|error| words_fault(error.kind()))?;
    let mut words = Vec::new(rt.alloc());
    for word in given {
        words.push(word)?;
    }
    Ok(words)
}

/// Why the words can't be had.
fn words_fault(kind: ErrorKind) -> Fault {
    match kind {
        ErrorKind::OutOfMemory => Fault::Memory,
        _ => Fault::Read,
    }
}
