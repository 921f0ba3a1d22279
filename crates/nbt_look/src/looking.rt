//! Showing the files that are asked for.
ghost use Rattle.std.specs.Prelude.{IfOk};
ghost use Rattle.nbt_look.specs.Printing.{AreUnread};

use crate::asked::Asked;
use crate::messages::{BAD_USAGE, FAILED, fail, refuse};
use crate::output::{LiveInput, Output, SharedOutput};
use crate::program::run;
use crate::signature::{Signature, UNREAD};
use crate::sources::Source;
use nb_streams::Counted;
use std::alloc::{AllocError, Global};
use std::cell::{Cell, RefCell};
use std::fs::{File, metadata};
use std::io;
use std::io::{BufWriter, ErrorKind, Read, Stdin, Write};

/// What messages call standard input.
const STANDARD_INPUT: [&str; 1] = ["standard input"];

/// An input that is read.
#[derive(Drop)]
pub enum Input {
    /// A file.
    File(File),
    /// Standard input.
    Standard(Stdin),
}

impl Read for Input {
    fn read(&mut self, buf: &mut [u8]) -> io::Result<usize> {
        match self {
            Input::File(file) => file.read(buf),
            Input::Standard(stdin) => stdin.read(buf),
        }
    }
}

/// Shows these files, or standard input by `-` alone, and answers the exit status. Where one can't
/// be opened, none is read. What is printed is written out before each read.
pub fn look_at_all(rt: &HostRuntime, titles: &[&str], asked: Asked) -> u8 {
    if titles.is_empty() {
        let why = "none is given: give one, or - for standard input";
        return refuse(rt, "FILE", why, BAD_USAGE);
    }
    let Ok(signatures) = unread_signatures(rt.alloc(), titles.len()) else {
        return fail(rt, "memory ran out");
    };
    let Ok(stdout) = BufWriter::new(rt.alloc(), rt.stdout()) else {
        return fail(rt, "memory ran out");
    };
    let Ok(mut errors) = BufWriter::new(rt.alloc(), rt.stderr()) else {
        return fail(rt, "memory ran out");
    };
    let printed = RefCell::new(Output::new(stdout));
    let shown_titles = if titles[..] == ["-"] {
        STANDARD_INPUT.as_slice()
    } else {
        titles
    };
    let code = match sources_of(rt, titles, signatures.as_slice(), &printed) {
        Ok(sources) => show(
            rt.alloc(),
            shown_titles,
            asked,
            signatures.as_slice(),
            sources,
            &printed,
            &mut errors,
        ),
        Err(code) => code,
    };
    finish(rt, code, printed.into_inner(), errors)
}

/// The signatures of so many inputs of which nothing was read.
fn unread_signatures(alloc: Global, count: usize) -> Result<Vec<Cell<Signature>>, AllocError> {
    let mut signatures = Vec::new(alloc);
    for _ in 0..count {
        signatures.push(Cell::new(UNREAD))?;
    }
    Ok(signatures)
}

/// Opens these files, whose signatures these cells keep, and before whose reads the output in a
/// cell is flushed; where one can't be opened, says why, and answers the exit status.
fn sources_of<'a, W: Write>(
    rt: &HostRuntime,
    titles: &[&str],
    signatures: &'a [Cell<Signature>],
    printed: &'a RefCell<Output<W>>,
) -> Result<Vec<Source<LiveInput<'a, Input, W>>>, u8>
    ensures { IfOk result (λ sources. AreUnread sources.items) }
{
    let mut sources = Vec::new(rt.alloc());
    for (title, signature) in titles.iter().zip(signatures) {
        let input = LiveInput {
            input: opened(rt, title, titles.len() == 1)?,
            output: SharedOutput { output: printed },
            signature,
        };
        match sources.push(Source::new(rt.alloc(), input)) {
            Ok(()) => {}
            Err(_) => return Err(fail(rt, "memory ran out")),
        }
    }
    Ok(sources)
}

/// Opens a file, or standard input by `-`, where it is the only one; where it can't be opened, says
/// why, and answers the exit status.
fn opened(rt: &HostRuntime, title: &str, is_only: bool) -> Result<Input, u8> {
    if title == "-" {
        if is_only {
            return Ok(Input::Standard(rt.stdin()));
        }
        let why = "several files are read by their names, and standard input has none";
        return Err(refuse(rt, title, why, BAD_USAGE));
    }
    if matches!(metadata(rt, title), Ok(found) if found.is_dir()) {
        return Err(refuse(rt, title, "it is a directory: give a file of it", FAILED));
    }
    let why = match File::open(rt, title) {
        Ok(file) => return Ok(Input::File(file)),
        Err(error) => match error.kind() {
            ErrorKind::NotFound => "there is no file of this name",
            ErrorKind::PermissionDenied => "you may not read it: ask its owner, or use sudo",
            _ => "it can't be opened",
        },
    };
    Err(refuse(rt, title, why, FAILED))
}

/// Shows these inputs as one capture, and answers the exit status.
fn show<R: Read + Drop, W: Write, E: Write>(
    alloc: Global,
    titles: &[&str],
    asked: Asked,
    signatures: &[Cell<Signature>],
    mut sources: Vec<Source<R>>,
    printed: &RefCell<Output<W>>,
    errors: &mut E,
) -> u8
    requires { AreUnread sources.items }
{
    let mut writer = Counted::new(SharedOutput { output: printed });
    let mut teller = Counted::new(errors);
    let code = run(
        alloc,
        titles,
        asked,
        signatures,
        sources.as_mut_slice(),
        &mut writer,
        &mut teller,
    );
    let _writer = writer.into_inner();
    let _errors = teller.into_inner();
    code
}

/// Writes out what the outputs still hold, and answers this exit status; that of a failure, where
/// standard output can't be written.
fn finish<W: Write + Drop, E: Write + Drop>(
    rt: &HostRuntime,
    code: u8,
    output: Output<BufWriter<W>>,
    mut errors: BufWriter<E>,
) -> u8 {
    let Output {
        mut writer,
        flush_failed,
    } = output;
    let flushed = writer.flush();
    // What a failed flush left is let go: it isn't written once more.
    let (_output, _left) = writer.into_parts();
    let answer = if flush_failed || flushed.is_err() {
        fail(rt, "standard output can't be written")
    } else {
        let _ = errors.flush();
        code
    };
    let (_errors, _unwritten) = errors.into_parts();
    answer
}
