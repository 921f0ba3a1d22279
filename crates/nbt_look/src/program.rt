//! The program over any inputs and output.
ghost use Rattle.std.specs.Prelude.{◌≡◌, ◌++◌, List, OnOk, string_bytes};
ghost use Rattle.nbt_look.specs.declared.signature.Sort.{Sort};
ghost use Rattle.nbt_look.specs.Printing.{AreUnread};
ghost use Rattle.nbt_look.specs.Running.{Runs, Tells, faults_text, report_text, status_of};

use crate::asked::Asked;
use crate::printing::{PrintFault, print_files};
use crate::reporting::{print_text, push_fault, status_in};
use crate::signature::{Signature, Sort};
use crate::sources::Source;
use nb_streams::output::write_whole;
use nb_streams::{Counted, NoMemory};
use std::alloc::Global;
use std::cell::Cell;
use std::io::{Read, Write};

/// Shows the packets of capture files, which messages call by these titles, and answers the exit
/// status.
///
/// The list goes to `output`, as [`print_files`] says, and after it the counts; the fault of each
/// file that couldn't be read to its end goes to `errors`, as a line after `nbt-look: `, and a
/// fault in writing these lines changes nothing. The cells have what each input begins with, as far
/// as it was read. The status is 0 where all was read, 1 where a file is no capture file or ends
/// early, and 3 where a device failed or memory ran out.
pub fn run<R: Read, W: Write, E: Write>(
    alloc: Global,
    titles: &[&str],
    asked: Asked,
    signatures: &[Cell<Signature>],
    sources: &mut [Source<R>],
    output: &mut Counted<W>,
    errors: &mut Counted<E>,
) -> u8
    requires { AreUnread sources.old }
    ensures { Runs titles.now asked sources.old
        sources.new (W.contents output.old.inner) (W.contents output.new.inner)
        output.old.counts output.new.counts
        (E.contents errors.old.inner) (E.contents errors.new.inner)
        errors.old.counts errors.new.counts result }
{
    let outcome = print_files(alloc, asked, sources, output);
    report(alloc, titles, signatures, sources, outcome, errors);
    status_of(sources, outcome)
}

/// Prints the lines of faults.
fn report<R: Read, E: Write>(
    alloc: Global,
    titles: &[&str],
    signatures: &[Cell<Signature>],
    sources: &[Source<R>],
    outcome: Result<(), PrintFault>,
    errors: &mut Counted<E>,
)
    ensures { (sorts : List Sort) × Tells (report_text titles.now sorts sources.now outcome)
        (E.contents errors.old.inner) (E.contents errors.new.inner)
        errors.old.counts errors.new.counts }
{
    let mut text = String::new(alloc);
    if push_report(titles, signatures, sources, outcome, &mut text).is_ok() {
        let _ = write_whole(errors, text.as_bytes());
    }
}

/// Adds the lines of faults: the one for which what was read isn't printed, or those of the files.
fn push_report<R: Read>(
    titles: &[&str],
    signatures: &[Cell<Signature>],
    sources: &[Source<R>],
    outcome: Result<(), PrintFault>,
    text: &mut String,
) -> Result<(), NoMemory>
    ensures { OnOk result ((sorts : List Sort) × (string_bytes text.new ≡ string_bytes text.old
        ++ report_text titles.now sorts sources.now outcome)) }
{
    match outcome {
        Ok(()) => push_faults(titles, signatures, sources, text),
        Err(fault) => {
            text.push_str("nbt-look: ")?;
            text.push_str(print_text(fault))?;
            text.push_str("\n")?;
            Ok(())
        }
    }
}

/// Adds the line of each file that couldn't be read to its end.
fn push_faults<R: Read>(
    titles: &[&str],
    signatures: &[Cell<Signature>],
    sources: &[Source<R>],
    text: &mut String,
) -> Result<(), NoMemory>
    ensures { OnOk result ((sorts : List Sort) × (string_bytes text.new ≡ string_bytes text.old
        ++ faults_text titles.now sorts sources.now)) }
{
    for (at, source) in sources.iter().enumerate() {
        if titles.len() <= at {
            return Ok(());
        }
        push_fault(titles[at], sort_at(signatures, at), source.waiting(), text)?;
    }
    Ok(())
}

/// What the input at a place begins with.
fn sort_at(signatures: &[Cell<Signature>], at: usize) -> Sort {
    match signatures.get(at) {
        Some(signature) => signature.get().sort(),
        None => Sort::Other,
    }
}

/// The exit status: the greatest of the files', or that of what isn't printed.
fn status_of<R: Read>(sources: &[Source<R>], outcome: Result<(), PrintFault>) -> u8
    ensures { result ≡ status_of sources.now outcome }
{
    if outcome.is_err() {
        return 3;
    }
    let mut status = 0;
    for source in sources {
        status = status.max(status_in(source.waiting()));
    }
    status
}
