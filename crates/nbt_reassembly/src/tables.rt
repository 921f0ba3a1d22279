//! The tables that an input has: a line for each, saved, in hexadecimal.
ghost use Rattle.std.specs.Prelude.{◌≡◌, ◌≢◌, ◌<◌, ◌≤◌, ℕ, List, [], ◌∷◌, length, IfOk, IfErr, IfSome, IfNone, OnOk};
ghost use Rattle.std.specs.Io.KnownBytes.{Consumes, IsAtEnd};
ghost use Rattle.nb_streams.specs.declared.limits.TheConstants.{MAX_INPUT};
ghost use Rattle.nb_streams.specs.Lines.{HasLines};
ghost use Rattle.nb_table.specs.Join.{join, joined_all, AreTaken};
ghost use Rattle.nb_table.specs.Merging.{Fits};
ghost use Rattle.nbt_command.specs.Input.{WasCut};
ghost use Rattle.nbt_command.specs.Printing.{ExplainsWrite, PrintsText};
ghost use Rattle.nbt_reassembly.specs.Saving.{saved_line};
ghost use Rattle.nbt_reassembly.specs.Tables.{AreTables, IsElsewhere, IsTableFault, IsTableLine, TablesFail, contents_of, JoinFails, MergeStops, MergesTables};
ghost use Rattle.nbt_reassembly.specs.Capacity.{IsCapacity};

use crate::capacity::{Capacity, LONGEST, capacity_of};
use clap::ArgMatches;
use nb_streams::input::read_input;
use nb_streams::lines::split_line;
use nb_streams::{Counted, DigitsFault, bytes_of_digits};
use nb_table::{LoadFault, Table, TableFault, load, take_in_all};
use nbt_command::{Fault, print};
use std::alloc::Global;
use std::io::{Read, Write};

/// The whole input.
pub fn whole_input<R: Read>(alloc: Global, input: &mut Counted<R>) -> Result<Vec<u8>, Fault>
    ensures read { IfOk result (λ bytes. Consumes (R.remaining input.old.inner)
        (R.remaining input.new.inner) bytes.items) }
    ensures ended { IfOk result (λ _. IsAtEnd (R.remaining input.new.inner)) }
    ensures within { IfOk result (λ bytes. length bytes.items ≤ MAX_INPUT) }
    ensures elsewhere { IfErr result IsElsewhere }
    ensures fault { IfErr result (λ fault. fault ≢ Fault.Write) }
    ensures cut { IfErr result (λ fault. fault ≡ Fault.Read →
        WasCut MAX_INPUT (R.remaining input.old.inner) (R.remaining input.new.inner)
        input.old.counts input.new.counts) }
{
    let input = read_input(alloc, input)?;
    if input.is_whole {
        Ok(input.bytes)
    } else {
        Err(Fault::Read)
    }
}

/// How many lines a text has; the last may lack its line feed.
pub fn count_lines(text: &[u8]) -> usize
    ensures { (lines : List (List ℕ)) × HasLines text.now lines × (result ≡ length lines) }
{
    let mut rest = text;
    let mut count = 0;
    while let Some((_, after)) = first_line(rest) {
        count += 1;
        rest = after;
    }
    count
}

/// The tables that the lines of a text are, in order; each may hold so much.
pub fn tables_of(alloc: Global, text: &[u8], capacity: Capacity) -> Result<Vec<Table>, Fault>
    ensures found { IfOk result (λ tables. AreTables capacity text.now tables.items) }
    ensures fault { IfErr result (λ fault. fault ≢ Fault.Memory →
        TablesFail capacity text.now fault) }
    ensures no_read { IfErr result (λ fault. fault ≢ Fault.Read) }
    ensures no_write { IfErr result (λ fault. fault ≢ Fault.Write) }
{
    let mut tables = Vec::new(alloc);
    let mut rest = text;
    let mut number = 0;
    while let Some((line, after)) = first_line(rest) {
        number += 1;
        let table = table_of(alloc, number, line, capacity)?;
        tables.push(table)?;
        rest = after;
    }
    Ok(tables)
}

/// The first line, without its line feed, which it may lack, and what follows it, if there is one.
fn first_line(text: &[u8]) -> Option<(&[u8], &[u8])>
    ensures found { IfSome result (λ parts. (lines : List (List ℕ)) →
        HasLines parts.1.now lines → HasLines text.now (parts.0.now ∷ lines)) }
    ensures shorter { IfSome result (λ parts. length parts.1.now < length text.now) }
    ensures none { IfNone result (text.now ≡ []) }
{
    if text.is_empty() {
        return None;
    }
    match split_line(text) {
        Some(parts) => Some(parts),
        None => Some((text, &[])),
    }
}

/// The table that line `number` is.
fn table_of(alloc: Global, number: u64, line: &[u8], capacity: Capacity) -> Result<Table, Fault>
    ensures found { IfOk result (λ table. IsTableLine capacity line.now table) }
    ensures fault { IfErr result (IsTableFault capacity number line.now) }
    ensures no_read { IfErr result (λ fault. fault ≢ Fault.Read) }
    ensures no_write { IfErr result (λ fault. fault ≢ Fault.Write) }
{
    if line.is_empty() {
        return Err(Fault::Line(number));
    }
    let bytes = match bytes_of_digits(alloc, line) {
        Ok(bytes) => bytes,
        Err(DigitsFault::NoMemory) => return Err(Fault::Memory),
        Err(DigitsFault::BadDigits) => return Err(Fault::Line(number)),
    };
    let Capacity { keys, per_source } = capacity;
    match load(alloc, bytes.as_slice(), keys, per_source, LONGEST) {
        Ok(table) => Ok(table),
        Err(LoadFault::NoMemory) => Err(Fault::Memory),
        Err(fault) => Err(Fault::Load(fault)),
    }
}

/// The join of the tables of an input; each may hold as much as `--keys` and `--per-source` say.
pub fn joined_input<R: Read>(
    alloc: Global,
    matches: &ArgMatches<'_>,
    input: &mut Counted<R>,
) -> Result<Table, Fault>
    ensures joined { IfOk result (λ table. MergesTables (IsCapacity matches.now)
        (λ contents. contents ≡ table.contents)
        (R.remaining input.old.inner) (R.remaining input.new.inner)) }
    ensures fault { IfErr result (MergeStops (IsCapacity matches.now)
        (R.remaining input.old.inner) (R.remaining input.new.inner)) }
    ensures no_write { IfErr result (λ fault. fault ≢ Fault.Write) }
    ensures cut { IfErr result (λ fault. fault ≡ Fault.Read →
        WasCut MAX_INPUT (R.remaining input.old.inner) (R.remaining input.new.inner)
        input.old.counts input.new.counts) }
{
    let capacity = capacity_of(matches)?;
    let text = whole_input(alloc, input)?;
    let mut tables = tables_of(alloc, text.as_slice(), capacity)?;
    if tables.is_empty() {
        return Err(Fault::NoTables);
    }
    let mut first = tables.remove(0);
    join_tables(&mut first, tables)?;
    Ok(first)
}

/// Joins the other tables to the first.
fn join_tables(first: &mut Table, others: Vec<Table>) -> Result<(), Fault>
    ensures joined { OnOk result (first.new.contents
        ≡ joined_all join first.old.contents (contents_of others.items)) }
    ensures taken { OnOk result (AreTaken join (Fits first.old.limits)
        first.old.contents (contents_of others.items)) }
    ensures fault { IfErr result (JoinFails first.old others.items) }
    ensures no_read { IfErr result (λ fault. fault ≢ Fault.Read) }
    ensures no_write { IfErr result (λ fault. fault ≢ Fault.Write) }
{
    match take_in_all(first, others) {
        Ok(()) => Ok(()),
        Err((_, TableFault::FullSource(_))) => Err(Fault::FullSource),
        Err((_, TableFault::Full(_))) => Err(Fault::Full),
        Err((_, TableFault::NoMemory)) => Err(Fault::Memory),
        Err((_, TableFault::TooLong)) => Err(Fault::TooLong),
        Err((_, TableFault::MisplacedFirst)) => Err(Fault::TooLong),
    }
}

/// Writes a table as it is saved, in hexadecimal, as a line. No memory is taken.
pub fn print_saved<W: Write>(output: &mut Counted<W>, table: &Table) -> Result<(), Fault>
    ensures prints { PrintsText (saved_line table.now.contents)
        (W.contents output.old.inner) (W.contents output.new.inner) result }
    ensures fault { IfErr result (λ fault. fault ≡ Fault.Write) }
    ensures why { ExplainsWrite result output.old.counts output.new.counts }
{
    match table.write_saved(output) {
        Ok(()) => print(output, &[b'\n']),
        Err(_) => Err(Fault::Write),
    }
}
