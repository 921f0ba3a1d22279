//! `nbt agree`: whether two saved tables are the same.
ghost use Rattle.std.specs.Prelude.{◌≡◌, ◌≢◌, ◌⊎◌, IfOk, IfErr, ◌++◌, true, codes, OnOk, string_bytes};
ghost use Rattle.std.specs.Io.KnownBytes.{Keeps, Appends};
ghost use Rattle.std.specs.FinMap as maps;
ghost use Rattle.nb_streams.specs.declared.limits.TheConstants.{MAX_INPUT};
ghost use Rattle.nb_streams.specs.Devices.{AppendsFront};
ghost use Rattle.nb_datagram.specs.Key.{key_cmp};
ghost use Rattle.nbt_command.specs.Input.{WasCut};
ghost use Rattle.nbt_reassembly.specs.Commands.{AgreeCommand};
ghost use Rattle.nbt_command.specs.Streams.{streams};
ghost use Rattle.nbt_reassembly.specs.Tables.{CompareFails, ComparesTables, FailsOn, Tells, TellsFront, difference_text};
ghost use Rattle.nbt_command.specs.Printing.{ExplainsWrite, line};
ghost use Rattle.nbt_reassembly.specs.Differences.{differing, line_where, lines_of_keys, two_lines};
ghost use Rattle.nbt_reassembly.specs.Code.Marks.{marked, with_mark};

use crate::capacity::Capacity;
use crate::tables::{count_lines, tables_of, whole_input};
use clap::ArgMatches;
use nb_datagram::Key;
use nb_member::push_key_line;
use nb_streams::{Counted, NoMemory};
use nb_table::{State, Table};
use nbt_command::{Fault, Status, is_given, print};
use std::alloc::Global;
use std::collections::BTreeMap;
use std::io::{Read, Write};

/// `nbt agree [--list]`: reads two saved tables in hexadecimal, a line each, and prints whether
/// they are equal. Where they aren't, the status is that of refused input; with `--list` each key
/// at which they differ is printed, ascending: `1 ` and `2 ` with the line that `nbt list` prints
/// of it, or `absent`.
///
/// # Errors
///
/// [`Fault::Read`] where the input couldn't be read to its end; then [`Fault::TwoTablesWanted`] for
/// another number of lines; then, line by line, [`Fault::Line`] for one that is empty or no
/// hexadecimal, [`Fault::Load`] for one that is no saved table. [`Fault::Memory`] where memory ran
/// out. Nothing is printed then. [`Fault::Write`] where the output failed.
pub fn run_agree<R: Read, W: Write>(
    alloc: Global,
    matches: &ArgMatches<'_>,
    input: &mut Counted<R>,
    output: &mut Counted<W>,
) -> Result<Status, Fault>
    ensures { AgreeCommand matches.now (streams R.remaining W.contents
        input.old input.new output.old output.new) result }
{
    let list = is_given(matches, "list");
    let text = whole_input(alloc, input)?;
    if count_lines(text.as_slice()) != 2 {
        return Err(Fault::TwoTablesWanted);
    }
    let most_keys = Capacity {
        keys: u32::MAX,
        per_source: u32::MAX,
    };
    let tables = tables_of(alloc, text.as_slice(), most_keys)?;
    match tables.as_slice() {
        [first, second] => tell_same(alloc, list, first, second, output),
        _ => Err(Fault::TwoTablesWanted),
    }
}

/// Prints whether two tables are the same, and answers the status for it.
fn tell_same<W: Write>(
    alloc: Global,
    list: bool,
    first: &Table,
    second: &Table,
    output: &mut Counted<W>,
) -> Result<Status, Fault>
    ensures printed { IfOk result (λ status. Tells list first.now.contents second.now.contents
        status (W.contents output.old.inner) (W.contents output.new.inner)) }
    ensures status { IfOk result (λ status. status ≢ Status.BadUsage) }
    ensures fault { IfErr result (λ fault. (fault ≡ Fault.Memory) ⊎ (fault ≡ Fault.Write)) }
    ensures err { IfErr result (λ fault. fault ≢ Fault.Write →
        Keeps (W.contents output.old.inner) (W.contents output.new.inner)) }
    ensures write { IfErr result (λ fault. fault ≡ Fault.Write →
        TellsFront list first.now.contents second.now.contents
        (W.contents output.old.inner) (W.contents output.new.inner)) }
    ensures why { ExplainsWrite result output.old.counts output.new.counts }
{
    if first.same(second) {
        print(output, b"equal\n")?;
        return Ok(Status::Done);
    }
    if list {
        let lines = differences_of(alloc, first, second)?;
        print(output, lines.as_bytes())?;
    } else {
        print(output, b"different\n")?;
    }
    Ok(Status::Refused)
}

/// The lines for two tables that differ.
fn differences_of(alloc: Global, one: &Table, other: &Table) -> Result<String, NoMemory>
    ensures { IfOk result (λ lines. string_bytes lines
        ≡ difference_text true one.now.contents other.now.contents) }
{
    let keys = differing_keys(alloc, one, other)?;
    let mut lines = String::new(alloc);
    lines.push_str("different\n")?;
    for key in keys.keys() {
        push_two_lines(one, other, *key, &mut lines)?;
    }
    Ok(lines)
}

/// The keys at which two tables differ.
fn differing_keys(alloc: Global, one: &Table, other: &Table) -> Result<BTreeMap<Key, ()>, NoMemory>
    ensures { IfOk result (λ keys. maps.keys (maps.from_entries {R = key_cmp} keys.entries)
        ≡ differing one.now.contents other.now.contents) }
{
    let mut keys = BTreeMap::new(alloc);
    mark_each(&mut keys, one, one, other)?;
    mark_each(&mut keys, other, one, other)?;
    Ok(keys)
}

/// Marks those of a table's keys at which two tables differ.
fn mark_each(
    marks: &mut BTreeMap<Key, ()>,
    held: &Table,
    one: &Table,
    other: &Table,
) -> Result<(), NoMemory>
    ensures { OnOk result (maps.from_entries {R = key_cmp} marks.new.entries
        ≡ marked one.now.contents other.now.contents
        (maps.from_entries {R = key_cmp} marks.old.entries) (maps.keys held.now.contents)) }
{
    for key in held.keys() {
        if !one.same_at(other, &key) {
            marks.insert(key, ())?;
        }
    }
    Ok(())
}

/// Adds what either table has at a key.
fn push_two_lines(one: &Table, other: &Table, key: Key, text: &mut String) -> Result<(), NoMemory>
    ensures { OnOk result (string_bytes text.new
        ≡ string_bytes text.old ++ two_lines one.now.contents other.now.contents key) }
{
    text.push_str("1 ")?;
    push_held(one, key, text)?;
    text.push_str("2 ")?;
    push_held(other, key, text)
}

/// Adds the line of a key, or that it isn't held.
fn push_held(table: &Table, key: Key, text: &mut String) -> Result<(), NoMemory>
    ensures { OnOk result (string_bytes text.new ≡ string_bytes text.old
        ++ line_where table.now.contents key (maps.get table.now.contents key)) }
{
    match table.state(&key) {
        State::Absent => {
            text.push_str("absent\n")?;
            Ok(())
        }
        _ => push_key_line(table, key, text),
    }
}
