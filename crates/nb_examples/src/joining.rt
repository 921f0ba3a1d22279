//! Tables merged and joined.

use crate::steps::{reads, say_fault, say_saved, table_of, two_tables};
use nb_datagram::Datagram;
use nb_examples_packets::fragments::say_datagram;
use nb_examples_words::line::Line;
use nb_examples_words::{asked, called, said};
use nb_table::{Join, Table, TableFault, join_all, take_in_all};

/// `fits TABLE | TABLE`: whether both tables have the same contents, and whether the first takes in
/// the second.
pub fn fits(line: &mut Line<'_>) {
    let (one, other) = two_tables(line);
    said!(line, says, (one.same(&other), one.fits(&other)));
}

/// `merge TABLE | TABLE ..`: what the first table hands over as it merges each of the others, one
/// after the other.
pub fn merged(line: &mut Line<'_>) {
    let (first, others) = line.halves(" | ");
    let mut table = table_of(line, first);
    for other in others.split(" | ") {
        let other = table_of(line, other);
        merge(line, &mut table, &other);
    }
}

/// Merges a table into another, and says what was answered.
fn merge(line: &mut Line<'_>, table: &mut Table, other: &Table) {
    let answer = asked!(line, table.merge(other), reads(line, table));
    match answer {
        Ok(datagrams) => say_datagrams(line, datagrams.as_slice()),
        Err(fault) => say_fault(line, fault),
    }
}

/// Says how many datagrams there are, and each of them.
fn say_datagrams(line: &mut Line<'_>, datagrams: &[Datagram]) {
    line.says(&datagrams.len());
    for datagram in datagrams {
        line.then("");
        say_datagram(line, datagram);
    }
}

/// `join TABLE | TABLE`: whether the second is joined into the first, or why it isn't; and then
/// what the first is saved as.
pub fn joined(line: &mut Line<'_>) {
    let (mut table, other) = two_tables(line);
    let answer = asked!(line, table.join(&other), reads(line, &table));
    say_joined(line, answer);
    say_saved(line, &table);
}

/// Says what the join of a table answered.
fn say_joined(line: &mut Line<'_>, answer: Result<(), TableFault>) {
    match answer {
        Ok(()) => line.then("joined"),
        Err(fault) => say_fault(line, fault),
    }
}

/// `take_in TABLE | TABLE`: whether the first takes the second in, or why it doesn't; and then what
/// the first is saved as. Where memory runs out, it takes in an equal one.
pub fn taken_in(line: &mut Line<'_>) {
    let (first, second) = line.halves(" | ");
    let mut table = table_of(line, first);
    let other = table_of(line, second);
    let before = reads(line, &table);
    let mut answer = called!(line, table.take_in(other));
    if let Err(TableFault::NoMemory) = answer {
        let after = reads(line, &table);
        line.again(after == before);
        let other = table_of(line, second);
        answer = table.take_in(other);
    }
    say_joined(line, answer);
    say_saved(line, &table);
}

/// `join_all TABLE | TABLE ..`: whether the others are joined into the first, else the place of the
/// first one that isn't, and why; and then what the first is saved as. `take_in_all` with the same
/// words: the same of tables that are taken in. Where memory runs out it has to hold those in front
/// of the place that was answered.
pub fn joined_all(line: &mut Line<'_>, is_taken_in: bool) {
    let (first, others) = line.halves(" | ");
    let mut table = table_of(line, first);
    let tables = tables_of(line, others);
    let mut answer = called!(line, put_all(is_taken_in, &mut table, tables));
    if let Err((place, TableFault::NoMemory)) = answer {
        let tables = tables_of(line, others);
        let front = tables.as_slice().get(..place).unwrap_or(&[]);
        let is_same = has_front(line, first, front, &table);
        line.again(is_same);
        answer = put_all(is_taken_in, &mut table, tables);
    }
    match answer {
        Ok(()) => line.then("joined"),
        Err((place, fault)) => {
            line.says(&place);
            say_fault(line, fault);
        }
    }
    say_saved(line, &table);
}

/// Joins tables into one, by one of both calls.
fn put_all(
    is_taken_in: bool,
    table: &mut Table,
    others: Vec<Table>,
) -> Result<(), (usize, TableFault)> {
    match is_taken_in {
        true => take_in_all(table, others),
        false => join_all(table, others.as_slice()),
    }
}

/// The tables of a text.
fn tables_of<'a>(line: &mut Line<'a>, text: &'a str) -> Vec<Table> {
    let mut tables = Vec::new(line.alloc());
    for part in text.split(" | ") {
        let table = table_of(line, part);
        line.push(&mut tables, table);
    }
    tables
}

/// Whether a table is that of a text, joined with those of the front.
fn has_front<'a>(line: &mut Line<'a>, first: &'a str, front: &[Table], table: &Table) -> bool {
    let mut expected = table_of(line, first);
    if join_all(&mut expected, front).is_err() {
        line.no_memory();
    }
    reads(line, table) == reads(line, &expected)
}
