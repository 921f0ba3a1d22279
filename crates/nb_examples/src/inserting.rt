//! Fragments inserted into tables.

use crate::steps::{reads, say_change, say_fault, step_of, table_of};
use nb_datagram::Fragment;
use nb_examples_packets::fragments::bytes_in;
use nb_examples_words::line::Line;
use nb_examples_words::{asked, called};
use nb_table::{Change, Handing, Table, TableFault};

/// `insert TABLE | STEP ..`: what the inserts of the steps into the table answer. `insert_over` and
/// `insert_kept` with the same words: of fragments whose names are lent, where datagrams are handed
/// over, and where none is. `refusals`: why the table would refuse each of the steps, or `none`.
pub fn inserts(line: &mut Line<'_>, call: &str) {
    let (table, steps) = line.halves(" | ");
    let mut table = table_of(line, table);
    for step in steps.split_whitespace() {
        let bytes = bytes_in(line, step, ",");
        if let Some(fragment) = step_of(line, step, bytes.as_slice()) {
            match call {
                "refusals" => say_refusal(line, &table, &fragment),
                _ => say_insert(line, call, &mut table, &fragment),
            }
        }
    }
}

/// Says what the insert of a fragment answers, by a call.
fn say_insert(line: &mut Line<'_>, call: &str, table: &mut Table, fragment: &Fragment<'_>) {
    let answer = asked!(line, insert_by(call, table, fragment), reads(line, table));
    match answer {
        Ok(change) => say_change(line, &change),
        Err(fault) => say_fault(line, fault),
    }
}

/// What the insert of a fragment answers, by a call.
fn insert_by(call: &str, table: &mut Table, fragment: &Fragment<'_>) -> Result<Change, TableFault> {
    let handing = match call {
        "insert_over" => Handing::Over,
        "insert_kept" => Handing::Kept,
        _ => return table.insert(fragment),
    };
    let lent = fragment.lent();
    match table.insert_with(&lent, handing) {
        Ok(change) => Ok(change.made_by(&lent)),
        Err(fault) => Err(fault),
    }
}

/// Says why the table would refuse a fragment, or `none`.
fn say_refusal(line: &mut Line<'_>, table: &Table, fragment: &Fragment<'_>) {
    match called!(line, table.refusal_of(fragment)) {
        Some(fault) => say_fault(line, fault),
        None => line.then("none"),
    }
}
