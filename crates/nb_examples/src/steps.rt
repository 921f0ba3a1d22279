//! Steps: fragments in one word, and tables made of them.

use nb_datagram::{Datagram, Fragment};
use nb_examples_packets::fragments::{bytes_in, fragment_in, say_datagram, say_key};
use nb_examples_words::line::Line;
use nb_table::{Change, Table, TableFault};

/// The fragment that a step says, `KIND,FLAGS,KEY,OFFSET,SOURCE,DESTINATION,BYTES`, which lends its
/// bytes.
pub fn step_of<'a, 'b>(
    line: &mut Line<'a>,
    step: &'a str,
    bytes: &'b [u8],
) -> Option<Fragment<'b>> {
    let fragment = fragment_in(line, step, ",", bytes).ok();
    if fragment.is_none() {
        line.bad_words();
    }
    fragment
}

/// The table of all words that are left, `CAPACITY LONGEST STEP ..`. A step that it refuses changes
/// nothing.
pub fn rest_table(line: &mut Line<'_>) -> Table {
    let (keys, per_source) = line.capacity();
    let longest = line.number();
    let mut table = Table::new(line.alloc(), keys, per_source, longest);
    for step in line.rest().split_whitespace() {
        let bytes = bytes_in(line, step, ",");
        if let Some(fragment) = step_of(line, step, bytes.as_slice()) {
            if let Err(TableFault::NoMemory) = table.insert(&fragment) {
                line.no_memory();
            }
        }
    }
    table
}

/// The table of a text.
pub fn table_of<'a>(line: &mut Line<'a>, text: &'a str) -> Table {
    let before = line.enter(text, " ");
    let table = rest_table(line);
    line.leave(before);
    table
}

/// The two tables of `TABLE | TABLE`.
pub fn two_tables(line: &mut Line<'_>) -> (Table, Table) {
    let (one, other) = line.halves(" | ");
    let one = table_of(line, one);
    (one, table_of(line, other))
}

/// Says a change: its word, and the datagram where there is one.
pub fn say_change(line: &mut Line<'_>, change: &Change) {
    match change {
        Change::Spoilt => line.then("spoilt"),
        Change::Same => line.then("same"),
        Change::Grown => line.then("grown"),
        Change::Whole(datagram) => {
            line.then("whole ");
            say_datagram(line, datagram);
        }
    }
}

/// Says a fault, with the key where there is one.
pub fn say_fault(line: &mut Line<'_>, fault: TableFault) {
    line.refuses(&fault);
    if let TableFault::FullSource(key) | TableFault::Full(key) = fault {
        say_key(line, " ", key);
    }
}

/// Says the datagram that was found, or `none`.
pub fn say_found(line: &mut Line<'_>, found: &Option<Datagram>) {
    line.then("");
    match found {
        Some(datagram) => say_datagram(line, datagram),
        None => line.say("none"),
    }
}

/// Says the bytes that a table is saved as.
pub fn say_saved(line: &mut Line<'_>, table: &Table) {
    line.gives(&table.save());
}

/// All that a table answers, as text: the bytes that it is saved as, how many keys it has, and what
/// is known of each.
pub fn reads(line: &mut Line<'_>, table: &Table) -> String {
    let before = line.aside();
    say_saved(line, table);
    line.says(&table.len());
    say_keys(line, table);
    line.back_to(before)
}

/// Says what a table knows of each of its keys: its state, and how many runs.
pub fn say_keys(line: &mut Line<'_>, table: &Table) {
    for key in table.keys() {
        line.says(&(key, table.state(&key), table.run_count(&key)));
    }
}
