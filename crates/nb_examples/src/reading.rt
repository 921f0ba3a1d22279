//! What tables say of their keys, and tables saved and loaded.

use crate::steps::{rest_table, say_found, say_keys, say_saved, two_tables};
use nb_examples_packets::fragments::next_key;
use nb_examples_words::line::Line;
use nb_examples_words::{called, given, said};
use nb_streams::Counted;
use nb_table::{Table, load};

/// `known KEY TABLE`: what the table knows of the key, and how many runs its known bytes make up.
pub fn known(line: &mut Line<'_>) {
    let (key, table) = (next_key(line), rest_table(line));
    said!(line, says, (table.state(&key), table.run_count(&key)));
}

/// `outline KEY TABLE`: all that the table knows of the key but its bytes, and the ranges of the
/// known bytes.
pub fn outlined(line: &mut Line<'_>) {
    let (key, table) = (next_key(line), rest_table(line));
    let known = called!(line, (table.outline(&key), table.ranges(&key).count()));
    line.says(&known);
    for range in table.ranges(&key) {
        line.says(&range);
    }
}

/// `drop KEY TABLE`: what two calls of `drop_key` answer, one after the other, what the table then
/// knows of the key, and how many keys are left.
pub fn dropped(line: &mut Line<'_>) {
    let (key, mut table) = (next_key(line), rest_table(line));
    let dropped = called!(line, (table.drop_key(&key), table.drop_key(&key)));
    line.says(&dropped);
    line.says(&(table.state(&key), table.len()));
}

/// `keys TABLE`: how many keys a new table has, how many the table has, by both of its counts, and
/// what is known of these: the state, and how many runs.
pub fn keys(line: &mut Line<'_>) {
    let table = rest_table(line);
    let new = called!(line, Table::new(line.alloc(), 0, u32::MAX, 0).len());
    let counts = called!(line, (new, table.keys().count(), table.len()));
    line.says(&counts);
    say_keys(line, &table);
}

/// `same_at KEY TABLE | TABLE`: whether both tables have the same at the key, asked of either.
pub fn same_at(line: &mut Line<'_>) {
    let key = next_key(line);
    let (one, other) = two_tables(line);
    let same = called!(line, (one.same_at(&other, &key), other.same_at(&one, &key)));
    line.says(&same);
}

/// `write_saved DEVICE TABLE`: whether the digits of the bytes that the table is saved as are
/// written, and the digits that the device has taken, as bytes.
pub fn saved_to_device(line: &mut Line<'_>) {
    let (conduct, table) = (line.conduct(), rest_table(line));
    let mut sink = line.sink(conduct);
    said!(
        line,
        answers,
        table.write_saved(&mut Counted::new(&mut sink))
    );
    line.then("");
    line.say_lines(sink.taken());
}

/// `datagram KEY TABLE`: the key's datagram, `KIND KEY SOURCE DESTINATION BYTES`, or `none`.
pub fn datagram(line: &mut Line<'_>) {
    let (key, table) = (next_key(line), rest_table(line));
    let found = given!(line, table.datagram(&key));
    say_found(line, &found);
}

/// `save TABLE`: the bytes that the table is saved as.
pub fn saved(line: &mut Line<'_>) {
    let table = rest_table(line);
    said!(line, gives, table.save());
}

/// `load CAPACITY LONGEST BYTES`: what the table that is loaded from the bytes with these limits is
/// saved as again, or why there is none.
pub fn loaded(line: &mut Line<'_>) {
    let (keys, per_source) = line.capacity();
    let (longest, bytes) = (line.number(), line.bytes());
    let (alloc, bytes) = (line.alloc(), bytes.as_slice());
    let table = given!(line, load(alloc, bytes, keys, per_source, longest));
    say_saved(line, &table);
}
