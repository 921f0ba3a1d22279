//! Which call an example makes: the crate's name without `nb_`, a point, and the call's.
//!
//! A table is said as `CAPACITY LONGEST STEP ..`: its limits, and the fragments that are inserted
//! into it one after the other. A capacity is how many keys it may hold, and how many of one
//! address, as `8:2`. Between tables stands `|`.

use crate::{
    caller, comparing, definitions, events, hearing, inserting, joining, line_reading, reading,
    replays, taking,
};
use nb_examples_words::fault::ExampleFault;
use nb_examples_words::line::{Line, cut};
use nb_table::{Cover, Entry};

/// Says what a call answers.
pub fn answer(line: &mut Line<'_>, call: &str) {
    let (of, name) = cut(call, ".");
    match of {
        "table" => answer_of_tables(line, name),
        "member" => answer_of_stations(line, name),
        _ => nb_examples_packets::answer(line, of, name),
    }
}

/// Says what a call of nb_table answers.
fn answer_of_tables(line: &mut Line<'_>, call: &str) {
    match call {
        "insert" | "insert_over" | "insert_kept" | "refusals" => inserting::inserts(line, call),
        "known" => reading::known(line),
        "datagram" => reading::datagram(line),
        "save" => reading::saved(line),
        "load" => reading::loaded(line),
        "outline" => reading::outlined(line),
        "drop" => reading::dropped(line),
        "keys" => reading::keys(line),
        "write_saved" => reading::saved_to_device(line),
        "fits" => joining::fits(line),
        "merge" => joining::merged(line),
        "join" => joining::joined(line),
        "join_all" => joining::joined_all(line, false),
        "take_in" => joining::taken_in(line),
        "take_in_all" => joining::joined_all(line, true),
        "same_at" => reading::same_at(line),
        "cover" => comparing::compared::<Cover>(line),
        "entry" => comparing::compared::<Entry>(line),
        "plain" => definitions::plain(line),
        "reassembled" => caller::first_datagram(line),
        _ => line.note(ExampleFault::NoSuchCall),
    }
}

/// Says what a call of nb_member answers.
fn answer_of_stations(line: &mut Line<'_>, call: &str) {
    match call {
        "names" => hearing::held(line),
        "hears" => hearing::heard(line),
        "take" => taking::taken(line),
        "both" => taking::taken_by_both(line),
        "run" => events::run_by_one(line),
        "two" => events::run_by_two(line),
        "line" => line_reading::read(line),
        "next" => line_reading::each_line(line, false),
        "next_within" => line_reading::each_line(line, true),
        "datagram" => replays::parts(line),
        "comment" => replays::comment(line),
        "written" => replays::written(line),
        "replay" | "within" | "commented" | "over" => replays::replayed(line, call),
        _ => line.note(ExampleFault::NoSuchCall),
    }
}
