//! Stations as words: `NAMES/CAPACITY/LONGEST/ADDRESS`, which are its names, joined by `,`, or
//! `none`, how many keys it may hold, and of one address, as `8:2`, how many bytes a datagram may
//! have, and its address and port, as `10.0.0.9:138`.

use nb_examples_words::called;
use nb_examples_words::line::{Line, cut};
use nb_member::{LocalNames, Member, Settings};
use nb_names::name_from_text;

/// A new member, from its word.
pub fn member_of<'a>(line: &mut Line<'a>, station: &'a str) -> Member {
    let settings = settings_of(line, station);
    let names = names_of(line, station);
    called!(line, Member::new(line.alloc(), settings, names))
}

/// The settings of a station.
pub fn settings_of<'a>(line: &mut Line<'a>, station: &'a str) -> Settings {
    let before = line.enter(station, "/");
    line.word();
    let (keys, per_source) = line.capacity();
    let longest = line.number();
    let (ip, port) = line.ends();
    line.leave(before);
    Settings {
        ip,
        port,
        keys,
        per_source,
        longest,
    }
}

/// The names of a station.
pub fn names_of(line: &mut Line<'_>, station: &str) -> LocalNames {
    let (listed, _) = cut(station, "/");
    let mut names = called!(line, LocalNames::new(line.alloc()));
    if listed != "none" {
        for text in listed.split(",") {
            add_unmarked(line, &mut names, text);
        }
    }
    names
}

/// Adds the name of a text to others.
fn add_unmarked(line: &mut Line<'_>, names: &mut LocalNames, text: &str) {
    let Ok(name) = name_from_text(text) else {
        return line.bad_words();
    };
    if names.add(name).is_err() {
        line.no_memory();
    }
}
