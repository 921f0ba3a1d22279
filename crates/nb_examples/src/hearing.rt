//! The names of a station: added, asked for, and what it hears by them.

use crate::stations::names_of;
use nb_examples_packets::datagrams::datagram_of;
use nb_examples_words::line::Line;
use nb_examples_words::{asked, said};
use nb_member::LocalNames;
use nb_names::Name;

/// `names STATION STEP, STEP ..`: what is answered as names are added to those of a station, and
/// where it is asked for some.
///
/// `add NAME` adds a name, and `holds NAME` asks for a name, and for one of its scope.
pub fn held(line: &mut Line<'_>) {
    let station = line.word();
    let mut names = names_of(line, station);
    for step in line.rest().split(", ") {
        let before = line.enter(step, " ");
        say_step(line, &mut names);
        line.leave(before);
    }
}

/// Says what is answered to the next words.
fn say_step(line: &mut Line<'_>, names: &mut LocalNames) {
    let (is_added, name) = (line.is_word("add", "holds"), line.name());
    match is_added {
        true => add(line, names, &name),
        false => said!(line, says, holds(names, &name)),
    }
}

/// Adds a name, and says what was answered.
fn add(line: &mut Line<'_>, names: &mut LocalNames, name: &Name) {
    let answer = asked!(line, names.add(name.copied()), holds(names, name));
    line.answers(&answer);
}

/// Whether names hold one, and one of its scope.
fn holds(names: &LocalNames, name: &Name) -> (bool, bool) {
    (names.holds(name), names.holds_scope(name.scope()))
}

/// `hears STATION DATAGRAM`: whether a station hears a datagram.
pub fn heard(line: &mut Line<'_>) {
    let station = line.word();
    let names = names_of(line, station);
    if let Some(datagram) = datagram_of(line) {
        said!(line, says, names.hears(&datagram));
    }
}
