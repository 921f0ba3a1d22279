//! Names: as packets have them, and as text.

use crate::labels::scope_of;
use nb_examples_words::line::Line;
use nb_examples_words::{called, said};
use nb_names::{Name, NameReader, Pointers, name_from_text, name_text, read_domain, read_name};

/// The next word, as what is done at pointers: `followed` or `refused`.
pub fn pointers(line: &mut Line<'_>) -> Pointers {
    match line.is_word("followed", "refused") {
        true => Pointers::Followed,
        false => Pointers::Refused,
    }
}

/// `read_domain POINTERS AT BYTES`: the domain name at an offset, and the offset after it.
pub fn domain_read(line: &mut Line<'_>) {
    let (pointers, at, packet) = (pointers(line), line.number(), line.bytes());
    said!(line, answers, read_domain(packet.as_slice(), at, pointers));
}

/// `read_name POINTERS AT BYTES`: the NetBIOS name at an offset, and the offset after it.
pub fn name_read(line: &mut Line<'_>) {
    let (pointers, at, packet) = (pointers(line), line.number(), line.bytes());
    said!(line, answers, read_name(packet.as_slice(), at, pointers));
}

/// `reader POINTERS AT ROOM BYTES`: as `read_domain`, by a reader with room for the ends of so many
/// offsets; and what it says of the name where that is judged alone: then its spelling, if it is
/// lent from the packet, and the name once more.
pub fn by_reader(line: &mut Line<'_>) {
    let (pointers, at) = (pointers(line), line.number());
    let (mut room, packet) = (ends_room(line), line.bytes());
    let reader = NameReader::of(packet.as_slice(), room.as_mut_slice());
    said!(line, answers, reader.read_domain(at, pointers));
    let judged = called!(line, reader.skip_domain(at, pointers));
    line.answers(&judged);
    if let Ok(seen) = judged {
        let lent = called!(line, reader.lent_at(at, pointers, &seen));
        line.says(&lent.map(|name| name.spelling()));
        said!(line, says, reader.domain_at(at, pointers, &seen));
    }
}

/// A room of as many ends as the next word says.
fn ends_room(line: &mut Line<'_>) -> Vec<u16> {
    let count: u32 = line.number();
    let mut room = Vec::new(line.alloc());
    for _ in 0..count {
        line.push(&mut room, 0);
    }
    room
}

/// `from_text TEXT`: the name that the text stands for, which may have spaces.
pub fn of_text(line: &mut Line<'_>) {
    said!(line, answers, name_from_text(line.rest()));
}

/// `from_bytes BYTES`: as `from_text`, of the text whose UTF-8 these bytes are.
pub fn of_bytes(line: &mut Line<'_>) {
    let bytes = line.bytes();
    let Ok(text) = std::str::from_utf8(bytes.as_slice()) else {
        return line.bad_words();
    };
    said!(line, answers, name_from_text(text));
}

/// `name_text BYTES LABEL ..`: the text of a name of sixteen bytes, in the scope of these labels.
pub fn written(line: &mut Line<'_>) {
    let bytes = sixteen_bytes(line);
    let name = Name::new(bytes, scope_of(line));
    said!(line, tells, name_text(line.alloc(), &name));
}

/// The next word, as the sixteen bytes of a name.
fn sixteen_bytes(line: &mut Line<'_>) -> [u8; 16] {
    let word = line.bytes();
    let mut bytes = [0; 16];
    match word.len() == bytes.len() {
        true => bytes.copy_from_slice(word.as_slice()),
        false => line.bad_words(),
    }
    bytes
}

/// `order TYPE WORD WORD`: how two names, scopes or domain names are ordered, whether the first is
/// below, and whether they are equal. A name, and the scope of a name, is a word of its text; a
/// domain name is its spelling.
pub fn ordered(line: &mut Line<'_>) {
    let what = line.word();
    if what == "domain" {
        let (first, second) = (line.domain(), line.domain());
        return say_order(line, &first, &second);
    }
    let (first, second) = (line.name(), line.name());
    match what {
        "name" => say_order(line, &first, &second),
        "scope" => say_order(line, first.scope(), second.scope()),
        _ => line.bad_words(),
    }
}

/// Says how two values are ordered, and whether they are equal.
fn say_order<T: Ord>(line: &mut Line<'_>, first: &T, second: &T) {
    let order = called!(line, (first.cmp(second), first < second, first == second));
    line.says(&order);
}
