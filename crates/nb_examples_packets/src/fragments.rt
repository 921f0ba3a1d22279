//! Fragments of datagrams, keys and kinds, as words say them and as they are said.

use nb_datagram::{Datagram, Fragment, Key, Kind, TooLong, kind_name};
use nb_examples_words::line::Line;
use nb_examples_words::{called, given, said};
use nb_names::Name;

/// The bytes of a fragment that a text says: its last word.
pub fn bytes_in(line: &mut Line<'_>, text: &str, between: &str) -> Vec<u8> {
    line.bytes_of(text.split(between).last().unwrap_or(text))
}

/// The fragment that a text says, `KIND FLAGS KEY OFFSET SOURCE DESTINATION BYTES`, which lends
/// these bytes.
pub fn fragment_in<'a, 'b>(
    line: &mut Line<'a>,
    text: &'a str,
    between: &'a str,
    bytes: &'b [u8],
) -> Result<Fragment<'b>, TooLong> {
    let before = line.enter(text, between);
    let (kind, flags, key) = (next_kind(line), line.hex_8(), next_key(line));
    let (offset, source, target) = (line.number(), line.name(), line.name());
    line.word();
    line.leave(before);
    Fragment::new(kind, flags, key, offset, source, target, bytes)
}

/// The next word, as a key: `10.0.0.5:138/0001`.
pub fn next_key(line: &mut Line<'_>) -> Key {
    let word = line.word();
    let before = line.enter(word, "/");
    let (ip, port) = line.ends();
    let id = line.hex_16();
    line.leave(before);
    Key { ip, port, id }
}

/// The next word, as a kind.
pub fn next_kind(line: &mut Line<'_>) -> Kind {
    match line.word() {
        "unique" => return Kind::Unique,
        "group" => return Kind::Group,
        "broadcast" => {}
        _ => line.bad_words(),
    }
    Kind::Broadcast
}

/// Says a key after a text: `10.0.0.5:138/0001`.
pub fn say_key(line: &mut Line<'_>, lead: &str, key: Key) {
    let [a, b, c, d] = key.ip;
    let (port, id) = (key.port, key.id);
    line.say(lead);
    write!(line, "{a}.{b}.{c}.{d}:{port}/{id:04x}");
}

/// Says the sender's name, the receiver's and the data.
fn say_rest(line: &mut Line<'_>, source: &Name, target: &Name, bytes: &[u8]) {
    line.say_name(" ", source);
    line.say_name(" ", target);
    line.say(" ");
    line.say_bytes(bytes);
}

/// Says a fragment: `KIND FLAGS KEY OFFSET SOURCE DESTINATION BYTES`. Its parts are read between
/// marks.
pub fn say_fragment(line: &mut Line<'_>, fragment: &Fragment<'_>) {
    let (kind, flags) = called!(line, (fragment.kind(), fragment.flags()));
    let (key, offset) = called!(line, (fragment.key(), fragment.offset()));
    let (source, target) = called!(line, (fragment.source(), fragment.destination()));
    let bytes = called!(line, fragment.bytes());
    line.say(kind_name(kind));
    write!(line, " {flags:02x}");
    say_key(line, " ", key);
    write!(line, " {offset}");
    say_rest(line, source, target, bytes);
}

/// Says a datagram: `KIND KEY SOURCE DESTINATION BYTES`. Its parts are read between marks.
pub fn say_datagram(line: &mut Line<'_>, datagram: &Datagram) {
    let (kind, key) = called!(line, (datagram.kind(), datagram.key()));
    let (source, target) = called!(line, (datagram.source(), datagram.destination()));
    let bytes = called!(line, datagram.bytes());
    line.say(kind_name(kind));
    say_key(line, " ", key);
    say_rest(line, source, target, bytes);
}

/// `parts FRAGMENT`: the parts of a fragment, whether it is the first one, whether more follow, and
/// the place after its last byte; or why there is no such fragment.
pub fn parts(line: &mut Line<'_>) {
    let text = line.rest();
    let bytes = bytes_in(line, text, " ");
    let made = given!(line, fragment_in(line, text, " ", bytes.as_slice()));
    say_fragment(line, &made);
    said!(line, says, (made.is_first(), made.has_more(), made.reach()));
}
