//! Packets of port 138, as they are said, and datagrams as words say them.

use crate::fragments::{next_key, next_kind, say_fragment};
use nb_datagram::{Datagram, Packet, TooLong, decode, decode_lent, read_front};
use nb_examples_words::line::Line;
use nb_examples_words::{called, given};
use nb_streams::Bytes;

/// `decode BYTES`: the packet at the front, and how many bytes it takes up.
///
/// A fragment is `KIND FLAGS KEY OFFSET SOURCE DESTINATION BYTES`, where the kind is `unique`,
/// `group` or `broadcast`; another packet is as `Debug` prints it.
pub fn decoded(line: &mut Line<'_>) {
    let bytes = line.bytes();
    let (packet, used) = given!(line, decode(bytes.as_slice()));
    say_decoded(line, &packet, used);
}

/// `decode_lent BYTES`: the same of a packet whose names are lent, too, and that is then made.
pub fn decoded_lent(line: &mut Line<'_>) {
    let bytes = line.bytes();
    let (packet, used) = given!(line, decode_lent(bytes.as_slice()));
    say_decoded(line, &packet.to_packet(), used);
}

/// Says a packet, and how many bytes it takes up.
fn say_decoded(line: &mut Line<'_>, packet: &Packet<'_>, used: usize) {
    match packet {
        Packet::Direct(fragment) => say_fragment(line, fragment),
        Packet::Error(error) => line.says(error),
        Packet::Query(query) => line.says(query),
    }
    line.says(&used);
}

/// `front BYTES`: what stands at the front, whether or not a packet does: MSG_TYPE, FLAGS and the
/// key, and of a fragment its offset and the names that stand whole; `none` where the header isn't
/// whole.
pub fn front(line: &mut Line<'_>) {
    let bytes = line.bytes();
    let front = called!(line, read_front(bytes.as_slice()));
    let Some(front) = front else {
        return line.say("none");
    };
    line.says(&(front.message_type, front.flags, front.key));
    if let Some(fragment) = &front.fragment {
        line.says(&(fragment.offset, &fragment.source, &fragment.destination));
    }
}

/// The datagram that the next words say: `KIND KEY SOURCE DESTINATION BYTES`.
pub fn datagram_of(line: &mut Line<'_>) -> Option<Datagram> {
    let datagram = next_datagram(line).ok();
    if datagram.is_none() {
        line.bad_words();
    }
    datagram
}

/// The datagram that the next words say, made between marks, or why there is none.
pub fn next_datagram(line: &mut Line<'_>) -> Result<Datagram, TooLong> {
    let (kind, key) = (next_kind(line), next_key(line));
    let (source, destination) = (line.name(), line.name());
    let data = Bytes::from_vec(line.bytes());
    called!(line, Datagram::new(key, kind, source, destination, data))
}
