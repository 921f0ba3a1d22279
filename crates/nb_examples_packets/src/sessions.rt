//! Packets of port 139: parsed, and read from a device.

use crate::streams::lacks;
use nb_examples_words::devices::{Source, WILLING};
use nb_examples_words::line::Line;
use nb_examples_words::{called, said};
use nb_session::{
    Kind, MessageData, Packet, Parsed, ReadFault, Room, Stream, encode, front_header, parse,
    parse_lent, read_packet,
};
use nb_streams::Counted;

/// `parse BYTES`: the packet at the front, and how many bytes it takes up; and whether the same
/// stands there with its names lent, where it doesn't.
pub fn parsed(line: &mut Line<'_>) {
    let bytes = line.bytes();
    let answer = called!(line, parse(bytes.as_slice()));
    if parse_lent(bytes.as_slice()).to_parsed() != answer {
        line.say("not as lent, ");
    }
    line.says(&answer);
}

/// `same BYTES BYTES`: whether the same stands at the front of both, with names in place and lent.
pub fn same(line: &mut Line<'_>) {
    let (first, second) = (line.bytes(), line.bytes());
    let (first, second) = (first.as_slice(), second.as_slice());
    let is_same_lent = parse_lent(first) == parse_lent(second);
    line.says(&(parse(first) == parse(second), is_same_lent));
}

/// `debug BYTES`: what stands at the front, with names lent.
pub fn debug(line: &mut Line<'_>) {
    let bytes = line.bytes();
    line.says(&parse_lent(bytes.as_slice()));
}

/// `fronts BYTES`: what each front of a packet comes to that is shorter than it, and how long it
/// is, but for one that lacks a byte less than the one before.
pub fn fronts(line: &mut Line<'_>) {
    let bytes = line.bytes();
    let mut before = 0;
    for count in 0..bytes.len() {
        let front = bytes.as_slice().get(..count).unwrap_or(&[]);
        let lacking = match parse(front) {
            Parsed::More(needed) => needed,
            _ => 0,
        };
        if lacking.saturating_add(1) != before {
            line.says(&(lacking, count));
        }
        before = lacking;
    }
}

/// `again BYTES`: the bytes of the packet at the front, encoded.
pub fn encoded_again(line: &mut Line<'_>) {
    let bytes = line.bytes();
    match parse(bytes.as_slice()) {
        Parsed::Whole(packet, _) => said!(line, gives, encode(line.alloc(), &packet)),
        _ => line.bad_words(),
    }
}

/// `kind TYPE LENGTH`: the kind with this type, its type again, and whether its body may have so
/// many bytes; or `none`.
pub fn kind(line: &mut Line<'_>) {
    let (packet_type, length) = (line.hex_8(), line.number());
    match Kind::of_type(packet_type) {
        Some(kind) => line.says(&(kind, kind.packet_type(), kind.may_have(length))),
        None => line.say("none"),
    }
}

/// `new BYTES`: the length of a message of these, or why there is none, how many bytes a new stream
/// needs, and how many a new room holds.
pub fn made_new(line: &mut Line<'_>) {
    let bytes = line.bytes();
    let message = called!(line, MessageData::new(bytes.as_slice()));
    match message {
        Ok(message) => line.says(&message.bytes().len()),
        Err(fault) => line.refuses(&fault),
    }
    let needed = called!(line, lacks(&mut Stream::new(line.alloc())));
    let room = called!(line, Room::new(line.alloc()));
    line.says(&(needed, room.as_slice().len()));
}

/// `header BYTES`: the header at the front, and the length of the body, where it is there whole.
pub fn header(line: &mut Line<'_>) {
    let bytes = line.bytes();
    let answer = called!(line, front_header(bytes.as_slice()));
    line.says(&answer);
    if let Some(header) = answer {
        line.says(&header.body_length());
    }
}

/// `read MOST INTERRUPTS FAILING BYTES`: the packets that are read from a device, up to its end or
/// the first fault, and how many bytes are left then. The room is then used once more.
pub fn read(line: &mut Line<'_>) {
    let (conduct, bytes) = (line.conduct(), line.bytes());
    let mut source = Source::new(bytes.as_slice(), conduct);
    let mut room = Room::new(line.alloc());
    for _ in 0..=bytes.len() {
        if !is_packet(line, &mut source, &mut room) {
            break;
        }
    }
    line.says(&source.left().len());
    if !reads_a_keepalive(&mut room) {
        line.then("the room is spent");
    }
}

/// Whether a keepalive can be read in a room, and is what the room then holds.
fn reads_a_keepalive(room: &mut Room) -> bool {
    let keepalive = b"\x85\x00\x00\x00".as_slice();
    let mut reader = Counted::new(keepalive);
    let is_read = matches!(read_packet(&mut reader, room), Ok(Some(Packet::Keepalive)));
    is_read && room.as_slice() == keepalive
}

/// Reads a packet from a device and says it, or why there is none: whether there is one. Where
/// memory ran out, the room is used for another device that gives the same bytes.
fn is_packet(line: &mut Line<'_>, source: &mut Source<'_>, room: &mut Room) -> bool {
    let before = source.left();
    let answer = called!(line, read_packet(&mut Counted::new(&mut *source), room));
    if let Err(ReadFault::NoMemory) = answer {
        let taken = before.len().saturating_sub(source.left().len());
        line.then("memory, ");
        write!(line, "{taken} bytes taken, ");
        *source = Source::new(before, WILLING);
        return say_read(line, read_packet(&mut Counted::new(source), room));
    }
    say_read(line, answer)
}

/// Says what was read: whether it is a packet.
fn say_read(line: &mut Line<'_>, answer: Result<Option<Packet<'_>>, ReadFault>) -> bool {
    line.answers(&answer);
    matches!(answer, Ok(Some(_)))
}
