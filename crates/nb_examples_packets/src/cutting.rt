//! Packets of port 138 encoded, and datagrams made, listed, and cut into pieces.

use crate::datagrams::{datagram_of, next_datagram};
use crate::fragments::{next_key, next_kind, say_datagram};
use crate::values::relisted;
use nb_datagram::{ErrorPacket, Packet, cut, decode, encode, kind_name, push_key};
use nb_examples_words::line::Line;
use nb_examples_words::{called, given, said};

/// `again BYTES`: the bytes of the packet at the front, encoded.
pub fn encoded_again(line: &mut Line<'_>) {
    let bytes = line.bytes();
    match decode(bytes.as_slice()) {
        Ok((packet, _)) => said!(line, gives, encode(line.alloc(), &packet)),
        Err(_) => line.bad_words(),
    }
}

/// `datagram KIND KEY SOURCE DESTINATION BYTES`: the parts of the datagram of these, or why there
/// is none.
pub fn made(line: &mut Line<'_>) {
    match next_datagram(line) {
        Ok(datagram) => say_datagram(line, &datagram),
        Err(fault) => line.refuses(&fault),
    }
}

/// `cut MOST DATAGRAM`: the pieces of at most so many bytes, each as its FLAGS, its offset and its
/// bytes, or why there are none.
pub fn cut_up(line: &mut Line<'_>) {
    let most = line.number();
    let Some(datagram) = datagram_of(line) else {
        return;
    };
    let pieces = given!(line, cut(line.alloc(), &datagram, most));
    for piece in pieces.as_slice() {
        line.says(&(piece.flags(), piece.offset(), piece.bytes()));
    }
}

/// `pieces MOST DATAGRAM`: how many items a list of the pieces has, and the packets of those that
/// it gives back.
pub fn packets(line: &mut Line<'_>) {
    let most = line.number();
    let Some(datagram) = datagram_of(line) else {
        return;
    };
    let pieces = match cut(line.alloc(), &datagram, most) {
        Ok(pieces) => pieces,
        Err(fault) => return line.refuses(&fault),
    };
    for piece in relisted(line, pieces.into_vec()) {
        let bytes = encode(line.alloc(), &Packet::Direct(piece));
        line.gives(&bytes);
    }
}

/// `datagrams DATAGRAM, DATAGRAM ..`: how many items a list of these has, and the datagrams that it
/// gives back.
pub fn listed_datagrams(line: &mut Line<'_>) {
    let mut datagrams = Vec::new(line.alloc());
    for text in line.rest().split(", ") {
        let before = line.enter(text, " ");
        if let Some(datagram) = datagram_of(line) {
            line.push(&mut datagrams, datagram);
        }
        line.leave(before);
    }
    for datagram in relisted(line, datagrams) {
        line.then("");
        say_datagram(line, &datagram);
    }
}

/// `key KEY`: the text of a key, after `at`.
pub fn key_text(line: &mut Line<'_>) {
    let key = next_key(line);
    let Ok(mut text) = String::from_str(line.alloc(), "at ") else {
        return line.no_memory();
    };
    let answer = called!(line, push_key(key, &mut text));
    line.tells(&answer.map(|()| text));
}

/// `kind KIND`: the word for a kind, and the type of its packets.
pub fn kind_text(line: &mut Line<'_>) {
    let kind = next_kind(line);
    said!(line, says, (kind_name(kind), kind.message_type()));
}

/// `errors KEY CODES`: how many items a list of error packets with these codes has, and those
/// that it gives back.
pub fn listed_errors(line: &mut Line<'_>) {
    let key = next_key(line);
    let mut errors = Vec::new(line.alloc());
    for code in line.bytes().as_slice() {
        let (flags, code) = (2, *code);
        line.push(&mut errors, ErrorPacket { flags, key, code });
    }
    let given_back = relisted(line, errors);
    line.says(&given_back);
}
