//! Data as texts have them.

use nb_examples_words::line::Line;
use nb_examples_words::{called, said};
use nb_streams::{bytes_of_digits, data_in, data_of_text};
use std::alloc::AllocError;

/// `data_in ROOM BYTES ..`: the bytes that texts stand for, or why they stand for none. They are
/// read one after another into one room, which has room for so many bytes at first, and is a new
/// one after a fault.
pub fn read(line: &mut Line<'_>) {
    let mut room = Vec::new(line.alloc());
    if let Err(AllocError) = room.reserve(line.number()) {
        line.no_memory();
    }
    for word in line.rest().split_whitespace() {
        let text = line.bytes_of(word);
        room = read_text(line, room, text.as_slice());
    }
}

/// Says the bytes that a text stands for, or why it stands for none; the room for the next text.
fn read_text(line: &mut Line<'_>, room: Vec<u8>, text: &[u8]) -> Vec<u8> {
    let answer = called!(line, data_in(room, text));
    line.gives(&answer);
    match answer {
        Ok(bytes) => bytes.into_vec(),
        Err(_) => Vec::new(line.alloc()),
    }
}

/// `digits BYTES`: the bytes for which the digits of a text stand, or why they stand for none.
pub fn of_digits(line: &mut Line<'_>) {
    let text = line.bytes();
    said!(line, gives, bytes_of_digits(line.alloc(), text.as_slice()));
}

/// `data BYTES`: the same of a text that may be `empty`.
pub fn of_text(line: &mut Line<'_>) {
    let text = line.bytes();
    said!(line, gives, data_of_text(line.alloc(), text.as_slice()));
}
