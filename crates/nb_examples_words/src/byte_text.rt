//! Bytes as words. A word is parts joined by `+`. A part is hexadecimal digits or `empty`, and may
//! have `*` and a number after it: it stands so often.

use crate::line::{Line, cut};
use hex::FromHexError;
use std::alloc::AllocError;

/// From how many equal bytes on they are written as one of them with their number.
const LONG_RUN: usize = 16;

/// The bytes that a word stands for; that a part has none of the forms is noted.
pub fn bytes_of(line: &mut Line<'_>, word: &str) -> Vec<u8> {
    let mut bytes = Vec::new(line.alloc());
    for part in word.split("+") {
        push_part(line, &mut bytes, part);
    }
    bytes
}

/// Adds the bytes that a part stands for.
fn push_part(line: &mut Line<'_>, bytes: &mut Vec<u8>, part: &str) {
    let (once, number) = cut(part, "*");
    let piece = bytes_once(line, once);
    let times = match once.len() == part.len() {
        true => 1,
        false => line.number_of(number),
    };
    push_times(line, bytes, piece.as_slice(), times);
}

/// Adds some bytes so often.
fn push_times(line: &mut Line<'_>, bytes: &mut Vec<u8>, piece: &[u8], times: u32) {
    for _ in 0..times {
        if let Err(AllocError) = bytes.extend_from_slice(piece) {
            return line.no_memory();
        }
    }
}

/// The bytes that a part without a number stands for.
fn bytes_once(line: &mut Line<'_>, part: &str) -> Vec<u8> {
    if part.is_empty() {
        line.bad_words();
    }
    let digits = if part == "empty" { "" } else { part };
    match hex::decode(line.alloc(), digits) {
        Ok(bytes) => return bytes,
        Err(FromHexError::OutOfMemory) => line.no_memory(),
        Err(_) => line.bad_words(),
    }
    Vec::new(line.alloc())
}

/// Says the word for some bytes: digits, and `07*99` for a long run of equal bytes.
pub fn say_bytes(line: &mut Line<'_>, bytes: &[u8]) {
    if bytes.is_empty() {
        return line.say("empty");
    }
    let mut rest = bytes;
    let mut is_after_run = false;
    for _ in 0..bytes.len() {
        let Some(first) = rest.first() else {
            return;
        };
        let run = run_length(rest, *first);
        let is_run = run >= LONG_RUN;
        if rest.len() < bytes.len() && (is_run || is_after_run) {
            line.say("+");
        }
        say_run(line, *first, run);
        is_after_run = is_run;
        rest = rest.get(run..).unwrap_or(&[]);
    }
}

/// How many bytes at the front are this one.
fn run_length(bytes: &[u8], first: u8) -> usize {
    for (place, byte) in bytes.iter().enumerate() {
        if *byte != first {
            return place;
        }
    }
    bytes.len()
}

/// Says a run of equal bytes.
fn say_run(line: &mut Line<'_>, byte: u8, count: usize) {
    if count >= LONG_RUN {
        return write!(line, "{byte:02x}*{count}");
    }
    for _ in 0..count {
        write!(line, "{byte:02x}");
    }
}

/// Says what `Debug` printed, in which a list of bytes stands as a word.
pub fn say_printed(line: &mut Line<'_>, printed: &str) {
    for (place, part) in printed.split("[").enumerate() {
        if place > 0 {
            line.say("[");
        }
        say_listed(line, part);
    }
}

/// Says what stands behind an opening bracket, up to the next one.
fn say_listed(line: &mut Line<'_>, part: &str) {
    let Some((list, rest)) = part.split_once("]") else {
        return line.say(part);
    };
    let Some(bytes) = listed_bytes(line, list) else {
        return line.say(part);
    };
    say_bytes(line, bytes.as_slice());
    line.say("]");
    line.say(rest);
}

/// The bytes of a list of decimal numbers, if all are bytes.
fn listed_bytes(line: &mut Line<'_>, list: &str) -> Option<Vec<u8>> {
    let mut bytes = Vec::new(line.alloc());
    for number in list.split(", ") {
        line.push(&mut bytes, number.parse().ok()?);
    }
    Some(bytes)
}
