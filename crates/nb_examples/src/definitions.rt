//! What the definitions' own program says of fragments: it looks at the whole list for each
//! question.

use crate::plain::{byte_at, datagram, end_of, is_spoilt, is_whole, promise_of};
use crate::steps::{say_found, step_of};
use nb_datagram::{Fragment, Key};
use nb_examples_packets::fragments::{bytes_in, next_key};
use nb_examples_words::line::Line;
use nb_table::State;

/// `plain KEY PLACE STEP ..`: what the definitions say of the key: its state, the byte at a place,
/// its end, its promise, its datagram.
pub fn plain(line: &mut Line<'_>) {
    let (key, place): (Key, u32) = (next_key(line), line.number());
    let mut steps = Vec::new(line.alloc());
    for step in line.rest().split_whitespace() {
        let bytes = bytes_in(line, step, ",");
        line.push(&mut steps, (step, bytes));
    }
    let fragments = fragments_of(line, steps.as_slice());
    say_plain(line, fragments.as_slice(), &key, place);
}

/// The fragments of these steps, each of which has its bytes.
fn fragments_of<'a, 'b>(line: &mut Line<'a>, steps: &'b [(&'a str, Vec<u8>)]) -> Vec<Fragment<'b>> {
    let mut fragments = Vec::new(line.alloc());
    for (step, bytes) in steps {
        if let Some(fragment) = step_of(line, *step, bytes.as_slice()) {
            line.push(&mut fragments, fragment);
        }
    }
    fragments
}

/// Says what the definitions say of a key.
fn say_plain(line: &mut Line<'_>, fragments: &[Fragment<'_>], key: &Key, place: u32) {
    let (state, byte) = (state_of(fragments, key), byte_at(fragments, key, place));
    let (end, promise) = (end_of(fragments, key), promise_of(fragments, key));
    line.says(&(state, byte, end, promise));
    match datagram(line.alloc(), fragments, key) {
        Ok(found) => say_found(line, &found),
        Err(fault) => line.says(&fault),
    }
}

/// What the definitions say of a key.
fn state_of(fragments: &[Fragment<'_>], key: &Key) -> State {
    if is_spoilt(fragments, key) {
        return State::Spoilt;
    }
    if is_whole(fragments, key) {
        return State::Whole;
    }
    for fragment in fragments {
        if fragment.key() == *key {
            return State::Partial;
        }
    }
    State::Absent
}
