//! Covers and entries joined.

use crate::steps::step_of;
use nb_datagram::Fragment;
use nb_examples_packets::fragments::bytes_in;
use nb_examples_words::line::{Line, cut};
use nb_examples_words::{asked, called};
use nb_streams::NoMemory;
use nb_table::{Cover, Entry, Join};
use std::alloc::Global;

/// Values that are made of a fragment. What else is asked of them stands at each function: the kit
/// takes no supertrait here that [`nb_table::Slot`] has for any facts.
pub trait Said {
    /// What a fragment says.
    fn of_fragment(alloc: Global, fragment: &Fragment<'_>) -> Result<Self, NoMemory>;
}

impl Said for Cover {
    fn of_fragment(alloc: Global, fragment: &Fragment<'_>) -> Result<Cover, NoMemory> {
        Cover::of(alloc, fragment)
    }
}

impl Said for Entry {
    fn of_fragment(alloc: Global, fragment: &Fragment<'_>) -> Result<Entry, NoMemory> {
        Entry::of(alloc, fragment)
    }
}

/// What a step says, made between marks.
fn made<'a, J: Said + Drop>(line: &mut Line<'a>, step: &'a str) -> Option<J> {
    let bytes = bytes_in(line, step, ",");
    let fragment = step_of(line, step, bytes.as_slice())?;
    let value = called!(line, J::of_fragment(line.alloc(), &fragment)).ok();
    if value.is_none() {
        line.lacks();
    }
    value
}

/// Joins what a step says into a value between marks, and then into one that is equal to it.
fn join_step<'a, J: Said + Join + PartialEq + Drop>(
    line: &mut Line<'a>,
    value: &mut J,
    equal: &mut J,
    step: &'a str,
) {
    let other: Option<J> = made(line, step);
    if let Some(other) = &other {
        let is_joined = join(line, value, equal, other);
        if equal.join(other).is_err() || !is_joined {
            line.no_memory();
        }
    }
}

/// Joins a value into another between marks: whether it is joined.
fn join<J: Join + PartialEq>(line: &mut Line<'_>, value: &mut J, equal: &J, other: &J) -> bool {
    let answer = asked!(line, value.join(other), *value == *equal);
    answer.is_ok()
}

/// The join of what steps say.
fn joined<'a, J: Said + Join + PartialEq + Drop>(line: &mut Line<'a>, steps: &'a str) -> Option<J> {
    let (first, others) = cut(steps, " ");
    let mut value: Option<J> = made(line, first);
    let mut equal: Option<J> = made(line, first);
    if let (Some(value), Some(equal)) = (&mut value, &mut equal) {
        for step in others.split_whitespace() {
            join_step(line, value, equal, step);
        }
    }
    value
}

/// `cover STEP .. | STEP ..`, `entry ..`: whether the joins of the covers, or of the entries, of
/// both lists are equal.
pub fn compared<J: Said + Join + PartialEq + Drop>(line: &mut Line<'_>) {
    let (one, other) = line.halves(" | ");
    let one: Option<J> = joined(line, one);
    let other: Option<J> = joined(line, other);
    if let (Some(one), Some(other)) = (one, other) {
        line.says(&(one == other));
    }
}
