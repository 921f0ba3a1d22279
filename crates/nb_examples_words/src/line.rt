//! A line: its words, taken from the left, what is said of them, and the first fault.
//!
//! What reads a line and says its answer has no way out but its end: a word that isn't what is
//! asked for is noted as a fault, and another value stands in its place; so is a text for which
//! memory ran out. [`Line::finish`] reports the first fault, whatever was said after it.

use crate::byte_text::bytes_of;
use crate::devices::{Conduct, Sink};
use crate::fault::ExampleFault;
use nb_names::{DomainName, Name, Pointers, Scope, name_from_text, read_domain};
use std::alloc::{AllocError, Global};
use std::fmt::Display;
use std::mem::replace;
use std::num::ParseIntError;
use std::str::FromStr;

/// For how many bytes the text has room that is made right before a call
/// (tests/lib/refuse_memory.c).
const MARK: usize = 50_021;

/// For how many bytes a writer has room, so that writing them wants no memory.
const ROOM: usize = 150_000;

/// Words that haven't been taken, and what stands between two of them.
#[derive(Clone, Copy)]
pub struct Rest<'a> {
    text: &'a str,
    between: &'a str,
}

/// The words of a line, and what is said of them.
#[derive(Drop)]
pub struct Line<'a> {
    alloc: Global,
    rest: Rest<'a>,
    said: String,
    mark: String,
    is_lacking: bool,
    is_again: bool,
    fault: Option<ExampleFault>,
}

impl<'a> Line<'a> {
    /// The words of a text, of which nothing is said.
    pub fn new(alloc: Global, text: &'a str) -> Line<'a> {
        Line {
            alloc,
            rest: Rest { text, between: " " },
            said: String::new(alloc),
            mark: String::new(alloc),
            is_lacking: false,
            is_again: false,
            fault: None,
        }
    }

    /// Where calls take memory.
    pub fn alloc(&self) -> Global {
        self.alloc
    }

    /// What was said, where all words have been taken.
    ///
    /// # Errors
    ///
    /// The first fault that was noted; else [`ExampleFault::BadWords`], where words are left.
    pub fn finish(self) -> Result<String, ExampleFault> {
        match self.fault {
            Some(fault) => Err(fault),
            None if self.rest.text.is_empty() => Ok(self.said),
            None => Err(ExampleFault::BadWords),
        }
    }

    // ---- Faults.

    /// Notes a fault, if it is the first.
    pub fn note(&mut self, fault: ExampleFault) {
        if self.fault.is_none() {
            self.fault = Some(fault);
        }
    }

    /// Notes that a word isn't what it has to be.
    pub fn bad_words(&mut self) {
        self.note(ExampleFault::BadWords);
    }

    /// Notes that memory ran out.
    pub fn no_memory(&mut self) {
        self.note(ExampleFault::NoMemory);
    }

    /// Notes that memory ran out in a call between marks, so that the line is made once more.
    pub fn lacks(&mut self) {
        if self.is_again {
            self.no_memory();
        }
        self.is_lacking = true;
    }

    /// Adds a value to a list.
    pub fn push<T: Drop>(&mut self, list: &mut Vec<T>, value: T) {
        if list.push(value).is_err() {
            self.no_memory();
        }
    }

    // ---- Words.

    /// Goes on with the words of another text, between which this stands; what was left before is
    /// for [`Line::leave`].
    pub fn enter(&mut self, text: &'a str, between: &'a str) -> Rest<'a> {
        let before = self.rest;
        self.rest = Rest { text, between };
        before
    }

    /// Goes back to the words that were left before. A word that is left now is a fault.
    pub fn leave(&mut self, before: Rest<'a>) {
        if !self.rest.text.is_empty() {
            self.bad_words();
        }
        self.rest = before;
    }

    /// Whether all words have been taken.
    pub fn is_empty(&self) -> bool {
        self.rest.text.is_empty()
    }

    /// All that is left, which may have several words.
    pub fn rest(&mut self) -> &'a str {
        let text = self.rest.text;
        self.rest.text = "";
        text
    }

    /// All that is left, in two parts with this between them.
    pub fn halves(&mut self, between: &str) -> (&'a str, &'a str) {
        let text = self.rest();
        let Some(halves) = text.split_once(between) else {
            self.bad_words();
            return (text, "");
        };
        halves
    }

    /// The next word. That there is none, or an empty one, is a fault.
    pub fn word(&mut self) -> &'a str {
        let (word, rest) = cut(self.rest.text, self.rest.between);
        self.rest.text = rest;
        if word.is_empty() {
            self.bad_words();
        }
        word
    }

    /// The next word, as a decimal number of its type.
    pub fn number<T: FromStr<Err = ParseIntError> + Default + Drop>(&mut self) -> T {
        let word = self.word();
        self.number_of(word)
    }

    /// The decimal number that a word stands for.
    pub fn number_of<T: FromStr<Err = ParseIntError> + Default + Drop>(&mut self, word: &str) -> T {
        self.or_bad(word.parse().ok())
    }

    /// The next word, as a number of 16 bits in hexadecimal.
    pub fn hex_16(&mut self) -> u16 {
        let number = u16::from_str_radix(self.word(), 16).ok();
        self.or_bad(number)
    }

    /// The next word, as a byte in hexadecimal.
    pub fn hex_8(&mut self) -> u8 {
        let number = u8::from_str_radix(self.word(), 16).ok();
        self.or_bad(number)
    }

    /// A value that a word stands for; 0 where it stands for none, which is a fault.
    fn or_bad<T: Default + Drop>(&mut self, value: Option<T>) -> T {
        match value {
            Some(value) => value,
            None => {
                self.bad_words();
                T::default()
            }
        }
    }

    /// The next word, as the bytes that it stands for.
    pub fn bytes(&mut self) -> Vec<u8> {
        let word = self.word();
        bytes_of(self, word)
    }

    /// The bytes that a word stands for.
    pub fn bytes_of(&mut self, word: &str) -> Vec<u8> {
        bytes_of(self, word)
    }

    /// The next word, as the text of a name.
    pub fn name(&mut self) -> Name {
        let Ok(name) = name_from_text(self.word()) else {
            self.bad_words();
            return Name::new([b' '; 16], Scope::empty());
        };
        name
    }

    /// The next word, as the domain name that it spells.
    pub fn domain(&mut self) -> DomainName {
        let spelling = self.bytes();
        let Ok((name, _)) = read_domain(spelling.as_slice(), 0, Pointers::Refused) else {
            self.bad_words();
            return DomainName::root();
        };
        name
    }

    /// The next word, as an address: `10.0.0.5`.
    pub fn address(&mut self) -> [u8; 4] {
        let word = self.word();
        let before = self.enter(word, ".");
        let address = [self.number(), self.number(), self.number(), self.number()];
        self.leave(before);
        address
    }

    /// The next word, as an address and a port: `10.0.0.5:138`.
    pub fn ends(&mut self) -> ([u8; 4], u16) {
        let word = self.word();
        let before = self.enter(word, ":");
        let ends = (self.address(), self.number());
        self.leave(before);
        ends
    }

    /// The next word, as how many keys a table may hold, and how many of one address: `8:2`.
    pub fn capacity(&mut self) -> (u32, u32) {
        let word = self.word();
        let before = self.enter(word, ":");
        let capacity = (self.number(), self.number());
        self.leave(before);
        capacity
    }

    /// The next word, which is one of two: whether it is the first.
    pub fn is_word(&mut self, yes: &str, no: &str) -> bool {
        let word = self.word();
        let is_yes = word == yes;
        if !is_yes && word != no {
            self.bad_words();
        }
        is_yes
    }

    /// The next three words, as what a device does: `MOST INTERRUPTS FAILING`, where `INTERRUPTS`
    /// is `600/4` for 600 interrupts before the first, the fifth and each fourth call after it, and
    /// `1023` for 1,023 before each.
    pub fn conduct(&mut self) -> Conduct {
        let (most, word) = (self.number(), self.word());
        let before = self.enter(word, "/");
        let interrupts = self.number();
        let every = if self.is_empty() { 1 } else { self.number() };
        self.leave(before);
        Conduct {
            most,
            interrupts,
            every,
            failing: self.number(),
        }
    }

    /// A writer that does so.
    pub fn sink(&mut self, conduct: Conduct) -> Sink {
        let mut taken = Vec::new(self.alloc);
        if let Err(AllocError) = taken.reserve(ROOM) {
            self.no_memory();
        }
        Sink::new(taken, conduct)
    }

    // ---- What is said.

    /// Whether nothing was said.
    pub fn is_silent(&self) -> bool {
        self.said.is_empty()
    }

    /// Says an answer's text, `; ` before it where it isn't the first.
    pub fn then(&mut self, text: &str) {
        if !self.said.is_empty() && !self.said.ends_with(" ") {
            self.say("; ");
        }
        self.say(text);
    }

    /// Says a text.
    pub fn say(&mut self, text: &str) {
        if let Err(AllocError) = self.said.push_str(text) {
            self.no_memory();
        }
    }

    /// Says what `write!` makes of its arguments.
    pub fn write_fmt<T: Display + Drop>(&mut self, value: T) {
        if let Err(AllocError) = self.said.write_fmt(value) {
            self.no_memory();
        }
    }

    /// Begins to say another text; what was said before is for [`Line::back_to`].
    pub fn aside(&mut self) -> String {
        replace(&mut self.said, String::new(self.alloc))
    }

    /// What was said aside, after which is said what comes after this.
    pub fn back_to(&mut self, before: String) -> String {
        replace(&mut self.said, before)
    }

    // ---- Marks, which stand round a call whose requests for memory are counted.

    /// The mark before a call, unless the line is made once more.
    pub fn begin(&mut self) {
        if self.is_again {
            return;
        }
        match String::with_capacity(self.alloc, MARK) {
            Ok(mark) => self.mark = mark,
            Err(AllocError) => self.no_memory(),
        }
    }

    /// The mark after a call.
    pub fn end(&mut self) {
        if self.is_again {
            return;
        }
        if let Err(AllocError) = self.mark.reserve(MARK + 1) {
            self.no_memory();
        }
    }

    /// Whether the line has to be made once more, because memory ran out in a call; its words are
    /// then these, and there are no marks.
    pub fn begins_again(&mut self, text: &'a str) -> bool {
        if !self.is_lacking || self.is_again {
            return false;
        }
        self.is_again = true;
        self.rest.text = text;
        self.said.clear();
        self.say("memory, ");
        true
    }

    /// Says that memory ran out in a call that is made again, and whether what has to be as before
    /// is so.
    pub fn again(&mut self, is_same: bool) {
        self.then(match is_same {
            true => "memory, as before, ",
            false => "memory, changed, ",
        });
    }
}

/// What stands in front of this in a text, and behind it; the whole text where it isn't there.
pub fn cut<'a>(text: &'a str, between: &str) -> (&'a str, &'a str) {
    text.split_once(between).unwrap_or((text, ""))
}
