//! What is said of a line: what calls answer, one after another, and parts of it.

use crate::byte_text::{say_bytes, say_printed};
use crate::line::Line;
use nb_names::{Name, name_text};
use nb_streams::Bytes;
use std::fmt::{Debug, Display};

impl Line<'_> {
    // ---- Answers, between which `; ` stands.

    /// Says a value as `Debug` prints it, but for lists of bytes, which are words.
    pub fn says<T: Debug>(&mut self, value: &T) {
        let before = self.aside();
        write!(self, "{value:?}");
        let printed = self.back_to(before);
        self.then("");
        say_printed(self, printed.as_str());
    }

    /// Says what a call answered: a value, or the text of a fault.
    pub fn answers<T: Debug, E: Display>(&mut self, answer: &Result<T, E>) {
        match answer {
            Ok(value) => self.says(value),
            Err(fault) => self.refuses(fault),
        }
    }

    /// Says the text of a fault, or notes that memory ran out.
    pub fn refuses<E: Display>(&mut self, fault: &E) {
        let text = self.text_of(fault);
        match text.as_str() == "memory" {
            true => self.lacks(),
            false => self.then(text.as_str()),
        }
    }

    /// Whether a call answered that memory ran out in it.
    pub fn lacked<T, E: Display>(&mut self, answer: &Result<T, E>) -> bool {
        match answer {
            Ok(_) => false,
            Err(fault) => self.text_of(fault).as_str() == "memory",
        }
    }

    /// The text of a fault.
    fn text_of<E: Display>(&mut self, fault: &E) -> String {
        let before = self.aside();
        write!(self, "{fault}");
        self.back_to(before)
    }

    /// Whether a call was done; where it wasn't, the text of its fault is said.
    pub fn is_done<E: Display>(&mut self, answer: &Result<(), E>) -> bool {
        if let Err(fault) = answer {
            self.refuses(fault);
        }
        answer.is_ok()
    }

    /// Says bytes that a call made, as a word, or the text of a fault.
    pub fn gives<E: Display>(&mut self, made: &Result<Bytes, E>) {
        match made {
            Ok(bytes) => {
                self.then("");
                self.say_bytes(bytes.as_slice());
            }
            Err(fault) => self.refuses(fault),
        }
    }

    /// Says a text that a call made, or that of a fault.
    pub fn tells<E: Display>(&mut self, made: &Result<String, E>) {
        match made {
            Ok(text) => self.then(text.as_str()),
            Err(fault) => self.refuses(fault),
        }
    }

    // ---- Parts of answers.

    /// Says the text of a name after a text.
    pub fn say_name(&mut self, lead: &str, name: &Name) {
        self.say(lead);
        match name_text(self.alloc(), name) {
            Ok(text) => self.say(text.as_str()),
            Err(_) => self.no_memory(),
        }
    }

    /// Says bytes as a word.
    pub fn say_bytes(&mut self, bytes: &[u8]) {
        say_bytes(self, bytes);
    }

    /// Says bytes that are a text, whose lines end with `;` here.
    pub fn say_lines(&mut self, text: &[u8]) {
        let Ok(text) = str::from_utf8(text) else {
            return self.bad_words();
        };
        match text.replace(self.alloc(), "\n", ";") {
            Ok(lines) => self.say(lines.as_str()),
            Err(_) => self.no_memory(),
        }
    }
}
