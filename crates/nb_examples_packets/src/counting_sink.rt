//! Fields, counted: a form of a packet besides text and JSON, in one file.

ghost use Rattle.std.specs.Prelude.{◌≡◌, ◌≤◌, ◌+◌, min};

use nb_streams::NoMemory;
use nb_telling::{FieldTag, Flag, Shows, Sink};
use std::fmt::Display;

/// A sink that counts the fields that are reported, and keeps nothing else of them.
#[derive(Drop)]
pub struct CountingSink {
    /// How many fields were reported, up to the largest number.
    pub count: u64,
}

impl CountingSink {
    /// Counts a field.
    fn add(&mut self) -> Result<(), NoMemory>
        ensures counted { self.new.count ≡ min (self.old.count + 1) 18446744073709551615 }
        ensures grows { self.old.count ≤ self.new.count }
    {
        self.count = self.count.saturating_add(1);
        Ok(())
    }
}

/// Counts each field, whatever it is.
impl Sink for CountingSink {
    type Seen = u64;

    ghost use Rattle.std.specs.Prelude.{◌+◌, ◌≤◌, min};

    ghost seen = { λ sink. sink.count };

    ghost after = { λ count _. min (count + 1) 18446744073709551615 };

    ghost is_front = { λ front whole. front ≤ whole };

    fn text(&mut self, _key: FieldTag, _value: &str) -> Result<(), NoMemory> {
        self.add()
    }

    fn shown<T: Shows>(&mut self, _key: FieldTag, _value: &T) -> Result<(), NoMemory> {
        self.add()
    }

    fn displayed<D: Display + Drop>(&mut self, _key: FieldTag, _value: D) -> Result<(), NoMemory> {
        self.add()
    }

    fn number(&mut self, _key: FieldTag, _value: u64) -> Result<(), NoMemory> {
        self.add()
    }

    fn digits(&mut self, _key: FieldTag, _value: &[u8]) -> Result<(), NoMemory> {
        self.add()
    }

    fn data(&mut self, _key: FieldTag, _value: &[u8]) -> Result<(), NoMemory> {
        self.add()
    }

    fn set(&mut self, _key: FieldTag, _flags: &[Flag]) -> Result<(), NoMemory> {
        self.add()
    }

    fn known(&mut self, _key: FieldTag, _value: Option<u64>) -> Result<(), NoMemory> {
        self.add()
    }

    fn range(&mut self, _lead: &str, _from: u64, _to: u64) -> Result<(), NoMemory> {
        self.add()
    }

    fn words(&mut self, _words: &str) -> Result<(), NoMemory> {
        self.add()
    }

    fn at(&mut self, _place: u64) -> Result<(), NoMemory> {
        self.add()
    }

    fn begins(&mut self, _name: &str) -> Result<(), NoMemory> {
        self.add()
    }

    fn ends(&mut self) -> Result<(), NoMemory> {
        self.add()
    }

    fn part(&mut self, _lead: &str) -> Result<(), NoMemory> {
        self.add()
    }

    fn part_ends(&mut self) -> Result<(), NoMemory> {
        self.add()
    }

    fn line_ends(&mut self) -> Result<(), NoMemory> {
        self.add()
    }
}
