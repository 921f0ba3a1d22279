//! What fields are reported to, their tags, flags and places, and values that have a text.
ghost use Rattle.std.specs.Prelude.{◌≡◌, IfSome, OnOk, fold, ◌++◌, ℕ, List, string_bytes};
ghost use Rattle.nb_streams.specs.Growth.{OnlyAdds};
ghost use Rattle.nb_telling.specs.Telling.{Field, Text, Number, Digits, Data, Set, Known, Range, Words, At, Begins, Ends, Part, PartEnds, LineEnds, Grows, tag_of, place_fields};
ghost use Rattle.nb_telling.specs.Texts.{names_of};

use nb_datagram::{Key, push_key};
use nb_names::{DomainName, LentDomain, LentName, Name, push_domain, push_lent_name, push_name};
use nb_streams::{NoMemory, push_address};
use std::fmt::Display;

/// What fields are reported to, one after the other.
///
/// Each call answers [`NoMemory`] where memory ran out. Some of the field may then be reported:
/// what stood in the sink before is still its front.
pub trait Sink {
    /// What is seen of a sink: all that was reported to it, in its form.
    type Seen;

    /// What is seen of it.
    ghost seen: { Self → Self.Seen };

    /// What is seen after a field was reported.
    ghost after: { Self.Seen → Field → Self.Seen };

    /// Whether the first is a front of the second.
    ghost is_front: { Self.Seen → Self.Seen → Type 0 };

    /// Tells a text.
    fn text(&mut self, tag: FieldTag, value: &str) -> Result<(), NoMemory>
        ensures told { OnOk result
            (seen self.new ≡ after (seen self.old) (Text (tag_of tag) value.now)) }
        ensures front { Grows is_front (seen self.old) (seen self.new) };

    /// Tells the text of a value.
    fn shown<T: Shows>(&mut self, tag: FieldTag, value: &T) -> Result<(), NoMemory>
        ensures told { OnOk result
            (seen self.new ≡ after (seen self.old) (Text (tag_of tag) (T.shown value.now))) }
        ensures front { Grows is_front (seen self.old) (seen self.new) };

    /// Tells the text that a value is displayed as, of at most 128 bytes, such as a fault's.
    fn displayed<D: Display + Drop>(&mut self, tag: FieldTag, value: D) -> Result<(), NoMemory>
        ensures told { OnOk result (IfSome (D.output value) (λ shown.
            seen self.new ≡ after (seen self.old) (Text (tag_of tag) shown))) }
        ensures front { Grows is_front (seen self.old) (seen self.new) };

    /// Tells a number.
    fn number(&mut self, tag: FieldTag, value: u64) -> Result<(), NoMemory>
        ensures told { OnOk result
            (seen self.new ≡ after (seen self.old) (Number (tag_of tag) value)) }
        ensures front { Grows is_front (seen self.old) (seen self.new) };

    /// Tells bytes as hexadecimal digits.
    fn digits(&mut self, tag: FieldTag, value: &[u8]) -> Result<(), NoMemory>
        ensures told { OnOk result
            (seen self.new ≡ after (seen self.old) (Digits (tag_of tag) value.now)) }
        ensures front { Grows is_front (seen self.old) (seen self.new) };

    /// Tells data, which may have no byte.
    fn data(&mut self, tag: FieldTag, value: &[u8]) -> Result<(), NoMemory>
        ensures told { OnOk result
            (seen self.new ≡ after (seen self.old) (Data (tag_of tag) value.now)) }
        ensures front { Grows is_front (seen self.old) (seen self.new) };

    /// Tells the names of the flags that are set.
    fn set(&mut self, tag: FieldTag, flags: &[Flag]) -> Result<(), NoMemory>
        ensures told { OnOk result
            (seen self.new ≡ after (seen self.old) (Set (tag_of tag) (names_of flags.now))) }
        ensures front { Grows is_front (seen self.old) (seen self.new) };

    /// Tells a number, where it is known.
    fn known(&mut self, tag: FieldTag, value: Option<u64>) -> Result<(), NoMemory>
        ensures told { OnOk result
            (seen self.new ≡ after (seen self.old) (Known (tag_of tag) value)) }
        ensures front { Grows is_front (seen self.old) (seen self.new) };

    /// Tells a part of a list that is two numbers, which begins so in text.
    fn range(&mut self, lead: &str, from: u64, to: u64) -> Result<(), NoMemory>
        ensures told { OnOk result
            (seen self.new ≡ after (seen self.old) (Range lead.now from to)) }
        ensures front { Grows is_front (seen self.old) (seen self.new) };

    /// Tells words that stand in text alone.
    fn words(&mut self, words: &str) -> Result<(), NoMemory>
        ensures told { OnOk result (seen self.new ≡ after (seen self.old) (Words words.now)) }
        ensures front { Grows is_front (seen self.old) (seen self.new) };

    /// Tells the place of a fault.
    fn at(&mut self, place: u64) -> Result<(), NoMemory>
        ensures told { OnOk result (seen self.new ≡ after (seen self.old) (At place)) }
        ensures front { Grows is_front (seen self.old) (seen self.new) };

    /// Begins a list of this name.
    fn begins(&mut self, name: &str) -> Result<(), NoMemory>
        ensures told { OnOk result (seen self.new ≡ after (seen self.old) (Begins name.now)) }
        ensures front { Grows is_front (seen self.old) (seen self.new) };

    /// Ends a list.
    fn ends(&mut self) -> Result<(), NoMemory>
        ensures told { OnOk result (seen self.new ≡ after (seen self.old) Ends) }
        ensures front { Grows is_front (seen self.old) (seen self.new) };

    /// Begins a part of a list, which begins so in text.
    fn part(&mut self, lead: &str) -> Result<(), NoMemory>
        ensures told { OnOk result (seen self.new ≡ after (seen self.old) (Part lead.now)) }
        ensures front { Grows is_front (seen self.old) (seen self.new) };

    /// Ends a part of a list.
    fn part_ends(&mut self) -> Result<(), NoMemory>
        ensures told { OnOk result (seen self.new ≡ after (seen self.old) PartEnds) }
        ensures front { Grows is_front (seen self.old) (seen self.new) };

    /// Ends a line of text.
    fn line_ends(&mut self) -> Result<(), NoMemory>
        ensures told { OnOk result (seen self.new ≡ after (seen self.old) LineEnds) }
        ensures front { Grows is_front (seen self.old) (seen self.new) };
}

/// A tag: under which name a field stands in an object, and what stands before its value in text.
#[derive(Clone, Copy, Debug)]
pub struct FieldTag {
    /// The name.
    pub name: &'static str,
    /// What stands before the value, as ` ttl=`; it may be empty.
    pub lead: &'static str,
}

/// A flag that a set may have.
#[derive(Clone, Copy, Debug)]
pub struct Flag {
    /// Its name.
    pub name: &'static str,
    /// Whether the set has it.
    pub is_set: bool,
}

/// Tells the place of a fault, where it has one.
///
/// # Errors
///
/// [`NoMemory`] where memory ran out. What the sink had is still its front.
pub fn tell_place<S: Sink>(place: Option<usize>, sink: &mut S) -> Result<(), NoMemory>
    ensures told { OnOk result
        (S.seen sink.new ≡ fold S.after (S.seen sink.old) (place_fields place)) }
    ensures front { Grows S.is_front (S.seen sink.old) (S.seen sink.new) }
{
    match place {
        Some(place) => sink.at(place as u64),
        None => Ok(()),
    }
}

/// A value whose text is added to another, with no copy in between.
pub trait Shows {
    /// Its text.
    ghost shown: { Self → List ℕ };

    /// Adds its text.
    ///
    /// # Errors
    ///
    /// [`NoMemory`] where memory ran out; some of the text may then be added.
    fn push_to(&self, text: &mut String) -> Result<(), NoMemory>
        ensures added { OnOk result
            (string_bytes text.new ≡ string_bytes text.old ++ shown self.now) }
        ensures front { OnlyAdds (string_bytes text.old) (string_bytes text.new) };
}

impl Shows for Name {
    ghost use Rattle.nb_names.specs.NameText.{written};

    ghost shown = { written };

    fn push_to(&self, text: &mut String) -> Result<(), NoMemory> {
        push_name(text, self)
    }
}

impl<'a> Shows for LentName<'a> {
    ghost use Rattle.nb_names.specs.NameText.{written};

    ghost shown = { written };

    fn push_to(&self, text: &mut String) -> Result<(), NoMemory> {
        push_lent_name(text, self)
    }
}

impl Shows for DomainName {
    ghost use Rattle.nb_names.specs.NameText.{labels_written};

    ghost shown = { labels_written };

    fn push_to(&self, text: &mut String) -> Result<(), NoMemory> {
        push_domain(text, &self.lent())
    }
}

impl<'a> Shows for LentDomain<'a> {
    ghost use Rattle.nb_names.specs.NameText.{labels_written};

    ghost shown = { labels_written };

    fn push_to(&self, text: &mut String) -> Result<(), NoMemory> {
        push_domain(text, self)
    }
}

impl Shows for [u8; 4] {
    ghost use Rattle.nb_streams.specs.Addresses.{address_text};

    ghost shown = { address_text };

    fn push_to(&self, text: &mut String) -> Result<(), NoMemory> {
        push_address(*self, text)
    }
}

impl Shows for Key {
    ghost use Rattle.nb_datagram.specs.FaultTexts.{key_text};

    ghost shown = { key_text };

    fn push_to(&self, text: &mut String) -> Result<(), NoMemory> {
        push_key(*self, text)
    }
}
