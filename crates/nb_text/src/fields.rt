//! Numbers told, by their words where they have some, refusals, and what lines end with.
ghost use Rattle.std.specs.Prelude.{◌≡◌, ◌∷◌, [], OnOk, fold, option_map, IfSome};
ghost use Rattle.nb_service.specs.Header.{ont_of};
ghost use Rattle.nb_telling.specs.Telling.{Digits, LineEnds, Number, PartEnds, Text, Grows, tag_of};
ghost use Rattle.nb_text.specs.Tags.{tag_named, kind_tag};
ghost use Rattle.nb_text.specs.Fields.{used_fields, word_field, refused_fields};
ghost use Rattle.nb_text.specs.ServiceFields.{named_field};

use crate::tags::{KIND, field_tag};
use nb_service::ont;
use nb_streams::NoMemory;
use nb_telling::{FieldTag, Sink, tell_place};
use std::fmt::Display;

/// Tells a number by its name, where it has one.
#[inline(always)]
pub fn tell_named<S: Sink>(
    key: FieldTag,
    name: Option<&'static str>,
    number: u8,
    sink: &mut S,
) -> Result<(), NoMemory>
    ensures told { OnOk result (S.seen sink.new ≡ S.after (S.seen sink.old)
        (named_field (tag_of key) (option_map (λ word. word.now) name.entry) number)) }
    ensures front { Grows S.is_front (S.seen sink.old) (S.seen sink.new) }
{
    match name {
        Some(word) => sink.text(key, word),
        None => sink.number(key, u64::from(number)),
    }
}

/// Tells what a packet is.
#[inline(always)]
pub fn tell_kind<S: Sink>(kind: &str, sink: &mut S) -> Result<(), NoMemory>
    ensures told { OnOk result
        (S.seen sink.new ≡ S.after (S.seen sink.old) (Text kind_tag kind.now)) }
    ensures front { Grows S.is_front (S.seen sink.old) (S.seen sink.new) }
{
    sink.text(KIND, kind)
}

/// Tells a number of sixteen bits.
#[inline(always)]
pub fn tell_number<S: Sink>(key: FieldTag, number: u16, sink: &mut S) -> Result<(), NoMemory>
    ensures told { OnOk result
        (S.seen sink.new ≡ S.after (S.seen sink.old) (Number (tag_of key) number)) }
    ensures front { Grows S.is_front (S.seen sink.old) (S.seen sink.new) }
{
    sink.number(key, u64::from(number))
}

/// Tells a number of sixteen bits, as four digits.
#[inline(always)]
pub fn tell_word<S: Sink>(key: FieldTag, word: u16, sink: &mut S) -> Result<(), NoMemory>
    ensures told { OnOk result
        (S.seen sink.new ≡ S.after (S.seen sink.old) (word_field (tag_of key) word)) }
    ensures front { Grows S.is_front (S.seen sink.old) (S.seen sink.new) }
{
    sink.digits(key, &word.to_be_bytes())
}

/// Tells a byte, as two digits.
#[inline(always)]
pub fn tell_byte<S: Sink>(key: FieldTag, byte: u8, sink: &mut S) -> Result<(), NoMemory>
    ensures told { OnOk result
        (S.seen sink.new ≡ S.after (S.seen sink.old) (Digits (tag_of key) (byte ∷ []))) }
    ensures front { Grows S.is_front (S.seen sink.old) (S.seen sink.new) }
{
    sink.digits(key, &[byte])
}

/// Tells the flags of an owner, and its type.
#[inline(always)]
pub fn tell_owner<S: Sink>(flags: u16, sink: &mut S) -> Result<(), NoMemory>
    ensures told { OnOk result (S.seen sink.new ≡ fold S.after (S.seen sink.old)
        (word_field (tag_named "flags") flags ∷ Number (tag_named "ont") (ont_of flags) ∷ [])) }
    ensures front { Grows S.is_front (S.seen sink.old) (S.seen sink.new) }
{
    tell_word(field_tag!("flags"), flags, sink)?;
    sink.number(field_tag!("ont"), u64::from(ont(flags)))
}

/// Ends the line of a part, and the part.
#[inline(always)]
pub fn end_part<S: Sink>(sink: &mut S) -> Result<(), NoMemory>
    ensures told { OnOk result
        (S.seen sink.new ≡ fold S.after (S.seen sink.old) (LineEnds ∷ PartEnds ∷ [])) }
    ensures front { Grows S.is_front (S.seen sink.old) (S.seen sink.new) }
{
    sink.line_ends()?;
    sink.part_ends()
}

/// Tells how many bytes a packet takes up, with which its line ends.
pub fn tell_used<S: Sink>(used: usize, sink: &mut S) -> Result<(), NoMemory>
    ensures told { OnOk result
        (S.seen sink.new ≡ fold S.after (S.seen sink.old) (used_fields used)) }
    ensures front { Grows S.is_front (S.seen sink.old) (S.seen sink.new) }
{
    sink.number(field_tag!("used"), used as u64)?;
    sink.line_ends()
}

/// Tells a fault, and its place where it has one.
pub fn tell_refusal<F: Display + Drop, S: Sink>(
    fault: F,
    place: Option<usize>,
    sink: &mut S,
) -> Result<(), NoMemory>
    ensures told { OnOk result (IfSome (F.output fault) (λ shown.
        S.seen sink.new ≡ fold S.after (S.seen sink.old) (refused_fields shown place))) }
    ensures front { Grows S.is_front (S.seen sink.old) (S.seen sink.new) }
{
    sink.displayed(field_tag!("refused", "refused "), fault)?;
    tell_place(place, sink)?;
    sink.line_ends()
}
