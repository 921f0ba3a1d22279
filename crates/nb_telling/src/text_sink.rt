//! Fields as text.
#![tactic(auto, using(nb_streams::specs::Growth::front_stays))]

ghost use Rattle.std.specs.Prelude.{◌≡◌, ◌++◌, OnOk, string_bytes};
ghost use Rattle.nb_streams.specs.Growth.{OnlyAdds};
ghost use Rattle.nb_telling.specs.Texts.{joined, names_of};

use crate::sink::{FieldTag, Flag, Shows, Sink};
use nb_streams::{Bytes, NoMemory, push_data, push_decimal, push_digits, push_shown};
use std::fmt::Display;

/// Adds each field's text. Nothing is there of the places of faults, which the faults' texts have,
/// and of where lists begin and end.
impl Sink for String {
    type Seen = Bytes;

    ghost use Rattle.std.specs.Prelude.{◌++◌, string_bytes};
    ghost use Rattle.nb_streams.specs.Growth.{IsFrontOf};
    ghost use Rattle.nb_telling.specs.Texts.{field_text};

    ghost seen = { λ text. string_bytes text };

    ghost after = { λ bytes field. bytes ++ field_text field };

    ghost is_front = { IsFrontOf };

    fn text(&mut self, tag: FieldTag, value: &str) -> Result<(), NoMemory> {
        self.push_str(tag.lead)?;
        self.push_str(value)?;
        Ok(())
    }

    fn shown<T: Shows>(&mut self, tag: FieldTag, value: &T) -> Result<(), NoMemory> {
        self.push_str(tag.lead)?;
        value.push_to(self)
    }

    fn displayed<D: Display + Drop>(&mut self, tag: FieldTag, value: D) -> Result<(), NoMemory> {
        self.push_str(tag.lead)?;
        push_shown(value, self)
    }

    fn number(&mut self, tag: FieldTag, value: u64) -> Result<(), NoMemory> {
        self.push_str(tag.lead)?;
        push_decimal(value, self)
    }

    fn digits(&mut self, tag: FieldTag, value: &[u8]) -> Result<(), NoMemory> {
        self.push_str(tag.lead)?;
        push_digits(value, self)
    }

    fn data(&mut self, tag: FieldTag, value: &[u8]) -> Result<(), NoMemory> {
        self.push_str(tag.lead)?;
        push_data(value, self)
    }

    fn set(&mut self, tag: FieldTag, flags: &[Flag]) -> Result<(), NoMemory> {
        self.push_str(tag.lead)?;
        push_names(flags, self)
    }

    fn known(&mut self, tag: FieldTag, value: Option<u64>) -> Result<(), NoMemory> {
        self.push_str(tag.lead)?;
        match value {
            Some(value) => push_decimal(value, self),
            None => {
                self.push_str("?")?;
                Ok(())
            }
        }
    }

    fn range(&mut self, lead: &str, from: u64, to: u64) -> Result<(), NoMemory> {
        self.push_str(lead)?;
        push_decimal(from, self)?;
        self.push_str("-")?;
        push_decimal(to, self)
    }

    fn words(&mut self, words: &str) -> Result<(), NoMemory> {
        self.push_str(words)?;
        Ok(())
    }

    fn at(&mut self, _place: u64) -> Result<(), NoMemory> {
        Ok(())
    }

    fn begins(&mut self, _name: &str) -> Result<(), NoMemory> {
        Ok(())
    }

    fn ends(&mut self) -> Result<(), NoMemory> {
        Ok(())
    }

    fn part(&mut self, lead: &str) -> Result<(), NoMemory> {
        self.push_str(lead)?;
        Ok(())
    }

    fn part_ends(&mut self) -> Result<(), NoMemory> {
        Ok(())
    }

    fn line_ends(&mut self) -> Result<(), NoMemory> {
        self.push_str("\n")?;
        Ok(())
    }
}

/// Adds the names of the flags that are set, with `+` between them, or `none`.
fn push_names(flags: &[Flag], text: &mut String) -> Result<(), NoMemory>
    ensures added { OnOk result
        (string_bytes text.new ≡ string_bytes text.old ++ joined (names_of flags.now)) }
    ensures front { OnlyAdds (string_bytes text.old) (string_bytes text.new) }
{
    let mut none = true;
    for flag in flags {
        if flag.is_set {
            if !none {
                text.push_str("+")?;
            }
            text.push_str(flag.name)?;
            none = false;
        }
    }
    if none {
        text.push_str("none")?;
    }
    Ok(())
}
