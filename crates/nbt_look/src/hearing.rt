//! What the fields of a packet say: whether it has a name that is wanted, and what
//! says of which kinds it is.
ghost use Rattle.std.specs.Prelude.{◌≡◌, IfOk};
ghost use Rattle.std.specs.List.{list_any};
ghost use Rattle.nb_telling.specs.Texts.{names_of};
ghost use Rattle.nbt_look.specs.Hearing.{IsHeard, has_conflict, sets_conflict};
ghost use Rattle.nbt_look.specs.Naming.{is_of_names, is_wanted_name, means};

use nb_streams::{Bytes, NoMemory, push_shown};
use nb_telling::{FieldTag, Flag, Shows, Sink};
use nb_text::tell_front;
use std::alloc::Global;
use std::fmt::Display;
use std::marker::Model;

/// What was heard of the fields of a packet that were told.
#[derive(Clone, Copy)]
pub struct Heard {
    /// Whether there is a name that is wanted.
    pub is_named: bool,
    /// Whether a question or record is of a node's status.
    pub status: bool,
    /// Whether a node's status says that a name is in conflict.
    pub conflict: bool,
}

/// A sink that hears this, where these names are wanted.
#[derive(Drop)]
struct HearingSink<'a> {
    wanted: &'a [Bytes],
    heard: Heard,
    scratch: String,
}

impl<'a> Model for HearingSink<'a> {
    ghost use Rattle.nbt_look.specs.Hearing.{Hearing};

    ghost Value = { Hearing };

    ghost view = { λ s. record { wanted = s.wanted.now; heard = s.heard } };
}

impl<'a> Sink for HearingSink<'a> {
    type Seen = HearingSink<'a>;

    ghost use Rattle.std.specs.Prelude.{⊤};
    ghost use Rattle.nbt_look.specs.Hearing.{hears};

    ghost seen = { λ sink. sink };

    ghost after = { hears };

    ghost is_front = { λ _ _. ⊤ };

    fn text(&mut self, tag: FieldTag, value: &str) -> Result<(), NoMemory> {
        self.heard.is_named = is_wanted_name(self.wanted, tag.name, value.as_bytes())
            || self.heard.is_named;
        Ok(())
    }

    fn shown<T: Shows>(&mut self, tag: FieldTag, value: &T) -> Result<(), NoMemory> {
        self.scratch.clear();
        value.push_to(&mut self.scratch)?;
        self.heard.is_named = is_wanted_name(self.wanted, tag.name, self.scratch.as_bytes())
            || self.heard.is_named;
        Ok(())
    }

    fn displayed<D: Display + Drop>(&mut self, tag: FieldTag, value: D) -> Result<(), NoMemory> {
        self.scratch.clear();
        push_shown(value, &mut self.scratch)?;
        self.heard.is_named = is_wanted_name(self.wanted, tag.name, self.scratch.as_bytes())
            || self.heard.is_named;
        Ok(())
    }

    fn number(&mut self, _tag: FieldTag, _value: u64) -> Result<(), NoMemory> {
        Ok(())
    }

    fn digits(&mut self, tag: FieldTag, value: &[u8]) -> Result<(), NoMemory> {
        // NBSTAT, the type of a node's status (RFC 1002 section 4.2.1.3).
        let is_status = tag.name == "type" && value == b"\x00\x21".as_slice();
        self.heard.status = is_status || self.heard.status;
        Ok(())
    }

    fn data(&mut self, _tag: FieldTag, _value: &[u8]) -> Result<(), NoMemory> {
        Ok(())
    }

    fn set(&mut self, tag: FieldTag, flags: &[Flag]) -> Result<(), NoMemory> {
        let is_conflict = tag.name == "set" && has_conflict(flags);
        self.heard.conflict = is_conflict || self.heard.conflict;
        Ok(())
    }

    fn known(&mut self, _tag: FieldTag, _value: Option<u64>) -> Result<(), NoMemory> {
        Ok(())
    }

    fn range(&mut self, _lead: &str, _from: u64, _to: u64) -> Result<(), NoMemory> {
        Ok(())
    }

    fn words(&mut self, _words: &str) -> Result<(), NoMemory> {
        Ok(())
    }

    fn at(&mut self, _place: u64) -> Result<(), NoMemory> {
        Ok(())
    }

    fn begins(&mut self, _name: &str) -> Result<(), NoMemory> {
        Ok(())
    }

    fn ends(&mut self) -> Result<(), NoMemory> {
        Ok(())
    }

    fn part(&mut self, _lead: &str) -> Result<(), NoMemory> {
        Ok(())
    }

    fn part_ends(&mut self) -> Result<(), NoMemory> {
        Ok(())
    }

    fn line_ends(&mut self) -> Result<(), NoMemory> {
        Ok(())
    }
}

/// Whether the flag of a name in conflict is set (RFC 1002 section 4.2.18).
fn has_conflict(flags: &[Flag]) -> bool
    ensures { result ≡ has_conflict (names_of flags.now) }
{
    sets_conflict(flags)
}

/// Whether one of these flags is that of a name in conflict, and set.
fn sets_conflict(flags: &[Flag]) -> bool
    ensures { result ≡ list_any sets_conflict flags.now }
{
    flags.iter().any(|flag| flag.is_set && flag.name == "CNF")
}

/// Whether a name of a field with this tag is wanted: one of these, where the tag is one of names.
fn is_wanted_name(wanted: &[Bytes], tag: &str, name: &[u8]) -> bool
    ensures { result ≡ is_wanted_name wanted.now tag.now name.now }
{
    is_of_names(tag) && is_among(wanted, name)
}

/// Whether one of these is meant by a name.
fn is_among(wanted: &[Bytes], name: &[u8]) -> bool
    ensures { result ≡ list_any (λ one. means one name.now) wanted.now }
{
    wanted.iter().any(|one| means(one.as_slice(), name))
}

/// Whether fields with this tag have names.
fn is_of_names(tag: &str) -> bool
    ensures { result ≡ is_of_names tag.now }
{
    matches!(
        tag,
        "name" | "source" | "destination" | "called" | "calling"
    )
}

/// Whether a wanted name is this one, or what stands in it before a `<`, whatever the case of their
/// letters.
fn means(wanted: &[u8], name: &[u8]) -> bool
    ensures { result ≡ means wanted.now name.now }
{
    wanted.eq_ignore_ascii_case(name)
        || (wanted.len() < name.len()
            && name[wanted.len()] == b'<'
            && wanted.eq_ignore_ascii_case(&name[..wanted.len()]))
}

/// What is heard of a payload that came to a port, as far as it still stands, where these names are
/// wanted.
pub fn hear(alloc: Global, wanted: &[Bytes], port: u16, payload: &[u8]) -> Result<Heard, NoMemory>
    ensures { IfOk result (IsHeard wanted.now payload.now port) }
{
    let mut sink = HearingSink {
        wanted,
        heard: Heard {
            is_named: false,
            status: false,
            conflict: false,
        },
        scratch: String::new(alloc),
    };
    tell_front(port, payload, &mut sink)?;
    Ok(sink.heard)
}
