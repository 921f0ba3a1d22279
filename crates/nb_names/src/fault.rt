//! Why labels, names and texts were refused.
ghost use Rattle.std.specs.Prelude.{◌≡◌, Some};
ghost use Rattle.nb_names.specs.FaultTexts.{name_fault_place, name_fault_words, name_fault_text};
ghost use Rattle.nb_names.specs.TextFaults.{text_fault_text};

use std::error::Error;
use std::{error, fmt};
use thiserror::Error;

/// Why no name was read at an offset.
///
/// Each number but the last is an offset in bytes from the packet's start. A reading ends at the
/// first length byte with which something is wrong; if several things are, the one that stands
/// first here is answered.
#[derive(Clone, Copy, Debug, PartialEq, Eq)]
pub enum NameFault {
    /// The packet ends before a length byte, or inside a label or a pointer. The number is where it
    /// ends, or where the name was to begin if that is later.
    Truncated(usize),
    /// The first bits of the length byte here are 01 or 10, which mean nothing yet (RFC 1002
    /// section 4.1).
    ReservedLabel(usize),
    /// The length byte here begins a pointer, and pointers are refused.
    PointerNotAllowed(usize),
    /// The pointer here doesn't go back before the stretch that holds it (our choice).
    BadPointer(usize),
    /// The label here makes the spelling longer than 255 bytes, counted with its zero byte.
    TooLong(usize),
    /// Labels were read, but no NetBIOS name has them. The number is a place in their spelling, not
    /// in the packet: 0 unless the first label has 32 bytes, and then that of its first byte that
    /// is none of `A` to `P`.
    NotNetbios(usize),
}

impl NameFault {
    /// The number with which its text ends: an offset in bytes from the packet's start, but for
    /// [`NameFault::NotNetbios`].
    pub fn place(self) -> usize
        ensures { result ≡ name_fault_place self }
    {
        match self {
            NameFault::Truncated(at)
            | NameFault::ReservedLabel(at)
            | NameFault::PointerNotAllowed(at)
            | NameFault::BadPointer(at)
            | NameFault::TooLong(at)
            | NameFault::NotNetbios(at) => at,
        }
    }

    /// What is wrong, in words: its text without the place.
    pub fn words(self) -> &'static str
        ensures { result.now ≡ name_fault_words self }
    {
        match self {
            NameFault::Truncated(_) => "truncated",
            NameFault::ReservedLabel(_) => "reserved label",
            NameFault::PointerNotAllowed(_) => "pointer not allowed",
            NameFault::BadPointer(_) => "bad pointer",
            NameFault::TooLong(_) => "too long",
            NameFault::NotNetbios(_) => "not netbios",
        }
    }
}

impl fmt::Display for NameFault {
    ghost output = { λ fault. Some (name_fault_text fault) };

    fn fmt<W: fmt::Write>(&self, f: &mut fmt::Formatter<W>) -> fmt::Result {
        f.write_str(self.words())?;
        write!(f, " {}", self.place())
    }
}

impl error::Error for NameFault {}

/// Why a label could not be added to a name. Where several apply, the first in this order is
/// reported.
#[derive(Clone, Copy, Debug, PartialEq, Eq, Error)]
pub enum LabelFault {
    /// The label has no bytes.
    #[error("empty label")]
    EmptyLabel,
    /// The label has more than 63 bytes.
    #[error("label too long")]
    LabelTooLong,
    /// With this label the spelling would pass the name's limit: 255 bytes, or 222 in a scope.
    #[error("name too long")]
    TooLong,
}

/// Why a text is no NetBIOS name's. Where both apply, the first is answered.
#[derive(Clone, Copy, Debug, PartialEq, Eq)]
pub enum TextFault {
    /// The text hasn't the form of a name's text. The place, in bytes from its start, is the length
    /// of the longest front of the text that some text of the form begins with.
    BadText(usize),
    /// More than fifteen bytes stand before `<`, a label has more than 63, or the scope's spelling
    /// more than 222.
    TooLong,
}

impl fmt::Display for TextFault {
    ghost output = { λ fault. Some (text_fault_text fault) };

    fn fmt<W: fmt::Write>(&self, f: &mut fmt::Formatter<W>) -> fmt::Result {
        match self {
            TextFault::BadText(at) => write!(f, "bad text {at}"),
            TextFault::TooLong => f.write_str("too long"),
        }
    }
}

impl Error for TextFault {}
