//! What stands at a length byte, and where chains of pointers end.
ghost use Rattle.nb_names.specs.Code.Kept.{Begins, LeadsTo, AreEnds};
ghost use Rattle.std.specs.Prelude.{◌≤◌, ℕ, List, length, take};

use crate::limits::{MAX_LABEL, POINTED_OFFSETS};

/// The lowest length byte that begins a pointer, with the bits 11 (RFC 1002 section 4.1).
const LOWEST_POINTER: usize = 192;

/// What a length byte begins.
#[derive(Clone, Copy)]
pub(crate) enum LengthByte {
    /// The length byte, or a byte that it promises, is missing.
    Cut,
    /// The end of the name.
    End,
    /// A label of this many bytes, which stand after it.
    Label(usize),
    /// Nothing: its first two bits are 01 or 10.
    Reserved,
    /// A pointer to this offset.
    Pointer(usize),
}

/// What the length byte at an offset begins.
pub(crate) fn length_byte_at(packet: &[u8], here: usize) -> LengthByte
    ensures { Begins packet.now here result }
{
    if packet.len() <= here {
        return LengthByte::Cut;
    }
    let first = packet[here] as usize;
    let behind = packet.len() - here - 1;
    if first == 0 {
        return LengthByte::End;
    }
    if first <= MAX_LABEL {
        return if behind < first {
            LengthByte::Cut
        } else {
            LengthByte::Label(first)
        };
    }
    if first < LOWEST_POINTER {
        return LengthByte::Reserved;
    }
    if behind == 0 {
        return LengthByte::Cut;
    }
    LengthByte::Pointer((first - LOWEST_POINTER) * 256 + packet[here + 1] as usize)
}

/// Writes the end of the chain from each offset to its place, and answers how many were written.
///
/// A pointer leads lower, so that the end from its target is already written.
pub(crate) fn find_ends(packet: &[u8], ends: &mut [u16]) -> usize
    ensures within { result ≤ length ends.new }
    ensures found { AreEnds packet.now (take result ends.new) }
{
    let count = ends.len().min(packet.len()).min(POINTED_OFFSETS);
    for at in 0..count {
        ends[at] = match length_byte_at(packet, at) {
            LengthByte::Pointer(target) if target < at => ends[target],
            _ => at as u16,
        };
    }
    count
}

/// The end of the chain from an offset; the offset itself, if it has no place.
pub(crate) fn end_from(ends: &[u16], at: usize) -> usize
    ensures { (packet : List ℕ) → AreEnds packet ends.now → LeadsTo packet at result }
{
    if at < ends.len() {
        ends[at] as usize
    } else {
        at
    }
}
