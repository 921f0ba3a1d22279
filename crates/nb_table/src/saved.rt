//! Saved tables: their keys, how many of one address come, and digits written a part at a time.
//!
//! An input is judged where it stands, before any memory is taken.
ghost use Rattle.std.specs.Prelude.{◌≡◌, ◌↔◌, IsTrue, ◌≢◌, ◌++◌, [], ◌∷◌, ℕ, List, Some, None, MatchOption, OnOk, OnErr, refl};
ghost use Rattle.nb_datagram.specs.Header.{IsKey};
ghost use Rattle.nb_datagram.specs.declared.key.Key.{Key};
ghost use Rattle.nb_entries.specs.Sinks.{Puts};
ghost use Rattle.nb_entries.specs.SavedReading.{Field};
ghost use Rattle.nb_table.specs.Saved.{key_bytes, KeyAt, IsAfter, key_at as key_reading};
ghost use Rattle.nb_table.specs.Code.SavedTables.{SourcesSoFar};
ghost use Rattle.nb_table.specs.Code.Each.{Passes, Breaks};
ghost use Rattle.std.proofs.Common.{◌∙◌};
ghost use Rattle.nb_table.specs.Shared.TableLemmas.{passes_no_more, passes_more, breaks_first, breaks_later};

pub(crate) mod entries;

use arrayvec::ArrayVec;
use nb_datagram::Key;
use nb_entries::LoadFault;
use nb_entries::saved::ByteSink;
use nb_streams::numbers::number_16;
use nb_streams::output::write_digits;
use nb_streams::{Counted, DeviceFault};
use std::cmp::Ordering;
use std::io::Write;

/// The key in the eight bytes at an offset.
fn any_key(input: &[u8], at: usize) -> Result<(Key, usize), LoadFault>
    ensures { Field input.now at 8 (KeyAt input.now at) result }
{
    if input.len().saturating_sub(at) < 8 {
        return Err(LoadFault::Truncated);
    }
    let key = Key {
        ip: [input[at], input[at + 1], input[at + 2], input[at + 3]],
        port: number_16(input, at + 4),
        id: number_16(input, at + 6),
    };
    Ok((key, at + 8))
}

/// Whether a key is greater than the one before, if there is one.
fn is_after(before: Option<Key>, key: Key) -> bool
    ensures { IsTrue result ↔ IsAfter before key }
{
    match before {
        Some(before) => before.cmp(&key) == Ordering::Less,
        None => true,
    }
}

/// The key at an offset, which must be greater than the one before.
pub(crate) fn read_key(
    input: &[u8],
    before: Option<Key>,
    at: usize,
) -> Result<(Key, usize), LoadFault>
    ensures { key_reading input.now before at result }
{
    let (key, next) = any_key(input, at)?;
    if !is_after(before, key) {
        return Err(LoadFault::NotCanonical(at));
    }
    Ok((key, next))
}

/// Puts a key.
pub(crate) fn put_key<S: ByteSink>(sink: &mut S, key: Key) -> Result<(), S::Fault>
    ensures puts { Puts S.takes S.breaks sink.old sink.new (key_bytes key) result }
    ensures key { IsKey key }
{
    let ip = key.ip;
    let port = key.port.to_be_bytes();
    let id = key.id.to_be_bytes();
    sink.put(&[ip[0], ip[1], ip[2], ip[3], port[0], port[1], id[0], id[1]])
}

/// What was counted of the keys so far.
#[derive(Clone, Copy)]
pub(crate) struct Sources {
    /// Whether each address has as many keys as may be, or fewer.
    pub(crate) are_few: bool,
    /// How many more keys of the last one's address may come.
    pub(crate) room: u32,
}

impl Sources {
    /// Of no key.
    pub(crate) fn none() -> Sources
        ensures { (n : ℕ) → SourcesSoFar n [] None result }
    {
        Sources {
            are_few: true,
            room: 0,
        }
    }

    /// How many keys of this one's address may come, where `most` of one may.
    fn room_for(self, before: Option<Key>, key: Key, most: u32) -> u32
        ensures { MatchOption before (result ≡ most)
            (λ b. ((b.ip ≡ key.ip) → result ≡ self.room) × ((b.ip ≢ key.ip) → result ≡ most)) }
    {
        match before {
            Some(before) => { if before.ip == key.ip { self.room } else { most } }
            None => most,
        }
    }

    /// With a key after the one before, where at most `most` of one address may come.
    pub(crate) fn with(self, before: Option<Key>, key: Key, most: u32) -> Sources
        ensures { (ks : List Key) → SourcesSoFar most ks before self → IsAfter before key
            → SourcesSoFar most (ks ++ key ∷ []) (Some key) result }
    {
        let room = self.room_for(before, key, most);
        Sources {
            are_few: self.are_few && room > 0,
            room: room.saturating_sub(1),
        }
    }
}

/// How many bytes' digits are written at a time.
const PART: usize = 256;

/// The bytes that wait until there are enough for a write.
pub(crate) type Part = ArrayVec<u8, PART>;

/// A writer to which the digits of bytes go, and the bytes that wait.
#[derive(Drop)]
pub(crate) struct DigitsSink<'a, W> {
    pub(crate) writer: &'a mut Counted<W>,
    pub(crate) part: Part,
}

impl<'a, W: Write> DigitsSink<'a, W> {
    /// Writes the digits of the bytes that wait.
    pub(crate) fn write_out(&mut self) -> Result<(), DeviceFault>
        ensures passes { OnOk result (Passes W.contents self.old.writer.now self.new.writer.now
            self.old.part.items []) }
        ensures breaks { OnErr result (Breaks W.contents self.old.writer.now self.new.writer.now
            self.old.part.items) }
        ensures same { self.new.writer.ghost_name ≡ self.old.writer.ghost_name }
    {
        write_out(self.writer, &mut self.part)
    }
}

impl<'a, W: Write> ByteSink for DigitsSink<'a, W> {
    type Fault = DeviceFault;

    ghost takes = { λ old new bytes.
        Passes W.contents old.writer.now new.writer.now (old.part.items ++ bytes) new.part.items
        × (new.writer.ghost_name ≡ old.writer.ghost_name) };

    ghost breaks = { λ old new bytes.
        Breaks W.contents old.writer.now new.writer.now (old.part.items ++ bytes)
        × (new.writer.ghost_name ≡ old.writer.ghost_name) };

    ghost laws = { record {
      none = λ a. (passes_no_more W.contents a.writer.now a.part.items, refl);
      more = λ a b c xs ys p q. (
        passes_more a.writer.now b.writer.now c.writer.now
            a.part.items b.part.items c.part.items xs ys p.0 q.0,
        q.1 ∙ p.1,
      );
      wider = λ a b xs ys p. (breaks_first a.writer.now b.writer.now a.part.items xs ys p.0, p.1);
      later = λ a b c xs ys p q. (
        breaks_later a.writer.now b.writer.now c.writer.now
            a.part.items b.part.items xs ys p.0 q.0,
        q.1 ∙ p.1,
      );
    } };

    #[inline]
    fn put(&mut self, bytes: &[u8]) -> Result<(), DeviceFault> {
        put(self.writer, &mut self.part, bytes)
    }
}

/// Writes the digits of the bytes that wait.
fn write_out<W: Write>(writer: &mut Counted<W>, part: &mut Part) -> Result<(), DeviceFault>
    ensures passes { OnOk result (Passes W.contents writer.old writer.new part.old.items []) }
    ensures empty { OnOk result (part.new.items ≡ []) }
    ensures breaks { OnErr result (Breaks W.contents writer.old writer.new part.old.items) }
{
    write_digits(writer, part.as_slice())?;
    part.clear();
    Ok(())
}

/// Puts bytes after those that wait. Each time that there are enough, their digits are written.
fn put<W: Write>(writer: &mut Counted<W>, part: &mut Part, bytes: &[u8]) -> Result<(), DeviceFault>
    ensures passes { OnOk result (Passes W.contents writer.old writer.new
        (part.old.items ++ bytes.now) part.new.items) }
    ensures breaks { OnErr result (Breaks W.contents writer.old writer.new
        (part.old.items ++ bytes.now)) }
{
    let mut rest = bytes;
    'parts: while rest.len() > part.remaining_capacity() {
        let (front, behind) = rest.split_at(part.remaining_capacity());
        part.try_extend_from_slice(front).unwrap();
        write_out(writer, part)?;
        rest = behind;
    }
    part.try_extend_from_slice(rest).unwrap();
    Ok(())
}
