//! Whether a key is whole, and its datagram.
ghost use Rattle.std.specs.Prelude.{◌≡◌, ◌↔◌, ◌<◌, ◌≤◌, IsTrue, IfOk, IsErrOf, Ok, Err, Some, None, slice_get, option_map, is_some, length, MatchResult};
ghost use Rattle.nb_datagram.specs.Fragment.{core_of, cores_of};
ghost use Rattle.nb_datagram.specs.declared.limits.TheConstants.{MAX_LENGTH};
ghost use Rattle.nb_table.specs.Conflict.{with_key};
ghost use Rattle.nb_table.specs.Contents.{cover_in, table_of, byte_at as list_byte, datagram_at, IsWholeAt};
ghost use Rattle.nb_entries.specs.Whole.{bytes_below as cover_bytes};
ghost use Rattle.nb_examples.specs.Plain.{IsLong, CoversBelow, datagram_to};

use super::conflicting::is_spoilt;
use super::{byte_at, end_of, has_key};
use nb_datagram::limits::MAX_LENGTH;
use nb_datagram::{Datagram, Fragment, Key};
use nb_streams::{Bytes, NoMemory};
use std::alloc::Global;

/// Why a datagram could not be given.
#[derive(Clone, Copy, Debug, PartialEq, Eq)]
pub enum PlainFault {
    /// The fragments make a datagram of more than 65,535 bytes.
    TooLong,
    /// Memory ran out.
    NoMemory,
}

impl From<NoMemory> for PlainFault {
    ghost use Rattle.std.specs.Prelude.{◌≡◌};
    ghost use Rattle.nb_examples.specs.declared.plain.whole.PlainFault.TheVariants.{NoMemory};

    ghost from_gives = { λ _ fault. fault ≡ NoMemory };

    fn from(_fault: NoMemory) -> PlainFault {
        PlainFault::NoMemory
    }
}

/// The first fragment with this key.
fn first_with<'a, 'b>(fragments: &'a [Fragment<'b>], key: &Key) -> Option<&'a Fragment<'b>>
    ensures { option_map (λ fragment. core_of fragment.now) result
        ≡ slice_get (with_key key.now (cores_of fragments.now)) 0 }
{
    for fragment in fragments {
        if has_key(fragment, key) {
            return Some(fragment);
        }
    }
    None
}

/// Whether the place is covered by a fragment with this key.
fn is_covered(fragments: &[Fragment<'_>], key: &Key, place: u32) -> bool
    ensures { result ≡ is_some (list_byte (cores_of fragments.now) key.now place) }
{
    byte_at(fragments, key, place).is_some()
}

/// Whether each place below the end is covered by a fragment with this key.
fn covers_below(fragments: &[Fragment<'_>], key: &Key, end: u32) -> bool
    ensures { IsTrue result ↔ CoversBelow (cores_of fragments.now) key.now end }
{
    for place in 0..end {
        if !is_covered(fragments, key, place) {
            return false;
        }
    }
    true
}

/// Whether the key is whole: it isn't spoilt, its end is known, and each place below it is covered.
pub fn is_whole(fragments: &[Fragment<'_>], key: &Key) -> bool
    ensures { IsTrue result ↔ IsWholeAt (table_of (cores_of fragments.now)) key.now }
{
    if is_spoilt(fragments, key) {
        return false;
    }
    match end_of(fragments, key) {
        Some(end) => covers_below(fragments, key, end),
        None => false,
    }
}

/// The bytes of the key at the places below the end, in order, if each has one.
fn bytes_below(
    alloc: Global,
    fragments: &[Fragment<'_>],
    key: &Key,
    end: u32,
) -> Result<Option<Bytes>, NoMemory>
    ensures { IfOk result (λ bytes.
        bytes ≡ cover_bytes (cover_in (with_key key.now (cores_of fragments.now))).bytes end) }
{
    let mut bytes = Vec::new(alloc);
    for place in 0..end {
        match byte_at(fragments, key, place) {
            Some(byte) => bytes.push(byte)?,
            None => return Ok(None),
        }
    }
    Ok(Some(Bytes::from_vec(bytes)))
}

/// The datagram of the key, with the kind and names of this fragment and these bytes.
fn datagram_from(first: &Fragment<'_>, key: &Key, bytes: Bytes) -> Datagram
    requires { length bytes ≤ MAX_LENGTH }
    ensures { result ≡ record {
      key = key.now;
      kind = first.now.kind;
      source = first.now.source;
      destination = first.now.destination;
      bytes = bytes;
    } }
{
    let source = first.source().copied();
    let destination = first.destination().copied();
    Datagram::new(*key, first.kind(), source, destination, bytes).unwrap()
}

/// The datagram of the key, with the kind and names of this fragment, if each place below the end
/// has a byte.
fn datagram_below(
    alloc: Global,
    fragments: &[Fragment<'_>],
    key: &Key,
    first: &Fragment<'_>,
    end: u32,
) -> Result<Option<Datagram>, NoMemory>
    requires { end ≤ MAX_LENGTH }
    ensures { IfOk result (λ datagram.
        datagram ≡ datagram_to (cores_of fragments.now) key.now (core_of first.now) end) }
{
    match bytes_below(alloc, fragments, key, end)? {
        Some(bytes) => Ok(Some(datagram_from(first, key, bytes))),
        None => Ok(None),
    }
}

/// The datagram of the key, if it is whole. Where it isn't, no memory is taken.
///
/// # Errors
///
/// `TooLong` where the key is whole and has more than 65,535 bytes; no memory is taken then.
/// `NoMemory` where memory ran out.
pub fn datagram(
    alloc: Global,
    fragments: &[Fragment<'_>],
    key: &Key,
) -> Result<Option<Datagram>, PlainFault>
    ensures found { IfOk result (λ datagram.
        datagram ≡ datagram_at (table_of (cores_of fragments.now)) key.now) }
    ensures too_long { IsErrOf result PlainFault.TooLong
        ↔ IsLong (datagram_at (table_of (cores_of fragments.now)) key.now) }
    ensures no_memory_needed { datagram_at (table_of (cores_of fragments.now)) key.now ≡ None
        → result ≡ Ok None }
{
    if !is_whole(fragments, key) {
        return Ok(None);
    }
    let Some(end) = end_of(fragments, key) else {
        return Ok(None);
    };
    let Some(first) = first_with(fragments, key) else {
        return Ok(None);
    };
    if end as usize > MAX_LENGTH {
        return Err(PlainFault::TooLong);
    }
    Ok(datagram_below(alloc, fragments, key, first, end)?)
}
