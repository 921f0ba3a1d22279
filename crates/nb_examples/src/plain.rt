//! The definitions' own program: what the table of a slice of fragments has at a key.
//!
//! For each question it looks at the whole slice again, so it is slow: a program keeps a
//! [`Table`](nb_table::Table). What it answers is what the definitions of nb_table's `specs/` say,
//! so that models can be compared with them.
ghost use Rattle.std.specs.Prelude.{◌≡◌, cond, None};
ghost use Rattle.nb_datagram.specs.Key.{same_key};
ghost use Rattle.nb_datagram.specs.Fragment.{core_of, cores_of, byte_of as core_byte, end_of_one as core_end};
ghost use Rattle.nb_entries.specs.Marks.{promise_of_one as core_promise, greater};
ghost use Rattle.nb_table.specs.Contents.{byte_at as list_byte, end_of as list_end, promise_of as list_promise};

mod conflicting;
mod whole;

pub use conflicting::is_spoilt;
use nb_datagram::{Fragment, Key};
pub use whole::{PlainFault, datagram, is_whole};

/// Whether a fragment has this key.
pub(crate) fn has_key(fragment: &Fragment<'_>, key: &Key) -> bool
    ensures { result ≡ same_key key.now fragment.now.key }
{
    fragment.key() == *key
}

/// The byte that a fragment has at a place, if it covers it.
pub(crate) fn byte_of(fragment: &Fragment<'_>, place: u32) -> Option<u8>
    ensures { result ≡ core_byte (core_of fragment.now) place }
{
    let offset = u32::from(fragment.offset());
    if place < offset {
        return None;
    }
    fragment.bytes().get((place - offset) as usize).copied()
}

/// Where a fragment ends, if it does.
pub(crate) fn end_of_one(fragment: &Fragment<'_>) -> Option<u32>
    ensures { result ≡ core_end (core_of fragment.now) }
{
    if fragment.has_more() {
        None
    } else {
        Some(fragment.reach())
    }
}

/// The place at which, or after which, a fragment promises a byte, if it does.
pub(crate) fn promise_of_one(fragment: &Fragment<'_>) -> Option<u32>
    ensures { result ≡ core_promise (core_of fragment.now) }
{
    if fragment.has_more() {
        Some(fragment.reach())
    } else {
        None
    }
}

/// The byte at a place, of a fragment with this key.
fn byte_with(fragment: &Fragment<'_>, key: &Key, place: u32) -> Option<u8>
    ensures { result ≡ cond (same_key key.now fragment.now.key)
        (core_byte (core_of fragment.now) place) None }
{
    if has_key(fragment, key) {
        byte_of(fragment, place)
    } else {
        None
    }
}

/// The end of a fragment with this key.
fn end_with(fragment: &Fragment<'_>, key: &Key) -> Option<u32>
    ensures { result ≡ cond (same_key key.now fragment.now.key)
        (core_end (core_of fragment.now)) None }
{
    if has_key(fragment, key) {
        end_of_one(fragment)
    } else {
        None
    }
}

/// The byte at a place of the first fragment with this key that covers it.
pub fn byte_at(fragments: &[Fragment<'_>], key: &Key, place: u32) -> Option<u8>
    ensures { result ≡ list_byte (cores_of fragments.now) key.now place }
{
    for candidate in fragments {
        if let Some(byte) = byte_with(candidate, key, place) {
            return Some(byte);
        }
    }
    None
}

/// The end of the first fragment with this key that ends.
pub fn end_of(fragments: &[Fragment<'_>], key: &Key) -> Option<u32>
    ensures { result ≡ list_end (cores_of fragments.now) key.now }
{
    for fragment in fragments {
        if let Some(end) = end_with(fragment, key) {
            return Some(end);
        }
    }
    None
}

/// What a fragment with this key promises.
fn promise_with(fragment: &Fragment<'_>, key: &Key) -> Option<u32>
    ensures { result ≡ cond (same_key key.now fragment.now.key)
        (core_promise (core_of fragment.now)) None }
{
    if has_key(fragment, key) {
        promise_of_one(fragment)
    } else {
        None
    }
}

/// The greater of two promises, or the one that there is.
fn greater_of(promise: Option<u32>, other: Option<u32>) -> Option<u32>
    ensures { result ≡ greater promise other }
{
    match (promise, other) {
        (Some(promise), Some(other)) => Some(promise.max(other)),
        (Some(promise), None) => Some(promise),
        (None, other) => other,
    }
}

/// The greatest of the places that fragments with this key promise: a byte follows there or after
/// it.
pub fn promise_of(fragments: &[Fragment<'_>], key: &Key) -> Option<u32>
    ensures { result ≡ list_promise (cores_of fragments.now) key.now }
{
    let mut promise = None;
    for fragment in fragments {
        promise = greater_of(promise, promise_with(fragment, key));
    }
    promise
}
