//! Whether two fragments contradict each other, and whether a key is spoilt.
ghost use Rattle.std.specs.Prelude.{◌≡◌, ◌↔◌, ◌&&◌, IsTrue};
ghost use Rattle.std.specs.List.{list_any};
ghost use Rattle.nb_datagram.specs.Key.{same_key};
ghost use Rattle.nb_datagram.specs.Fragment.{core_of, cores_of, byte_of as core_byte, end_of_one as core_end};
ghost use Rattle.nb_table.specs.Conflict.{Overlap, PastEnd, BreaksPromise, Conflict, IsSpoilt, conflicts, with_key};
ghost use Rattle.nb_examples.specs.Plain.{differ, SameNames, SameHeader};

use super::{byte_of, end_of_one, has_key, promise_of_one};
use nb_datagram::{Fragment, Key};

/// Whether both fragments cover a place, with different bytes.
fn differ_at(one: &Fragment<'_>, other: &Fragment<'_>, place: u32) -> bool
    ensures { result ≡ differ (core_byte (core_of one.now) place)
        (core_byte (core_of other.now) place) }
{
    match (byte_of(one, place), byte_of(other, place)) {
        (Some(byte), Some(other_byte)) => byte != other_byte,
        _ => false,
    }
}

/// Whether there is a place that both fragments cover, with different bytes.
fn bytes_differ(one: &Fragment<'_>, other: &Fragment<'_>) -> bool
    ensures { IsTrue result ↔ Overlap (core_of one.now) (core_of other.now) }
{
    for place in 0..one.reach() {
        if differ_at(one, other, place) {
            return true;
        }
    }
    false
}

/// Whether both fragments end, at different places.
fn ends_differ(one: &Fragment<'_>, other: &Fragment<'_>) -> bool
    ensures { result ≡ differ (core_end (core_of one.now)) (core_end (core_of other.now)) }
{
    match (end_of_one(one), end_of_one(other)) {
        (Some(end), Some(other_end)) => end != other_end,
        _ => false,
    }
}

/// Whether the other fragment covers a place at or past the end of this one.
fn passes_end(one: &Fragment<'_>, other: &Fragment<'_>) -> bool
    ensures { IsTrue result ↔ PastEnd (core_of one.now) (core_of other.now) }
{
    match end_of_one(one) {
        Some(end) => !other.bytes().is_empty() && end < other.reach(),
        None => false,
    }
}

/// Whether this fragment ends at or before the place at which, or after which, the other promises
/// a byte.
fn breaks_promise(one: &Fragment<'_>, other: &Fragment<'_>) -> bool
    ensures { IsTrue result ↔ BreaksPromise (core_of one.now) (core_of other.now) }
{
    match (end_of_one(one), promise_of_one(other)) {
        (Some(end), Some(promise)) => end <= promise,
        _ => false,
    }
}

/// Whether two fragments have the same names.
fn same_names(one: &Fragment<'_>, other: &Fragment<'_>) -> bool
    ensures { IsTrue result ↔ SameNames (core_of one.now) (core_of other.now) }
{
    *one.source() == *other.source() && *one.destination() == *other.destination()
}

/// Whether two fragments have the same kind and names.
fn same_header(one: &Fragment<'_>, other: &Fragment<'_>) -> bool
    ensures { IsTrue result ↔ SameHeader (core_of one.now) (core_of other.now) }
{
    one.kind() == other.kind() && same_names(one, other)
}

/// Whether two fragments contradict each other.
fn conflict(one: &Fragment<'_>, other: &Fragment<'_>) -> bool
    ensures { IsTrue result ↔ Conflict (core_of one.now) (core_of other.now) }
{
    if !same_header(one, other) {
        return true;
    }
    if bytes_differ(one, other) {
        return true;
    }
    if ends_differ(one, other) {
        return true;
    }
    if passes_end(one, other) {
        return true;
    }
    if passes_end(other, one) {
        return true;
    }
    if breaks_promise(one, other) {
        return true;
    }
    breaks_promise(other, one)
}

/// Whether the other fragment has this key, and the two contradict each other.
fn conflict_with(one: &Fragment<'_>, other: &Fragment<'_>, key: &Key) -> bool
    ensures { result ≡ (same_key key.now other.now.key
        && conflicts (core_of one.now) (core_of other.now)) }
{
    has_key(other, key) && conflict(one, other)
}

/// Whether the fragment contradicts one of the others that have this key.
fn conflict_with_some(one: &Fragment<'_>, others: &[Fragment<'_>], key: &Key) -> bool
    ensures { result ≡ list_any (conflicts (core_of one.now))
        (with_key key.now (cores_of others.now)) }
{
    for other in others {
        if conflict_with(one, other, key) {
            return true;
        }
    }
    false
}

/// Whether the fragment has this key, and contradicts one of the others that have it.
fn spoils(one: &Fragment<'_>, others: &[Fragment<'_>], key: &Key) -> bool
    ensures { result ≡ (same_key key.now one.now.key
        && list_any (conflicts (core_of one.now)) (with_key key.now (cores_of others.now))) }
{
    has_key(one, key) && conflict_with_some(one, others, key)
}

/// Whether the key is spoilt: two of the fragments have it and contradict each other.
pub fn is_spoilt(fragments: &[Fragment<'_>], key: &Key) -> bool
    ensures { IsTrue result ↔ IsSpoilt (cores_of fragments.now) key.now }
{
    for (index, fragment) in fragments.iter().enumerate() {
        if spoils(fragment, &fragments[index + 1..], key) {
            return true;
        }
    }
    false
}
