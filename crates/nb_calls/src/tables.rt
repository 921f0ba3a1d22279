//! Saved tables: joined, listed and compared.
ghost use Rattle.std.specs.Prelude.{◌≡◌, ◌≤◌, IfOk, MatchResult};
ghost use Rattle.nb_calls.specs.Common.{SECOND, listing};
ghost use Rattle.std.specs.FinMap as maps;
ghost use Rattle.nb_calls.specs.Tables.{Compares, IsLoaded, IsUnread, Merges, Narrows, NarrowsBy, OfOne, difference_of, limits_with, listed_as};

use crate::output::{Refusal, answer_of, load_refusal, table_refusal};
use crate::stations::LONGEST;
use crate::statuses::{NO_ROLE, SECOND};
use nb_datagram::Key;
use nb_member::{list_keys, list_objects};
use nb_streams::{Bytes, NoMemory};
use nb_table::{Table, load};
use std::alloc::Global;

/// The join of two saved tables, saved.
pub fn merged(
    alloc: Global,
    first: &[u8],
    second: &[u8],
    keys: u32,
    per_source: u32,
) -> Result<Bytes, Refusal>
    ensures { Merges first.now second.now (limits_with keys per_source 65535) result }
{
    let mut table = loaded(alloc, NO_ROLE, first, keys, per_source, LONGEST)?;
    let other = loaded(alloc, SECOND, second, keys, per_source, LONGEST)?;
    match table.take_in(other) {
        Err(fault) => Err(table_refusal(fault)),
        Ok(_) => answer_of(table.save()),
    }
}

/// What is listed of a saved table's keys: their objects, or their lines.
pub fn listed(alloc: Global, table: &[u8], json: bool) -> Result<Bytes, Refusal>
    ensures { OfOne table.now (listed_as json) result }
{
    let table = loaded(alloc, NO_ROLE, table, u32::MAX, u32::MAX, LONGEST)?;
    answer_of(listed_of(alloc, &table, json))
}

/// The objects of a table's keys, or their lines.
fn listed_of(alloc: Global, table: &Table, json: bool) -> Result<Bytes, NoMemory>
    ensures { IfOk result (λ bytes. bytes ≡ listed_as json table.now.contents) }
{
    if json {
        return Ok(Bytes::from_vec(list_objects(alloc, table)?));
    }
    lines_of(alloc, table)
}

/// The lines of a table's keys.
pub fn lines_of(alloc: Global, table: &Table) -> Result<Bytes, NoMemory>
    ensures { IfOk result (λ bytes. bytes ≡ listing table.now.contents) }
{
    let lines = list_keys(alloc, table)?;
    Ok(Bytes::from_vec(lines.into_bytes()))
}

/// Whether two tables differ, and the least key at which they do.
#[repr(C)]
#[derive(Clone, Copy, Default)]
pub struct NbtDifference {
    /// SOURCE_IP.
    pub address: u32,
    /// SOURCE_PORT.
    pub port: u16,
    /// DGM_ID.
    pub identifier: u16,
    /// 1 where the tables differ, else 0.
    pub differ: u8,
}

/// The least key at which two saved tables differ.
pub fn compared(alloc: Global, first: &[u8], second: &[u8]) -> Result<NbtDifference, Refusal>
    ensures { Compares first.now second.now result }
{
    let one = loaded(alloc, NO_ROLE, first, u32::MAX, u32::MAX, LONGEST)?;
    let other = loaded(alloc, SECOND, second, u32::MAX, u32::MAX, LONGEST)?;
    let least = least_of(&one, &one, &other, None);
    Ok(difference_of(least_of(&other, &one, &other, least)))
}

/// The numbers of the key at which tables differ.
fn difference_of(least: Option<Key>) -> NbtDifference
    ensures { result ≡ difference_of least }
{
    match least {
        None => NbtDifference::default(),
        Some(key) => NbtDifference {
            address: u32::from_be_bytes(key.ip),
            port: key.port,
            identifier: key.id,
            differ: 1,
        },
    }
}

/// The least of a key, if there is one, and of those of a table's keys at which two tables differ.
fn least_of(held: &Table, one: &Table, other: &Table, so_far: Option<Key>) -> Option<Key>
    ensures { NarrowsBy one.now.contents other.now.contents (maps.keys held.now.contents)
        so_far result }
{
    let mut least = so_far;
    for key in held.keys() {
        least = narrowed(one, other, key, least);
    }
    least
}

/// The lower of a key, if two tables differ at it, and of the least one so far.
fn narrowed(one: &Table, other: &Table, key: Key, least: Option<Key>) -> Option<Key>
    ensures { Narrows one.now.contents other.now.contents key least result }
{
    if one.same_at(other, &key) {
        return least;
    }
    match least {
        None => Some(key),
        Some(held) => Some(held.min(key)),
    }
}

/// The table of this role whose saved bytes these are, with these limits, which it keeps.
pub(crate) fn loaded(
    alloc: Global,
    role: u32,
    input: &[u8],
    keys: u32,
    per_source: u32,
    longest: u16,
) -> Result<Table, Refusal>
    requires { role ≤ SECOND }
    ensures { MatchResult result (IsLoaded input.now (limits_with keys per_source longest))
        (IsUnread role input.now (limits_with keys per_source longest)) }
{
    match load(alloc, input, keys, per_source, longest) {
        Ok(table) => {
            // For the clause; the call does nothing.
            let _count = table.len();
            Ok(table)
        }
        Err(fault) => Err(load_refusal(role, fault)),
    }
}
