//! Saved tables: joined, listed and compared.
#![tactic(auto, using(nb_calls::proofs::AnswerLemmas::answered))]

ghost use Rattle.nb_calls.specs.Tables.{Lists, ListsObjects, Merges, Compares, limits_with};
ghost use Rattle.nb_calls.specs.Outputs.{Fills, Writes, lent};

use nb_calls::output::{fill, write_answer};
use nb_calls::tables::{NbtDifference, compared, listed, merged};
use std::alloc::Global;

/// Writes the join of two saved tables, saved, where each of the three has room for so many keys,
/// and for so many of one address.
///
/// The form is our choice.
#[unsafe(no_mangle)]
pub extern "C" fn nbt_table_merge(
    alloc: Global,
    first: &[u8],
    second: &[u8],
    keys: u32,
    per_source: u32,
    into: &mut [u8],
    used: &mut usize,
    at: &mut usize,
) -> u32
    ensures { Writes (Merges first.now second.now (limits_with keys per_source 65535))
        (lent into.old used.old at.old) (lent into.new used.new at.new) result }
{
    let answer = merged(alloc, first, second, keys, per_source);
    write_answer(answer, into, used, at)
}

/// Writes the lines of a saved table's keys, as `nbt list` prints them.
///
/// The form is our choice.
#[unsafe(no_mangle)]
pub extern "C" fn nbt_table_list(
    alloc: Global,
    table: &[u8],
    into: &mut [u8],
    used: &mut usize,
    at: &mut usize,
) -> u32
    ensures { Writes (Lists table.now) (lent into.old used.old at.old)
        (lent into.new used.new at.new) result }
{
    write_answer(listed(alloc, table, false), into, used, at)
}

/// Writes the JSON objects of a saved table's keys, each a line, as `nbt list --json` prints them.
///
/// The form is our choice.
#[unsafe(no_mangle)]
pub extern "C" fn nbt_table_json(
    alloc: Global,
    table: &[u8],
    into: &mut [u8],
    used: &mut usize,
    at: &mut usize,
) -> u32
    ensures { Writes (ListsObjects table.now) (lent into.old used.old at.old)
        (lent into.new used.new at.new) result }
{
    write_answer(listed(alloc, table, true), into, used, at)
}

/// Finds the least key at which two saved tables differ, if they do.
///
/// The form is our choice.
#[unsafe(no_mangle)]
pub extern "C" fn nbt_table_differ(
    alloc: Global,
    first: &[u8],
    second: &[u8],
    difference: &mut NbtDifference,
    at: &mut usize,
) -> u32
    ensures { Fills (Compares first.now second.now)
        difference.old difference.new at.old at.new result }
{
    fill(compared(alloc, first, second), difference, at)
}
