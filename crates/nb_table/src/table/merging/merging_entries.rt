//! The entries of another table joined to those of one, all or none, and what becomes whole by it.
ghost use Rattle.std.specs.Prelude.{◌≡◌, ◌≤◌, ◌++◌, [], length, Option, IfOk, OnOk, OnErr};
ghost use Rattle.std.specs.List.{cons_option, AllByRecursion};
ghost use Rattle.std.specs.Option.{option_copied};
ghost use Rattle.std.specs.FinMap as maps;
ghost use Rattle.nb_datagram.specs.declared.limits.TheConstants.{MAX_LENGTH};
ghost use Rattle.nb_datagram.specs.Fragment.{DatagramParts};
ghost use Rattle.nb_entries.specs.Maps.{joined_onto};
ghost use Rattle.nb_entries.specs.Entry.{join_entry, IsShort};
ghost use Rattle.nb_entries.specs.Change.{handed_by};
ghost use Rattle.nb_table.specs.Join.{join};
ghost use Rattle.nb_table.specs.Merging.{AllShort, newly_handed};
ghost use Rattle.nb_table.specs.Code.Each.{joined_each, handed, handed_at, with_entry, taken_back};

use super::others::{Other, Others};
use super::{put_noted, take_back};
use crate::entries::Entries;
use nb_datagram::{Datagram, Datagrams, Key};
use nb_entries::{Entry, Handing};
use nb_streams::NoMemory;
use std::alloc::Global;

/// Joins each of the others to the entry of its key, or none where memory ran out. The datagrams
/// of the keys that become whole by this, ascending, if they are handed over.
pub(super) fn merge_entries<O: Others>(
    alloc: Global,
    entries: &mut Entries,
    others: O,
    handing: Handing,
) -> Result<Datagrams, NoMemory>
    requires own { AllShort MAX_LENGTH entries.old }
    requires other { AllByRecursion (λ e. IsShort MAX_LENGTH e.1) (O.left others) }
    ensures joined { OnOk result (entries.new
        ≡ joined_each join_entry entries.old (O.left others)) }
    ensures handed { IfOk result (λ datagrams. datagrams
        ≡ handed handing entries.old (O.left others)) }
    ensures err { OnErr result (entries.new ≡ entries.old) }
{
    let mut changes = Vec::new(alloc);
    match join_each(alloc, entries, others, handing, &mut changes) {
        Ok(datagrams) => Ok(Datagrams::from_vec(datagrams)),
        Err(fault) => {
            take_back(entries, changes);
            Err(fault)
        }
    }
}

/// The datagrams of the keys that would become whole if the others were joined to the entries,
/// ascending.
pub(super) fn preview_entries(
    alloc: Global,
    entries: &Entries,
    others: &Entries,
) -> Result<Datagrams, NoMemory>
    requires own { AllShort MAX_LENGTH entries.now }
    requires other { AllShort MAX_LENGTH others.now }
    ensures { IfOk result (λ datagrams. datagrams
        ≡ newly_handed entries.now (join entries.now others.now)) }
{
    let mut datagrams = Vec::new(alloc);
    for (key, other) in others.iter() {
        let (_, datagram) = joined_at(alloc, entries, *key, other, Handing::Over)?;
        push_some(&mut datagrams, datagram)?;
    }
    Ok(Datagrams::from_vec(datagrams))
}

/// What is held of a key, if anything, joined with another entry: that one itself, where the key
/// is new.
fn joined_with<O: Other>(held: Option<&Entry>, other: O) -> Result<Entry, NoMemory>
    ensures { IfOk result (λ entry. entry ≡ joined_onto join_entry
        (option_copied held.entry) (O.value other)) }
{
    match held {
        Some(entry) => entry.joined(other.as_entry()),
        None => other.into_entry(),
    }
}

/// The join of another entry with that of its key, and the datagram, if the key becomes whole by
/// this and it is handed over.
fn joined_at<O: Other>(
    alloc: Global,
    entries: &Entries,
    key: Key,
    other: O,
    handing: Handing,
) -> Result<(Entry, Option<Datagram>), NoMemory>
    requires own { AllShort MAX_LENGTH entries.now }
    requires other { IsShort MAX_LENGTH (O.value other) }
    ensures entry { IfOk result (λ made. made.0 ≡ joined_onto join_entry
        (maps.get entries.now key) (O.value other)) }
    ensures datagram { IfOk result (λ made. made.1
        ≡ handed_at handing entries.now key (O.value other)) }
{
    let held = entries.get(&key);
    let joined = joined_with(held, other)?;
    let datagram = joined.handed(alloc, key, held, handing)?;
    Ok((joined, datagram))
}

/// Adds the datagram, if there is one.
fn push_some(datagrams: &mut Vec<Datagram>, datagram: Option<Datagram>) -> Result<(), NoMemory>
    ensures { OnOk result (datagrams.new.items ≡ datagrams.old.items ++ cons_option datagram []) }
{
    if let Some(datagram) = datagram {
        datagrams.push(datagram)?;
    }
    Ok(())
}

/// Joins another entry to that of its key, and notes what stood there before, and the datagram, if
/// the key becomes whole by this and it is handed over.
fn join_noted<O: Other>(
    entries: &mut Entries,
    key: Key,
    other: O,
    handing: Handing,
    changes: &mut Vec<(Key, Option<Entry>)>,
    datagrams: &mut Vec<Datagram>,
) -> Result<(), NoMemory>
    requires own { AllShort MAX_LENGTH entries.old }
    requires other { IsShort MAX_LENGTH (O.value other) }
    ensures joined { OnOk result (entries.new ≡ with_entry entries.old key (O.value other)) }
    ensures handed { OnOk result (datagrams.new.items ≡ datagrams.old.items ++ cons_option
        (handed_at handing entries.old key (O.value other)) []) }
    ensures noted { taken_back entries.new changes.new.items
        ≡ taken_back entries.old changes.old.items }
{
    let (joined, datagram) = joined_at(*datagrams.allocator(), entries, key, other, handing)?;
    put_noted(entries, key, joined, changes)?;
    push_some(datagrams, datagram)
}

/// Joins another entry to that of its key, in place where the key is held. The datagram, if the
/// key becomes whole by this and it is handed over.
fn join_in_place<O: Other>(
    alloc: Global,
    entries: &mut Entries,
    key: Key,
    other: O,
    handing: Handing,
) -> Result<Option<Datagram>, NoMemory>
    requires own { AllShort MAX_LENGTH entries.old }
    requires other { IsShort MAX_LENGTH (O.value other) }
    ensures joined { OnOk result (entries.new ≡ with_entry entries.old key (O.value other)) }
    ensures datagram { IfOk result (λ datagram. datagram
        ≡ handed_at handing entries.old key (O.value other)) }
    ensures err { OnErr result (entries.new ≡ entries.old) }
{
    match entries.get_mut(&key) {
        Some(entry) => entry.join_in_place(alloc, key, other.as_entry(), handing),
        None => {
            let (joined, datagram) = joined_at(alloc, entries, key, other, handing)?;
            entries.insert_new(key, joined)?;
            Ok(datagram)
        }
    }
}

/// How many datagrams are handed over of one key at most.
fn most_handed(handing: Handing) -> usize
    ensures { (datagram : Option DatagramParts)
        → length (cons_option (handed_by handing datagram) []) ≤ result }
{
    match handing {
        Handing::Over => 1,
        Handing::Kept => 0,
    }
}

/// Joins another entry to that of its key, in place where the key is held, and adds the datagram,
/// if the key becomes whole by this and it is handed over.
fn join_last<O: Other>(
    entries: &mut Entries,
    key: Key,
    other: O,
    handing: Handing,
    datagrams: &mut Vec<Datagram>,
) -> Result<(), NoMemory>
    requires own { AllShort MAX_LENGTH entries.old }
    requires other { IsShort MAX_LENGTH (O.value other) }
    ensures joined { OnOk result (entries.new ≡ with_entry entries.old key (O.value other)) }
    ensures handed { OnOk result (datagrams.new.items ≡ datagrams.old.items ++ cons_option
        (handed_at handing entries.old key (O.value other)) []) }
    ensures err { OnErr result (entries.new ≡ entries.old) }
{
    let alloc = *datagrams.allocator();
    datagrams.reserve(most_handed(handing))?;
    if let Some(datagram) = join_in_place(alloc, entries, key, other, handing)? {
        datagrams.push(datagram).unwrap();
    }
    Ok(())
}

/// Joins each of the others to the entry of its key, the last one in place, and notes what stood
/// at the keys of those before it. The datagrams of the keys that become whole by this, ascending,
/// if they are handed over.
fn join_each<O: Others>(
    alloc: Global,
    entries: &mut Entries,
    mut others: O,
    handing: Handing,
    changes: &mut Vec<(Key, Option<Entry>)>,
) -> Result<Vec<Datagram>, NoMemory>
    requires own { AllShort MAX_LENGTH entries.old }
    requires other { AllByRecursion (λ e. IsShort MAX_LENGTH e.1) (O.left others) }
    ensures joined { OnOk result (entries.new
        ≡ joined_each join_entry entries.old (O.left others)) }
    ensures handed { IfOk result (λ datagrams. datagrams.items
        ≡ handed handing entries.old (O.left others)) }
    ensures noted { OnErr result (taken_back entries.new changes.new.items
        ≡ taken_back entries.old changes.old.items) }
{
    let mut datagrams = Vec::new(alloc);
    let Some((mut key, mut other)) = others.next_entry() else {
        return Ok(datagrams);
    };
    while let Some((next_key, next)) = others.next_entry() {
        join_noted(entries, key, other, handing, changes, &mut datagrams)?;
        key = next_key;
        other = next;
    }
    join_last(entries, key, other, handing, &mut datagrams)?;
    Ok(datagrams)
}
