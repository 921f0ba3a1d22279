//! Whether a table takes in another, or a fragment, under its limits.
ghost use Rattle.std.specs.Prelude.{◌≡◌, ◌≢◌, ◌↔◌, OnOk, IfErr, IsTrue, filter, slice_get, is_none, IfSome, MatchOption, ◌≤◌, ◌-◌, None, unwrap_or};
ghost use Rattle.std.specs.List.{list_all};
ghost use Rattle.std.specs.FinMap as maps;
ghost use Rattle.nb_entries.specs.Entry.{is_short};
ghost use Rattle.nb_table.specs.Limits.{every_key, held_keys, of_source};
ghost use Rattle.nb_table.specs.Merging.{AllShort, Fits, IsRefused, first_unfit as least_unfit, IsUnfitSource, SourcesFit, first_unfit};
ghost use Rattle.nb_table.specs.Insert.{Refuses, Takes};

use super::Table;
use crate::entries::{Entries, first_of};
use crate::fault::TableFault;
use nb_datagram::{Fragment, Key, LentFragment};

impl Table {
    /// Whether no entry is too long for the other limit.
    fn is_short(&self, longest: u16) -> bool
        ensures { IsTrue result ↔ AllShort longest self.now.contents }
    {
        are_short(&self.entries, longest)
    }

    /// The least key that doesn't fit when the other's keys are added, ascending.
    fn first_unfit(&self, other: &Table) -> Option<Key>
        ensures { result ≡ least_unfit self.now.limits.keys every_key
            self.now.contents other.now.contents }
    {
        let room = self.keys as usize - self.len();
        first_without_room(&self.entries, &other.entries, room)
    }

    /// Whether the other table can be merged into this one as far as the limits go. No memory is
    /// taken.
    ///
    /// # Errors
    ///
    /// `TooLong` where an entry of the other that isn't spoilt has a byte at or past this table's
    /// limit for a datagram, or ends or promises past it. Else `FullSource` with the least key
    /// that doesn't fit among those of its address: the first of the other's keys that are new
    /// here, ascending, at which as many keys of its address are held as may be. Else `Full` with
    /// the least key that doesn't fit: the first at which as many keys are held as may be in all.
    /// There is no other.
    pub fn fits(&self, other: &Table) -> Result<(), TableFault>
        ensures fits { OnOk result (Fits self.now.limits self.now.contents other.now.contents) }
        ensures fault { IfErr result (IsRefused self.now.limits self.now.contents
            other.now.contents) }
        ensures no_memory_needed { IfErr result (λ fault. fault ≢ TableFault.NoMemory) }
    {
        if !other.is_short(self.longest) {
            return Err(TableFault::TooLong);
        }
        let unfit = unfit_source(&self.entries, &other.entries, self.per_source);
        if let Some(key) = unfit {
            return Err(TableFault::FullSource(key));
        }
        match self.first_unfit(other) {
            Some(key) => Err(TableFault::Full(key)),
            None => Ok(()),
        }
    }

    /// Why [`Table::insert`] refuses a fragment, whatever memory there is; `None` where the table
    /// has room for it. No memory is taken.
    ///
    /// In this order: `MisplacedFirst` where the fragment says that it is the first one (F) at an
    /// offset other than 0, or doesn't say so at offset 0; `TooLong` where it reaches past the
    /// longest datagram, whatever is known of its key; `FullSource` with its key where that is new
    /// and as many keys of its address are held as may be; `Full` with it where it is new and as
    /// many keys are held as may be in all. There is no other (our choice). Where a key of any
    /// address has room, none is looked for.
    pub fn refusal_of(&self, fragment: &Fragment<'_>) -> Option<TableFault>
        ensures refusal { MatchOption result (Takes self.now fragment.now)
            (Refuses self.now fragment.now) }
        ensures no_memory_needed { IfSome result (λ fault. fault ≢ TableFault.NoMemory) }
    {
        self.refusal_of_lent(&fragment.lent())
    }

    /// Why the table refuses a fragment whose names are lent, as [`Table::refusal_of`] answers.
    pub fn refusal_of_lent(&self, fragment: &LentFragment<'_>) -> Option<TableFault>
        ensures refusal { MatchOption result (Takes self.now fragment.now)
            (Refuses self.now fragment.now) }
        ensures no_memory_needed { IfSome result (λ fault. fault ≢ TableFault.NoMemory) }
    {
        if fragment.is_first() != (fragment.offset() == 0) {
            return Some(TableFault::MisplacedFirst);
        }
        if fragment.reach() > u32::from(self.longest) {
            return Some(TableFault::TooLong);
        }
        if self.entries.len() < self.keys.min(self.per_source) as usize {
            return None;
        }
        let key = fragment.key();
        if self.entries.contains_key(&key) {
            return None;
        }
        if is_full_of(&self.entries, key.ip, self.per_source) {
            return Some(TableFault::FullSource(key));
        }
        if self.entries.len() >= self.keys as usize {
            return Some(TableFault::Full(key));
        }
        None
    }
}

/// Whether each entry is spoilt, or has its places below this one and ends and promises at most
/// there.
fn are_short(entries: &Entries, longest: u16) -> bool
    ensures { result ≡ list_all (λ e. is_short longest e.1) (maps.entries entries.now) }
{
    for (_key, entry) in entries.iter() {
        if !entry.is_short(longest) {
            return false;
        }
    }
    true
}

/// The first key of the others that the entries lack, once there is no room for one more.
fn first_without_room(entries: &Entries, others: &Entries, room: usize) -> Option<Key>
    ensures value { result ≡ slice_get (filter (λ k. is_none (maps.get entries.now k))
        (maps.keys others.now)) room }
{
    let mut left = room;
    for (key, _entry) in others.iter() {
        if entries.contains_key(key) {
            continue;
        }
        if left == 0 {
            return Some(*key);
        }
        left -= 1;
    }
    None
}

/// Whether as many keys of this address as may be are held. Where fewer keys are held in all, none
/// is looked at.
pub(crate) fn is_full_of(entries: &Entries, ip: [u8; 4], most: u32) -> bool
    ensures { IsTrue result ↔ (most ≤ held_keys (of_source ip) entries.now) }
{
    if entries.len() < most as usize {
        return false;
    }
    entries.room_of(ip, most) == 0
}

/// How many keys of this address may still be added: as known, or counted.
fn known_room(known: Option<u32>, entries: &Entries, ip: [u8; 4], most: u32) -> u32
    ensures { result ≡ unwrap_or known (most - held_keys (of_source ip) entries.now) }
{
    match known {
        Some(room) => room,
        None => entries.room_of(ip, most),
    }
}

/// The least key of this address that doesn't fit when those of the others are added, ascending,
/// where `most` may be held. How many are held is asked at the first key that is new.
fn unfit_of(entries: &Entries, others: &Entries, ip: [u8; 4], most: u32) -> Option<Key>
    ensures { result ≡ first_unfit most (of_source ip) entries.now others.now }
{
    let mut known = None;
    for (key, _entry) in others.range_from(first_of(ip)) {
        if key.ip != ip {
            return None;
        }
        if entries.contains_key(key) {
            continue;
        }
        let room = known_room(known, entries, ip, most);
        if room == 0 {
            return Some(*key);
        }
        known = Some(room - 1);
    }
    None
}

/// Whether the key before, if there is one, has the same address.
fn is_of_one(before: Option<Key>, key: Key) -> bool
    ensures { IsTrue result ↔ MatchOption before ⊥ (λ b. b.ip ≡ key.ip) }
{
    match before {
        Some(before) => before.ip == key.ip,
        None => false,
    }
}

/// The least of the others' keys that doesn't fit among those of its own address, where `most` of
/// one may be held. Each address is asked for once.
pub(crate) fn unfit_source(entries: &Entries, others: &Entries, most: u32) -> Option<Key>
    ensures unfit { IfSome result (IsUnfitSource most entries.now others.now) }
    ensures fit { result ≡ None → SourcesFit most entries.now others.now }
{
    if entries.len() as u64 + others.len() as u64 <= u64::from(most) {
        return None;
    }
    let mut before = None;
    for (key, _entry) in others.iter() {
        if is_of_one(before, *key) {
            continue;
        }
        if let Some(unfit) = unfit_of(entries, others, key.ip, most) {
            return Some(unfit);
        }
        before = Some(*key);
    }
    None
}
