//! A table's entries by key, which carry how many keys each address has. Where that isn't kept, the
//! keys are looked at: they ascend by address first, so those of one address stand together.
ghost use Rattle.std.specs.Prelude.{◌≡◌, ◌↔◌, ◌<◌, ◌≤◌, ◌-◌, Some, IsTrue, IfOk, IfSome, OnOk, OnErr};
ghost use Rattle.std.specs.Option.{option_copied, option_copied_mut};
ghost use Rattle.std.specs.Borrow.{sem};
ghost use Rattle.std.specs.BTreeMap.Range.{entries_between};
ghost use Rattle.std.specs.declared.ops.Bound.TheVariants.{Included, Unbounded};
ghost use Rattle.std.specs.FinMap as maps;
ghost use Rattle.nb_datagram.specs.Key.{key_cmp};
ghost use Rattle.nb_datagram.specs.Fragment.{core_of, reach};
ghost use Rattle.nb_datagram.specs.declared.limits.TheConstants.{MAX_LENGTH};
ghost use Rattle.nb_entries.specs.Maps.{joined_onto};
ghost use Rattle.nb_entries.specs.declared.slot.Slot.TheVariants.{Held};
ghost use Rattle.nb_entries.specs.Entry.{EntryValue, facts_of, join_entry, IsShort};
ghost use Rattle.nb_entries.specs.Change.{Tells};
ghost use Rattle.nb_table.specs.Insert.{NeedsNoMemory};
ghost use Rattle.nb_table.specs.Limits.{held_keys, of_source};
ghost use Rattle.nb_table.specs.Code.SourceCounts.{Adds, Takes, count_of};
ghost use Rattle.nb_table.specs.Code.Each.{LendsEntry};

mod counts;

pub(crate) use counts::SourceCounts;
use nb_datagram::{Key, LentFragment, UserData};
use nb_entries::{Change, Entry, Handing};
use nb_streams::NoMemory;
use std::alloc::Global;
use std::collections::{BTreeMap, btree_map};
use std::marker::Model;

/// Entries by key, and how many keys each address has, where that is kept beside them.
#[derive(Drop)]
pub(crate) struct Entries {
    map: BTreeMap<Key, Entry>,
    counts: Option<SourceCounts>,
}

impl Model for Entries {
    ghost use Rattle.std.specs.FinMap as maps;
    ghost use Rattle.nb_datagram.specs.Key.{key_cmp};
    ghost use Rattle.nb_table.specs.Contents.{Contents};
    ghost use Rattle.nb_table.specs.Codes.{contents_code};
    ghost use Rattle.nb_table.specs.Code.SourceCounts.{AreCounted};

    ghost Value = { Contents };

    ghost coded = { contents_code };

    ghost view = { λ e. maps.from_entries {R = key_cmp} e.map.entries };

    ghost invariant = { λ e.
        AreCounted e.counts (maps.from_entries {R = key_cmp} e.map.entries) };
}

impl Entries {
    /// No entry. No memory is taken.
    pub(crate) fn new(alloc: Global, are_counted: bool) -> Entries
        ensures { result ≡ maps.empty }
    {
        Entries {
            map: BTreeMap::new(alloc),
            counts: no_counts(alloc, are_counted),
        }
    }

    /// How many there are.
    pub(crate) fn len(&self) -> usize
        ensures count { result ≡ maps.len self.now }
        ensures small { result < 9223372036854775808 }
    {
        self.map.len()
    }

    /// Whether a key is held.
    pub(crate) fn contains_key(&self, key: &Key) -> bool
        ensures { result ≡ maps.contains_key self.now key.now }
    {
        self.map.contains_key(key)
    }

    /// The entry of a key.
    pub(crate) fn get(&self, key: &Key) -> Option<&Entry>
        ensures { option_copied result ≡ maps.get self.now key.now }
    {
        self.map.get(key)
    }

    /// The entry of a key, to be changed in place. The keys, and so what is counted, stay.
    pub(crate) fn get_mut(&mut self, key: &Key) -> Option<&mut Entry>
        ensures* writes_back { sem 𝓛 (LendsEntry self.entry key.now result) }
        ensures value { option_copied_mut result ≡ maps.get self.old key.now }
    {
        self.map.get_mut(key)
    }

    /// Puts in the entry of a key, in the place of the one that is held. The one that was held.
    /// Where memory runs out, the entries stay as they were.
    pub(crate) fn insert(&mut self, key: Key, entry: Entry) -> Result<Option<Entry>, NoMemory>
        ensures before { IfOk result (λ before. before ≡ maps.get self.old key) }
        ensures inserted { OnOk result (self.new ≡ maps.insert self.old key entry) }
        ensures kept { OnErr result (self.new ≡ self.old) }
    {
        // For the proof alone: a map's length is below 2^63, and so is each count.
        let _len = self.map.len();
        let before = self.map.insert(key, entry)?;
        if before.is_some() {
            return Ok(before);
        }
        match count_more(&mut self.counts, key.ip) {
            Ok(()) => Ok(None),
            Err(fault) => {
                self.map.remove(&key);
                Err(fault)
            }
        }
    }

    /// Puts in the entry of a new key. Where memory runs out, the entries stay as they were.
    pub(crate) fn insert_new(&mut self, key: Key, entry: Entry) -> Result<(), NoMemory>
        ensures inserted { OnOk result (self.new ≡ maps.insert self.old key entry) }
        ensures kept { OnErr result (self.new ≡ self.old) }
    {
        self.insert(key, entry)?;
        Ok(())
    }

    /// Takes a key's entry out. No memory is taken.
    pub(crate) fn remove(&mut self, key: &Key) -> Option<Entry>
        ensures value { result ≡ maps.get self.old key.now }
        ensures removed { self.new ≡ maps.remove self.old key.now }
    {
        let entry = self.map.remove(key);
        if entry.is_some() {
            count_less(&mut self.counts, key.ip);
        }
        entry
    }

    /// How many keys of this address may still be added, where `most` may be held: by the counts,
    /// where they are kept.
    pub(crate) fn room_of(&self, ip: [u8; 4], most: u32) -> u32
        ensures { result ≡ most - held_keys (of_source ip) self.now }
    {
        match &self.counts {
            Some(counts) => u64::from(most).saturating_sub(counts.of(ip)) as u32,
            None => room_by_keys(&self.map, ip, most),
        }
    }

    /// Whether the others have the same entries at the same keys.
    pub(crate) fn same(&self, others: &Entries) -> bool
        ensures { IsTrue result ↔ (self.now ≡ others.now) }
    {
        are_equal(&self.map, &others.map)
    }

    /// The keys, ascending.
    pub(crate) fn keys(&self) -> btree_map::Keys<'_, Key, Entry>
        ensures { result ≡ maps.keys self.now }
    {
        self.map.keys()
    }

    /// The keys and their entries, ascending, taken out.
    pub(crate) fn into_iter(self) -> btree_map::IntoIter<Key, Entry>
        ensures { result ≡ maps.entries self }
    {
        self.map.into_iter()
    }

    /// The keys and their entries, ascending.
    pub(crate) fn iter(&self) -> btree_map::Iter<'_, Key, Entry>
        ensures { result ≡ maps.entries self.now }
    {
        self.map.iter()
    }

    /// The keys from this one on and their entries, ascending.
    pub(crate) fn range_from(&self, key: Key) -> btree_map::Range<'_, Key, Entry>
        ensures { result
            ≡ entries_between key_cmp (Included key) Unbounded (maps.entries self.now) }
    {
        self.map.range(key..)
    }

    /// The entries as a map, to be read.
    pub(crate) fn as_map(&self) -> &BTreeMap<Key, Entry>
        ensures { maps.from_entries {R = key_cmp} result.now.entries ≡ self.now }
    {
        &self.map
    }
}

/// Inserts a fragment into the entry of its key, in place where the key is held. The limits are not
/// looked at.
pub(crate) fn insert_fragment(
    entries: &mut Entries,
    alloc: Global,
    fragment: &LentFragment<'_>,
    handing: Handing,
) -> Result<Change<UserData>, NoMemory>
    requires fragment { reach (core_of fragment.now) ≤ MAX_LENGTH }
    requires entry { (e : EntryValue) → maps.get entries.old fragment.now.key ≡ Some e
        → IsShort MAX_LENGTH e }
    ensures joined { OnOk result (entries.new ≡ maps.insert entries.old fragment.now.key
        (joined_onto join_entry (maps.get entries.old fragment.now.key)
        (Held (facts_of (core_of fragment.now))))) }
    ensures change { IfOk result (Tells handing fragment.now
        (maps.get entries.old fragment.now.key) (Some (joined_onto join_entry
        (maps.get entries.old fragment.now.key) (Held (facts_of (core_of fragment.now)))))) }
    ensures needed { OnErr result (¬ NeedsNoMemory entries.old (core_of fragment.now)) }
    ensures kept { OnErr result (entries.new ≡ entries.old) }
{
    let key = fragment.key();
    match entries.get_mut(&key) {
        Some(entry) => entry.insert(alloc, fragment, handing),
        None => {
            let (entry, change) = Entry::first(alloc, fragment, handing)?;
            match entries.insert_new(key, entry) {
                Ok(()) => Ok(change),
                Err(fault) => Err(fault),
            }
        }
    }
}

/// The counts of no key, if counts are to be kept. No memory is taken.
fn no_counts(alloc: Global, are_counted: bool) -> Option<SourceCounts>
    ensures { IfSome result (λ m. m ≡ maps.empty) }
{
    if !are_counted {
        return None;
    }
    Some(SourceCounts::new(alloc))
}

/// Counts one key more of an address, if counts are kept.
fn count_more(counts: &mut Option<SourceCounts>, ip: [u8; 4]) -> Result<(), NoMemory>
    requires { IfSome counts.old (λ m. count_of m ip < 9223372036854775808) }
    ensures counted { OnOk result (Adds counts.old counts.new ip) }
    ensures kept { OnErr result (counts.new ≡ counts.old) }
{
    match counts {
        Some(counts) => counts.add_key(ip),
        None => Ok(()),
    }
}

/// Counts one key less of an address, if counts are kept.
fn count_less(counts: &mut Option<SourceCounts>, ip: [u8; 4])
    ensures { Takes counts.old counts.new ip }
{
    if let Some(counts) = counts {
        counts.remove_key(ip);
    }
}

/// The key before which no key of this address stands.
pub(crate) fn first_of(ip: [u8; 4]) -> Key
    ensures { result ≡ record { ip = ip; port = 0; id = 0 } }
{
    Key { ip, port: 0, id: 0 }
}

/// How many keys of this address may still be added, where `most` may be held. Those that are held
/// are looked at.
fn room_by_keys(map: &BTreeMap<Key, Entry>, ip: [u8; 4], most: u32) -> u32
    ensures { result ≡ most
        - held_keys (of_source ip) (maps.from_entries {R = key_cmp} map.now.entries) }
{
    let mut room = most;
    for (key, _entry) in map.range(first_of(ip)..) {
        if key.ip != ip {
            return room;
        }
        if room == 0 {
            return 0;
        }
        room -= 1;
    }
    room
}

/// Whether the two maps have the same entries at the same keys.
fn are_equal(one: &BTreeMap<Key, Entry>, other: &BTreeMap<Key, Entry>) -> bool
    ensures { IsTrue result ↔ (maps.from_entries {R = key_cmp} one.now.entries
        ≡ maps.from_entries {R = key_cmp} other.now.entries) }
{
    if one.len() != other.len() {
        return false;
    }
    one == other
}
