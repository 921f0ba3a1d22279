//! The reassembly table.
ghost use Rattle.std.specs.Prelude.{◌≡◌, ◌↔◌, IsTrue, IsOk, IfOk, IfErr, OnOk, OnErr, None, Ok, Some};
ghost use Rattle.std.specs.FinMap as maps;
ghost use Rattle.std.specs.Option.{option_copied};
ghost use Rattle.nb_datagram.specs.declared.limits.TheConstants.{MAX_LENGTH};
ghost use Rattle.nb_entries.specs.Entry.{EntryValue, IsShort};
ghost use Rattle.nb_table.specs.Limits.{KeepsLimits, TableValue};
ghost use Rattle.nb_table.specs.Change.{IsChange, Tells};
ghost use Rattle.nb_table.specs.State.{IsState};
ghost use Rattle.nb_table.specs.Contents.{run_count_at, outline_at, ranges_at, datagram_at};
ghost use Rattle.nb_datagram.specs.Fragment.{core_of};
ghost use Rattle.nb_table.specs.Insert.{NeedsNoMemory, Passes, Takes, Refuses, with_fragment};
ghost use Rattle.nb_table.specs.Codes.{table_code};

mod fitting;
mod loading;
mod merging;

use crate::entries::{Entries, insert_fragment};
use crate::fault::TableFault;
use crate::keys::Keys;
pub use loading::load;
pub use merging::take_in_all;
use nb_datagram::{Datagram, Fragment, Key, LentFragment, UserData};
use nb_entries::{Change, Entry, Handing, Outline, Ranges, State};
use nb_streams::NoMemory;
use std::alloc::Global;
use std::marker::Model;

/// What is known of the datagrams whose fragments came, by key, within limits.
///
/// At most `keys` keys are held, and at most `per_source` of one address, whatever the ports. No
/// byte of a datagram lies at or past `longest`; no end and no promise is greater than it. The
/// order in which fragments come makes no difference as long as none is refused as `Full` or
/// `FullSource`: which keys find room, and so which fragments are in, depends on which came first.
/// Keys count until they are dropped, spoilt and whole ones too. RFC 1002 section 5.3; the form of
/// fragments and the limits are our choice.
#[derive(Drop)]
pub struct Table {
    entries: Entries,
    keys: u32,
    per_source: u32,
    longest: u16,
    alloc: Global,
}

impl Model for Table {
    ghost Value = { TableValue };

    ghost coded = { table_code };

    ghost view = { λ t. record {
      contents = t.entries;
      limits = record { keys = t.keys; per_source = t.per_source; longest = t.longest };
    } };

    ghost invariant = { λ t. KeepsLimits (record {
      contents = t.entries;
      limits = record { keys = t.keys; per_source = t.per_source; longest = t.longest };
    }) };
}

/// Whether a table with these limits keeps how many keys each address has: where one address can
/// have as many keys as it may before as many are held as may be in all.
fn are_counted(keys: u32, per_source: u32) -> bool {
    per_source <= keys
}

impl Table {
    /// An empty table that may hold this many keys, this many of one address, and datagrams of at
    /// most this many bytes. No memory is taken.
    ///
    /// A limit for one address keeps the rest of the table for others, since nothing shows that an
    /// address sends ever new keys in good faith. 4,294,967,295 is none.
    pub fn new(alloc: Global, keys: u32, per_source: u32, longest: u16) -> Table
        ensures { result ≡ record {
          contents = maps.empty;
          limits = record { keys = keys; per_source = per_source; longest = longest };
        } }
    {
        Table {
            entries: Entries::new(alloc, are_counted(keys, per_source)),
            keys,
            per_source,
            longest,
            alloc,
        }
    }

    /// How many keys are held. No memory is taken.
    pub fn len(&self) -> usize
        ensures count { result ≡ maps.len self.now.contents }
        ensures bounded { KeepsLimits self.now }
    {
        self.entries.len()
    }

    /// Joins a fragment to what is known of its datagram, and says what that changed at its key.
    ///
    /// A fragment with M set promises a byte at its reach or after it: an end of the datagram at
    /// its reach or before contradicts it, and a promise greater than those that are known is new.
    ///
    /// No memory is needed where the key is spoilt, or the fragment contradicts what is known of
    /// its key or says nothing new. A table that refuses stays as it was.
    ///
    /// # Errors
    ///
    /// As [`Table::refusal_of`] answers, then `NoMemory` where memory ran out. RFC 1002 section
    /// 5.3; the rules on fragments are our choice.
    pub fn insert(&mut self, fragment: &Fragment<'_>) -> Result<Change, TableFault>
        ensures taken { OnOk result (Takes self.old fragment.now) }
        ensures joined { OnOk result (self.new ≡ with_fragment self.old fragment.now) }
        ensures change { IfOk result
            (IsChange self.old.contents self.new.contents fragment.now.key) }
        ensures refused { IfErr result (Refuses self.old fragment.now) }
        ensures kept { OnErr result (self.new ≡ self.old) }
        ensures without_memory { Passes self.old.limits fragment.now
            → NeedsNoMemory self.old.contents (core_of fragment.now) → IsOk result }
    {
        let lent = fragment.lent();
        match self.insert_with(&lent, Handing::Over) {
            Ok(change) => Ok(change.made_by(&lent)),
            Err(fault) => Err(fault),
        }
    }

    /// Joins a fragment whose names are lent, as [`Table::insert`] does, and says what that changed
    /// at its key, as far as datagrams are handed over. Of a datagram that is handed over the data
    /// alone is copied: [`Change::made_by`] gives it the fragment's kind and names. Where none is
    /// handed over, memory is taken for what is held alone.
    ///
    /// # Errors
    ///
    /// Those of [`Table::insert`].
    pub fn insert_with(
        &mut self,
        fragment: &LentFragment<'_>,
        handing: Handing,
    ) -> Result<Change<UserData>, TableFault>
        ensures taken { OnOk result (Takes self.old fragment.now) }
        ensures joined { OnOk result (self.new ≡ with_fragment self.old fragment.now) }
        ensures change { IfOk result
            (Tells handing self.old.contents self.new.contents fragment.now) }
        ensures refused { IfErr result (Refuses self.old fragment.now) }
        ensures kept { OnErr result (self.new ≡ self.old) }
        ensures without_memory { Passes self.old.limits fragment.now
            → NeedsNoMemory self.old.contents (core_of fragment.now) → IsOk result }
    {
        if let Some(fault) = self.refusal_of_lent(fragment) {
            return Err(fault);
        }
        let change = insert_fragment(&mut self.entries, self.alloc, fragment, handing)?;
        Ok(change)
    }

    /// Takes a key out, and says whether it was held. No memory is taken.
    pub fn drop_key(&mut self, key: &Key) -> bool
        ensures held { result ≡ maps.contains_key self.old.contents key.now }
        ensures dropped { self.new ≡ record {
          contents = maps.remove self.old.contents key.now;
          limits = self.old.limits;
        } }
    {
        self.entries.remove(key).is_some()
    }

    /// The entry of a key, which reaches no further than a datagram may.
    fn entry(&self, key: &Key) -> Option<&Entry>
        ensures value { option_copied result ≡ maps.get self.now.contents key.now }
        ensures short { (entry : EntryValue) → maps.get self.now.contents key.now ≡ Some entry
            → IsShort MAX_LENGTH entry }
    {
        // For the clause `short`: a limit that is read is a number of its type, and the entry's
        // bytes lie below it.
        let _longest = self.longest;
        self.entries.get(key)
    }

    /// What is known of a key's datagram. No memory is taken.
    pub fn state(&self, key: &Key) -> State
        ensures { IsState self.now.contents key.now result }
    {
        match self.entries.get(key) {
            Some(entry) => entry.state(),
            None => State::Absent,
        }
    }

    /// How many maximal runs the known bytes of a key's datagram make up: 0 where none is known
    /// yet, and 1 where they leave no gap. `None` for a key that isn't held, or is spoilt. No
    /// memory is taken.
    pub fn run_count(&self, key: &Key) -> Option<u32>
        ensures { result ≡ run_count_at self.now.contents key.now }
    {
        match self.entry(key) {
            Some(entry) => entry.run_count(),
            None => None,
        }
    }

    /// The keys that are held, ascending. No memory is taken.
    pub fn keys(&self) -> Keys<'_>
        ensures { result ≡ maps.keys self.now.contents }
    {
        Keys::of(self.entries.keys())
    }

    /// Whether the other table has the same contents, whatever the limits of both. No memory is
    /// taken.
    pub fn same(&self, other: &Table) -> bool
        ensures { IsTrue result ↔ (self.now.contents ≡ other.now.contents) }
    {
        self.entries.same(&other.entries)
    }

    /// Whether the other table has the same at a key, whatever the limits of both: neither holds
    /// it, or both have the same entry there. No memory is taken.
    pub fn same_at(&self, other: &Table, key: &Key) -> bool
        ensures { IsTrue result ↔ (maps.get self.now.contents key.now
            ≡ maps.get other.now.contents key.now) }
    {
        match self.entries.get(key) {
            Some(entry) => match other.entries.get(key) {
                Some(others) => entry == others,
                None => false,
            },
            None => !other.entries.contains_key(key),
        }
    }

    /// What is known of a key's datagram but for its bytes: `None` for a key that isn't held, or is
    /// spoilt. No memory is taken.
    pub fn outline(&self, key: &Key) -> Option<Outline>
        ensures { result ≡ outline_at self.now.contents key.now }
    {
        match self.entry(key) {
            Some(entry) => entry.outline(),
            None => None,
        }
    }

    /// The ranges of the places at which bytes of a key's datagram are known, ascending: as few as
    /// there can be, so that between two of them a place isn't known. None for a key that isn't
    /// held, or is spoilt. No memory is taken.
    pub fn ranges(&self, key: &Key) -> Ranges<'_>
        ensures { result ≡ ranges_at self.now.contents key.now }
    {
        match self.entry(key) {
            Some(entry) => entry.ranges(),
            None => Ranges::none(),
        }
    }

    /// A key's datagram, if the key is whole. No memory is taken where it isn't.
    ///
    /// # Errors
    ///
    /// `NoMemory` where memory ran out.
    pub fn datagram(&self, key: &Key) -> Result<Option<Datagram>, NoMemory>
        ensures value { IfOk result (λ datagram.
            datagram ≡ datagram_at self.now.contents key.now) }
        ensures no_memory_needed { datagram_at self.now.contents key.now ≡ None
            → result ≡ Ok None }
    {
        match self.entry(key) {
            Some(entry) => entry.datagram_of(self.alloc, *key),
            None => Ok(None),
        }
    }
}
