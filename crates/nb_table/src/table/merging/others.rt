//! The entries of another table: lent, or owned.
ghost use Rattle.std.specs.Prelude.{◌≡◌, ◌∷◌, [], List, IfOk, MatchOption};
ghost use Rattle.nb_entries.specs.Entry.{EntryValue};
ghost use Rattle.nb_datagram.specs.declared.key.Key.{Key};

use nb_datagram::Key;
use nb_entries::Entry;
use nb_streams::NoMemory;
use std::collections::btree_map;

/// An entry of another table: lent, or owned.
pub(super) trait Other: Drop {
    // What is known by it.
    ghost value: { Self → EntryValue };

    /// The entry, to be read.
    fn as_entry(&self) -> &Entry
        ensures { result.now ≡ value self.now };

    /// The entry, owned: a copy of one that is lent.
    fn into_entry(self) -> Result<Entry, NoMemory>
        ensures { IfOk result (λ entry. entry ≡ value self) };
}

impl Other for Entry {
    ghost value = { λ entry. entry };

    fn as_entry(&self) -> &Entry {
        self
    }

    fn into_entry(self) -> Result<Entry, NoMemory> {
        Ok(self)
    }
}

impl<'a> Other for &'a Entry {
    ghost value = { λ entry. entry.now };

    fn as_entry(&self) -> &Entry {
        self
    }

    fn into_entry(self) -> Result<Entry, NoMemory> {
        self.copied()
    }
}

/// The entries of another table with their keys, ascending.
pub(super) trait Others: Drop {
    /// Each of them.
    type Entry: Other;

    // Those that are left.
    ghost left: { Self → List (Key × EntryValue) };

    /// Takes the next one.
    fn next_entry(&mut self) -> Option<(Key, Self::Entry)>
        ensures { MatchOption result (left self.old ≡ [])
            (λ e. left self.old ≡ (e.0, Self.Entry.value e.1) ∷ left self.new) };
}

impl<'a> Others for btree_map::Iter<'a, Key, Entry> {
    type Entry = &'a Entry;

    ghost left = { λ others. others };

    fn next_entry(&mut self) -> Option<(Key, &'a Entry)> {
        let (key, entry) = self.next()?;
        Some((*key, entry))
    }
}

impl Others for btree_map::IntoIter<Key, Entry> {
    type Entry = Entry;

    ghost left = { λ others. others };

    fn next_entry(&mut self) -> Option<(Key, Entry)> {
        self.next()
    }
}
