//! The keys of a table.
ghost use Rattle.std.specs.Prelude.{◌≡◌, List};
ghost use Rattle.nb_datagram.specs.declared.key.Key.{Key};
ghost use Rattle.std.specs.Iterator.{YieldsFirst, item_count};

use nb_datagram::Key;
use nb_entries::Entry;
use std::collections::btree_map;
use std::marker::Model;

/// The keys of a table, ascending. No memory is taken.
#[derive(Drop)]
pub struct Keys<'a> {
    keys: btree_map::Keys<'a, Key, Entry>,
}

impl<'a> Model for Keys<'a> {
    ghost Value = { List Key };

    ghost view = { λ k. k.keys };
}

impl<'a> Keys<'a> {
    /// These keys.
    pub(crate) fn of(keys: btree_map::Keys<'a, Key, Entry>) -> Keys<'a>
        ensures { result ≡ keys.entry }
    {
        Keys { keys }
    }
}

impl<'a> Iterator for Keys<'a> {
    type Item = Key;

    ghost next_gives = { YieldsFirst (λ k. k) };

    ghost remaining = { item_count (λ k. k) };

    fn next(&mut self) -> Option<Key> {
        Some(*self.keys.next()?)
    }
}
