//! The rows of the tables.
ghost use Rattle.std.specs.Prelude.{◌≡◌, ◌≤◌, ◌<◌, ◌&&◌, IfOk, None, Some, true, if◌then◌else◌};
ghost use Rattle.std.specs.BTreeMap.{btree_map_len};
ghost use Rattle.nb_survey.specs.Code.Kept.{kept_row, Taken};
ghost use Rattle.nb_survey.specs.Code.Steps.{grown};
ghost use Rattle.nb_survey.specs.Keys.{name_key, refusal_key, same_key};
ghost use Rattle.nb_survey.specs.declared.key.Key.{Key as KeyValue};
ghost use Rattle.nb_survey.specs.Sums.{HasRows};
ghost use Rattle.nb_survey.specs.declared.limits.TheConstants.{MAX_ROWS};

use crate::heard::Said;
use crate::key::Key;
use crate::limits::MAX_ROWS;
use crate::row::Row;
use nb_streams::NoMemory;
use std::alloc::Global;
use std::collections::BTreeMap;
use std::collections::btree_map::Iter;

/// The rows of a table.
#[derive(Drop)]
pub(crate) struct Table {
    rows: BTreeMap<Key, Row>,
}

impl Table {
    /// None yet.
    fn new(alloc: Global) -> Table
        ensures none { (key : KeyValue) → kept_row result key ≡ None }
        ensures bounded { btree_map_len result.rows ≤ MAX_ROWS }
    {
        Table {
            rows: BTreeMap::new(alloc),
        }
    }

    /// A row.
    pub(crate) fn row(&self, key: &Key) -> Option<Row>
        ensures { result ≡ kept_row self.now key.now }
    {
        self.rows.get(key).copied()
    }

    /// The rows, in their order.
    pub(crate) fn iter(&self) -> Iter<'_, Key, Row>
        ensures { result ≡ self.now.rows.entries }
    {
        self.rows.iter()
    }

    /// Takes a word that is said, where there is room for its row; whether there is.
    fn hear(&mut self, key: Key, said: &Said) -> Result<bool, NoMemory>
        ensures heard { IfOk result (λ has_room. (other : KeyValue) → kept_row self.new other ≡
            (if has_room && same_key key other
            then Some (grown (kept_row self.old key) said.now)
            else kept_row self.old other)) }
        ensures bounded { btree_map_len self.old.rows ≤ MAX_ROWS →
            btree_map_len self.new.rows ≤ MAX_ROWS }
        ensures grows { btree_map_len self.new.rows < MAX_ROWS →
            btree_map_len self.old.rows < MAX_ROWS }
        ensures room { IfOk result (λ has_room.
            btree_map_len self.new.rows < MAX_ROWS → has_room ≡ true) }
    {
        if let Some(row) = self.rows.get_mut(&key) {
            *row = row.after(said);
            return Ok(true);
        }
        if self.rows.len() >= MAX_ROWS {
            return Ok(false);
        }
        self.rows.insert(key, Row::first(said))?;
        Ok(true)
    }
}

/// The tables of names and of refusals.
#[derive(Drop)]
pub(crate) struct Tables {
    /// Names at addresses.
    pub(crate) names: Table,
    /// Refusals of these, by sender and reason.
    pub(crate) refusals: Table,
}

impl Tables {
    /// No rows yet.
    pub(crate) fn new(alloc: Global) -> Tables
        ensures names { (key : KeyValue) → kept_row result.names key ≡ None }
        ensures refusals { (key : KeyValue) → kept_row result.refusals key ≡ None }
        ensures bounded { (btree_map_len result.names.rows ≤ MAX_ROWS)
            × (btree_map_len result.refusals.rows ≤ MAX_ROWS) }
    {
        Tables {
            names: Table::new(alloc),
            refusals: Table::new(alloc),
        }
    }

    /// Takes a word that is said; whether there is room for its rows.
    pub(crate) fn hear(&mut self, said: &Said) -> Result<bool, NoMemory>
        ensures heard { IfOk result (λ has_room.
            Taken name_key self.old.names self.new.names said.now has_room
            × Taken refusal_key self.old.refusals self.new.refusals said.now has_room) }
        ensures bounded { btree_map_len self.old.names.rows ≤ MAX_ROWS →
            btree_map_len self.old.refusals.rows ≤ MAX_ROWS →
            (btree_map_len self.new.names.rows ≤ MAX_ROWS)
            × (btree_map_len self.new.refusals.rows ≤ MAX_ROWS) }
        ensures room { IfOk result (λ has_room.
            HasRows self.new → HasRows self.old × (has_room ≡ true)) }
    {
        let is_named = self.names.hear(said.name_key(), said)?;
        let Some(key) = said.refusal_key() else {
            return Ok(is_named);
        };
        let is_refused = self.refusals.hear(key, said)?;
        Ok(is_named && is_refused)
    }
}
