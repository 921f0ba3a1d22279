//! A table whose keys have the moments at which they came.
ghost use Rattle.std.specs.Prelude.{◌≡◌, false, IfOk, IfErr, OnOk, OnErr, Some};
ghost use Rattle.std.specs.FinMap as maps;
ghost use Rattle.nb_datagram.specs.declared.key.Key.{Key};
ghost use Rattle.nb_datagram.specs.Key.{key_cmp};
ghost use Rattle.nb_table.specs.Change.{Tells};
ghost use Rattle.nb_table.specs.Insert.{Takes as TableTakes, Refuses};
ghost use Rattle.nb_table.specs.Limits.{with_contents};
ghost use Rattle.nb_table.specs.Merging.{Fits, IsRefused, newly_handed};
ghost use Rattle.nb_member.specs.Taking.{IsMerged, start_after};
ghost use Rattle.nb_member.specs.Member.{empty_timed, begun, after_fragment, after_clock, lasts};
ghost use Rattle.nb_member.specs.Live.{is_over};
ghost use Rattle.nb_member.specs.Code.Members.{begun_each, HaveOneSetOfKeys, StandOnce};

use crate::limits::FRAGMENT_TIMEOUT;
use nb_datagram::{Datagrams, Key, LentFragment, UserData};
use nb_streams::NoMemory;
use nb_table::{Change, Handing, State, Table, TableFault};
use std::alloc::Global;
use std::marker::Model;

/// A table, and when each of its keys came. No key of the one is missing in the other.
#[derive(Drop)]
pub struct TimedTable {
    table: Table,
    starts: Starts,
}

impl Model for TimedTable {
    ghost use Rattle.nb_member.specs.Member.{TimedValue};
    ghost use Rattle.nb_member.specs.Code.Members.{timed_code, HaveOneSetOfKeys};

    ghost Value = { TimedValue };

    ghost coded = { timed_code };

    ghost view = { λ t. record { table = t.table; moments = t.starts } };

    ghost invariant = { λ t. HaveOneSetOfKeys t.table.contents t.starts };
}

impl TimedTable {
    /// An empty table with these limits. No memory is taken.
    pub fn new(alloc: Global, keys: u32, per_source: u32, longest: u16) -> TimedTable
        ensures { result
            ≡ empty_timed (record { keys = keys; per_source = per_source; longest = longest }) }
    {
        TimedTable {
            table: Table::new(alloc, keys, per_source, longest),
            starts: Starts::new(alloc),
        }
    }

    /// The table.
    pub fn table(&self) -> &Table
        ensures { result.now ≡ self.now.table }
    {
        &self.table
    }

    /// Takes in a fragment that came at this moment, and says what that changed at its key.
    pub fn insert(
        &mut self,
        moment: u64,
        fragment: &LentFragment<'_>,
        handing: Handing,
    ) -> Result<Change<UserData>, TableFault>
        ensures taken { OnOk result (TableTakes self.old.table fragment.now) }
        ensures joined { OnOk result (self.new ≡ after_fragment self.old moment fragment.now) }
        ensures change { IfOk result
            (Tells handing self.old.table.contents self.new.table.contents fragment.now) }
        ensures refused { IfErr result (Refuses self.old.table fragment.now) }
        ensures kept { OnErr result (self.new ≡ self.old) }
    {
        let keys = self.table.len();
        let change = self.table.insert_with(fragment, handing)?;
        if self.table.len() == keys {
            return Ok(change);
        }
        begin_or_drop(&mut self.table, &mut self.starts, fragment.key(), moment)?;
        Ok(change)
    }

    /// Drops the keys whose timers have run out where the clock shows `now`. No memory is taken.
    pub fn tick(&mut self, now: u64)
        ensures { self.new ≡ after_clock self.old now }
    {
        self.starts.expire(&mut self.table, now);
    }

    /// Merges the other table at this moment, and gives the datagrams that become whole by this.
    pub fn merge(&mut self, other: &Table, moment: u64) -> Result<Datagrams, TableFault>
        ensures fits { OnOk result
            (Fits self.old.table.limits self.old.table.contents other.now.contents) }
        ensures merged { OnOk result (IsMerged self.old other.now.contents moment self.new) }
        ensures handed { IfOk result (λ datagrams.
            datagrams ≡ newly_handed self.old.table.contents self.new.table.contents) }
        ensures refused { IfErr result
            (IsRefused self.old.table.limits self.old.table.contents other.now.contents) }
        ensures kept { OnErr result (self.new ≡ self.old) }
    {
        self.table.fits(other)?;
        let starts = self.starts.with_keys(&self.table, other, moment)?;
        let datagrams = self.table.merge(other)?;
        self.starts = starts;
        Ok(datagrams)
    }
}

/// Starts the timer of a new key of the table, or takes the key out of it where memory ran out.
fn begin_or_drop(
    table: &mut Table,
    starts: &mut Starts,
    key: Key,
    moment: u64,
) -> Result<(), NoMemory>
    requires { maps.contains_key starts.old key ≡ false }
    ensures begun { OnOk result (starts.new ≡ begun starts.old key moment) }
    ensures kept { OnOk result (table.new ≡ table.old) }
    ensures still { OnErr result (starts.new ≡ starts.old) }
    ensures dropped { OnErr result
        (table.new ≡ with_contents table.old (maps.remove table.old.contents key)) }
{
    match starts.begin_new(key, moment) {
        Ok(()) => Ok(()),
        Err(fault) => {
            table.drop_key(&key);
            Err(fault)
        }
    }
}

/// The moment at which each key came, in milliseconds: a list in which each key stands once, since
/// only a table looks for one of them.
#[derive(Drop)]
pub struct Starts {
    moments: Vec<(Key, u64)>,
}

impl Model for Starts {
    ghost use Rattle.std.specs.FinMap as maps;
    ghost use Rattle.nb_datagram.specs.Key.{key_cmp};
    ghost use Rattle.nb_member.specs.Member.{Moments};
    ghost use Rattle.nb_member.specs.Code.Members.{moments_code, StandOnce};

    ghost Value = { Moments };

    ghost coded = { moments_code };

    ghost view = { λ s. maps.from_entries {R = key_cmp} s.moments.items };

    ghost invariant = { λ s. StandOnce s.moments.items };
}

impl Starts {
    /// No keys. No memory is taken.
    pub fn new(alloc: Global) -> Starts
        ensures { result ≡ maps.empty }
    {
        Starts {
            moments: Vec::new(alloc),
        }
    }

    /// Starts the timer of a key that has none.
    pub fn begin_new(&mut self, key: Key, moment: u64) -> Result<(), NoMemory>
        requires { maps.contains_key self.old key ≡ false }
        ensures begun { OnOk result (self.new ≡ begun self.old key moment) }
        ensures kept { OnErr result (self.new ≡ self.old) }
    {
        self.moments.push((key, moment))?;
        Ok(())
    }

    /// A copy, in which the other table's keys that the own one lacks start at this moment.
    pub fn with_keys(&self, own: &Table, other: &Table, moment: u64) -> Result<Starts, NoMemory>
        requires { HaveOneSetOfKeys own.now.contents self.now }
        ensures { IfOk result (λ starts. (k : Key) →
            maps.get starts k ≡ start_after self.now other.now.contents moment k) }
    {
        let moments = Vec::from_slice(*self.moments.allocator(), &self.moments)?;
        let mut starts = Starts { moments };
        begin_each(&mut starts, own, other, moment)?;
        Ok(starts)
    }

    /// Drops the keys whose timers have run out at `now`, out of the table too.
    pub fn expire(&mut self, table: &mut Table, now: u64)
        ensures moments { self.new ≡ maps.retain_keys self.old (lasts self.old now) }
        ensures left { table.new
            ≡ with_contents table.old (maps.retain_keys table.old.contents (lasts self.old now)) }
    {
        drop_over(table, &self.moments, now);
        self.moments.retain(|start| !is_over(now, start.1));
    }
}

/// Starts the timers of the other table's keys at this moment, where the own table lacks them.
fn begin_each(starts: &mut Starts, own: &Table, other: &Table, moment: u64) -> Result<(), NoMemory>
    requires { HaveOneSetOfKeys own.now.contents starts.old }
    ensures { OnOk result
        (starts.new ≡ begun_each starts.old (maps.keys other.now.contents) moment) }
{
    for key in other.keys() {
        match own.state(&key) {
            State::Absent => starts.begin_new(key, moment)?,
            State::Partial | State::Whole | State::Spoilt => {}
        }
    }
    Ok(())
}

/// Whether the timer of a key with this start has run out where the clock shows `now`.
fn is_over(now: u64, start: u64) -> bool
    ensures { result ≡ is_over now (Some start) }
{
    FRAGMENT_TIMEOUT <= now && start <= now - FRAGMENT_TIMEOUT
}

/// Takes the keys whose timers have run out, out of the table.
fn drop_over(table: &mut Table, moments: &[(Key, u64)], now: u64)
    requires { StandOnce moments.now }
    ensures { table.new ≡ with_contents table.old (maps.retain_keys table.old.contents
        (lasts (maps.from_entries {R = key_cmp} moments.now) now)) }
{
    for start in moments {
        if is_over(now, start.1) {
            table.drop_key(&start.0);
        }
    }
}
