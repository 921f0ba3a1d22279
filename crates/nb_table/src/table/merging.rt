//! Tables merged.
ghost use Rattle.std.specs.Prelude.{◌≡◌, IfOk, IfErr, OnOk, OnErr, map, take, slice_get, Some};
ghost use Rattle.std.specs.FinMap as maps;
ghost use Rattle.nb_entries.specs.declared.outline.Handing.TheVariants.{Over};
ghost use Rattle.nb_table.specs.Join.{join, IsTable, joined_all, AreTaken};
ghost use Rattle.nb_table.specs.Limits.{with_contents, TableValue, Limits};
ghost use Rattle.nb_table.specs.Merging.{Fits, IsRefused, newly_handed};
ghost use Rattle.nb_table.specs.Code.Each.{put_back as with_before, taken_back};
ghost use Rattle.nb_table.specs.Contents.{Contents};
ghost use Rattle.nb_table.specs.Shared.TableLemmas.{join-comm, join-assoc, join-idem};

mod merging_entries;
mod others;

use super::Table;
use crate::entries::Entries;
use crate::fault::TableFault;
use crate::join::Join;
use merging_entries::{merge_entries, preview_entries};
use nb_datagram::{Datagrams, Key};
use nb_entries::{Entry, Handing};
use nb_streams::NoMemory;

impl Table {
    /// Merges the other table into this one, as [`Table::merge`]. The datagrams, if they are handed
    /// over.
    fn join_lent(&mut self, other: &Table, handing: Handing) -> Result<Datagrams, TableFault>
        ensures joined { OnOk result (self.new
            ≡ with_contents self.old (join self.old.contents other.now.contents)) }
        ensures formed { IsTable self.new.contents }
        ensures handed { handing ≡ Over → IfOk result (λ datagrams.
            datagrams ≡ newly_handed self.old.contents self.new.contents) }
        ensures fits { OnOk result (Fits self.old.limits self.old.contents other.now.contents) }
        ensures fault { IfErr result (IsRefused self.old.limits self.old.contents
            other.now.contents) }
        ensures err { OnErr result (self.new ≡ self.old) }
    {
        self.fits(other)?;
        let others = other.entries.iter();
        Ok(merge_entries(self.alloc, &mut self.entries, others, handing)?)
    }

    /// Merges the other table into this one: each key that either has, with the join of what both
    /// know. The limits stay.
    ///
    /// The answer has one datagram for each key that becomes whole by this, and no other, in
    /// ascending order of keys.
    ///
    /// # Errors
    ///
    /// As [`Table::fits`], then `NoMemory` where memory ran out. The table is then as it was.
    pub fn merge(&mut self, other: &Table) -> Result<Datagrams, TableFault>
        ensures joined { OnOk result (self.new
            ≡ with_contents self.old (join self.old.contents other.now.contents)) }
        ensures handed { IfOk result (λ datagrams.
            datagrams ≡ newly_handed self.old.contents self.new.contents) }
        ensures fits { OnOk result (Fits self.old.limits self.old.contents other.now.contents) }
        ensures fault { IfErr result (IsRefused self.old.limits self.old.contents
            other.now.contents) }
        ensures err { OnErr result (self.new ≡ self.old) }
    {
        self.join_lent(other, Handing::Over)
    }

    /// The datagrams that [`Table::merge`] of the same table would hand over. The table stays as it
    /// is; memory is taken for the entries of the other's keys, one at a time, and the datagrams.
    ///
    /// # Errors
    ///
    /// As [`Table::merge`].
    pub fn preview(&self, other: &Table) -> Result<Datagrams, TableFault>
        ensures fits { OnOk result (Fits self.now.limits self.now.contents other.now.contents) }
        ensures handed { IfOk result (λ datagrams. datagrams
            ≡ newly_handed self.now.contents (join self.now.contents other.now.contents)) }
        ensures fault { IfErr result (IsRefused self.now.limits self.now.contents
            other.now.contents) }
    {
        // For the proof alone: a limit that is read is a number of its type.
        let _longest = self.longest;
        self.fits(other)?;
        Ok(preview_entries(self.alloc, &self.entries, &other.entries)?)
    }
}

impl Join for Table {
    ghost Content = { Contents };

    ghost content = { λ table. table.contents };

    ghost Beside = { Limits };

    ghost beside = { λ table. table.limits };

    ghost joined = { join };

    ghost IsFormed = { IsTable };

    ghost Takes = { Fits };

    ghost Refuses = { IsRefused };

    ghost commutative = { join-comm };

    ghost associative = { join-assoc };

    ghost idempotent = { join-idem };

    /// Merges the other table into this one, as [`Table::merge`], and gives no datagrams.
    fn join(&mut self, other: &Table) -> Result<(), TableFault> {
        self.join_lent(other, Handing::Kept)?;
        Ok(())
    }
}

impl Table {
    /// Takes the other table in: this one is then as [`Table::merge`] leaves it. No datagram is
    /// handed over, and the entries of new keys are moved.
    ///
    /// # Errors
    ///
    /// As [`Table::fits`], then `NoMemory` where memory ran out. The table is then as it was, and
    /// the other one gone.
    pub fn take_in(&mut self, other: Table) -> Result<(), TableFault>
        ensures joined { OnOk result (self.new
            ≡ with_contents self.old (join self.old.contents other.contents)) }
        ensures fits { OnOk result (Fits self.old.limits self.old.contents other.contents) }
        ensures fault { IfErr result (IsRefused self.old.limits self.old.contents
            other.contents) }
        ensures err { OnErr result (self.new ≡ self.old) }
    {
        self.fits(&other)?;
        let others = other.entries.into_iter();
        merge_entries(self.alloc, &mut self.entries, others, Handing::Kept)?;
        Ok(())
    }
}

/// Takes the other tables in, one after the other.
///
/// # Errors
///
/// The index of the first one that can't be taken in, and why; `first` is then the join of those
/// before it, and the others are gone.
pub fn take_in_all(first: &mut Table, others: Vec<Table>) -> Result<(), (usize, TableFault)>
    ensures joined { OnOk result (first.new.contents
        ≡ joined_all join first.old.contents (map (λ t. t.contents) others.items)) }
    ensures taken { OnOk result (AreTaken join (Fits first.old.limits)
        first.old.contents (map (λ t. t.contents) others.items)) }
    ensures limits { first.new.limits ≡ first.old.limits }
    ensures fault { IfErr result (λ fault. (other : TableValue)
        × (slice_get others.items fault.0 ≡ Some other)
        × IsRefused first.old.limits
        (joined_all join first.old.contents (map (λ t. t.contents) (take fault.0 others.items)))
        other.contents fault.1) }
    ensures before { IfErr result (λ fault. AreTaken join (Fits first.old.limits)
        first.old.contents (map (λ t. t.contents) (take fault.0 others.items))) }
    ensures err { IfErr result (λ fault. first.new.contents
        ≡ joined_all join first.old.contents (map (λ t. t.contents) (take fault.0 others.items))) }
{
    for (index, other) in others.into_iter().enumerate() {
        if let Err(fault) = first.take_in(other) {
            return Err((index, fault));
        }
    }
    Ok(())
}

/// Puts in the entry of a key, and notes what stood there before. Where memory runs out, nothing
/// changes.
fn put_noted(
    entries: &mut Entries,
    key: Key,
    entry: Entry,
    changes: &mut Vec<(Key, Option<Entry>)>,
) -> Result<(), NoMemory>
    ensures put { OnOk result (entries.new ≡ maps.insert entries.old key entry) }
    ensures noted { taken_back entries.new changes.new.items
        ≡ taken_back entries.old changes.old.items }
{
    changes.reserve(1)?;
    let before = entries.insert(key, entry)?;
    changes.push((key, before)).unwrap();
    Ok(())
}

/// Puts back what stood at a key before: no entry, or this one in the place of that which stands
/// there. No memory is taken.
fn put_back(entries: &mut Entries, key: Key, before: Option<Entry>)
    ensures { entries.new ≡ with_before entries.old key before }
{
    match before {
        Some(before) => {
            if let Some(entry) = entries.get_mut(&key) {
                *entry = before;
            }
        }
        None => {
            entries.remove(&key);
        }
    }
}

/// Takes changes back, the last one first. No memory is taken.
fn take_back(entries: &mut Entries, mut changes: Vec<(Key, Option<Entry>)>)
    ensures { entries.new ≡ taken_back entries.old changes.items }
{
    while let Some((key, before)) = changes.pop() {
        put_back(entries, key, before);
    }
}
