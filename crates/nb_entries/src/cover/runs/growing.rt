//! Rows of runs: one that grows in place, and the runs of several, one after the other.
ghost use Rattle.std.specs.Prelude.{◌≡◌, ◌+◌, ◌<◌, ◌≤◌, ◌++◌, length, take, drop, OnOk, OnErr, [], List};
ghost use Rattle.std.specs.Vec.{vec_capacity, vec_len};
ghost use Rattle.nb_entries.specs.Runs.{AreApart};
ghost use Rattle.nb_entries.specs.declared.cover.runs.growing.TheConstants.{FEW};
ghost use Rattle.nb_entries.specs.Code.Rows.{value_of, values_of, run_at, grown, Meet, Agree, IsPut, kept_runs, kept_values, AreFilled, IsFrom, runs_in, NoneEmpty};
ghost use Rattle.nb_entries.specs.declared.cover.runs.Run.{Run};
ghost use Rattle.std.specs.Iterator.{at_most};
ghost use Rattle.std.specs.Map.Iter.{TakesFirst, deref};

use super::inserting::{first_from, past_to, row_to};
use super::{Kept, Run};
use arrayvec::ArrayVec;
use nb_streams::NoMemory;
use std::alloc::Global;
use std::marker::Model;
use std::slice::from_ref;

/// How many bytes are moved by way of the stack: `rotate_right` clears four times as many for its
/// room, whatever it moves.
const FEW: usize = 1_024;

/// Puts bytes before few others, for which there is room.
///
/// It is no part of its caller, which then makes no room on the stack where there are more.
#[inline(never)]
fn grow_few(items: &mut Vec<u8>, front: &[u8])
    requires few { vec_len items.old ≤ FEW }
    requires room { vec_len items.old + length front.now ≤ vec_capacity items.old }
    ensures items { items.new.items ≡ front.now ++ items.old.items }
    ensures room { vec_capacity items.old ≤ vec_capacity items.new }
{
    let mut others: ArrayVec<u8, FEW> = ArrayVec::new();
    others.try_extend_from_slice(items.as_slice()).unwrap();
    items.clear();
    items.extend_from_slice(front).unwrap();
    items.extend_from_slice(others.as_slice()).unwrap();
}

/// Puts bytes before the others, for which there is room.
fn grow_front(items: &mut Vec<u8>, front: &[u8])
    requires { vec_len items.old + length front.now ≤ vec_capacity items.old }
    ensures items { items.new.items ≡ front.now ++ items.old.items }
    ensures room { vec_capacity items.old ≤ vec_capacity items.new }
{
    if items.len() <= FEW {
        grow_few(items, front);
        return;
    }
    let count = front.len();
    items.extend_from_slice(front).unwrap();
    items.rotate_right(count);
}

/// Joins bytes with a run that they overlap or touch.
pub(super) fn join(run: &mut Run, start: u32, bytes: &[u8]) -> Result<(), NoMemory>
    requires { Meet (value_of run.old) (run_at start bytes.now) }
    ensures ok { OnOk result
        (value_of run.new ≡ grown (value_of run.old) (run_at start bytes.now)) }
    ensures err { OnErr result (value_of run.new ≡ value_of run.old) }
{
    let place = start as usize;
    let past = place + bytes.len();
    let end = run.end();
    let before = run.start.saturating_sub(start) as usize;
    run.bytes.reserve(before + past.saturating_sub(end))?;
    if end < past {
        run.bytes.extend_from_slice(&bytes[end - place..]).unwrap();
    }
    if before > 0 {
        grow_front(&mut run.bytes, &bytes[..before]);
        run.start = start;
    }
    Ok(())
}

/// Drops the runs from `from` up to `past`.
fn drop_runs(runs: &mut Vec<Run>, from: usize, past: usize)
    requires { from ≤ past × past ≤ length runs.old.items }
    ensures { runs.new.items ≡ take from runs.old.items ++ drop past runs.old.items }
{
    runs.drain(from..past);
}

/// Inserts bytes that don't contradict them into a row of runs.
#[tactic(auto, using(crate::proofs::KeptRuns::RunRowLemmas::set_steps))]
pub(super) fn insert_in_row(
    alloc: Global,
    runs: &mut Vec<Run>,
    start: u32,
    bytes: &[u8],
) -> Result<(), NoMemory>
    requires put { 0 < length bytes.now }
    requires some { 0 < length runs.old.items }
    requires apart { AreApart (values_of runs.old.items) }
    requires agree { Agree (values_of runs.old.items) (run_at start bytes.now) }
    ensures some { 0 < length runs.new.items }
    ensures ok { OnOk result
        (IsPut (values_of runs.old.items) (run_at start bytes.now) (values_of runs.new.items)) }
    ensures err { OnErr result (values_of runs.new.items ≡ values_of runs.old.items) }
{
    let place = start as usize;
    let first = first_from(runs, place);
    let past = past_to(runs, first, place + bytes.len());
    if past == first + 1 {
        return join(&mut runs[first], start, bytes);
    }
    let mut whole = Run::copy(alloc, start, bytes)?;
    if past <= first {
        runs.insert(past, whole)?;
        return Ok(());
    }
    let last = &runs[past - 1];
    join(&mut whole, last.start(), last.bytes())?;
    join(&mut runs[first], whole.start(), whole.bytes())?;
    drop_runs(runs, first + 1, past);
    Ok(())
}

/// The runs of rows that are left, in order.
#[derive(Drop)]
pub(crate) struct EachRun<'a> {
    row: &'a [Run],
    rows: &'a [Vec<Run>],
}

impl<'a> Model for EachRun<'a> {
    ghost Value = { List Run };

    ghost view = { λ e. e.row.now ++ runs_in e.rows.now };

    ghost invariant = { λ e. NoneEmpty e.rows.now };
}

impl<'a> EachRun<'a> {
    /// No runs.
    pub(crate) fn none() -> EachRun<'a>
        ensures { result ≡ [] }
    {
        EachRun {
            row: &[],
            rows: &[],
        }
    }

    /// The runs that are kept.
    pub(crate) fn of(kept: &'a Kept) -> EachRun<'a>
        requires { AreFilled kept.now }
        ensures { result ≡ kept_runs kept.now }
    {
        match kept {
            Kept::One(run) => EachRun {
                row: from_ref(run),
                rows: &[],
            },
            Kept::Many(rows) => EachRun { row: &[], rows },
        }
    }

    /// The runs from the first one on that ends at a place or after it.
    pub(crate) fn from(kept: &'a Kept, place: usize) -> EachRun<'a>
        requires some { AreFilled kept.now }
        requires apart { AreApart (kept_values kept.now) }
        ensures { IsFrom (kept_values kept.now) place (values_of result) }
    {
        let rows = match kept {
            Kept::One(run) if run.end() < place => return EachRun::none(),
            Kept::One(_) => return EachRun::of(kept),
            Kept::Many(rows) => rows.as_slice(),
        };
        match rows[row_to(rows, place)..].split_first() {
            Some((row, rest)) => EachRun {
                row: &row[first_from(row, place)..],
                rows: rest,
            },
            None => EachRun::none(),
        }
    }
}

impl<'a> Iterator for EachRun<'a> {
    type Item = &'a Run;

    ghost next_gives = { TakesFirst deref };

    ghost remaining = { λ e. at_most (length e) };

    fn next(&mut self) -> Option<&'a Run> {
        if self.row.is_empty() {
            let (row, rest) = self.rows.split_first()?;
            self.row = row.as_slice();
            self.rows = rest;
        }
        let (run, rest) = self.row.split_first()?;
        self.row = rest;
        Some(run)
    }
}
