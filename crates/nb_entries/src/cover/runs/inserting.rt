//! Runs put into rows, none of which has many, and where runs lie in these.
#![tactic(auto, using(crate::proofs::KeptRuns::RowsLemmas::row_steps))]

ghost use Rattle.std.specs.Prelude.{◌≡◌, ◌≤◌, ◌<◌, ◌+◌, ◌++◌, ◌∷◌, [], length, take, drop, slice_index_or, OnOk, OnErr, IfOk, ltb, IsTrue};
ghost use Rattle.nb_entries.specs.Runs.{AreApart, StartsPast};
ghost use Rattle.nb_entries.specs.Code.Rows.{run_at, EndBefore, Agree, IsPut, runs_in, values_in, NoneEmpty, kept_runs, kept_values, AreFilled, values_of, EndFrom, StartTo, StartAfter, last_end, LastsTo};

use super::{Kept, Run, growing};
use nb_streams::NoMemory;
use std::alloc::Global;
use std::mem::replace;

/// How many runs a row has at which it is halved, before another one comes.
const MANY: usize = 32;

/// Adds bytes behind the runs, as a run of their own.
pub(crate) fn add_run(
    alloc: Global,
    kept: &mut Kept,
    start: u32,
    bytes: &[u8],
) -> Result<(), NoMemory>
    requires { AreFilled kept.old }
    ensures some { AreFilled kept.new }
    ensures ok { OnOk result
        (kept_values kept.new ≡ kept_values kept.old ++ run_at start bytes.now ∷ []) }
    ensures err { OnErr result (kept_values kept.new ≡ kept_values kept.old) }
{
    let run = Run::copy(alloc, start, bytes)?;
    let mut rows = taken(alloc, kept)?;
    if rows.is_empty() {
        *kept = Kept::One(run);
        return Ok(());
    }
    let pushed = push_run(alloc, &mut rows, run);
    *kept = Kept::Many(rows);
    pushed
}

/// Inserts bytes that don't contradict them into the runs.
pub(super) fn insert_bytes(
    alloc: Global,
    kept: &mut Kept,
    start: u32,
    bytes: &[u8],
) -> Result<(), NoMemory>
    requires some { AreFilled kept.old }
    requires apart { AreApart (kept_values kept.old) }
    requires agree { Agree (kept_values kept.old) (run_at start bytes.now) }
    ensures some { AreFilled kept.new }
    ensures ok { OnOk result
        (IsPut (kept_values kept.old) (run_at start bytes.now) (kept_values kept.new)) }
    ensures err { OnErr result (kept_values kept.new ≡ kept_values kept.old) }
{
    if bytes.is_empty() {
        return Ok(());
    }
    if let Kept::One(run) = kept {
        let place = start as usize;
        if run.start() as usize <= place + bytes.len() && place <= run.end() {
            return growing::join(run, start, bytes);
        }
    }
    let mut rows = taken(alloc, kept)?;
    if rows.is_empty() {
        *kept = Kept::One(Run::copy(alloc, start, bytes)?);
        return Ok(());
    }
    let inserted = insert_in_rows(alloc, &mut rows, start, bytes);
    *kept = Kept::Many(rows);
    inserted
}

/// Takes the runs out, in rows.
fn taken(alloc: Global, kept: &mut Kept) -> Result<Vec<Vec<Run>>, NoMemory>
    requires { AreFilled kept.old }
    ensures some { IfOk result (λ rows. NoneEmpty rows.items) }
    ensures ok { IfOk result (λ rows. runs_in rows.items ≡ kept_runs kept.old) }
    ensures left { OnOk result (kept_runs kept.new ≡ []) }
    ensures err { OnErr result (kept.new ≡ kept.old) }
    ensures filled { AreFilled kept.new }
{
    if let Kept::Many(rows) = kept {
        return Ok(replace(rows, Vec::new(alloc)));
    }
    let mut row = Vec::with_capacity(alloc, 2)?;
    let mut rows = Vec::with_capacity(alloc, 1)?;
    match replace(kept, Kept::Many(Vec::new(alloc))) {
        Kept::One(run) => {
            row.push(run).unwrap();
            rows.push(row).unwrap();
            Ok(rows)
        }
        Kept::Many(rows) => Ok(rows),
    }
}

/// Puts a run behind those of the rows.
fn push_run(alloc: Global, rows: &mut Vec<Vec<Run>>, run: Run) -> Result<(), NoMemory>
    requires any { 0 < length rows.old.items }
    requires some { NoneEmpty rows.old.items }
    ensures some { NoneEmpty rows.new.items }
    ensures ok { OnOk result (runs_in rows.new.items ≡ runs_in rows.old.items ++ run ∷ []) }
    ensures err { OnErr result (runs_in rows.new.items ≡ runs_in rows.old.items) }
{
    let last = rows.len() - 1;
    if rows[last].len() < MANY {
        rows[last].push(run)?;
        return Ok(());
    }
    let mut row = Vec::with_capacity(alloc, 1)?;
    row.push(run)?;
    rows.push(row)?;
    Ok(())
}

/// Makes two rows of one.
fn halve(rows: &mut Vec<Vec<Run>>, at: usize) -> Result<(), NoMemory>
    requires within { at < length rows.old.items }
    requires many { (d : _) → 1 < length (slice_index_or rows.old.items at d).items }
    requires some { NoneEmpty rows.old.items }
    ensures some { NoneEmpty rows.new.items }
    ensures same { runs_in rows.new.items ≡ runs_in rows.old.items }
    ensures any { 0 < length rows.new.items }
{
    rows.reserve(1)?;
    let half = rows[at].len() / 2;
    let back = rows[at].split_off(half)?;
    rows.insert(at + 1, back).unwrap();
    Ok(())
}

/// How many rows have no run that ends at a place or after it. The row behind them, if there is
/// one, then has room for a run more.
fn roomy_row(rows: &mut Vec<Vec<Run>>, place: usize) -> Result<usize, NoMemory>
    requires any { 0 < length rows.old.items }
    requires some { NoneEmpty rows.old.items }
    requires apart { AreApart (values_in rows.old.items) }
    ensures some { NoneEmpty rows.new.items }
    ensures same { runs_in rows.new.items ≡ runs_in rows.old.items }
    ensures any { 0 < length rows.new.items }
    ensures within { IfOk result (λ at. at ≤ length rows.new.items) }
    ensures before { IfOk result (λ at. EndBefore place (values_in (take at rows.new.items))) }
{
    let at = row_to(rows, place);
    if at == rows.len() || rows[at].len() < MANY {
        return Ok(at);
    }
    halve(rows, at)?;
    Ok(row_to(rows, place))
}

/// Joins a row with the one after it.
fn join_next(rows: &mut Vec<Vec<Run>>, at: usize) -> Result<(), NoMemory>
    requires within { at + 1 < length rows.old.items }
    requires some { NoneEmpty rows.old.items }
    ensures some { NoneEmpty rows.new.items }
    ensures same { runs_in rows.new.items ≡ runs_in rows.old.items }
    ensures front { OnOk result (take at rows.new.items ≡ take at rows.old.items) }
    ensures back { OnOk result (drop (at + 1) rows.new.items ≡ drop (at + 2) rows.old.items) }
    ensures size { OnOk result (length rows.new.items + 1 ≡ length rows.old.items) }
{
    let count = rows[at + 1].len();
    rows[at].reserve(count)?;
    let mut next = rows.remove(at + 1);
    rows[at].append(&mut next).unwrap();
    Ok(())
}

/// Joins a row with those after it, up to a place among them.
fn join_rows(rows: &mut Vec<Vec<Run>>, at: usize, past: usize) -> Result<(), NoMemory>
    requires some { NoneEmpty rows.old.items }
    requires order { at < past }
    requires within { past ≤ length rows.old.items }
    ensures some { NoneEmpty rows.new.items }
    ensures same { runs_in rows.new.items ≡ runs_in rows.old.items }
    ensures front { OnOk result (take at rows.new.items ≡ take at rows.old.items) }
    ensures back { OnOk result (drop (at + 1) rows.new.items ≡ drop past rows.old.items) }
    ensures within { OnOk result (at < length rows.new.items) }
{
    for _ in at + 1..past {
        join_next(rows, at)?;
    }
    Ok(())
}

/// Inserts bytes that don't contradict them into the rows: into one, which those that the bytes
/// touch are joined with.
fn insert_in_rows(
    alloc: Global,
    rows: &mut Vec<Vec<Run>>,
    start: u32,
    bytes: &[u8],
) -> Result<(), NoMemory>
    requires any { 0 < length rows.old.items }
    requires put { 0 < length bytes.now }
    requires some { NoneEmpty rows.old.items }
    requires apart { AreApart (values_in rows.old.items) }
    requires agree { Agree (values_in rows.old.items) (run_at start bytes.now) }
    ensures some { NoneEmpty rows.new.items }
    ensures ok { OnOk result
        (IsPut (values_in rows.old.items) (run_at start bytes.now) (values_in rows.new.items)) }
    ensures err { OnErr result (values_in rows.new.items ≡ values_in rows.old.items) }
{
    let place = start as usize;
    let at = roomy_row(rows, place)?;
    if at == rows.len() {
        return push_run(alloc, rows, Run::copy(alloc, start, bytes)?);
    }
    let past = rows_to(rows, at + 1, place + bytes.len());
    join_rows(rows, at, past)?;
    growing::insert_in_row(alloc, &mut rows[at], start, bytes)
}

/// How many runs end before a place.
pub(super) fn first_from(runs: &[Run], place: usize) -> usize
    requires { AreApart (values_of runs.now) }
    ensures within { result ≤ length runs.now }
    ensures before { EndBefore place (take result (values_of runs.now)) }
    ensures after { EndFrom place (drop result (values_of runs.now)) }
{
    runs.partition_point(|run| run.end() < place)
}

/// How many runs start at a place or before it, where the first `first` do. Those that follow are
/// looked at one by one: few bytes touch more than two, and bytes that do join them all.
pub(super) fn past_to(runs: &[Run], first: usize, place: usize) -> usize
    requires apart { AreApart (values_of runs.now) }
    requires within { first ≤ length runs.now }
    requires first { StartTo place (take first (values_of runs.now)) }
    ensures within { result ≤ length runs.now }
    ensures before { StartTo place (take result (values_of runs.now)) }
    ensures after { StartAfter place (drop result (values_of runs.now)) }
{
    for index in first..runs.len() {
        if runs[index].start() as usize > place {
            return index;
        }
    }
    runs.len()
}

/// Whether the last run of a row ends before a place.
fn ends_before(row: &Vec<Run>, place: usize) -> bool
    ensures { result ≡ ltb (last_end row.now.items) place }
{
    match row.last() {
        Some(run) => run.end() < place,
        None => 0 < place,
    }
}

/// How many rows have no run that ends at a place or after it.
pub(super) fn row_to(rows: &[Vec<Run>], place: usize) -> usize
    requires some { NoneEmpty rows.now }
    requires apart { AreApart (values_in rows.now) }
    ensures within { result ≤ length rows.now }
    ensures before { EndBefore place (values_in (take result rows.now)) }
    ensures reaches { LastsTo place (drop result rows.now) }
{
    rows.partition_point(|row| ends_before(row, place))
}

/// Whether the first run of a row starts after a place.
fn starts_after(row: &[Run], place: usize) -> bool
    requires { 0 < length row.now }
    ensures { IsTrue result → StartsPast place (values_of row.now) }
{
    row[0].start() as usize > place
}

/// How many rows may have a run that starts at a place or before it: the first `first` of them,
/// and those that follow, looked at one by one.
pub(super) fn rows_to(rows: &[Vec<Run>], first: usize, place: usize) -> usize
    requires some { NoneEmpty rows.now }
    requires apart { AreApart (values_in rows.now) }
    requires within { first ≤ length rows.now }
    ensures first { first ≤ result }
    ensures within { result ≤ length rows.now }
    ensures after { StartAfter place (values_in (drop result rows.now)) }
{
    for index in first..rows.len() {
        if starts_after(&rows[index], place) {
            return index;
        }
    }
    rows.len()
}
