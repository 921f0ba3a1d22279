//! Rows of saved runs, which borrow their bytes.
ghost use Rattle.std.specs.Prelude.{◌≡◌, ◌≤◌, IfOk, length, nat_le, nat_lt, List};
ghost use Rattle.std.specs.List.{list_all};
ghost use Rattle.std.specs.FinMap as maps;
ghost use Rattle.nb_datagram.specs.declared.limits.TheConstants.{MAX_LENGTH};
ghost use Rattle.nb_entries.specs.Code.Rows.{kept_values, AreFilled, RunThere, RowThere, run_of, row_of, after_run};
ghost use Rattle.nb_entries.specs.Runs.{run_end, map_of_runs, RunValue, AreApart};
ghost use Rattle.nb_entries.specs.SavedReading.{run_at, runs_at};

use super::fields::{read_bytes, read_number};
use crate::cover::runs::{Kept, Runs, add_run};
use crate::saved::LoadFault;
use nb_streams::NoMemory;
use nb_streams::numbers::number_16;
use std::alloc::Global;
use std::marker::Model;

/// A saved run: the place of its first byte, and its bytes in order.
#[derive(Drop)]
pub(crate) struct SavedRun<'a> {
    start: u16,
    bytes: &'a [u8],
}

impl<'a> Model for SavedRun<'a> {
    ghost Value = { RunValue };

    ghost view = { λ r. record { start = r.start; bytes = r.bytes.now } };

    ghost invariant = { λ r. length r.bytes.now ≤ MAX_LENGTH };
}

impl<'a> SavedRun<'a> {
    /// The place of the first byte.
    pub(crate) fn start(&self) -> u32
        ensures value { result ≡ self.now.start }
        ensures small { result ≤ MAX_LENGTH }
    {
        u32::from(self.start)
    }

    /// The bytes, in order.
    pub(crate) fn bytes(&self) -> &'a [u8]
        ensures value { result.now ≡ self.now.bytes }
        ensures short { length result.now ≤ MAX_LENGTH }
    {
        self.bytes
    }

    /// The place after the last byte.
    fn end(&self) -> u64
        ensures { result ≡ run_end self.now }
    {
        u64::from(self.start) + self.bytes.len() as u64
    }
}

/// The run at an offset. Its start must be at least `least`, its length not 0, and it mustn't reach
/// past `most`.
fn read_run<'a>(
    input: &'a [u8],
    most: u32,
    least: u64,
    at: usize,
) -> Result<(SavedRun<'a>, usize), LoadFault>
    ensures { run_at input.now most least at result }
{
    let (start, after) = read_number(input, at)?;
    if u64::from(start) < least {
        return Err(LoadFault::NotCanonical(at));
    }
    let (size, front) = read_number(input, after)?;
    let end = u32::from(start) + u32::from(size);
    if size == 0 || end > most {
        return Err(LoadFault::NotCanonical(after));
    }
    let (bytes, next) = read_bytes(input, front, size)?;
    Ok((SavedRun { start, bytes }, next))
}

/// A row of saved runs that has been judged.
#[derive(Drop)]
pub(crate) struct SavedRuns<'a> {
    pub(crate) count: u16,
    pub(crate) bytes: &'a [u8],
}

impl<'a> Model for SavedRuns<'a> {
    ghost Value = { List RunValue };

    ghost view = { λ r. row_of r.count r.bytes.now };

    ghost invariant = { λ r. RowThere r.count r.bytes.now × AreApart (row_of r.count r.bytes.now) };
}

/// The runs at an offset, how many there are in front.
pub(crate) fn read_runs<'a>(
    input: &'a [u8],
    most: u32,
    at: usize,
) -> Result<(SavedRuns<'a>, usize), LoadFault>
    ensures { runs_at input.now most at result }
{
    let (count, first) = read_number(input, at)?;
    let mut least = 0;
    let mut here = first;
    for _ in 0..count {
        let (run, next) = read_run(input, most, least, here)?;
        least = run.end() + 1;
        here = next;
    }
    let bytes = &input[first..];
    Ok((SavedRuns { count, bytes }, here))
}

/// The first run of a row, and the bytes after it.
pub(crate) fn split_run<'a>(bytes: &'a [u8]) -> (SavedRun<'a>, &'a [u8])
    requires { RunThere bytes.now }
    ensures run { result.0 ≡ run_of bytes.now }
    ensures rest { result.1.now ≡ after_run bytes.now }
{
    let start = number_16(bytes, 0);
    let end = 4 + usize::from(number_16(bytes, 2));
    let run = SavedRun {
        start,
        bytes: &bytes[4..end],
    };
    (run, &bytes[end..])
}

/// Whether none of this many runs, which the bytes begin with, reaches past the limit.
fn row_is_short(bytes: &[u8], count: u16, limit: u16) -> bool
    requires { RowThere count bytes.now }
    ensures { result ≡ list_all (λ r. nat_le (run_end r) limit) (row_of count bytes.now) }
{
    let mut rest = bytes;
    for _ in 0..count {
        let (run, after) = split_run(rest);
        if run.end() > u64::from(limit) {
            return false;
        }
        rest = after;
    }
    true
}

/// The runs, as many as these, which the bytes begin with.
fn kept_runs(alloc: Global, bytes: &[u8], count: u16) -> Result<Kept, NoMemory>
    requires { RowThere count bytes.now }
    ensures some { IfOk result (λ kept. AreFilled kept) }
    ensures runs { IfOk result (λ kept. kept_values kept ≡ row_of count bytes.now) }
{
    let mut kept = Kept::Many(Vec::new(alloc));
    let mut rest = bytes;
    for _ in 0..count {
        let (run, after) = split_run(rest);
        add_run(alloc, &mut kept, run.start(), run.bytes())?;
        rest = after;
    }
    Ok(kept)
}

impl<'a> SavedRuns<'a> {
    /// Whether no run reaches past the limit.
    pub(crate) fn are_short(&self, limit: u16) -> bool
        ensures { result
            ≡ list_all (λ e. nat_lt e.0 limit) (maps.entries (map_of_runs self.now)) }
    {
        row_is_short(self.bytes, self.count, limit)
    }

    /// The runs, kept.
    pub(crate) fn to_runs(&self, alloc: Global) -> Result<Runs, NoMemory>
        ensures { IfOk result (λ runs. runs ≡ map_of_runs self.now) }
    {
        let kept = kept_runs(alloc, self.bytes, self.count)?;
        Ok(Runs::of(kept))
    }
}
