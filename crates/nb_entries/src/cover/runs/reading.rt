//! What runs have that are apart: their bytes, how many there are, and where; runs held against
//! others, united, copied and saved.
ghost use Rattle.std.specs.Prelude.{◌≡◌, ◌↔◌, ◌≤◌, ◌<◌, ℕ, length, true, IsTrue, IfOk, MatchOption, Some, None, Ok};
ghost use Rattle.std.specs.List.{list_all};
ghost use Rattle.std.specs.FinMap as maps;
ghost use Rattle.nb_datagram.specs.declared.limits.TheConstants.{MAX_LENGTH};
ghost use Rattle.nb_entries.specs.Marks.{same_where};
ghost use Rattle.nb_entries.specs.Cover.{placed, bytes_agree, BytesBelow};
ghost use Rattle.nb_entries.specs.Maps.{union};
ghost use Rattle.nb_entries.specs.Runs.{ranges_of_map, runs_of_map};
ghost use Rattle.nb_entries.specs.Whole.{bytes_below as map_below};
ghost use Rattle.nb_entries.specs.Sinks.{Puts};
ghost use Rattle.nb_entries.specs.Saved.{run_bytes, runs_bytes};
ghost use Rattle.nb_entries.specs.Code.CoverFacts.{is_there, with_bytes, AreCovered};
ghost use Rattle.nb_entries.specs.Code.Rows.{value_of, run_at, Meet, AgreeOne, AreBetween, Lacks};

use super::{EachRun, Kept, Run, Runs, add_run};
use crate::ranges::Ranges;
use crate::saved::ByteSink;
use crate::saved::fields::put_two_bytes;
use nb_streams::{Bytes, NoMemory};
use std::alloc::Global;

/// Whether a run has no other byte at a place of these, which overlap or touch it.
fn agrees(run: &Run, start: u32, bytes: &[u8]) -> bool
    requires { Meet (value_of run.now) (run_at start bytes.now) }
    ensures { IsTrue result ↔ AgreeOne (value_of run.now) (run_at start bytes.now) }
{
    let own = run.start() as usize;
    let place = start as usize;
    let from = own.max(place);
    let to = run.end().min(place + bytes.len());
    run.bytes()[from - own..to - own] == bytes[from - place..to - place]
}

/// Puts a run: its start, how many bytes it has, and these.
fn put_run<S: ByteSink>(sink: &mut S, run: &Run) -> Result<(), S::Fault>
    ensures { Puts S.takes S.breaks sink.old sink.new (run_bytes (value_of run.now)) result }
{
    let start = run.start().to_be_bytes();
    let size = (run.bytes().len() as u64).to_be_bytes();
    sink.put(&[start[2], start[3], size[6], size[7]])?;
    sink.put(run.bytes())
}

impl Runs {
    /// Whether no place has another byte among these, which stand from `start` on.
    pub(crate) fn agree(&self, start: u32, bytes: &[u8]) -> bool
        ensures { result
            ≡ list_all (λ e. same_where (maps.get self.now e.0) e.1) (placed start bytes.now) }
    {
        let place = start as usize;
        let end = place + bytes.len();
        for run in EachRun::from(&self.kept, place) {
            if run.start() as usize > end {
                return true;
            }
            if !agrees(run, start, bytes) {
                return false;
            }
        }
        true
    }

    /// The bytes from one place up to another, in order, if each is there.
    fn between(&self, from: usize, to: usize) -> Option<&[u8]>
        requires { from ≤ to }
        ensures { MatchOption result (Lacks (maps.get self.now) from to)
            (λ bytes. AreBetween (maps.get self.now) from to bytes.now) }
    {
        if from == to {
            return Some(&[]);
        }
        let run = EachRun::from(&self.kept, to).next()?;
        let start = run.start() as usize;
        if from < start {
            return None;
        }
        Some(&run.bytes()[from - start..to - start])
    }

    /// Whether each of these bytes, which stand from `start` on, is there.
    pub(crate) fn hold(&self, start: u32, bytes: &[u8]) -> bool
        ensures { result
            ≡ list_all (λ e. is_there (maps.get self.now e.0) e.1) (placed start bytes.now) }
    {
        let place = start as usize;
        match self.between(place, place + bytes.len()) {
            Some(held) => held == bytes,
            None => false,
        }
    }

    /// Whether each place lies below the end.
    pub(crate) fn lie_below(&self, end: u32) -> bool
        ensures { IsTrue result ↔ ((i x : ℕ) → maps.get self.now i ≡ Some x → i < end) }
    {
        match EachRun::from(&self.kept, end as usize + 1).next() {
            Some(_) => false,
            None => true,
        }
    }

    /// Whether each place below the end is covered.
    pub(crate) fn cover_below(&self, end: u32) -> bool
        ensures { IsTrue result ↔ AreCovered (maps.get self.now) end }
    {
        match self.between(0, end as usize) {
            Some(_) => true,
            None => false,
        }
    }

    /// The bytes at the places below the end, in order, if each is covered. No memory is taken
    /// where one isn't.
    pub(crate) fn bytes_below(&self, alloc: Global, end: u32) -> Result<Option<Bytes>, NoMemory>
        ensures value { IfOk result (λ bytes. bytes ≡ map_below self.now end) }
        ensures no_memory_needed { map_below self.now end ≡ None → result ≡ Ok None }
    {
        match self.between(0, end as usize) {
            Some(bytes) => Ok(Some(Bytes::copy(alloc, bytes)?)),
            None => Ok(None),
        }
    }

    /// The bytes below the end, in order, together with these, which stand from `start` on, if each
    /// place is covered. No memory is taken where one isn't.
    pub(crate) fn bytes_with(
        &self,
        alloc: Global,
        end: u32,
        start: u32,
        bytes: &[u8],
    ) -> Result<Option<Bytes>, NoMemory>
        ensures { IfOk result (λ made.
            made ≡ map_below (with_bytes self.now start bytes.now) end) }
    {
        let size = end as usize;
        let first = (start as usize).min(size);
        let count = bytes.len().min(size - first);
        let front = match self.between(0, first) {
            Some(front) => front,
            None => return Ok(None),
        };
        let back = match self.between(first + count, size) {
            Some(back) => back,
            None => return Ok(None),
        };
        let mut made = Vec::with_capacity(alloc, size)?;
        made.extend_from_slice(front)?;
        made.extend_from_slice(&bytes[..count])?;
        made.extend_from_slice(back)?;
        Ok(Some(Bytes::from_vec(made)))
    }

    /// Whether both have the same bytes.
    pub(crate) fn are(&self, other: &Runs) -> bool
        ensures { IsTrue result ↔ (self.now ≡ other.now) }
    {
        let mut own = EachRun::of(&self.kept);
        for run in EachRun::of(&other.kept) {
            match own.next() {
                Some(one) if one == run => {}
                _ => return false,
            }
        }
        own.next().is_none()
    }

    /// How many runs there are.
    pub(crate) fn count(&self) -> usize
        ensures { result ≡ length (runs_of_map self.now) }
    {
        let mut count = 0;
        for run in EachRun::of(&self.kept) {
            // a run starts past the one before, at a place of 32 bits, so that the count fits
            let _ = run.start();
            count += 1;
        }
        count
    }

    /// How many bytes there are.
    pub(crate) fn held(&self) -> usize
        requires { maps.len self.now ≤ MAX_LENGTH }
        ensures { result ≡ maps.len self.now }
    {
        let mut held = 0;
        for run in EachRun::of(&self.kept) {
            held += run.bytes().len();
        }
        held
    }

    /// The ranges of their places.
    pub(crate) fn ranges(&self) -> Ranges<'_>
        requires { BytesBelow MAX_LENGTH self.now }
        ensures { result ≡ ranges_of_map self.now }
    {
        Ranges::of(EachRun::of(&self.kept))
    }

    /// Whether no place has another byte in the one than in the other.
    pub(crate) fn agree_all(&self, other: &Runs) -> bool
        ensures { result ≡ bytes_agree self.now other.now }
    {
        for run in EachRun::of(&other.kept) {
            if !self.agree(run.start(), run.bytes()) {
                return false;
            }
        }
        true
    }

    /// The bytes of both, which don't contradict each other.
    pub(crate) fn together(&self, other: &Runs) -> Result<Runs, NoMemory>
        requires { bytes_agree self.now other.now ≡ true }
        ensures { IfOk result (λ runs. runs ≡ union self.now other.now) }
    {
        let alloc = self.kept.allocator();
        let mut made = self.copied()?;
        for run in EachRun::of(&other.kept) {
            made.insert(alloc, run.start(), run.bytes())?;
        }
        Ok(made)
    }

    /// The place of the first byte, and the bytes, if all are in one run.
    pub(crate) fn only(&self) -> Option<(u32, &[u8])>
        ensures { MatchOption result (Unit {0})
            (λ one. self.now ≡ maps.from_entries (placed one.0 one.1.now)) }
    {
        let mut runs = EachRun::of(&self.kept);
        match (runs.next(), runs.next()) {
            (Some(run), None) => Some((run.start(), run.bytes())),
            _ => None,
        }
    }

    /// Puts the maximal runs, how many there are in front.
    pub(crate) fn put_to<S: ByteSink>(&self, sink: &mut S) -> Result<(), S::Fault>
        ensures { Puts S.takes S.breaks sink.old sink.new
            (runs_bytes (runs_of_map self.now)) result }
    {
        put_two_bytes(sink, self.count() as u64)?;
        for run in EachRun::of(&self.kept) {
            put_run(sink, run)?;
        }
        Ok(())
    }

    /// A copy.
    pub(crate) fn copied(&self) -> Result<Runs, NoMemory>
        ensures { IfOk result (λ runs. runs ≡ self.now) }
    {
        let alloc = self.kept.allocator();
        let mut kept = Kept::Many(Vec::new(alloc));
        for run in EachRun::of(&self.kept) {
            add_run(alloc, &mut kept, run.start(), run.bytes())?;
        }
        Ok(Runs { kept })
    }
}
