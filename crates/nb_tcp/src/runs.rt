//! Runs of bytes by their places.
ghost use Rattle.std.specs.Prelude.{◌≡◌, ◌≤◌, ◌<◌, ◌+◌, ◌^◌, ℕ, length, [], IfSome, is_some, OnOk, OnErr, None};
ghost use Rattle.nb_tcp.specs.Runs.{in_runs, charge_of, AreKnown, IsNextAfter, Puts, is_any, runs_after};
ghost use Rattle.nb_tcp.specs.declared.limits.TheConstants.{LAST, RUN_COST};

use crate::limits::RUN_COST;
use nb_streams::{Bytes, NoMemory};
use std::alloc::Global;
use std::collections::BTreeMap;
use std::marker::Model;

/// Runs of bytes, by the places of their first bytes. Each byte is in one.
#[derive(Drop)]
pub(crate) struct Runs {
    map: BTreeMap<u64, Bytes>,
    charge: usize,
}

impl Model for Runs {
    ghost use Rattle.std.specs.Prelude.{◌≡◌, ℕ, List};
    ghost use Rattle.nb_tcp.specs.Runs.{AreRuns, charge_of};

    ghost Value = { List (ℕ × List ℕ) };

    ghost view = { λ r. r.map.entries };

    ghost invariant = { λ r. AreRuns 0 r.map.entries × (r.charge ≡ charge_of r.map.entries) };
}

impl Runs {
    /// None. No memory is taken.
    pub(crate) fn new(alloc: Global) -> Runs
        ensures { result ≡ [] }
    {
        Runs {
            map: BTreeMap::new(alloc),
            charge: 0,
        }
    }

    /// What they count, in bytes.
    pub(crate) fn charge(&self) -> usize
        ensures { result ≡ charge_of self.now }
    {
        self.charge
    }

    /// The bytes from a place on, as far as its run goes.
    pub(crate) fn known_at(&self, at: u64) -> Option<&[u8]>
        ensures some { IfSome result (λ bytes. AreKnown self.now at bytes.now) }
        ensures none { result ≡ None → in_runs self.now at ≡ None }
    {
        let Some((start, run)) = self.map.range(..=at).next_back() else {
            return None;
        };
        let bytes = run.as_slice();
        let offset = (at - *start) as usize;
        if bytes.len() <= offset {
            return None;
        }
        Some(&bytes[offset..])
    }

    /// The place of the first run that begins after a place.
    pub(crate) fn next_after(&self, at: u64) -> Option<u64>
        requires { at + 1 < 2 ^ 64 }
        ensures some { IfSome result (IsNextAfter self.now at) }
        ensures later { is_some result ≡ is_any (runs_after at self.now) }
        ensures none { result ≡ None → in_runs self.now at ≡ None → (i : ℕ) → at ≤ i →
            in_runs self.now i ≡ None }
    {
        let Some((start, _run)) = self.map.range(at + 1..).next() else {
            return None;
        };
        let next = *start;
        Some(next)
    }

    /// Puts a run where there are no bytes.
    ///
    /// # Errors
    ///
    /// Memory ran out. Nothing is put then.
    pub(crate) fn insert(&mut self, alloc: Global, at: u64, bytes: &[u8]) -> Result<(), NoMemory>
        requires some { 0 < length bytes.now }
        requires last { at + length bytes.now ≤ LAST }
        requires free { (i : ℕ) → at ≤ i → i < at + length bytes.now →
            in_runs self.old i ≡ None }
        requires room { charge_of self.old + length bytes.now + RUN_COST < 2 ^ 64 }
        ensures ok { OnOk result (Puts self.old at bytes.now (length bytes.now) self.new) }
        ensures charge { OnOk result (charge_of self.new
            ≡ charge_of self.old + length bytes.now + RUN_COST) }
        ensures err { OnErr result (self.new ≡ self.old) }
    {
        let run = Bytes::copy(alloc, bytes)?;
        self.map.insert(at, run)?;
        self.charge += bytes.len() + RUN_COST;
        Ok(())
    }

    /// Forgets the first run, where it ends at a place or before. Answers where it ended.
    pub(crate) fn forget_first(&mut self, by: u64) -> Option<u64>
        ensures some { IfSome result (λ end. end ≤ by) }
        ensures others { IfSome result (λ end. (i : ℕ) → end ≤ i →
            in_runs self.new i ≡ in_runs self.old i) }
        ensures charge { IfSome result (λ _. charge_of self.new < charge_of self.old) }
        ensures none { result ≡ None → self.new ≡ self.old }
    {
        let Some((start, run)) = self.map.first_key_value() else {
            return None;
        };
        let end = *start + run.as_slice().len() as u64;
        if by < end {
            return None;
        }
        let Some((_start, run)) = self.map.pop_first() else {
            return None;
        };
        self.charge -= run.as_slice().len() + RUN_COST;
        Some(end)
    }
}
