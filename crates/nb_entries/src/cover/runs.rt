//! Bytes by place, kept as runs: places that follow one another.
ghost use Rattle.std.specs.Prelude.{◌≡◌, IfOk, OnOk, OnErr, true, ℕ};
ghost use Rattle.std.specs.List.{list_all};
ghost use Rattle.std.specs.FinMap as maps;
ghost use Rattle.nb_entries.specs.Marks.{same_where};
ghost use Rattle.nb_entries.specs.Cover.{placed};
ghost use Rattle.nb_entries.specs.Code.CoverFacts.{with_bytes};
ghost use Rattle.nb_entries.specs.Runs.{AreApart, run_end, map_of_runs};
ghost use Rattle.nb_entries.specs.Code.Rows.{value_of, run_at, kept_values, AreFilled, bytes_code};
ghost use Rattle.std.specs.Ordering.{nat_cmp};

mod growing;
mod inserting;
mod reading;

pub(crate) use growing::EachRun;
pub(crate) use inserting::add_run;
use nb_streams::NoMemory;
use std::alloc::Global;
use std::marker::Model;

/// Bytes at places that follow one another: the place of the first, and the bytes, in order.
#[derive(Drop, PartialEq)]
pub(crate) struct Run {
    start: u32,
    bytes: Vec<u8>,
}

impl Run {
    /// The run of a copy of these bytes, from `start` on.
    fn copy(alloc: Global, start: u32, bytes: &[u8]) -> Result<Run, NoMemory>
        ensures { IfOk result (λ run. value_of run ≡ run_at start bytes.now) }
    {
        let mut kept = Vec::with_capacity(alloc, bytes.len())?;
        kept.extend_from_slice(bytes)?;
        Ok(Run { start, bytes: kept })
    }

    /// The place of the first byte.
    pub(crate) fn start(&self) -> u32
        ensures { result ≡ (value_of self.now).start }
    {
        self.start
    }

    /// The bytes.
    fn bytes(&self) -> &[u8]
        ensures { result.now ≡ (value_of self.now).bytes }
    {
        &self.bytes
    }

    /// The place after the last byte.
    pub(crate) fn end(&self) -> usize
        ensures { result ≡ run_end (value_of self.now) }
    {
        self.start as usize + self.bytes.len()
    }
}

/// Runs that are apart: one, as most datagrams have, in place; else in rows of few, so that a run
/// which is put between others moves few of them.
#[derive(Drop)]
pub(crate) enum Kept {
    One(Run),
    Many(Vec<Vec<Run>>),
}

impl Kept {
    /// Where its memory is taken.
    fn allocator(&self) -> Global {
        match self {
            Kept::One(run) => *run.bytes.allocator(),
            Kept::Many(rows) => *rows.allocator(),
        }
    }
}

/// Bytes by place, in runs that are apart.
#[derive(Drop)]
pub(crate) struct Runs {
    kept: Kept,
}

impl Model for Runs {
    ghost Value = { maps.FinMap nat_cmp ℕ };

    ghost coded = { bytes_code };

    ghost view = { λ r. map_of_runs (kept_values r.kept) };

    ghost invariant = { λ r. AreFilled r.kept × AreApart (kept_values r.kept) };
}

impl Runs {
    /// No bytes.
    pub(crate) fn new(alloc: Global) -> Runs
        ensures { result ≡ maps.empty }
    {
        Runs {
            kept: Kept::Many(Vec::new(alloc)),
        }
    }

    /// Inserts bytes that don't contradict them, from `start` on.
    pub(crate) fn insert(&mut self, alloc: Global, start: u32, bytes: &[u8]) -> Result<(), NoMemory>
        requires { list_all (λ e. same_where (maps.get self.old e.0) e.1) (placed start bytes.now)
            ≡ true }
        ensures ok { OnOk result (self.new ≡ with_bytes self.old start bytes.now) }
        ensures err { OnErr result (self.new ≡ self.old) }
    {
        inserting::insert_bytes(alloc, &mut self.kept, start, bytes)
    }

    /// The bytes of runs that are apart.
    pub(crate) fn of(kept: Kept) -> Runs
        requires some { AreFilled kept }
        requires apart { AreApart (kept_values kept) }
        ensures { result ≡ map_of_runs (kept_values kept) }
    {
        Runs { kept }
    }
}
