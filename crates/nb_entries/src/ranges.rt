//! Ranges of places: where the bytes of a datagram's data are known.
ghost use Rattle.std.specs.Prelude.{◌≡◌, ◌≤◌, [], map, List};
ghost use Rattle.nb_datagram.specs.declared.limits.TheConstants.{MAX_LENGTH};
ghost use Rattle.nb_entries.specs.Runs.{range_of, run_end};
ghost use Rattle.nb_entries.specs.Code.Rows.{EndBy, value_of, values_of};
ghost use Rattle.nb_entries.specs.declared.ranges.PlaceRange.{PlaceRange};
ghost use Rattle.std.specs.Iterator.{YieldsFirst, item_count};

use crate::cover::runs::{EachRun, Run};
use std::marker::Model;

/// Places that follow one another, of which there is at least one.
#[derive(Clone, Copy, Debug, PartialEq, Eq)]
pub struct PlaceRange {
    /// The first of them.
    pub from: u32,
    /// The place after the last of them.
    pub to: u32,
}

/// The ranges of the places at which bytes of a datagram's data are known, ascending. No memory is
/// taken.
#[derive(Drop)]
pub struct Ranges<'a> {
    runs: EachRun<'a>,
}

impl<'a> Model for Ranges<'a> {
    ghost Value = { List PlaceRange };

    ghost view = { λ r. map range_of (values_of r.runs) };

    ghost invariant = { λ r. EndBy MAX_LENGTH (values_of r.runs) };
}

impl<'a> Ranges<'a> {
    /// No ranges.
    pub fn none() -> Ranges<'a>
        ensures { result ≡ [] }
    {
        Ranges {
            runs: EachRun::none(),
        }
    }

    /// Those of these runs, each of which ends where a datagram may at most.
    pub(crate) fn of(runs: EachRun<'a>) -> Ranges<'a>
        requires { EndBy MAX_LENGTH (values_of runs) }
        ensures { result ≡ map range_of (values_of runs.entry) }
    {
        Ranges { runs }
    }
}

/// The places of a run that ends where a datagram may at most.
fn places_of(run: &Run) -> PlaceRange
    requires { run_end (value_of run.now) ≤ MAX_LENGTH }
    ensures { result ≡ range_of (value_of run.now) }
{
    PlaceRange {
        from: run.start(),
        to: run.end() as u32,
    }
}

impl<'a> Iterator for Ranges<'a> {
    type Item = PlaceRange;

    ghost next_gives = { YieldsFirst (λ r. r) };

    ghost remaining = { item_count (λ r. r) };

    fn next(&mut self) -> Option<PlaceRange> {
        Some(places_of(self.runs.next()?))
    }
}
