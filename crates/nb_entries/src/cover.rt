//! Covers: what is known of a datagram's data.
//!
//! That the bytes are kept as runs is known in this folder alone, and by what loads them.
ghost use Rattle.std.specs.Prelude.{◌≡◌, ◌==◌, ◌↔◌, ◌&&◌, IfOk, IsTrue, OnOk, OnErr, Some, length, None, Ok};
ghost use Rattle.std.specs.FinMap as maps;
ghost use Rattle.nb_datagram.specs.Fragment.{core_of};
ghost use Rattle.nb_entries.specs.Maps.{Held};
ghost use Rattle.nb_datagram.specs.declared.limits.TheConstants.{MAX_LENGTH};
ghost use Rattle.nb_entries.specs.Cover.{BytesBelow, CoversFit, cover_of, piece_cover, covers_agree, covers_together, is_below_end, bytes_lie_below, AreCoverFacts, CoverFacts};
ghost use Rattle.nb_entries.specs.Code.CoverFacts.{Holds};
ghost use Rattle.nb_entries.specs.Runs.{runs_of_map, ranges_of_map, map_of_runs};
ghost use Rattle.nb_entries.specs.Whole.{bytes_to, IsWholeCover, awaited_of};
ghost use Rattle.nb_entries.specs.Sinks.{Puts};
ghost use Rattle.nb_entries.specs.Saved.{cover_bytes};
ghost use Rattle.nb_entries.specs.declared.saved.SavedForm.TheVariants.{Second};
ghost use Rattle.nb_entries.specs.Codes.{cover_facts_code};
ghost use Rattle.nb_entries.specs.Shared.EqualLemmas.{cover_facts_per, cover_facts_equiv};
ghost use Rattle.nb_entries.specs.Equal.{same_cover_facts};

pub(crate) mod marks;
mod piecing;
pub(crate) mod runs;
mod uniting;

use crate::piece::Piece;
use crate::ranges::Ranges;
use crate::saved::ByteSink;
use crate::saved::fields::put_marks;
use crate::saved::runs::SavedRuns;
use crate::slot::Slot;
use marks::{Marks, is_below};
use nb_datagram::Fragment;
use nb_streams::{Bytes, NoMemory};
use runs::Runs;
use std::alloc::Global;
use std::marker::Model;

/// The bytes by place, and the marks: the end, if it is known, and the greatest promise, if there
/// is one. No byte lies at or past the end, and no promise.
///
/// Places count from the first byte of the datagram's data.
#[derive(Drop)]
pub struct CoverFacts {
    bytes: Runs,
    marks: Marks,
}

impl Model for CoverFacts {
    ghost Value = { CoverFacts };

    ghost coded = { cover_facts_code };

    ghost view = { λ p. record { bytes = p.bytes; marks = p.marks } };

    ghost invariant = { λ p. AreCoverFacts (record { bytes = p.bytes; marks = p.marks }) };
}

/// The bytes that are known of a datagram's data, by place, its end, if that is known, and the
/// greatest promise of its fragments, if there is one; or clashed, by facts that contradict each
/// other.
///
/// A fragment with M set promises a byte at its reach or after it (our choice).
pub type Cover = Slot<CoverFacts>;

impl Slot<CoverFacts> {
    /// What one fragment says of its datagram's data. Memory is taken for its bytes.
    ///
    /// # Errors
    ///
    /// `NoMemory` where memory ran out.
    pub fn of(alloc: Global, fragment: &Fragment<'_>) -> Result<Cover, NoMemory>
        ensures { IfOk result (λ cover. cover ≡ Held (cover_of (core_of fragment.now))) }
    {
        Ok(Slot::Held(CoverFacts::of(alloc, &Piece::of(&fragment.lent()))?))
    }
}

impl CoverFacts {
    /// What a piece says.
    pub(crate) fn of(alloc: Global, piece: &Piece<'_>) -> Result<CoverFacts, NoMemory>
        ensures { IfOk result (λ cover. cover ≡ piece_cover piece.now) }
    {
        let mut bytes = Runs::new(alloc);
        bytes.insert(alloc, piece.start(), piece.bytes())?;
        let marks = Marks::of(piece);
        Ok(CoverFacts { bytes, marks })
    }

    /// Whether each byte lies below this place.
    fn bytes_are_below(&self, place: u32) -> bool
        ensures { result ≡ bytes_lie_below place self.now.bytes }
    {
        self.bytes.lie_below(place)
    }

    /// Whether each byte and what is marked lie below the end, if there is one.
    fn is_below(&self, end: Option<u32>) -> bool
        ensures { result ≡ is_below_end end self.now }
    {
        match end {
            Some(end) => self.bytes_are_below(end) && self.marks.lie_below(end),
            None => true,
        }
    }

    /// Whether a piece doesn't contradict what is known.
    pub(crate) fn agrees_with(&self, piece: &Piece<'_>) -> bool
        ensures { result ≡ covers_agree self.now (piece_cover piece.now) }
    {
        let start = piece.start();
        let said = Marks::of(piece);
        self.marks.agree(said)
            && self.is_below(said.end)
            && is_below(piece, self.marks.end)
            && self.bytes.agree(start, piece.bytes())
    }

    /// Whether all that a piece says is known.
    pub(crate) fn holds(&self, piece: &Piece<'_>) -> bool
        ensures { IsTrue result ↔ Holds self.now (piece_cover piece.now) }
    {
        let known = self.marks.together(Marks::of(piece));
        if !known.are(self.marks) {
            return false;
        }
        let start = piece.start();
        self.bytes.hold(start, piece.bytes())
    }

    /// Inserts what a piece says, which doesn't contradict what is known. All memory is taken
    /// before anything changes.
    pub(crate) fn insert(&mut self, alloc: Global, piece: &Piece<'_>) -> Result<(), NoMemory>
        requires { CoversFit self.old (piece_cover piece.now) }
        ensures ok { OnOk result
            (self.new ≡ covers_together self.old (piece_cover piece.now)) }
        ensures err { OnErr result (self.new ≡ self.old) }
    {
        let start = piece.start();
        self.bytes.insert(alloc, start, piece.bytes())?;
        self.marks = self.marks.together(Marks::of(piece));
        Ok(())
    }

    /// The bytes up to the end, in order, of what is known with what a piece says, which doesn't
    /// contradict it, if all are known. No memory is taken where one isn't.
    pub(crate) fn whole_with(
        &self,
        alloc: Global,
        piece: &Piece<'_>,
    ) -> Result<Option<Bytes>, NoMemory>
        requires { CoversFit self.now (piece_cover piece.now) }
        ensures { IfOk result (λ bytes. bytes
            ≡ bytes_to (covers_together self.now (piece_cover piece.now)).bytes
            (covers_together self.now (piece_cover piece.now)).marks.end) }
    {
        let start = piece.start();
        match self.marks.together(Marks::of(piece)).end {
            Some(end) => self.bytes.bytes_with(alloc, end, start, piece.bytes()),
            None => Ok(None),
        }
    }

    /// The bytes up to the end, in order, if all are known. No memory is taken where one isn't.
    pub(crate) fn whole(&self, alloc: Global) -> Result<Option<Bytes>, NoMemory>
        ensures value { IfOk result (λ bytes. bytes ≡ bytes_to self.now.bytes self.now.marks.end) }
        ensures no_memory_needed { bytes_to self.now.bytes self.now.marks.end ≡ None
            → result ≡ Ok None }
    {
        match self.marks.end {
            Some(end) => self.bytes.bytes_below(alloc, end),
            None => Ok(None),
        }
    }

    /// How many runs the bytes make up, where each lies below what a datagram may have.
    pub(crate) fn run_count(&self) -> u32
        requires { BytesBelow MAX_LENGTH self.now.bytes }
        ensures { result ≡ length (runs_of_map self.now.bytes) }
    {
        self.bytes.count() as u32
    }

    /// Whether the end and each byte before it are known.
    pub(crate) fn is_whole(&self) -> bool
        ensures { IsTrue result ↔ IsWholeCover self.now }
    {
        match self.marks.end {
            Some(end) => self.bytes.cover_below(end),
            None => false,
        }
    }

    /// How many bytes are known, where each lies below what a datagram may have.
    pub(crate) fn held(&self) -> u32
        requires { BytesBelow MAX_LENGTH self.now.bytes }
        ensures { result ≡ maps.len self.now.bytes }
    {
        self.bytes.held() as u32
    }

    /// The promise, where no byte is known at its place or after it.
    pub(crate) fn awaited(&self) -> Option<u32>
        ensures { result ≡ awaited_of self.now }
    {
        match self.marks.promise {
            Some(place) if self.bytes_are_below(place) => Some(place),
            _ => None,
        }
    }

    /// The ranges of the known places, where each lies below what a datagram may have.
    pub(crate) fn ranges(&self) -> Ranges<'_>
        requires { BytesBelow MAX_LENGTH self.now.bytes }
        ensures { result ≡ ranges_of_map self.now.bytes }
    {
        self.bytes.ranges()
    }

    /// The bytes of saved runs, with marks. All of it lies below the end.
    pub(crate) fn load(
        alloc: Global,
        runs: &SavedRuns<'_>,
        marks: Marks,
    ) -> Result<CoverFacts, NoMemory>
        requires { AreCoverFacts (record { bytes = map_of_runs runs.now; marks = marks }) }
        ensures { IfOk result (λ cover.
            cover ≡ record { bytes = map_of_runs runs.now; marks = marks }) }
    {
        let bytes = runs.to_runs(alloc)?;
        Ok(CoverFacts { bytes, marks })
    }

    /// Puts the marks and the maximal runs.
    pub(crate) fn put_to<S: ByteSink>(&self, sink: &mut S) -> Result<(), S::Fault>
        ensures { Puts S.takes S.breaks sink.old sink.new (cover_bytes Second self.now) result }
    {
        put_marks(sink, self.marks)?;
        self.bytes.put_to(sink)
    }
}

impl PartialEq for CoverFacts {
    ghost eq = { same_cover_facts };

    ghost laws = { cover_facts_per };

    fn eq(&self, other: &Self) -> bool {
        self.marks == other.marks && self.bytes.are(&other.bytes)
    }
}

impl Eq for CoverFacts {
    ghost laws = { cover_facts_equiv };
}
