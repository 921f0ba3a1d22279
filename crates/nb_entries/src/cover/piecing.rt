//! Covers that grow by pieces.
ghost use Rattle.std.specs.Prelude.{◌≡◌, IfOk, OnOk, OnErr, is_some};
ghost use Rattle.nb_entries.specs.Maps.{Held};
ghost use Rattle.nb_entries.specs.Cover.{CoversFit, covers_together, piece_cover};
ghost use Rattle.nb_entries.specs.Whole.{newly};
ghost use Rattle.nb_entries.specs.CoverChange.{CoverChange, data_of, no_facts, with_piece};

use super::marks::Marks;
use super::runs::Runs;
use super::{Cover, CoverFacts};
use crate::outline::Change;
use crate::piece::Piece;
use crate::slot::Slot;
use nb_streams::{Bytes, NoMemory};
use std::alloc::Global;

impl Slot<CoverFacts> {
    /// What no piece says. No memory is taken.
    pub fn none(alloc: Global) -> Cover
        ensures { result ≡ Held no_facts }
    {
        Slot::Held(CoverFacts {
            bytes: Runs::new(alloc),
            marks: Marks {
                end: None,
                promise: None,
            },
        })
    }

    /// Joins a piece in place, and says what that changed, with the data, if it became whole. All
    /// memory is taken before anything changes, and none where the join is clashed or adds nothing.
    ///
    /// # Errors
    ///
    /// `NoMemory` where memory ran out; the cover is then as it was.
    pub fn insert(&mut self, alloc: Global, piece: &Piece<'_>) -> Result<Change<Bytes>, NoMemory>
        ensures joined { OnOk result (self.new ≡ with_piece self.old piece.now) }
        ensures change { IfOk result (CoverChange self.old self.new) }
        ensures kept { OnErr result (self.new ≡ self.old) }
    {
        let Slot::Held(facts) = self else {
            return Ok(Change::Same);
        };
        if !facts.agrees_with(piece) {
            *self = Slot::Spoilt;
            return Ok(Change::Spoilt);
        }
        facts.grow(alloc, piece)
    }

    /// Whether it isn't clashed, and its end and each byte before it are known: whether it has
    /// data. No memory is taken.
    pub fn is_whole(&self) -> bool
        ensures { result ≡ is_some (data_of self.now) }
    {
        match self {
            Slot::Held(facts) => facts.is_whole(),
            Slot::Spoilt => false,
        }
    }
}

impl CoverFacts {
    /// Inserts a piece, which doesn't contradict what is known, and gives the data, if it becomes
    /// whole.
    fn grow(&mut self, alloc: Global, piece: &Piece<'_>) -> Result<Change<Bytes>, NoMemory>
        requires { CoversFit self.old (piece_cover piece.now) }
        ensures joined { OnOk result (self.new ≡ covers_together self.old (piece_cover piece.now)) }
        ensures change { IfOk result (CoverChange (Held self.old) (Held self.new)) }
        ensures kept { OnErr result (self.new ≡ self.old) }
    {
        if self.holds(piece) {
            return Ok(Change::Same);
        }
        let whole = self.newly_whole_with(alloc, piece)?;
        self.insert(alloc, piece)?;
        match whole {
            Some(bytes) => Ok(Change::Whole(bytes)),
            None => Ok(Change::Grown),
        }
    }

    /// The data, if it becomes whole with a piece, which doesn't contradict what is known.
    fn newly_whole_with(&self, alloc: Global, piece: &Piece<'_>) -> Result<Option<Bytes>, NoMemory>
        requires { CoversFit self.now (piece_cover piece.now) }
        ensures { IfOk result (λ whole. whole ≡ newly (data_of (Held self.now))
            (data_of (Held (covers_together self.now (piece_cover piece.now))))) }
    {
        if self.is_whole() {
            return Ok(None);
        }
        self.whole_with(alloc, piece)
    }
}
