//! Facts that grow by one fragment.
ghost use Rattle.std.specs.Prelude.{◌≡◌, ◌≤◌, ℕ, IfOk, OnOk, OnErr, Some, None};
ghost use Rattle.nb_datagram.specs.Fragment.{core_of};
ghost use Rattle.nb_datagram.specs.declared.limits.TheConstants.{MAX_LENGTH};
ghost use Rattle.nb_entries.specs.Maps.{Held};
ghost use Rattle.nb_entries.specs.Entry.{AreEntryFacts, FactsFit, facts_of, facts_together};
ghost use Rattle.nb_entries.specs.Cover.{CoversFit, cover_of, covers_together};
ghost use Rattle.nb_entries.specs.Code.CoverFacts.{Holds};
ghost use Rattle.nb_entries.specs.Whole.{bytes_to, datagram_with, newly, datagram_of as entry_datagram};
ghost use Rattle.nb_entries.specs.Change.{Tells, handed_by, grown_to as grown};

use super::EntryFacts;
use crate::outline::{Change, Handing};
use crate::piece::Piece;
use nb_datagram::{LentFragment, UserData};
use nb_streams::NoMemory;
use std::alloc::Global;

/// What facts that grow come to, with the datagram's data, if they are whole.
pub(super) fn grown_to(bytes: Option<UserData>) -> Change<UserData>
    ensures { result ≡ grown bytes }
{
    match bytes {
        Some(bytes) => Change::Whole(bytes),
        None => Change::Grown,
    }
}

impl EntryFacts {
    /// The datagram's data, if the facts become whole with a fragment and it is handed over. No
    /// memory is taken else.
    fn newly_whole_with(
        &self,
        alloc: Global,
        fragment: &LentFragment<'_>,
        handing: Handing,
    ) -> Result<Option<UserData>, NoMemory>
        requires fits { CoversFit self.now.cover (cover_of (core_of fragment.now)) }
        requires short { (n : ℕ)
            → (covers_together self.now.cover (cover_of (core_of fragment.now))).marks.end ≡ Some n
            → n ≤ MAX_LENGTH }
        ensures { IfOk result (λ bytes. datagram_with fragment.now.key self.now bytes
            ≡ handed_by handing (newly (entry_datagram fragment.now.key (Held self.now))
            (datagram_with fragment.now.key self.now
            (bytes_to (covers_together self.now.cover (cover_of (core_of fragment.now))).bytes
            (covers_together self.now.cover (cover_of (core_of fragment.now))).marks.end)))) }
    {
        match handing {
            Handing::Over => {}
            Handing::Kept => return Ok(None),
        }
        if self.is_whole() {
            return Ok(None);
        }
        match self.known.cover.whole_with(alloc, &Piece::of(fragment))? {
            Some(bytes) => Ok(Some(UserData::new(bytes))),
            None => Ok(None),
        }
    }

    /// Inserts a fragment, which doesn't contradict what is known. All memory is taken before
    /// anything changes.
    pub(crate) fn insert(
        &mut self,
        alloc: Global,
        fragment: &LentFragment<'_>,
        handing: Handing,
    ) -> Result<Change<UserData>, NoMemory>
        requires fits { FactsFit self.old (facts_of (core_of fragment.now)) }
        requires short { (n : ℕ)
            → (facts_together self.old (facts_of (core_of fragment.now))).cover.marks.end ≡ Some n
            → n ≤ MAX_LENGTH }
        ensures joined { OnOk result
            (self.new ≡ facts_together self.old (facts_of (core_of fragment.now))) }
        ensures change { IfOk result
            (Tells handing fragment.now (Some (Held self.old)) (Some (Held self.new))) }
        ensures formed { AreEntryFacts self.new }
        ensures kept { OnErr result (self.new ≡ self.old) }
        ensures more { OnErr result
            (Holds self.old.cover (facts_of (core_of fragment.now)).cover → ⊥) }
    {
        let piece = Piece::of(fragment);
        if self.known.cover.holds(&piece) {
            return Ok(Change::Same);
        }
        let bytes = self.newly_whole_with(alloc, fragment, handing)?;
        self.known.cover.insert(alloc, &piece)?;
        Ok(grown_to(bytes))
    }

    /// The datagram's data, if the facts are whole and it is handed over. No memory is taken else.
    pub(super) fn first_data(
        &self,
        alloc: Global,
        handing: Handing,
    ) -> Result<Option<UserData>, NoMemory>
        requires { (n : ℕ) → self.now.cover.marks.end ≡ Some n → n ≤ MAX_LENGTH }
        ensures { IfOk result (λ bytes. bytes
            ≡ handed_by handing (bytes_to self.now.cover.bytes self.now.cover.marks.end)) }
    {
        match handing {
            Handing::Over => self.user_data(alloc),
            Handing::Kept => Ok(None),
        }
    }
}
