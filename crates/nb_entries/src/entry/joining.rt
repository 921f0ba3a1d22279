//! Entries joined.
ghost use Rattle.std.specs.Prelude.{◌≡◌, IfOk, OnOk, OnErr, MatchOption, Some, None, option_and_then};
ghost use Rattle.std.specs.Option.{option_copied};
ghost use Rattle.nb_datagram.specs.declared.limits.TheConstants.{MAX_LENGTH};
ghost use Rattle.nb_entries.specs.Entry.{join_entry, IsShort, is_short, AreEntryFacts, facts_agree, facts_together};
ghost use Rattle.nb_entries.specs.Whole.{newly, datagram_of as entry_datagram};
ghost use Rattle.nb_entries.specs.Change.{handed_by, whole_by};
ghost use Rattle.nb_entries.specs.Code.CoverFacts.{IsPart};
ghost use Rattle.nb_entries.specs.Shared.EntryLemmas.{facts_unite, entry_agrees};

use super::{Entry, EntryFacts};
use crate::cover::CoverFacts;
use crate::cover::marks::Marks;
use crate::outline::{Change, Handing};
use crate::piece::Piece;
use crate::slot::{Facts, Slot};
use nb_datagram::limits::{MAX_LENGTH, MORE};
use nb_datagram::{Datagram, Key, LentFragment};
use nb_streams::NoMemory;
use std::alloc::Global;

/// The datagram, if a key became whole.
fn datagram_of(change: Change) -> Option<Datagram>
    ensures { result ≡ whole_by change }
{
    match change {
        Change::Whole(datagram) => Some(datagram),
        _ => None,
    }
}

impl Slot<EntryFacts> {
    /// The datagram of the key, if the entry is whole and the one before it wasn't. No memory is
    /// taken else.
    fn newly_whole(
        &self,
        alloc: Global,
        key: Key,
        before: &Entry,
    ) -> Result<Option<Datagram>, NoMemory>
        requires { IsShort MAX_LENGTH self.now }
        ensures { IfOk result (λ datagram. datagram
            ≡ newly (entry_datagram key before.now) (entry_datagram key self.now)) }
    {
        if before.is_whole() {
            return Ok(None);
        }
        self.datagram_of(alloc, key)
    }

    /// The datagram of the key, if it is handed over, and the entry is whole and what was known
    /// before, if anything, wasn't. No memory is taken else. The entry reaches no further than a
    /// datagram may.
    ///
    /// # Errors
    ///
    /// `NoMemory` where memory ran out.
    pub fn handed(
        &self,
        alloc: Global,
        key: Key,
        before: Option<&Entry>,
        handing: Handing,
    ) -> Result<Option<Datagram>, NoMemory>
        requires { IsShort MAX_LENGTH self.now }
        ensures { IfOk result (λ datagram. datagram ≡ handed_by handing
            (newly (option_and_then (entry_datagram key) (option_copied before.entry))
            (entry_datagram key self.now))) }
    {
        match (handing, before) {
            (Handing::Over, Some(before)) => self.newly_whole(alloc, key, before),
            (Handing::Over, None) => self.datagram_of(alloc, key),
            (Handing::Kept, _) => Ok(None),
        }
    }

    /// The fragment of the key that says all that is known, if one can.
    fn as_fragment(&self, key: Key) -> Option<LentFragment<'_>>
        ensures { MatchOption result (Unit {0}) (IsPart key self.now) }
    {
        let Slot::Held(facts) = self else {
            return None;
        };
        let cover = facts.cover();
        let (start, bytes) = cover.only()?;
        let offset = u16::try_from(start).ok()?;
        let flags = match cover.marks().end {
            Some(_) => 0,
            None => MORE,
        };
        let source = facts.source();
        let destination = facts.destination();
        let kind = facts.kind();
        let fragment = LentFragment::new(
            kind,
            flags,
            key,
            offset,
            source,
            destination,
            bytes,
        ).ok()?;
        let said = Marks::of(&Piece::of(&fragment));
        if fragment.reach() as usize > MAX_LENGTH || !said.are(cover.marks()) {
            return None;
        }
        Some(fragment)
    }

    /// Joins the other into this one, and gives the datagram of the key, if it becomes whole by
    /// this and is handed over. What is known of the other takes the place of a fragment where one
    /// can say it, so that this one grows in place. All memory is taken before anything changes.
    /// Neither this one nor the join reaches further than a datagram may.
    ///
    /// # Errors
    ///
    /// `NoMemory` where memory ran out; the entry is then as it was.
    pub fn join_in_place(
        &mut self,
        alloc: Global,
        key: Key,
        other: &Entry,
        handing: Handing,
    ) -> Result<Option<Datagram>, NoMemory>
        requires own { IsShort MAX_LENGTH self.old }
        requires joined { IsShort MAX_LENGTH (join_entry self.old other.now) }
        ensures joined { OnOk result (self.new ≡ join_entry self.old other.now) }
        ensures datagram { IfOk result (λ datagram. datagram ≡ handed_by handing
            (newly (entry_datagram key self.old)
            (entry_datagram key (join_entry self.old other.now)))) }
        ensures err { OnErr result (self.new ≡ self.old) }
    {
        if let Some(fragment) = other.as_fragment(key) {
            let change = self.insert(alloc, &fragment, handing)?;
            return Ok(datagram_of(change.made_by(&fragment)));
        }
        let joined = self.joined(other)?;
        let datagram = joined.handed(alloc, key, Some(self), handing)?;
        *self = joined;
        Ok(datagram)
    }

    /// Whether it is spoilt, or has its places below this one and ends and promises at most there.
    pub fn is_short(&self, longest: u16) -> bool
        ensures { result ≡ is_short longest self.now }
    {
        match self {
            Slot::Held(facts) => facts.cover().is_short(u32::from(longest)),
            Slot::Spoilt => true,
        }
    }

    /// A copy.
    ///
    /// # Errors
    ///
    /// `NoMemory` where memory ran out.
    pub fn copied(&self) -> Result<Entry, NoMemory>
        ensures { IfOk result (λ entry. entry ≡ self.now) }
    {
        match self {
            Slot::Held(facts) => Ok(Slot::Held(facts.copied()?)),
            Slot::Spoilt => Ok(Slot::Spoilt),
        }
    }
}

impl Facts for EntryFacts {
    ghost agrees = { facts_agree };

    ghost union = { facts_together };

    ghost AreFormed = { AreEntryFacts };

    ghost unites = { facts_unite };

    ghost formed_agree = { entry_agrees };

    fn agree(&self, other: &EntryFacts) -> bool {
        self.known.kind == other.known.kind
            && self.source().is(&other.source())
            && self.destination().is(&other.destination())
            && self.known.cover.agree(&other.known.cover)
    }

    fn together(&self, other: &EntryFacts) -> Result<EntryFacts, NoMemory> {
        let cover = self.known.cover.together(&other.known.cover)?;
        self.with(cover)
    }
}

impl EntryFacts {
    /// The same kind and names, with these places.
    fn with(&self, cover: CoverFacts) -> Result<EntryFacts, NoMemory>
        ensures { IfOk result (λ facts. facts ≡ record {
          kind = self.now.kind;
          source = self.now.source;
          destination = self.now.destination;
          cover = cover;
        }) }
    {
        let alloc = *Box::allocator(&self.known);
        let source = self.source();
        let destination = self.destination();
        EntryFacts::new(alloc, self.known.kind, &source, &destination, cover)
    }

    /// A copy.
    pub(crate) fn copied(&self) -> Result<EntryFacts, NoMemory>
        ensures { IfOk result (λ facts. facts ≡ self.now) }
    {
        let cover = self.known.cover.copied()?;
        self.with(cover)
    }
}
