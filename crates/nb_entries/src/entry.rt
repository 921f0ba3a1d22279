//! Entries: what is known of one datagram.
ghost use Rattle.std.specs.Prelude.{◌≡◌, ◌≢◌, ◌↔◌, ◌≤◌, ℕ, IfOk, OnOk, OnErr, IsTrue, Some, None, Ok, box_value};
ghost use Rattle.nb_datagram.specs.Fragment.{core_of, reach};
ghost use Rattle.nb_datagram.specs.declared.limits.TheConstants.{MAX_LENGTH};
ghost use Rattle.nb_entries.specs.Maps.{Spoilt, Held};
ghost use Rattle.nb_entries.specs.Entry.{facts_agree, facts_of, join_entry, IsShort, EntryFacts};
ghost use Rattle.nb_entries.specs.Runs.{entry_run_count};
ghost use Rattle.nb_entries.specs.Whole.{IsWholeCover, bytes_to};
ghost use Rattle.nb_entries.specs.Change.{Tells};
ghost use Rattle.nb_entries.specs.EntryState.{IsEntryState};
ghost use Rattle.nb_entries.specs.Codes.{entry_facts_code};
ghost use Rattle.nb_entries.specs.Cover.{AreCoverFacts};
ghost use Rattle.nb_entries.specs.Shared.EqualLemmas.{entry_facts_per, entry_facts_equiv};
ghost use Rattle.nb_entries.specs.Equal.{same_entry_facts};

mod growing;
mod joining;
mod reading;

use crate::cover::CoverFacts;
use crate::outline::{Change, Handing, State};
use crate::piece::Piece;
use crate::slot::Slot;
use growing::grown_to;
use nb_datagram::{Fragment, Kind, LentFragment, UserData};
use nb_names::{KeptName, LentName};
use nb_streams::NoMemory;
use std::alloc::Global;
use std::marker::Model;

/// What is known of one datagram that isn't spoilt.
#[derive(Drop)]
struct Known {
    kind: Kind,
    source: KeptName,
    destination: KeptName,
    cover: CoverFacts,
}

/// The kind, both names, and the known bytes with their places. They lie in a box, so that an entry
/// is small and its moves in a map are cheap.
#[derive(Drop)]
pub struct EntryFacts {
    known: Box<Known>,
}

impl Model for EntryFacts {
    ghost Value = { EntryFacts };

    ghost coded = { entry_facts_code };

    ghost view = { λ f. record {
      kind = (box_value f.known).kind;
      source = (box_value f.known).source;
      destination = (box_value f.known).destination;
      cover = (box_value f.known).cover;
    } };

    ghost invariant = { λ f. AreCoverFacts (box_value f.known).cover };
}

impl EntryFacts {
    /// The facts of these parts. The names are copied.
    pub(crate) fn new(
        alloc: Global,
        kind: Kind,
        source: &LentName<'_>,
        destination: &LentName<'_>,
        cover: CoverFacts,
    ) -> Result<EntryFacts, NoMemory>
        ensures { IfOk result (λ facts. facts ≡ record {
          kind = kind;
          source = source.now;
          destination = destination.now;
          cover = cover;
        }) }
    {
        let known = Known {
            kind,
            source: KeptName::copy(alloc, source)?,
            destination: KeptName::copy(alloc, destination)?,
            cover,
        };
        Ok(EntryFacts {
            known: Box::new(alloc, known)?,
        })
    }

    /// To whom the datagram goes.
    pub(crate) fn kind(&self) -> Kind
        ensures { result ≡ self.now.kind }
    {
        self.known.kind
    }

    /// The sender's name.
    pub(crate) fn source(&self) -> LentName<'_>
        ensures { result ≡ self.now.source }
    {
        self.known.source.lent()
    }

    /// The name that the datagram is for.
    pub(crate) fn destination(&self) -> LentName<'_>
        ensures { result ≡ self.now.destination }
    {
        self.known.destination.lent()
    }

    /// The known bytes with their places.
    pub(crate) fn cover(&self) -> &CoverFacts
        ensures { result.now ≡ self.now.cover }
    {
        &self.known.cover
    }

    /// What one fragment says.
    pub(crate) fn of(alloc: Global, fragment: &LentFragment<'_>) -> Result<EntryFacts, NoMemory>
        ensures { IfOk result (λ facts. facts ≡ facts_of (core_of fragment.now)) }
    {
        let cover = CoverFacts::of(alloc, &Piece::of(fragment))?;
        let source = fragment.source();
        let destination = fragment.destination();
        EntryFacts::new(alloc, fragment.kind(), source, destination, cover)
    }

    /// Whether a fragment doesn't contradict what is known.
    pub(crate) fn agrees_with(&self, fragment: &LentFragment<'_>) -> bool
        ensures { result ≡ facts_agree self.now (facts_of (core_of fragment.now)) }
    {
        self.known.kind == fragment.kind()
            && self.source().is(fragment.source())
            && self.destination().is(fragment.destination())
            && self.known.cover.agrees_with(&Piece::of(fragment))
    }

    /// The datagram's data, if the facts are whole. No memory is taken where they aren't.
    fn user_data(&self, alloc: Global) -> Result<Option<UserData>, NoMemory>
        requires { (n : ℕ) → self.now.cover.marks.end ≡ Some n → n ≤ MAX_LENGTH }
        ensures value { IfOk result (λ bytes.
            bytes ≡ bytes_to self.now.cover.bytes self.now.cover.marks.end) }
        ensures no_memory_needed { bytes_to self.now.cover.bytes self.now.cover.marks.end ≡ None
            → result ≡ Ok None }
    {
        match self.known.cover.whole(alloc)? {
            Some(bytes) => Ok(Some(UserData::new(bytes))),
            None => Ok(None),
        }
    }

    /// Whether the end and each byte before it are known.
    pub(crate) fn is_whole(&self) -> bool
        ensures { IsTrue result ↔ IsWholeCover self.now.cover }
    {
        self.known.cover.is_whole()
    }
}

impl PartialEq for EntryFacts {
    ghost eq = { same_entry_facts };

    ghost laws = { entry_facts_per };

    fn eq(&self, other: &Self) -> bool {
        self.known.kind == other.known.kind
            && self.source().is(&other.source())
            && self.destination().is(&other.destination())
            && self.known.cover == other.known.cover
    }
}

impl Eq for EntryFacts {
    ghost laws = { entry_facts_equiv };
}

/// What is known of one datagram: its kind, both names and its cover; or spoilt, by facts that
/// contradict each other.
pub type Entry = Slot<EntryFacts>;

impl Slot<EntryFacts> {
    /// What one fragment says of its datagram. Memory is taken for its bytes.
    ///
    /// # Errors
    ///
    /// `NoMemory` where memory ran out.
    pub fn of(alloc: Global, fragment: &Fragment<'_>) -> Result<Entry, NoMemory>
        ensures { IfOk result (λ entry. entry ≡ Held (facts_of (core_of fragment.now))) }
    {
        Ok(Slot::Held(EntryFacts::of(alloc, &fragment.lent())?))
    }

    /// What one fragment says of its datagram, and what that changes at its key, which was new. The
    /// fragment reaches no further than a datagram may.
    ///
    /// # Errors
    ///
    /// `NoMemory` where memory ran out.
    pub fn first(
        alloc: Global,
        fragment: &LentFragment<'_>,
        handing: Handing,
    ) -> Result<(Entry, Change<UserData>), NoMemory>
        requires { reach (core_of fragment.now) ≤ MAX_LENGTH }
        ensures entry { IfOk result (λ made. made.0 ≡ Held (facts_of (core_of fragment.now))) }
        ensures change { IfOk result (λ made.
            Tells handing fragment.now None (Some made.0) made.1) }
    {
        let facts = EntryFacts::of(alloc, fragment)?;
        let bytes = facts.first_data(alloc, handing)?;
        Ok((Slot::Held(facts), grown_to(bytes)))
    }

    /// Inserts a fragment in place. All memory is taken before anything changes, and none where the
    /// join is spoilt or adds nothing. Neither the entry nor the fragment reaches further than a
    /// datagram may.
    ///
    /// # Errors
    ///
    /// `NoMemory` where memory ran out; the entry is then as it was.
    pub fn insert(
        &mut self,
        alloc: Global,
        fragment: &LentFragment<'_>,
        handing: Handing,
    ) -> Result<Change<UserData>, NoMemory>
        requires entry { IsShort MAX_LENGTH self.old }
        requires fragment { reach (core_of fragment.now) ≤ MAX_LENGTH }
        ensures joined { OnOk result
            (self.new ≡ join_entry self.old (Held (facts_of (core_of fragment.now)))) }
        ensures change { IfOk result
            (Tells handing fragment.now (Some self.old) (Some self.new)) }
        ensures kept { OnErr result (self.new ≡ self.old) }
        ensures not_spoilt { OnErr result
            (join_entry self.old (Held (facts_of (core_of fragment.now))) ≢ Spoilt) }
        ensures more { OnErr result
            (join_entry self.old (Held (facts_of (core_of fragment.now))) ≢ self.old) }
    {
        let Slot::Held(facts) = self else {
            return Ok(Change::Same);
        };
        if !facts.agrees_with(fragment) {
            *self = Slot::Spoilt;
            return Ok(Change::Spoilt);
        }
        facts.insert(alloc, fragment, handing)
    }

    /// How many runs its bytes make up, if it isn't spoilt.
    pub fn run_count(&self) -> Option<u32>
        requires { IsShort MAX_LENGTH self.now }
        ensures { result ≡ entry_run_count self.now }
    {
        match self {
            Slot::Held(facts) => Some(facts.cover().run_count()),
            Slot::Spoilt => None,
        }
    }

    /// What is known of the datagram. No memory is taken.
    pub fn state(&self) -> State
        ensures { IsEntryState self.now result }
    {
        match self {
            Slot::Spoilt => State::Spoilt,
            Slot::Held(facts) if facts.is_whole() => State::Whole,
            Slot::Held(_) => State::Partial,
        }
    }
}
