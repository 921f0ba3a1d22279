//! What an entry says: its outline, its ranges, and its datagram, if it is whole.
ghost use Rattle.std.specs.Prelude.{◌≡◌, ◌↔◌, IsTrue, IfOk, None, Ok};
ghost use Rattle.nb_datagram.specs.declared.limits.TheConstants.{MAX_LENGTH};
ghost use Rattle.nb_entries.specs.Entry.{AreShort, IsShort};
ghost use Rattle.nb_entries.specs.Whole.{entry_outline, outline_of, IsWhole, datagram_of as entry_datagram};
ghost use Rattle.nb_entries.specs.Runs.{entry_ranges};

use super::EntryFacts;
use crate::outline::Outline;
use crate::ranges::Ranges;
use crate::slot::Slot;
use nb_datagram::{Datagram, Key};
use nb_streams::NoMemory;
use std::alloc::Global;

impl EntryFacts {
    /// All but the bytes themselves.
    pub(crate) fn outline(&self) -> Outline
        requires { AreShort MAX_LENGTH self.now }
        ensures { result ≡ outline_of self.now }
    {
        Outline {
            kind: self.known.kind,
            source: self.source().to_name(),
            destination: self.destination().to_name(),
            held: self.known.cover.held(),
            runs: self.known.cover.run_count(),
            end: self.known.cover.marks().end,
            promise: self.known.cover.marks().promise,
            awaited: self.known.cover.awaited(),
        }
    }
}

impl Slot<EntryFacts> {
    /// What is known but for the bytes, if it isn't spoilt.
    pub fn outline(&self) -> Option<Outline>
        requires { IsShort MAX_LENGTH self.now }
        ensures { result ≡ entry_outline self.now }
    {
        match self {
            Slot::Held(facts) => Some(facts.outline()),
            Slot::Spoilt => None,
        }
    }

    /// The ranges of the places that are known; none if it is spoilt.
    pub fn ranges(&self) -> Ranges<'_>
        requires { IsShort MAX_LENGTH self.now }
        ensures { result ≡ entry_ranges self.now }
    {
        match self {
            Slot::Held(facts) => facts.cover().ranges(),
            Slot::Spoilt => Ranges::none(),
        }
    }
}

impl Slot<EntryFacts> {
    /// Whether it isn't spoilt, and its end and each byte before it are known.
    pub fn is_whole(&self) -> bool
        ensures { IsTrue result ↔ IsWhole self.now }
    {
        match self {
            Slot::Held(facts) => facts.is_whole(),
            Slot::Spoilt => false,
        }
    }

    /// The datagram of the key, if the entry is whole. No memory is taken where it isn't. The entry
    /// reaches no further than a datagram may.
    ///
    /// # Errors
    ///
    /// `NoMemory` where memory ran out.
    pub fn datagram_of(&self, alloc: Global, key: Key) -> Result<Option<Datagram>, NoMemory>
        requires { IsShort MAX_LENGTH self.now }
        ensures value { IfOk result (λ datagram. datagram ≡ entry_datagram key self.now) }
        ensures no_memory_needed { entry_datagram key self.now ≡ None → result ≡ Ok None }
    {
        let Slot::Held(facts) = self else {
            return Ok(None);
        };
        let Some(bytes) = facts.user_data(alloc)? else {
            return Ok(None);
        };
        let source = facts.source();
        let destination = facts.destination();
        Ok(Some(Datagram::of_lent(key, facts.kind(), &source, &destination, bytes)))
    }
}
