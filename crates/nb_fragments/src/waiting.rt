//! What is kept of a packet.
ghost use Rattle.std.specs.Prelude.{◌≡◌, ◌≤◌, ◌<◌, ◌+◌, ◌^◌, length, IfOk, OnOk, OnErr, Some};
ghost use Rattle.nb_entries.specs.Cover.{CoverValue};
ghost use Rattle.nb_entries.specs.declared.slot.Slot.TheVariants.{Held};
ghost use Rattle.nb_entries.specs.CoverChange.{CoverChange, no_facts, with_piece};
ghost use Rattle.nb_fragments.specs.Code.Kept.{is_lost, lacks};
ghost use Rattle.nb_fragments.specs.Live.{is_over};
ghost use Rattle.nb_fragments.specs.Taking.{IsLater, IsTaken};

use crate::limits::LIFETIME;
use crate::taken::Taken;
use nb_entries::{Change, Cover, Piece, Slot};
use nb_streams::{Bytes, NoMemory};
use std::alloc::Global;

/// What is kept of a packet.
#[derive(Drop)]
pub(crate) struct Waiting {
    /// When its first fragment came, in nanoseconds by the capture's clock.
    pub(crate) start: u64,
    /// At least how many bytes are kept.
    pub(crate) bytes: usize,
    /// What its fragments say.
    pub(crate) cover: Cover,
}

impl Waiting {
    /// Before the first fragment, which comes now.
    pub(crate) fn new(alloc: Global, now: u64) -> Waiting
        ensures start { result.start ≡ now }
        ensures cover { result.cover ≡ Held no_facts }
        ensures bytes { result.bytes ≡ 0 }
    {
        Waiting {
            start: now,
            bytes: 0,
            cover: Cover::none(alloc),
        }
    }

    /// Joins a piece, and says what that makes of the packet. Where memory ran out nothing changes.
    /// `used` grows as what is kept does.
    pub(crate) fn join(
        &mut self,
        alloc: Global,
        piece: &Piece<'_>,
        used: &mut usize,
    ) -> Result<Taken, NoMemory>
        ensures start { self.new.start ≡ self.old.start }
        ensures joined { OnOk result (self.new.cover ≡ with_piece self.old.cover piece.now) }
        ensures taken { IfOk result (IsTaken self.old.cover self.new.cover) }
        ensures kept { OnErr result (self.new ≡ self.old) }
        ensures charge { OnOk result (used.old + length piece.now.bytes < 2 ^ 64 →
            self.new.bytes + used.old ≤ self.old.bytes + used.new) }
        ensures most { OnOk result (used.new ≤ used.old + length piece.now.bytes) }
        ensures unused { OnErr result (used.new ≡ used.old) }
    {
        let change = self.cover.insert(alloc, piece)?;
        let added = bytes_added(&change, piece.bytes().len());
        self.bytes = self.bytes.saturating_add(added);
        *used = used.saturating_add(added);
        Ok(taken_of(change, &self.cover))
    }

    /// Whether the packet is lost, of which some bytes didn't come, by its timer or at the end.
    pub(crate) fn is_lost(&self, now: Option<u64>) -> bool
        ensures { result ≡ is_lost now self.now }
    {
        match now {
            Some(now) => is_over(now, self.start) && lacks(&self.cover),
            None => lacks(&self.cover),
        }
    }
}

/// Whether some bytes of a packet didn't come.
fn lacks(cover: &Cover) -> bool
    ensures { result ≡ lacks cover.now }
{
    match cover {
        Slot::Spoilt => false,
        Slot::Held(_) => !cover.is_whole(),
    }
}

/// Whether the timer of a packet with this start has run out.
pub(crate) fn is_over(now: u64, start: u64) -> bool
    ensures { result ≡ is_over now (Some start) }
{
    LIFETIME <= now && start <= now - LIFETIME
}

/// At most how many bytes a piece of so many adds.
fn bytes_added(change: &Change<Bytes>, count: usize) -> usize
    ensures { result ≤ count }
{
    match change {
        Change::Grown | Change::Whole(_) => count,
        Change::Same | Change::Spoilt => 0,
    }
}

/// What a change makes of a packet of which this is known.
fn taken_of(change: Change<Bytes>, cover: &Cover) -> Taken
    ensures { (before : CoverValue) → CoverChange before cover.now change →
        IsTaken before cover.now result }
{
    match change {
        Change::Whole(bytes) => Taken::Whole(bytes),
        Change::Spoilt => Taken::Disagrees,
        Change::Same | Change::Grown => standing_of(cover),
    }
}

/// What a fragment is that didn't make its packet whole, by what is known of the packet.
fn standing_of(cover: &Cover) -> Taken
    ensures { (before : CoverValue) → IsLater before cover.now → IsTaken before cover.now result }
{
    match cover {
        Slot::Spoilt => Taken::Disagrees,
        Slot::Held(_) if cover.is_whole() => Taken::Again,
        Slot::Held(_) => Taken::Kept,
    }
}
