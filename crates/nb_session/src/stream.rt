//! Packets, taken from a stream that comes in pieces.
ghost use Rattle.std.specs.Prelude.{◌≡◌, ◌≤◌, ◌+◌, ◌*◌, [], drop, length, IfErr, IfOk};
ghost use Rattle.std.specs.Borrow.{sem};
ghost use Rattle.std.specs.Io.BufRead.{Rests};
ghost use Rattle.nb_session.specs.contracts.stream.Stream.{the_row};
ghost use Rattle.nb_session.specs.Stream.{Feeds, Takes, running};

use crate::fault::SessionFault;
use crate::packet_bytes::PacketBytes;
use crate::parsing::{Parsed, parse_lent};
use std::alloc::{AllocError, Global};
use std::marker::Model;
use thiserror::Error;

/// The packets of a stream that comes in pieces, however it is cut.
///
/// It holds the bytes that were fed and not handed out, and once it has failed answers its fault
/// ever after: where one packet isn't one, no later one can be found.
///
/// The cost of a stream grows with its bytes and its calls. A packet that is handed out stays where
/// it is, and only the place moves at which the bytes held begin. They are moved to the front when
/// a piece is fed and at least as many bytes were handed out before them as are held, so no more
/// bytes are moved than were handed out. Of a message the header alone is looked at; the names of a
/// request are read once, when it is whole.
#[derive(Debug, Drop)]
pub struct Stream {
    /// The bytes handed out since they were last dropped, then those held.
    bytes: Vec<u8>,
    /// The place of the first byte held.
    start: usize,
    failed: Option<SessionFault>,
}

impl Model for Stream {
    ghost use Rattle.std.specs.Prelude.{drop, ◌≤◌, length};
    ghost use Rattle.nb_session.specs.Stream.{KeptStream};

    ghost Value = { KeptStream };

    ghost view = { λ s. record {
      value = record { held = drop s.start s.bytes.items; failed = s.failed };
      kept = length s.bytes.items;
    } };

    ghost invariant = { λ s. s.start ≤ length s.bytes.items };
}

/// Why a piece was not taken. The stream is as it was.
#[derive(Clone, Copy, Debug, PartialEq, Eq, Error)]
pub enum FeedFault {
    /// The stream has failed, with this fault.
    #[error("{0}")]
    Failed(SessionFault),
    /// Memory ran out.
    #[error("memory")]
    NoMemory,
}

impl From<AllocError> for FeedFault {
    ghost use Rattle.std.specs.Prelude.{◌≡◌};
    ghost use Rattle.nb_session.specs.declared.stream.FeedFault.TheVariants.{NoMemory};

    ghost from_gives = { λ _ e. e ≡ NoMemory };

    fn from(_e: AllocError) -> FeedFault {
        FeedFault::NoMemory
    }
}

/// What comes next in a stream.
#[derive(Clone, Copy, Debug)]
pub enum Next<'a> {
    /// A packet, by its bytes. The stream doesn't hold them any more.
    Packet(PacketBytes<'a>),
    /// This many bytes more are needed, one at least: to judge the next packet's header, or to have
    /// the whole packet where its header is there.
    More(usize),
    /// No packet comes next, for this fault, nor ever after.
    Failed(SessionFault),
}

impl Stream {
    /// A stream of which nothing has come. No memory is taken.
    pub fn new(alloc: Global) -> Self
        ensures value { result.value ≡ running [] }
        ensures kept { result.kept ≡ 0 }
    {
        Stream {
            bytes: Vec::new(alloc),
            start: 0,
            failed: None,
        }
    }

    /// How many bytes it has in memory: those held, and those handed out that weren't dropped yet.
    ///
    /// They are at most twice those that were held when a piece was fed last, and that piece.
    pub fn kept(&self) -> usize
        ensures value { result ≡ self.now.kept }
        ensures holds { length self.now.value.held ≤ result }
    {
        self.bytes.len()
    }

    /// Moves the bytes held to the front, where as many at least were handed out.
    fn drop_handed_out(&mut self)
        ensures value { self.new.value ≡ self.old.value }
        ensures few { self.new.kept ≤ 2 * length self.old.value.held }
        ensures kept { self.new.kept ≤ self.old.kept }
    {
        let held = self.bytes.len() - self.start;
        if held <= self.start {
            self.bytes.copy_within(self.start.., 0);
            self.bytes.truncate(held);
            self.start = 0;
        }
    }

    /// Takes the next piece of the stream, of any length.
    ///
    /// # Errors
    ///
    /// The first that applies, in [`FeedFault`]'s order. The stream is then as it was.
    pub fn feed(&mut self, piece: &[u8]) -> Result<(), FeedFault>
        ensures fed { Feeds self.old.value piece.now self.new.value result }

        // What is in memory then: of what was handed out before, no more than was held.
        ensures kept { IfOk result (λ _.
            self.new.kept ≤ 2 * length self.old.value.held + length piece.now) }
        ensures refused { IfErr result (λ _. self.new.kept ≤ self.old.kept) }
    {
        if let Some(fault) = self.failed {
            return Err(FeedFault::Failed(fault));
        }
        self.drop_handed_out();
        self.bytes.extend_from_slice(piece)?;
        Ok(())
    }

    /// What comes next: what [`parse`] answers of the bytes held. A packet is taken off them.
    ///
    /// No memory is taken: a message is lent from the stream.
    pub fn next(&mut self) -> Next<'_>
        ensures* after { sem 𝓛 (Rests the_row self.entry (λ left.
            Takes self.old.value result left.value × (left.kept ≡ self.old.kept))) }
    {
        next_of(self.bytes.as_slice(), &mut self.start, &mut self.failed)
    }
}

/// What comes next where these bytes were fed, and the first of them handed out.
fn next_of<'a>(bytes: &'a [u8], start: &mut usize, failed: &mut Option<SessionFault>) -> Next<'a>
    requires { start.old ≤ length bytes.now }
    ensures within { start.new ≤ length bytes.now }
    ensures takes { Takes (record { held = drop start.old bytes.now; failed = failed.old }) result
        (record { held = drop start.new bytes.now; failed = failed.new }) }
{
    if let Some(fault) = *failed {
        return Next::Failed(fault);
    }
    match parse_lent(&bytes[*start..]) {
        Parsed::Whole(_, used) => {
            let from = *start;
            *start += used;
            Next::Packet(PacketBytes::of(&bytes[from..from + used]))
        }
        Parsed::More(needed) => Next::More(needed),
        Parsed::Refused(fault) => {
            *failed = Some(fault);
            Next::Failed(fault)
        }
    }
}
