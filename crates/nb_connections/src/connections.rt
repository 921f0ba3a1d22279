//! All connections of a capture.
ghost use Rattle.std.specs.Prelude.{◌≡◌, ◌+◌, false, None, [], OnErr, OnOk, Some, cond};
ghost use Rattle.std.specs.BTreeMap.{get};
ghost use Rattle.nb_connections.specs.Directions.{Enters, Knows, Takes, first_number, has, kept_in, lost_after, lost_with, may_begin, numbers_of, unfinished_of};
ghost use Rattle.nb_connections.specs.Channels.{kept_of};
ghost use Rattle.nb_connections.specs.Ends.{ends_cmp, same_ends};
ghost use Rattle.nb_connections.specs.Reading.{part_of};
ghost use Rattle.nb_connections.specs.declared.piece.Ends.{Ends as EndsValue};

use crate::channel::Channel;
use crate::limits::{MAX_DIRECTIONS, MAX_KEPT};
use crate::piece::{Ends, Piece};
use crate::taken::{Reason, Taken};
use nb_frames::{TcpFlags, TcpSegment};
use nb_session::limits::HEADER_LENGTH;
use nb_streams::NoMemory;
use std::alloc::Global;
use std::collections::BTreeMap;

/// The connections of a capture, of which each direction is read by itself.
#[derive(Drop)]
pub struct Connections {
    alloc: Global,
    channels: BTreeMap<Ends, Channel>,
    /// How much they keep together, in bytes.
    kept: usize,
    /// How many directions began anew while some of their bytes were in no packet.
    lost: u64,
}

impl Connections {
    /// None yet. No memory is taken.
    pub fn new(alloc: Global) -> Connections
        ensures { Knows result [] }
    {
        Connections {
            alloc,
            channels: BTreeMap::new(alloc),
            kept: 0,
            lost: 0,
        }
    }

    /// Takes a segment, the next one of the capture. The session packets that it completes are put
    /// in `ready`, one after another.
    ///
    /// # Errors
    ///
    /// [`NoMemory`] where memory ran out. Nothing more is handed on of its direction then, until it
    /// begins anew.
    pub fn take(&mut self, segment: &TcpSegment<'_>, ready: &mut Vec<u8>) -> Result<Taken, NoMemory>
        ensures takes { Takes self.old segment.now self.new ready.new.items result }
        ensures lost { self.new.lost ≡ lost_after self.old segment.now }
    {
        let bytes = segment.payload.bytes();
        if has(segment.flags, RST) {
            ready.clear();
            return Ok(Taken::left_out(Reason::Reset, bytes.len(), false));
        }
        let opens = has(segment.flags, SYN);
        let piece = Piece {
            number: first_number(segment.sequence, opens),
            bytes,
            numbers: numbers_of(segment.payload.wire_len(), has(segment.flags, FIN)),
            is_cut: bytes.len() < segment.payload.wire_len(),
        };
        let ends = Ends {
            hosts: segment.hosts,
            ports: segment.ports,
        };
        self.enter(ends, opens, &piece, ready)
    }

    /// Of how many directions some bytes are in no packet, since others didn't come; those that
    /// began anew so count too.
    pub fn unfinished(&self) -> u64
        ensures { result ≡ unfinished_of self.now }
    {
        let mut count = self.lost;
        'channels: for channel in self.channels.values() {
            count = count.saturating_add(u64::from(channel.is_unfinished()));
        }
        count
    }

    /// Takes a segment between these ends.
    fn enter(
        &mut self,
        ends: Ends,
        opens: bool,
        piece: &Piece<'_>,
        ready: &mut Vec<u8>,
    ) -> Result<Taken, NoMemory>
        ensures enters { Enters self.old ends false opens (part_of piece.now) self.new
            ready.new.items result }
        ensures lost { self.new.lost ≡ lost_with self.old.lost
            (get ends_cmp self.old.channels ends) opens piece.now.number }
    {
        match self.channels.get_mut(&ends) {
            Some(channel) => {
                let before = channel.kept();
                let others = self.kept.saturating_sub(before);
                let room = MAX_KEPT.saturating_sub(others);
                let lost = channel.begin(self.alloc, opens, piece.number);
                self.lost = self.lost.saturating_add(u64::from(lost));
                let taken = channel.take(self.alloc, piece, room, ready);
                self.kept = others.saturating_add(channel.kept());
                return taken;
            }
            None => {}
        }
        ready.clear();
        if !may_begin(opens, piece.bytes) {
            return Ok(Taken::left_out(Reason::NoStart, piece.bytes.len(), false));
        }
        if self.channels.len() >= MAX_DIRECTIONS {
            return Ok(Taken::left_out(Reason::TooMany, piece.bytes.len(), false));
        }
        let mut channel = Channel::new(self.alloc, piece.number);
        let room = MAX_KEPT.saturating_sub(self.kept);
        let taken = channel.take(self.alloc, piece, room, ready);
        let kept = channel.kept();
        self.admit(ends, channel, ready)?;
        self.kept = self.kept.saturating_add(kept);
        taken
    }

    /// Keeps a direction of which nothing was kept.
    ///
    /// # Errors
    ///
    /// Memory ran out. Nothing is kept then, and no packets are ready.
    fn admit(&mut self, ends: Ends, channel: Channel, ready: &mut Vec<u8>) -> Result<(), NoMemory>
        ensures ok { OnOk result ((q : EndsValue) → get ends_cmp self.new.channels q
            ≡ cond (same_ends ends q) (Some channel) (get ends_cmp self.old.channels q)) }
        ensures sum { OnOk result (get ends_cmp self.old.channels ends ≡ None →
            kept_in self.new.channels.entries
            ≡ kept_in self.old.channels.entries + kept_of channel) }
        ensures ready { OnOk result (ready.new.items ≡ ready.old.items) }
        ensures err { OnErr result ((ready.new.items ≡ [])
            × (self.new.channels.entries ≡ self.old.channels.entries)) }
        ensures counts { (self.new.kept ≡ self.old.kept) × (self.new.lost ≡ self.old.lost) }
    {
        match self.channels.insert(ends, channel) {
            Ok(_) => Ok(()),
            Err(_) => {
                ready.clear();
                Err(NoMemory)
            }
        }
    }
}

/// The bit of a segment that opens a direction.
const SYN: u8 = 0x02;

/// That of the last one.
const FIN: u8 = 0x01;

/// That of one that resets the connection.
const RST: u8 = 0x04;

/// Whether a control bit is set.
fn has(flags: TcpFlags, bit: u8) -> bool
    ensures { result ≡ has flags.0 bit }
{
    flags.0 & bit != 0
}

/// Whether a direction may begin with a segment: where it has no SYN, the header of a packet is
/// there.
fn may_begin(opens: bool, bytes: &[u8]) -> bool
    ensures { result ≡ may_begin opens bytes.now }
{
    opens || bytes.len() >= HEADER_LENGTH
}

/// The number of the first byte of a segment; of a SYN, that after it.
fn first_number(sequence: u32, opens: bool) -> u32
    ensures { result ≡ first_number sequence opens }
{
    sequence.wrapping_add(u32::from(opens))
}

/// How many numbers so many bytes, and a FIN, take.
fn numbers_of(wire: usize, is_last: bool) -> u32
    ensures { result ≡ numbers_of wire is_last }
{
    let numbers = wire.min(0xffff_fffe) as u32;
    numbers + u32::from(is_last)
}
