//! One direction of a connection.
ghost use Rattle.std.specs.Prelude.{◌≡◌, ◌+◌, ◌≤◌, ◌&&◌, [], ℕ, List, length, MatchOption, false, None, Some, IfOk};
ghost use Rattle.nb_session.specs.Cutting.{ArePackets};
ghost use Rattle.nb_session.specs.Packet.{Packet};
ghost use Rattle.nb_tcp.specs.Runs.{charge_of};
ghost use Rattle.nb_connections.specs.Channels.{IsAnswered, IsGrown, Keeps, KeepsReading, begins, begun_with, is_unfinished, kept_of, with_one};
ghost use Rattle.nb_connections.specs.declared.closing.Closed.{Closed as ClosedValue};
ghost use Rattle.nb_connections.specs.Course.{Goes, State, reading_at};
ghost use Rattle.nb_connections.specs.Reading.{Answer, HandsOn, Reading, Seen, part_of};
ghost use Rattle.nb_connections.specs.Rests.{StandsAfter};

use crate::closing::{Closed, closed_by, ends_at};
use crate::cutting::{Rest, whole_packets};
use crate::limits::{MAX_KEPT, TAILS};
use crate::piece::Piece;
use crate::taken::{Reason, Taken};
use nb_streams::NoMemory;
use nb_tcp::{Direction, Refusal};
use std::alloc::Global;
use std::mem::replace;

/// One direction of a connection: its bytes in order, and the packet that isn't whole yet.
#[derive(Drop)]
pub(crate) struct Channel {
    /// The sequence number of its first byte.
    first: u32,
    closed: Option<Closed>,
    direction: Direction,
    /// The bytes in order that are in no packet yet.
    held: Vec<u8>,
}

impl Channel {
    /// A direction whose first byte has this number. No memory is taken.
    pub(crate) fn new(alloc: Global, first: u32) -> Channel
        ensures grown { IsGrown result (first, []) }
        ensures kept { kept_of result ≡ 0 }
    {
        Channel {
            first,
            closed: None,
            direction: Direction::new(alloc, first),
            held: Vec::new(alloc),
        }
    }

    /// Begins anew with a segment that opens the connection with another number. Answers whether
    /// some bytes were in no packet then.
    pub(crate) fn begin(&mut self, alloc: Global, opens: bool, number: u32) -> bool
        ensures begun { (direction : ℕ × List Seen) → IsGrown self.old direction →
            IsGrown self.new (begun_with direction opens number) }
        ensures kept { kept_of self.new ≤ kept_of self.old }
        ensures lost { result ≡ (begins self.old.first opens number && is_unfinished self.old) }
    {
        if !self.begins_anew(opens, number) {
            return false;
        }
        let unfinished = self.is_unfinished();
        *self = Channel::new(alloc, number);
        unfinished
    }

    /// Whether the direction begins anew with a segment.
    fn begins_anew(&self, opens: bool, number: u32) -> bool
        ensures { result ≡ begins self.now.first opens number }
    {
        if !opens {
            return false;
        }
        number != self.first
    }

    /// Whether some of its bytes are in no packet.
    pub(crate) fn is_unfinished(&self) -> bool
        ensures { result ≡ is_unfinished self.now }
    {
        !self.held.is_empty() || self.direction.waits()
    }

    /// Why nothing is read where a segment with this number comes. Where the packet ends there that
    /// was awaited, the direction goes on.
    fn closed_at(&mut self, alloc: Global, number: u32) -> Option<Closed>
        ensures first { self.new.first ≡ self.old.first }
        ensures reads { (state : State) → Keeps self.old state →
            MatchOption (reading_at state number)
            ((closed : ClosedValue) × (result ≡ Some closed) × (self.old.closed ≡ Some closed)
            × (self.new ≡ self.old))
            (λ reading. (result ≡ None) × KeepsReading self.new reading) }
        ensures kept { kept_of self.new ≤ kept_of self.old }
        ensures open { result ≡ None → self.new.closed ≡ None }
    {
        let Some(closed) = self.closed else {
            return None;
        };
        if !closed.ends_at(number) {
            return Some(closed);
        }
        self.closed = None;
        self.direction = Direction::new(alloc, number);
        self.held = Vec::new(alloc);
        None
    }

    /// Nothing more is handed on.
    fn close(&mut self, alloc: Global, closed: Closed)
        ensures first { self.new.first ≡ self.old.first }
        ensures closed { self.new.closed ≡ Some closed }
        ensures kept { kept_of self.new ≡ 0 }
    {
        self.closed = Some(closed);
        self.direction = Direction::new(alloc, 0);
        self.held = Vec::new(alloc);
    }

    /// Takes a segment. The packets that it completes are put in `ready`, one after another. No
    /// more is kept then than there is room for.
    ///
    /// # Errors
    ///
    /// [`NoMemory`] where memory ran out. Nothing more is handed on then.
    pub(crate) fn take(
        &mut self,
        alloc: Global,
        piece: &Piece<'_>,
        room: usize,
        ready: &mut Vec<u8>,
    ) -> Result<Taken, NoMemory>
        ensures follows { (direction : ℕ × List Seen) → IsGrown self.old direction →
            (answer : Answer) × ArePackets answer.packets ready.new.items
            × IsAnswered (kept_of self.old) room (length piece.now.bytes.now) answer result
            × IsGrown self.new (with_one direction
            (record { part = part_of piece.now; answer = answer })) }
        ensures kept { kept_of self.old ≤ room → kept_of self.new ≤ room }
    {
        if let Some(closed) = self.closed_at(alloc, piece.number) {
            ready.clear();
            return Ok(Taken::left_out(closed.reason(), piece.bytes.len(), false));
        }
        self.read(alloc, piece, room, ready)
    }

    /// Takes a segment of a direction that is read.
    fn read(
        &mut self,
        alloc: Global,
        piece: &Piece<'_>,
        room: usize,
        ready: &mut Vec<u8>,
    ) -> Result<Taken, NoMemory>
        requires { self.old.closed ≡ None }
        ensures first { self.new.first ≡ self.old.first }
        ensures reads { (old : Reading) → KeepsReading self.old old →
            (answer : Answer) × ArePackets answer.packets ready.new.items
            × IsAnswered (kept_of self.old) room (length piece.now.bytes.now) answer result
            × (after : State)
            × Goes old (record { part = part_of piece.now; answer = answer }) after
            × Keeps self.new after }
        ensures kept { kept_of self.new ≤ room }
    {
        let before = self.held.len();
        let taken = self
            .direction
            .take(alloc, piece.number, piece.bytes, piece.numbers);
        if let Some(refusal) = taken.refusal {
            self.close(alloc, Closed::Gap(None));
            ready.clear();
            let count = before + piece.bytes.len();
            return match refusal {
                Refusal::Full => Ok(Taken::left_out(Reason::Gap, count, taken.differs)),
                Refusal::NoMemory => Err(NoMemory),
            };
        }
        let Ok(rest) = self.hand_on(alloc, ready) else {
            self.close(alloc, Closed::Gap(None));
            ready.clear();
            return Err(NoMemory);
        };
        self.spare(room);
        let is_missing = ends_at(self.direction.handed(), taken.place, piece);
        let is_full = room < self.kept();
        let held = self.held.len();
        let Some(closed) = closed_by(rest, held, piece, is_missing, is_full) else {
            return Ok(Taken {
                left_out: None,
                differs: taken.differs,
            });
        };
        self.close(alloc, closed);
        Ok(Taken::left_out(closed.reason(), held, taken.differs))
    }

    /// Forgets what was handed on, where the others keep more than tails.
    fn spare(&mut self, room: usize)
        ensures closed { self.new.closed ≡ self.old.closed }
        ensures first { self.new.first ≡ self.old.first }
        ensures reads { (reading : Reading) → KeepsReading self.old reading →
            KeepsReading self.new reading }
        ensures charge { charge_of self.new.direction.runs ≤ charge_of self.old.direction.runs }
    {
        if room < MAX_KEPT - TAILS {
            self.direction.forget();
        }
    }

    /// How much it keeps, in bytes.
    pub(crate) fn kept(&self) -> usize
        ensures { result ≡ kept_of self.now }
    {
        self.direction.kept() + self.held.len()
    }

    /// Hands on what is in order: the packets that it completes are put in `ready`, and the rest is
    /// held. Answers what the rest is.
    fn hand_on(&mut self, alloc: Global, ready: &mut Vec<u8>) -> Result<Rest, NoMemory>
        ensures closed { self.new.closed ≡ self.old.closed }
        ensures first { self.new.first ≡ self.old.first }
        ensures hands_on { IfOk result (λ rest. (old : Reading) → KeepsReading self.old old →
            (packets : List Packet) × ArePackets packets ready.new.items × (new : Reading)
            × HandsOn old packets new × KeepsReading self.new new × StandsAfter new.held rest) }
        ensures charge { charge_of self.new.direction.runs ≤ charge_of self.old.direction.runs }
    {
        *ready = replace(&mut self.held, Vec::new(alloc));
        self.direction.hand_on(ready)?;
        let (end, rest) = whole_packets(ready.as_slice());
        if end == 0 {
            self.held = replace(ready, Vec::new(alloc));
            return Ok(rest);
        }
        self.held.extend_from_slice(&ready[end..])?;
        ready.truncate(end);
        Ok(rest)
    }
}
