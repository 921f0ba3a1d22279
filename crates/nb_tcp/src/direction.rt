//! One direction of a connection.
ghost use Rattle.std.specs.Prelude.{◌≡◌, ◌≤◌, ◌<◌, ◌+◌, ◌^◌, ◌⊎◌, [], ℕ, List, OnOk, None};
ghost use Rattle.nb_tcp.specs.Order.{Segment, StandsAt, placed, is_keep_alive};
ghost use Rattle.nb_tcp.specs.Kept.{Orders};
ghost use Rattle.nb_tcp.specs.Runs.{charge_of};
ghost use Rattle.nb_tcp.specs.Takes.{Takes, HandsOn, waits};
ghost use Rattle.nb_tcp.specs.declared.limits.TheConstants.{START, LAST, ROOM, TAIL};

use crate::front::{forget, hand_on};
use crate::limits::{START, TAIL};
use crate::putting::{contradicts, put};
use crate::runs::Runs;
use crate::taken::Taken;
use nb_streams::NoMemory;
use std::alloc::Global;
use std::marker::Model;

/// How many sequence numbers there are.
const SPACE: u64 = 0x1_0000_0000;

/// One direction of a TCP connection: the bytes that came and weren't handed on, and the last of
/// those that were.
#[derive(Drop)]
pub struct Direction {
    /// The sequence number of the byte whose place is `START`.
    first: u32,
    /// The place up to which all was handed on or passed over.
    handed: u64,
    /// The place from which on all that came is known.
    known: u64,
    /// The greatest place after a number of the segments.
    reach: u64,
    runs: Runs,
}

impl Model for Direction {
    ghost use Rattle.nb_tcp.specs.Kept.{Kept, IsKept};

    ghost Value = { Kept };

    ghost view = { λ d. record {
      first = d.first;
      handed = d.handed;
      known = d.known;
      reach = d.reach;
      runs = d.runs;
    } };

    ghost invariant = { λ d. IsKept (record {
      first = d.first;
      handed = d.handed;
      known = d.known;
      reach = d.reach;
      runs = d.runs;
    }) };
}

impl Direction {
    /// A direction whose first byte has this sequence number: the number after that of its SYN, or
    /// that of the first segment where no SYN came. No memory is taken.
    pub fn new(alloc: Global, first: u32) -> Direction
        ensures first { result.first ≡ first }
        ensures orders { Orders START result [] [] }
        ensures kept { charge_of result.runs ≡ 0 }
    {
        Direction {
            first,
            handed: START,
            known: START,
            reach: 0,
            runs: Runs::new(alloc),
        }
    }

    /// Takes a segment: its sequence number, the bytes of its payload that are captured, and how
    /// many numbers it takes on the wire, one for each byte and one for a FIN (SEG.LEN of RFC 9293
    /// section 3.4). Of a segment with a SYN the number is that after it.
    ///
    /// What is kept is as much as there is room and memory for, from the front on. A byte that came
    /// before stays as it was.
    pub fn take(&mut self, alloc: Global, sequence: u32, payload: &[u8], on_wire: u32) -> Taken
        ensures takes { Takes self.old sequence payload.now on_wire self.new result }
        ensures room { charge_of self.new.runs ≤ ROOM }
        ensures handed { self.new.handed ≡ self.old.handed }
        ensures known { (self.new.known ≡ self.old.known) × (self.old.known ≤ self.old.handed) }
        ensures first { self.new.first ≡ self.old.first }
    {
        let place = place_of(self.first, self.handed, sequence);
        let numbers = u64::from(on_wire).max(payload.len() as u64);
        let keeps_alive = only_keeps_alive(self.reach, place, numbers);
        self.reach = self.reach.max(place + numbers);
        if keeps_alive {
            return Taken {
                place,
                count: payload.len(),
                differs: false,
                refusal: None,
            };
        }
        let behind = ((self.known.max(place) - place) as usize).min(payload.len());
        let at = place + behind as u64;
        let rest = &payload[behind..];
        let differs = contradicts(&self.runs, at, rest);
        let (count, refusal) = put(&mut self.runs, alloc, at, rest);
        Taken {
            place,
            count: behind + count,
            differs,
            refusal,
        }
    }

    /// Hands on the bytes that are next in order: appends them.
    ///
    /// # Errors
    ///
    /// [`NoMemory`] where memory ran out; those that were appended are handed on.
    pub fn hand_on(&mut self, to: &mut Vec<u8>) -> Result<(), NoMemory>
        ensures hands_on { HandsOn self.old to.old.items self.new to.new.items }
        ensures all { OnOk result ((from : ℕ) (segments : List Segment) (out : List ℕ) →
            Orders from self.new segments out → placed segments self.new.handed ≡ None) }
        ensures room { charge_of self.new.runs ≤ charge_of self.old.runs }
        ensures known { (self.new.known ≡ self.old.known) ⊎ (TAIL < charge_of self.old.runs) }
        ensures first { self.new.first ≡ self.old.first }
    {
        let handed = hand_on(&self.runs, &mut self.handed, to);
        self.known = forget(&mut self.runs, self.known, self.handed, TAIL);
        handed
    }

    /// Forgets what was handed on, so that no more is kept than what waits. That a byte of it comes
    /// again with another value isn't noticed.
    pub fn forget(&mut self)
        ensures orders { (from : ℕ) (segments : List Segment) (out : List ℕ) →
            Orders from self.old segments out → Orders from self.new segments out }
        ensures room { charge_of self.new.runs ≤ charge_of self.old.runs }
        ensures first { self.new.first ≡ self.old.first }
    {
        self.known = forget(&mut self.runs, self.known, self.handed, 0);
    }

    /// The place up to which all was handed on, or passed over.
    pub fn handed(&self) -> u64
        ensures value { result ≡ self.now.handed }
        ensures last { result ≤ LAST }
    {
        self.handed
    }

    /// Whether bytes wait for others that come before them.
    pub fn waits(&self) -> bool
        ensures { result ≡ waits self.now }
    {
        self.runs.next_after(self.handed).is_some()
    }

    /// How much it keeps, in bytes: those of its runs, and `RUN_COST` for each run.
    pub fn kept(&self) -> usize
        ensures value { result ≡ charge_of self.now.runs }
        ensures room { result ≤ ROOM }
    {
        self.runs.charge()
    }
}

/// Whether a segment of so many numbers is a keep-alive, where those before it reach to a place.
fn only_keeps_alive(reach: u64, place: u64, numbers: u64) -> bool
    requires { place + numbers < 2 ^ 64 }
    ensures { result
        ≡ is_keep_alive reach (record { place = place; bytes = []; numbers = numbers }) }
{
    if numbers > 1 {
        return false;
    }
    place + numbers == reach
}

/// The place of a sequence number, that within half the space of `next`.
fn place_of(first: u32, next: u64, sequence: u32) -> u64
    requires low { START ≤ next }
    requires high { next < 2 ^ 63 }
    ensures { StandsAt first next sequence result }
{
    let expected = (u64::from(first) + next) % SPACE;
    let sequence = u64::from(sequence);
    let ahead = if expected <= sequence {
        sequence - expected
    } else {
        sequence + SPACE - expected
    };
    if ahead < SPACE / 2 {
        next + ahead
    } else {
        next + ahead - SPACE
    }
}
