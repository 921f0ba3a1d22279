//! Room for the bytes of an input.
ghost use Rattle.std.specs.Prelude.{◌≡◌, ◌≤◌, ◌+◌, ◌↔◌, IsTrue, length, drop, take};
ghost use Rattle.nb_streams.specs.declared.limits.TheConstants.{MAX_READ};
ghost use Rattle.nb_streams.specs.Room.{nothing_held, nothing_within, let_go_of, handed_out, ReadsMore, RoomValue};
ghost use Rattle.nb_streams.specs.Code.RoomSteps.{IsRoom};

mod moving;

use crate::counted::Counted;
use crate::fault::RoomFault;
use crate::limits::MAX_INPUT;
use crate::room::moving::read_behind;
use std::alloc::Global;
use std::io::Read;
use std::marker::Model;

/// Room for the bytes of one input: those lent last, and those read after them.
///
/// It has at most `OPEN` bytes and one read of [`MAX_READ`](crate::limits::MAX_READ), which is
/// clause `within` of [`held`](Room::held): a read is made only where at most `OPEN` bytes wait.
/// Whether the input is at its end, or can't be read further, is kept by whoever reads.
#[derive(Drop)]
pub struct Room<const OPEN: usize> {
    /// Bytes of the input, from `from` up to `end`; the others are room.
    bytes: Vec<u8>,
    /// The place of what was lent last.
    from: usize,
    /// The place after it, where the bytes begin that weren't lent.
    start: usize,
    /// The place after these.
    end: usize,
    /// How many bytes of the input were kept.
    taken: u64,
    /// How many bytes the input may have.
    most: u64,
}

impl<const OPEN: usize> Model for Room<OPEN> {
    ghost Value = { RoomValue };

    ghost view = { λ r. record {
      lent = drop r.from (take r.start r.bytes.items);
      rest = drop r.start (take r.end r.bytes.items);
      taken = r.taken;
      most = r.most;
    } };

    ghost invariant = { λ r. IsRoom OPEN r.bytes.items r.from r.start r.end r.taken r.most };
}

impl<const OPEN: usize> Room<OPEN> {
    /// Room for an input of at most [`MAX_INPUT`] bytes, of which nothing was read. No memory is
    /// taken.
    pub fn new(alloc: Global) -> Self
        ensures { result ≡ nothing_held }
    {
        Room::within(alloc, MAX_INPUT as u64)
    }

    /// Room for an input of at most so many bytes, of which nothing was read. No memory is taken,
    /// and what the room takes later doesn't depend on that number.
    pub fn within(alloc: Global, most: u64) -> Self
        ensures { result ≡ nothing_within most }
    {
        Room {
            bytes: Vec::new(alloc),
            from: 0,
            start: 0,
            end: 0,
            taken: 0,
            most,
        }
    }

    /// How many bytes the room has: what was lent last, and what was read after it.
    pub fn held(&self) -> usize
        ensures value { result ≡ length self.now.lent + length self.now.rest }
        ensures within { result ≤ OPEN + MAX_READ }
    {
        self.end - self.from
    }

    /// The place in the input at which the rest begins.
    pub fn place(&self) -> u64
        ensures value { result + length self.now.rest ≡ self.now.taken }
        ensures within { self.now.taken ≤ self.now.most }
    {
        self.taken - (self.end - self.start) as u64
    }

    /// Whether the input may have no byte more.
    pub fn is_full(&self) -> bool
        ensures { IsTrue result ↔ (self.now.taken ≡ self.now.most) }
    {
        self.taken == self.most
    }

    /// Lets go of what was lent last.
    pub fn let_go(&mut self)
        ensures { self.new ≡ let_go_of self.old }
    {
        self.from = self.start;
    }

    /// What was lent last.
    pub fn lent(&self) -> &[u8]
        ensures { result.now ≡ self.now.lent }
    {
        &self.bytes[self.from..self.start]
    }

    /// What was read after what was lent last.
    pub fn rest(&self) -> &[u8]
        ensures { result.now ≡ self.now.rest }
    {
        &self.bytes[self.start..self.end]
    }

    /// Lends so many first bytes of the rest, in the place of what was lent before.
    pub fn hand_out(&mut self, size: usize)
        requires { size ≤ length self.old.rest }
        ensures { self.new ≡ handed_out size self.old }
    {
        let from = self.start;
        self.from = from;
        self.start = from + size;
    }

    /// Lets go of what was lent last, reads once after the rest, and answers how many bytes came:
    /// none at the end.
    ///
    /// The read asks for at most [`MAX_READ`](crate::limits::MAX_READ) bytes, and for no more than
    /// the input may have, but for one where it may have none.
    ///
    /// # Errors
    ///
    /// - [`RoomFault::Read`] where the read failed, was interrupted 1,024 times in a row, or gave a
    ///   byte more than the input may have, which isn't kept.
    /// - [`RoomFault::NoMemory`] where memory ran out. Nothing was read then.
    ///
    /// The rest is as it was.
    pub fn read_more<R: Read>(&mut self, reader: &mut Counted<R>) -> Result<usize, RoomFault>
        requires { length self.old.rest ≤ OPEN }
        ensures { ReadsMore self.old (R.remaining reader.old.inner)
            (R.remaining reader.new.inner) reader.old.counts reader.new.counts result self.new }
    {
        let start = self.start;
        let end = self.end;
        self.from = 0;
        self.start = 0;
        self.end = end - start;
        match read_behind::<R, OPEN>(reader, &mut self.bytes, start, end, self.most - self.taken) {
            Ok(count) => {
                self.end += count;
                self.taken += count as u64;
                Ok(count)
            }
            Err(fault) => Err(fault),
        }
    }
}
