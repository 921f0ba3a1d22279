//! Room for the lines of an input.
ghost use Rattle.std.specs.Prelude.{◌≡◌, ◌≤◌, ◌+◌, length, take};
ghost use Rattle.nb_capture.specs.declared.limits.TheConstants.{MAX_HELD};
ghost use Rattle.nb_capture.specs.LineReading.{nothing_held, nothing_within};

use crate::limits::MAX_LINE;
use nb_streams::Room;
use nb_streams::limits::MAX_INPUT;
use std::alloc::Global;
use std::marker::Model;

/// How a room for lines stands to its input.
#[derive(Clone, Copy)]
pub enum Standing {
    /// More may come.
    Reading,
    /// The input is at its end, and its last line was handed out.
    Ended,
    /// The input can't be read further.
    Unread,
    /// The next line is too long.
    TooLong,
}

/// Room for the lines of one input.
///
/// It has the line handed out last and what was read after it, at most
/// [`MAX_HELD`](crate::limits::MAX_HELD) bytes: a [`Room`] in which at most a longest line waits
/// when a read is made.
#[derive(Drop)]
pub struct LineRoom {
    pub(crate) room: Room<MAX_LINE>,
    pub(crate) standing: Standing,
}

impl Model for LineRoom {
    ghost use Rattle.nb_capture.specs.LineReading.{RoomValue};
    ghost use Rattle.nb_capture.specs.Code.LineSteps.{IsRoom, standing_so};

    ghost Value = { RoomValue };

    ghost view = { λ l. standing_so l.standing l.room };

    ghost invariant = { λ l. IsRoom l.standing l.room };
}

impl LineRoom {
    /// Room for an input of at most [`MAX_INPUT`] bytes, of which nothing was read. No memory is
    /// taken.
    pub fn new(alloc: Global) -> Self
        ensures { result ≡ nothing_held }
    {
        LineRoom::within(alloc, MAX_INPUT as u64)
    }

    /// Room for an input of at most so many bytes, of which nothing was read. No memory is taken,
    /// and what the room takes later doesn't depend on that number.
    pub fn within(alloc: Global, most: u64) -> Self
        ensures { result ≡ nothing_within most }
    {
        LineRoom {
            room: Room::within(alloc, most),
            standing: Standing::Reading,
        }
    }

    /// How many bytes the room has: the line that was lent last, with its line feed, if that had
    /// come, and what was read after it.
    pub fn held(&self) -> usize
        ensures value { result ≡ length self.now.lent + length self.now.rest }
        ensures within { result ≤ MAX_HELD }
    {
        self.room.held()
    }

    /// So many first bytes of what was handed out last.
    pub(crate) fn line(&self, size: usize) -> &[u8]
        requires { size ≤ length self.now.lent }
        ensures { result.now ≡ take size self.now.lent }
    {
        &self.room.lent()[..size]
    }
}
