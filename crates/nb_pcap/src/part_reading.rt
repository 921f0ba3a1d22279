//! Reading from part to part of a file, as its bytes come.
ghost use Rattle.std.specs.Prelude.{◌≡◌, ◌<◌, ◌≤◌, ◌+◌, Ok, true, length};
ghost use Rattle.nb_streams.specs.declared.limits.TheConstants.{MAX_READ};
ghost use Rattle.nb_pcap.specs.declared.limits.TheConstants.{MAX_ITEM};
ghost use Rattle.nb_pcap.specs.Context.{size_of, passes_over};
ghost use Rattle.nb_pcap.specs.Seeking.{SeeksFrame};
ghost use Rattle.nb_pcap.specs.Steps.{Reads, Passes};

use crate::context::{Context, is_end, order_in, passes_over, size_of, take_in};
use crate::fault::FileFault;
use crate::frame::Head;
use crate::limits::MAX_ITEM;
use crate::numbers::number_32;
use nb_streams::{Counted, Room, RoomFault};
use std::alloc::Global;
use std::io::Read;

/// Room for the parts of a file, of which the longest that is read has
/// [`MAX_ITEM`](crate::limits::MAX_ITEM) bytes.
pub type PartRoom = Room<MAX_ITEM>;

/// Reads once, and answers how many bytes came: none at the end.
fn read_once<R: Read>(room: &mut PartRoom, reader: &mut Counted<R>) -> Result<usize, FileFault>
    requires { length room.old.rest ≤ MAX_ITEM }
    ensures { Reads room.old (R.remaining reader.old.inner) (R.remaining reader.new.inner)
        reader.old.counts reader.new.counts result room.new }
{
    if room.is_full() {
        return Err(FileFault::Read);
    }
    match room.read_more(reader) {
        Ok(count) => Ok(count),
        Err(RoomFault::Read) => Err(FileFault::Read),
        Err(RoomFault::NoMemory) => Err(FileFault::NoMemory),
    }
}

/// Passes over the next part, a block of so many bytes that isn't read, without keeping it.
fn pass_over<R: Read>(
    room: &mut PartRoom,
    context: &Context,
    reader: &mut Counted<R>,
    size: usize,
) -> Result<(), FileFault>
    requires says { size_of context.now room.old.rest ≡ Ok size }
    requires short { length room.old.rest < size }
    requires passed { passes_over context.now room.old.rest ≡ true }
    ensures { Passes context.now room.old (R.remaining reader.old.inner)
        (R.remaining reader.new.inner) reader.old.counts reader.new.counts result room.new }
{
    let mut left = size;
    'pass: while room.rest().len() < left {
        let passed = room.rest().len().min(left - 4);
        room.hand_out(passed);
        left -= passed;
        if read_once(room, reader)? == 0 {
            return Err(FileFault::Cut);
        }
    }
    if number_32(order_in(context), room.rest(), left - 4) as usize != size {
        return Err(FileFault::BadBlock);
    }
    room.hand_out(left);
    Ok(())
}

/// Reads to the next part that gives a frame, which the room then has handed out, and answers where
/// the frame stands in it; `None` where there is no further one. The place is where the rest of the
/// file begins, and at a fault where the part begins that can't be read.
pub fn find_frame<R: Read>(
    alloc: Global,
    room: &mut PartRoom,
    context: &mut Context,
    place: &mut u64,
    reader: &mut Counted<R>,
) -> Result<Option<Head>, FileFault>
    requires place_is { place.old + length room.old.rest ≡ room.old.taken }
    requires within { room.old.taken ≤ room.old.most }
    requires near { length room.old.rest ≤ MAX_READ }
    ensures { SeeksFrame context.old place.old room.old (R.remaining reader.old.inner)
        (R.remaining reader.new.inner) reader.old.counts reader.new.counts result context.new
        place.new room.new }
{
    'parts: loop {
        let size = size_of(context, room.rest())?;
        if size <= room.rest().len() {
            let found = take_in(alloc, context, &room.rest()[..size])?;
            room.hand_out(size);
            *place = room.place();
            match found {
                Some(head) => return Ok(Some(head)),
                None => continue 'parts,
            }
        }
        if passes_over(context, room.rest()) {
            pass_over(room, context, reader, size)?;
            *place = room.place();
            continue 'parts;
        }
        if read_once(room, reader)? == 0 {
            return if is_end(context, room.rest()) {
                Ok(None)
            } else {
                Err(FileFault::Cut)
            };
        }
    }
}
