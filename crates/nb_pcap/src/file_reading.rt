//! Reading the frames of a file, as its bytes come.
ghost use Rattle.std.specs.Prelude.{◌≡◌, ◌≤◌, ◌+◌, length};
ghost use Rattle.std.specs.Borrow.{sem};
ghost use Rattle.std.specs.Io.BufRead.{Rests};
ghost use Rattle.nb_streams.specs.declared.limits.TheConstants.{MAX_READ};
ghost use Rattle.nb_pcap.specs.contracts.file_reading.FileRoom.{the_row};
ghost use Rattle.nb_pcap.specs.declared.limits.TheConstants.{MAX_ITEM};
ghost use Rattle.nb_pcap.specs.Reading.{nothing_read, ReadsFrame, lent_frame, answered, frame_lent, last_of};

use crate::context::Context;
use crate::fault::FileFault;
use crate::frame::{Frame, Head, captured_in, interface_in_file, name_in};
use crate::part_reading::{PartRoom, find_frame};
use nb_streams::{Counted, Room};
use std::alloc::Global;
use std::io::Read;
use std::marker::Model;

/// How a room for a file stands to it.
#[derive(Clone, Copy)]
pub enum Standing {
    /// More may come.
    Reading,
    /// The file is at its end, after its last frame.
    Ended,
    /// The file can't be read further.
    Stopped(FileFault),
}

/// Room for one file: the frame handed out last, what was read after it, and what that is read by.
#[derive(Drop)]
pub struct FileRoom {
    alloc: Global,
    room: PartRoom,
    /// What the next part is read by.
    context: Context,
    /// The byte at which it begins.
    place: u64,
    /// How many frames were given.
    frames: u64,
    standing: Standing,
    /// Where the frame that was given last stands in what the room has handed out.
    last: Option<Head>,
}

impl Model for FileRoom {
    ghost use Rattle.nb_pcap.specs.Reading.{FileValue, IsFileRoom};

    ghost Value = { FileValue };

    ghost view = { λ f. record {
      room = f.room;
      context = f.context;
      place = f.place;
      frames = f.frames;
      standing = f.standing;
      last = f.last;
    } };

    ghost invariant = { λ f. IsFileRoom f.room f.place f.frames f.standing f.last };
}

impl FileRoom {
    /// Room for a file of fewer than 2^64 bytes, of which nothing was read. No memory is taken.
    pub fn new(alloc: Global) -> Self
        ensures { result ≡ nothing_read }
    {
        FileRoom {
            alloc,
            room: Room::within(alloc, u64::MAX),
            context: Context::Beginning,
            place: 0,
            frames: 0,
            standing: Standing::Reading,
            last: None,
        }
    }

    /// How many bytes of the file the room has. Beside them it has the interfaces of a section, at
    /// most [`MAX_INTERFACES`](crate::limits::MAX_INTERFACES), with names of at most
    /// [`MAX_NAME`](crate::limits::MAX_NAME) bytes.
    pub fn held(&self) -> usize
        ensures value { result ≡ length self.now.room.lent + length self.now.room.rest }
        ensures within { result ≤ MAX_ITEM + MAX_READ }
    {
        self.room.held()
    }

    /// The byte of the file at which the next part begins, or the one that can't be read.
    pub fn place(&self) -> u64
        ensures { result ≡ self.now.place }
    {
        self.place
    }

    /// How many frames were given.
    pub fn frames(&self) -> u64
        ensures { result ≡ self.now.frames }
    {
        self.frames
    }

    /// The frame that [`next_frame`] gave last, lent again; `None` where its last call gave none,
    /// or where there was no call.
    pub fn last_frame(&self) -> Option<Frame<'_>>
        ensures { frame_lent result ≡ last_of self.now }
    {
        let head = self.last?;
        Some(Frame {
            number: self.frames,
            interface: interface_in_file(&self.context, head.interface),
            name: name_in(&self.context, head.interface),
            link: head.link,
            time: head.time,
            bytes: captured_in(self.room.lent(), head.start, head.captured),
            original: head.original,
        })
    }
}

/// Reads the next frame of a file, which is lent from the room; `None` where there is no further
/// one. The frame handed out before is let go.
///
/// A part of the file (its header, a record, a block) is read whole before anything of it is given,
/// but for blocks of types that aren't read, which are passed over without being kept. A read is
/// made only where the room doesn't have the next part whole. Once the end or a fault was answered,
/// it is answered again, and no further read is made.
///
/// # Errors
///
/// The first that is met; the frames before it were given. [`FileRoom::place`] is then the byte at
/// which the part begins that can't be read, and [`FileRoom::frames`] the number of frames before
/// it.
///
/// - [`FileFault::UnknownForm`] where the file begins with no magic number, or a section has none.
/// - [`FileFault::Cut`] where the file ends inside a part, or has no byte.
/// - [`FileFault::TooLong`], [`FileFault::BadBlock`], [`FileFault::NoInterface`] and
///   [`FileFault::TooManyInterfaces`], by what a part says.
/// - [`FileFault::Read`] where a read failed, was interrupted 1,024 times in a row, or the file has
///   2^64 bytes or more.
/// - [`FileFault::NoMemory`] where memory ran out.
pub fn next_frame<'a, R: Read>(
    file: &'a mut FileRoom,
    reader: &mut Counted<R>,
) -> Result<Option<Frame<'a>>, FileFault>
    ensures* after { sem 𝓛 (Rests the_row file.entry (λ left. ReadsFrame file.old
        (R.remaining reader.old.inner) (R.remaining reader.new.inner)
        reader.old.counts reader.new.counts (lent_frame result) left)) }
{
    match advance(file, reader) {
        Ok(()) => Ok(file.last_frame()),
        Err(fault) => Err(fault),
    }
}

/// Reads to the next frame, which the room then has handed out.
fn advance<R: Read>(file: &mut FileRoom, reader: &mut Counted<R>) -> Result<(), FileFault>
    ensures { ReadsFrame file.old (R.remaining reader.old.inner) (R.remaining reader.new.inner)
        reader.old.counts reader.new.counts (answered file.new result) file.new }
{
    match file.standing {
        Standing::Reading => {}
        Standing::Ended => return Ok(()),
        Standing::Stopped(fault) => return Err(fault),
    }
    match find_frame(
        file.alloc,
        &mut file.room,
        &mut file.context,
        &mut file.place,
        reader,
    ) {
        Ok(Some(head)) => {
            file.frames += 1;
            file.last = Some(head);
            Ok(())
        }
        Ok(None) => {
            file.standing = Standing::Ended;
            file.last = None;
            Ok(())
        }
        Err(fault) => {
            file.standing = Standing::Stopped(fault);
            file.last = None;
            Err(fault)
        }
    }
}
