//! Reading the lines of an input as they come.
ghost use Rattle.std.specs.Prelude.{◌≡◌, ◌≢◌, ◌⊎◌, ◌<◌, ◌≤◌, ◌+◌, [], IfOk, IfSome, MatchOption, length, take, Contains};
ghost use Rattle.std.specs.Borrow.{sem};
ghost use Rattle.std.specs.Io.BufRead.{Rests};
ghost use Rattle.nb_capture.specs.contracts.line_room.LineRoom.{the_row};
ghost use Rattle.nb_capture.specs.declared.line_room.Standing.TheVariants as standing;
ghost use Rattle.nb_capture.specs.LineReading.{ReadsLine, lent_line, IsOpen};
ghost use Rattle.nb_capture.specs.Code.LineSteps.{HandsFirst, IsFeedAt, line_of_size, standing_so};
ghost use Rattle.nb_streams.specs.Room.{handed_out};

use crate::fault::LineReadFault;
use crate::limits::MAX_LINE;
use crate::line_room::{LineRoom, Standing};
use memchr::memchr;
use nb_streams::{Counted, Room, RoomFault};
use std::io::Read;

/// Reads the next line, without its line feed; `None` where the input has no further one.
///
/// The line feed that ends a line may be missing after the last one, where that has bytes. A line
/// has at most [`MAX_LINE`] bytes, its line feed not counted. A read asks for at most
/// [`MAX_READ`](crate::limits::MAX_READ) bytes, and is made only where the room has no whole line,
/// nor more bytes than one may have.
/// The line handed out before is let go, whatever the answer. Once the end was answered, no
/// further read is made, and it is answered again.
///
/// # Errors
///
/// The first that is met:
///
/// - [`LineReadFault::TooLong`] where the room has more bytes of the line than [`MAX_LINE`], and no
///   line feed among that many and one.
/// - [`LineReadFault::Read`] where a read failed, reads were interrupted 1,024 times in a row, or
///   the reader gave a byte more than the input may have, which isn't kept.
/// - [`LineReadFault::NoMemory`] where memory ran out. What the room had after the last line, and
///   what was read since, stays in it, so that the next call loses nothing.
///
/// `TooLong` and `Read` are final: later calls answer the same, and make no read.
///
/// The form of lines is our choice.
pub fn next_line<'a, R: Read>(
    reader: &mut Counted<R>,
    room: &'a mut LineRoom,
) -> Result<Option<&'a [u8]>, LineReadFault>
    ensures* after { sem 𝓛 (Rests the_row room.entry (λ left. ReadsLine room.old
        (R.remaining reader.old.inner) (R.remaining reader.new.inner)
        reader.old.counts reader.new.counts (lent_line result) left)) }
    ensures stuck { room.old.standing ≢ standing.Reading → reader.new ≡ reader.old }
    ensures waits { IsOpen room.old.rest ⊎ (reader.new ≡ reader.old) }
{
    next_from(room, reader)
}

/// Reads the next line as [`next_line`] does. The room stands first, so that a caller knows what it
/// holds once the line was let go.
///
/// # Errors
///
/// Those of [`next_line`].
pub fn next_from<'a, R: Read>(
    room: &'a mut LineRoom,
    reader: &mut Counted<R>,
) -> Result<Option<&'a [u8]>, LineReadFault>
    ensures* after { sem 𝓛 (Rests the_row room.entry (λ left. ReadsLine room.old
        (R.remaining reader.old.inner) (R.remaining reader.new.inner)
        reader.old.counts reader.new.counts (lent_line result) left)) }
    ensures stuck { room.old.standing ≢ standing.Reading → reader.new ≡ reader.old }
    ensures waits { IsOpen room.old.rest ⊎ (reader.new ≡ reader.old) }
{
    match advance(room, reader) {
        Ok(None) => Ok(None),
        Ok(Some(size)) => Ok(Some(room.line(size))),
        Err(fault) => Err(fault),
    }
}

/// Reads to the next line, and answers how many bytes it has. They are the first of those that the
/// room then has handed out.
fn advance<R: Read>(
    lines: &mut LineRoom,
    reader: &mut Counted<R>,
) -> Result<Option<usize>, LineReadFault>
    ensures reads { ReadsLine lines.old (R.remaining reader.old.inner)
        (R.remaining reader.new.inner) reader.old.counts reader.new.counts
        (line_of_size lines.new.lent result) lines.new }
    ensures within { IfOk result (λ found. IfSome found (λ size. size ≤ length lines.new.lent)) }
    ensures stuck { lines.old.standing ≢ standing.Reading → reader.new ≡ reader.old }
    ensures waits { IsOpen lines.old.rest ⊎ (reader.new ≡ reader.old) }
{
    lines.room.let_go();
    match lines.standing {
        Standing::Reading => {
            let (standing, result) = seek(&mut lines.room, reader);
            lines.standing = standing;
            result
        }
        Standing::Ended => Ok(None),
        Standing::Unread => Err(LineReadFault::Read),
        Standing::TooLong => Err(LineReadFault::TooLong),
    }
}

/// Reads to the next line, as [`advance`] does, where nothing is lent, and answers how the room
/// stands then.
#[inline]
fn seek<R: Read>(
    room: &mut Room<MAX_LINE>,
    reader: &mut Counted<R>,
) -> (Standing, Result<Option<usize>, LineReadFault>)
    requires lent { room.old.lent ≡ [] }
    requires taken { room.old.taken ≤ room.old.most }
    ensures reads { ReadsLine (standing_so standing.Reading room.old) (R.remaining reader.old.inner)
        (R.remaining reader.new.inner) reader.old.counts reader.new.counts
        (line_of_size room.new.lent result.1) (standing_so result.0 room.new) }
    ensures within { IfOk result.1 (λ found. IfSome found (λ size. size ≤ length room.new.lent)) }
    ensures waits { IsOpen room.old.rest ⊎ (reader.new ≡ reader.old) }
{
    let mut seen = 0;
    loop {
        match take_first(room, seen) {
            First::Line(size) => return (Standing::Reading, Ok(Some(size))),
            First::TooLong => return (Standing::TooLong, Err(LineReadFault::TooLong)),
            First::Open(size) => seen = size,
        }
        match room.read_more(reader) {
            Ok(0) => return (Standing::Ended, Ok(last_of(room, seen))),
            Ok(_) => {}
            Err(RoomFault::Read) => return (Standing::Unread, Err(LineReadFault::Read)),
            Err(RoomFault::NoMemory) => return (Standing::Reading, Err(LineReadFault::NoMemory)),
        }
    }
}

/// Hands out the last line, which is all of so many bytes that are held, if there are any.
fn last_of(room: &mut Room<MAX_LINE>, size: usize) -> Option<usize>
    requires { size ≡ length room.old.rest }
    ensures room { room.new ≡ handed_out size room.old }
    ensures line { MatchOption result (size ≡ 0) (λ last. (last ≡ size) × (0 < size)) }
{
    room.hand_out(size);
    if size == 0 {
        return None;
    }
    Some(size)
}

/// What the bytes of a room begin with.
#[derive(Clone, Copy)]
enum First {
    /// A line of so many bytes, and a line feed.
    Line(usize),
    /// More bytes than a line may have.
    TooLong,
    /// So many bytes, which a line may have, and no line feed.
    Open(usize),
}

/// Hands out the first line, where none of so many first bytes is a line feed.
fn take_first(room: &mut Room<MAX_LINE>, seen: usize) -> First
    requires lent { room.old.lent ≡ [] }
    requires within { seen ≤ length room.old.rest }
    requires clear { ¬ Contains (take seen room.old.rest) 10 }
    ensures { HandsFirst room.old result room.new }
{
    let size = room.rest().len();
    match feed_after(room.rest(), seen) {
        Some(at) if at <= MAX_LINE => {
            room.hand_out(at + 1);
            First::Line(at)
        }
        None if size <= MAX_LINE => First::Open(size),
        _ => First::TooLong,
    }
}

/// The place of the first line feed, where none is among so many first bytes.
fn feed_after(bytes: &[u8], seen: usize) -> Option<usize>
    requires within { seen ≤ length bytes.now }
    requires clear { ¬ Contains (take seen bytes.now) 10 }
    ensures { MatchOption result (¬ Contains bytes.now 10) (IsFeedAt bytes.now) }
{
    match first_feed(&bytes[seen..]) {
        Some(at) => Some(seen + at),
        None => None,
    }
}

/// The place of the first line feed.
fn first_feed(bytes: &[u8]) -> Option<usize>
    ensures { MatchOption result (¬ Contains bytes.now 10) (IsFeedAt bytes.now) }
{
    memchr(b'\n', bytes)
}
