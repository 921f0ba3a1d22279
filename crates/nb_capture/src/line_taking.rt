//! Taking the lines of a capture, and what they are given to.
ghost use Rattle.std.specs.Prelude.{◌≡◌, ℕ, List, Option, OnOk, IfErr};
ghost use Rattle.std.specs.Io.KnownBytes.{Consumes};
ghost use Rattle.nb_capture.specs.LineTaking.{TakesLine, TakesLines};
ghost use Rattle.nb_capture.specs.Code.LineTurns.{LineFails};

use crate::capture::capture_line_in;
use crate::fault::{CaptureFault, LineFault, LineReadFault};
use crate::line::Line;
use crate::line_reading::next_from;
use crate::line_room::LineRoom;
use nb_streams::Counted;
use std::alloc::Global;
use std::io::Read;

/// What the lines of a capture are given to, one after another, each with what it says: a member
/// that acts on them, say, or a text that they are shown in.
pub trait LineTaker {
    ghost use Rattle.nb_capture.specs.declared.line.Line.{Line};

    /// Why a line isn't taken. Where the lines can't be read further, for one of the reasons of a
    /// replay, that is made one of these.
    type Fault: From<CaptureFault>;

    // What the lines change.
    ghost State: { Type 0 };

    ghost state: { Self → State };

    // What they leave as it is.
    ghost Beside: { Type 0 };

    ghost beside: { Self → Beside };

    // takes kept n line said old new: line n, which says this, or nothing, makes old new.
    ghost takes: { Beside → ℕ → List ℕ → Option Line → State → State → Type 0 };

    // The same of a line that isn't taken, and why it isn't.
    ghost fails: { Beside → ℕ → List ℕ → Option Line → State → State → Self.Fault → Type 0 };

    /// Takes the line with this number, the first being 1. `said` is what it says, or nothing where
    /// it is empty or a comment.
    ///
    /// # Errors
    ///
    /// Why the line isn't taken.
    fn take(&mut self, number: u64, line: &[u8], said: &Option<Line>) -> Result<(), Self::Fault>
        ensures taken { OnOk result (takes (beside self.old) number line.now said.now
            (state self.old) (state self.new)) }
        ensures fault { IfErr result (fails (beside self.old) number line.now said.now
            (state self.old) (state self.new)) }
        ensures beside { beside self.new ≡ beside self.old };
}

/// Gives the lines of a capture to a taker in order, each as it comes, and answers their number. An
/// input may have so many bytes.
///
/// A line feed ends each line; bytes after the last one are a line as well, where there are any. A
/// line has at most [`MAX_LINE`](crate::limits::MAX_LINE) bytes, its line feed not counted. Lines
/// are numbered from 1.
///
/// # Errors
///
/// The first that is met: the taker's, where it doesn't take a line, or what it makes of
///
/// - [`CaptureFault::Line`] for a malformed line. What neither a line feed nor the input's end has
///   ended is judged by its length alone.
/// - [`CaptureFault::Read`] where the reader failed, was interrupted 1,024 times in a row, or gave
///   more bytes than the input may have, and no line among the bytes that came is malformed.
/// - [`CaptureFault::NoMemory`] where memory ran out.
///
/// The lines before the one of the fault are taken.
///
/// The form of captures is our choice.
pub fn take_lines<R: Read, T: LineTaker>(
    alloc: Global,
    most: u64,
    reader: &mut Counted<R>,
    taker: &mut T,
) -> Result<u64, T::Fault>
    // The bytes that this call took from the reader, and what was made of them.
    ensures taken { (bytes : List ℕ) ×
        Consumes (R.remaining reader.old.inner) (R.remaining reader.new.inner) bytes ×
        TakesLines (T.takes (T.beside taker.old)) (T.fails (T.beside taker.old))
        T.Fault.from_gives most bytes (R.remaining reader.new.inner)
        reader.old.counts reader.new.counts (T.state taker.old) (T.state taker.new) result }
    ensures beside { T.beside taker.new ≡ T.beside taker.old }
{
    let mut room = LineRoom::within(alloc, most);
    let mut payload = Vec::new(alloc);
    let mut number = 0;
    'lines: loop {
        match next_from(&mut room, reader) {
            Ok(Some(line)) => {
                number += 1;
                take_line(&mut payload, number, line, taker)?;
            }
            Ok(None) => return Ok(number),
            Err(LineReadFault::TooLong) => {
                return Err(T::Fault::from(CaptureFault::Line(number + 1)));
            }
            Err(LineReadFault::Read) => return Err(T::Fault::from(CaptureFault::Read)),
            Err(LineReadFault::NoMemory) => return Err(T::Fault::from(CaptureFault::NoMemory)),
        }
    }
}

/// Gives the line with this number to a taker. A payload is read into this room.
fn take_line<T: LineTaker>(
    room: &mut Vec<u8>,
    number: u64,
    line: &[u8],
    taker: &mut T,
) -> Result<(), T::Fault>
    ensures taken { OnOk result (TakesLine (T.takes (T.beside taker.old)) number line.now
        (T.state taker.old) (T.state taker.new)) }
    ensures fault { IfErr result (LineFails (T.fails (T.beside taker.old)) T.Fault.from_gives
        number line.now (T.state taker.old) (T.state taker.new)) }
    ensures beside { T.beside taker.new ≡ T.beside taker.old }
{
    match capture_line_in(room, line) {
        Ok(said) => {
            let taken = taker.take(number, line, &said);
            give_back(said, room);
            taken
        }
        Err(LineFault::BadLine) => Err(T::Fault::from(CaptureFault::Line(number))),
        Err(LineFault::NoMemory) => Err(T::Fault::from(CaptureFault::NoMemory)),
    }
}

/// Gives back the room that a line's payload is in.
fn give_back(said: Option<Line>, room: &mut Vec<u8>) {
    if let Some(Line::Packet { payload, .. }) = said {
        *room = payload.into_vec();
    }
}
