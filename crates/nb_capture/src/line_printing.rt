//! Printing a text of each line of a capture, as it comes.
ghost use Rattle.std.specs.Prelude.{◌≡◌, ℕ, List, Err, OnOk, OnErr};
ghost use Rattle.std.specs.Io.KnownBytes.{Consumes};
ghost use Rattle.nb_streams.specs.Devices.{ShowsUnread, ShowsWriteFault};
ghost use Rattle.nb_capture.specs.LinePrinting.{Shows, TellsLine};
ghost use Rattle.nb_streams.specs.Counted.{CountedOf};
ghost use Rattle.nb_capture.specs.declared.comment_writing.Comments.{Comments};
ghost use Rattle.nb_capture.specs.Code.PrintedLines.{PrintsOn, IsUnprinted};

use crate::comment_writing::Comments;
use crate::fault::PrintFault;
use crate::line::Line;
use crate::line_taking::{LineTaker, take_lines};
use crate::options::CaptureOptions;
use nb_streams::output::write_whole;
use nb_streams::{Counted, NoMemory};
use std::alloc::Global;
use std::io::{Read, Write};

/// What makes the text that is printed of each line of a capture: a report's line, or an object.
pub trait LineText {
    ghost use Rattle.std.specs.Prelude.{ℕ, List, Option};
    ghost use Rattle.nb_capture.specs.declared.comment_writing.Comments.{Comments};
    ghost use Rattle.nb_capture.specs.declared.line.Line.{Line};

    // What stands from line to line.
    ghost State: { Type 0 };

    ghost state: { Self → State };

    // What the lines leave as it is.
    ghost Beside: { Type 0 };

    ghost beside: { Self → Beside };

    // is_text comments n line said old new text: which text line n has, which says this, or
    // nothing, where old stands; then new stands.
    ghost is_text: { Comments → ℕ → List ℕ → Option Line → State → State → List ℕ → Type 0 };

    // may_leave said old new: what may stand where memory ran out in a line that says this.
    ghost may_leave: { Option Line → State → State → Type 0 };

    // The text that was made last.
    ghost text: { Self → List ℕ };

    /// Makes the text of the line with this number, which says this, or nothing, with these
    /// comments.
    fn make(
        &mut self,
        number: u64,
        line: &[u8],
        said: &Option<Line>,
        comments: Comments,
    ) -> Result<(), NoMemory>
        ensures made { OnOk result (is_text comments number line.now said.now
            (state self.old) (state self.new) (text self.new)) }
        ensures left { OnErr result (may_leave said.now (state self.old) (state self.new)) }
        ensures beside { beside self.new ≡ beside self.old };

    /// The text that was made last.
    fn bytes(&self) -> &[u8]
        ensures { result.now ≡ text self.now };
}

/// Prints the text of each line of a capture, and answers how many lines there are. A text is
/// written before the next line is taken. What is held at once doesn't depend on how many bytes the
/// input may have. The writer isn't flushed.
///
/// # Errors
///
/// The first that is met:
///
/// - [`PrintFault::Line`] for a malformed line. What neither a line feed nor the input's end has
///   ended is judged by its length alone.
/// - [`PrintFault::Read`] where the reader failed, was interrupted 1,024 times in a row, or gave
///   more bytes than the input may have, and no line among the bytes that came is malformed.
/// - [`PrintFault::Write`] where the writer failed, took nothing, or was interrupted 1,024 times in
///   a row: of the text of the last line that was taken a front is printed.
/// - [`PrintFault::NoMemory`] where memory ran out: the last line that was taken may have no text.
///
/// The texts of the lines before are printed.
pub fn print_lines<R: Read, W: Write, T: LineText>(
    alloc: Global,
    options: CaptureOptions,
    reader: &mut Counted<R>,
    writer: &mut Counted<W>,
    lines: &mut T,
) -> Result<u64, PrintFault>
    // The bytes that this call took from the reader, and what was printed of their lines.
    ensures printed { (bytes : List ℕ) ×
        Consumes (R.remaining reader.old.inner) (R.remaining reader.new.inner) bytes ×
        ((result ≡ Err PrintFault.Read →
        ShowsUnread options.most bytes reader.old.counts reader.new.counts) ×
        Shows (TellsLine (T.is_text options.comments)) T.may_leave options.most bytes
        (R.remaining reader.new.inner) (T.state lines.old) (T.state lines.new)
        (W.contents writer.old.inner) (W.contents writer.new.inner) result) }
    ensures write { result ≡ Err PrintFault.Write →
        ShowsWriteFault writer.old.counts writer.new.counts }
    ensures beside { T.beside lines.new ≡ T.beside lines.old }
{
    let mut printed = PrintedLines {
        comments: options.comments,
        lines,
        writer,
    };
    take_lines(alloc, options.most, reader, &mut printed)
}

/// The writer on which the texts of the lines of a capture are printed, with these comments.
#[derive(Drop)]
struct PrintedLines<'a, W, T> {
    comments: Comments,
    lines: &'a mut T,
    writer: &'a mut Counted<W>,
}

impl<'a, W: Write, T: LineText> LineTaker for PrintedLines<'a, W, T> {
    type Fault = PrintFault;

    ghost State = { CountedOf W × T.State };

    ghost state = { λ s. (s.writer.now, T.state s.lines.now) };

    ghost Beside = { Comments × (ℕ × (ℕ × T.Beside)) };

    ghost beside = { λ s.
        (s.comments, (s.writer.ghost_name, (s.lines.ghost_name, T.beside s.lines.now))) };

    ghost takes = { λ kept. PrintsOn W.contents (T.is_text kept.0) };

    ghost fails = { λ kept. IsUnprinted W.contents (T.is_text kept.0) T.may_leave };

    fn take(&mut self, number: u64, line: &[u8], said: &Option<Line>) -> Result<(), PrintFault> {
        self.lines.make(number, line, said, self.comments)?;
        match write_whole(self.writer, self.lines.bytes()) {
            Ok(()) => Ok(()),
            Err(_) => Err(PrintFault::Write),
        }
    }
}
