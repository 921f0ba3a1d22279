//! Replaying a capture in a member.
ghost use Rattle.std.specs.Prelude.{◌≡◌, Err, ℕ, string_bytes};
ghost use Rattle.nb_streams.specs.declared.limits.TheConstants.{MAX_INPUT};
ghost use Rattle.nb_streams.specs.Devices.{ShowsWriteFault};
ghost use Rattle.nb_capture.specs.declared.comment_writing.Comments.TheVariants.{LeftOut};
ghost use Rattle.nb_member.specs.Replaying.{ReplaysInput};
ghost use Rattle.nb_member.specs.Member.{MemberValue};
ghost use Rattle.nb_member.specs.ReportFields.{MayLeave, ReportSaid};

use crate::laws::a_printed_report_is_a_replay;
use crate::line_reports::outcome_line;
use crate::member::Member;
use nb_capture::{
    CaptureOptions, Comments, Line, LineText, PrintFault as ReplayFault, print_lines, push_comment,
};
use nb_streams::limits::MAX_INPUT;
use nb_streams::{Counted, NoMemory};
use std::alloc::Global;
use std::io::{Read, Write};

/// Replays a capture in a member: acts on its lines in order, and writes the report of them. The
/// answer is the number of lines.
///
/// A line feed ends each line; bytes after the last one are a line as well, where there are any. A
/// line has at most [`MAX_LINE`](nb_capture::limits::MAX_LINE) bytes, its line feed not counted. An
/// empty line or a comment has no line in the report. The others have one each: their number, which
/// counts from 1, a space, and
///
/// - `passed` for a payload of port 137 or 139;
/// - `dropped COUNT` for a look at the clock;
/// - for a payload of port 138 `kept KEY`, `spoilt KEY`, `delivered KEY KIND SOURCE DESTINATION
///   DATA`, `unheard KEY`, `other`, or `refused FAULT`. ` error HEX` follows where there is an
///   error packet to answer.
///
/// A line's report is written before the next line is acted on. A payload that is refused changes
/// nothing in the member, and the replay goes on. The writer isn't flushed: who hands in one that
/// holds bytes back flushes it, whatever the answer.
///
/// # Errors
///
/// The first that is met:
///
/// - [`ReplayFault::Line`] for a malformed line. What neither a line feed nor the input's end has
///   ended is judged by its length alone. The report of the lines before it is written, and the
///   member acted on them.
/// - [`ReplayFault::Read`] where the reader failed, was interrupted 1,024 times in a row, or gave
///   more than [`MAX_INPUT`] bytes, and no line among the bytes that came is malformed. The report
///   of the finished lines is written, and the member acted on them.
/// - [`ReplayFault::Write`] where the writer failed, took nothing, or was interrupted 1,024 times
///   in a row.
/// - [`ReplayFault::NoMemory`] where memory ran out.
///
/// At `Write` and `NoMemory` the member acted on some first lines. The reports of all of these but
/// the last are written, and of the last one's a front, which may be nothing or all of it.
///
/// The form of captures and of the report is our choice.
pub fn replay<R: Read, W: Write>(
    alloc: Global,
    reader: &mut Counted<R>,
    writer: &mut Counted<W>,
    member: &mut Member,
) -> Result<u64, ReplayFault>
    ensures replays { ReplaysInput LeftOut MAX_INPUT member.old member.new
        (R.remaining reader.old.inner) (R.remaining reader.new.inner)
        reader.old.counts reader.new.counts
        (W.contents writer.old.inner) (W.contents writer.new.inner) result }
    ensures write { result ≡ Err ReplayFault.Write →
        ShowsWriteFault writer.old.counts writer.new.counts }
    ensures settings { member.new.settings ≡ member.old.settings }
    ensures names { member.new.names ≡ member.old.names }
{
    let options = CaptureOptions {
        most: MAX_INPUT as u64,
        comments: Comments::LeftOut,
    };
    replay_with(alloc, options, reader, writer, member)
}

/// Replays a capture in a member as [`replay`] does, where the input may have as many bytes as the
/// options say. What is held at once doesn't depend on that number. Where comments are printed,
/// those of the capture are in the report: each in its place, as
/// [`push_comment`](nb_capture::push_comment) has it.
///
/// # Errors
///
/// Those of [`replay`], with the number of the options in the place of [`MAX_INPUT`].
pub fn replay_with<R: Read, W: Write>(
    alloc: Global,
    options: CaptureOptions,
    reader: &mut Counted<R>,
    writer: &mut Counted<W>,
    member: &mut Member,
) -> Result<u64, ReplayFault>
    ensures replays { ReplaysInput options.comments options.most member.old member.new
        (R.remaining reader.old.inner) (R.remaining reader.new.inner)
        reader.old.counts reader.new.counts
        (W.contents writer.old.inner) (W.contents writer.new.inner) result }
    ensures write { result ≡ Err ReplayFault.Write →
        ShowsWriteFault writer.old.counts writer.new.counts }
    ensures settings { member.new.settings ≡ member.old.settings }
    ensures names { member.new.names ≡ member.old.names }
{
    a_printed_report_is_a_replay();
    let mut text = String::new(alloc);
    let mut report = Report {
        member,
        text: &mut text,
    };
    print_lines(alloc, options, reader, writer, &mut report)
}

/// The report of a capture, a line of it at a time: a member acts on what the lines say.
#[derive(Drop)]
pub struct Report<'a> {
    /// The member.
    pub member: &'a mut Member,
    /// The lines of the report are made in this, one after another.
    pub text: &'a mut String,
}

impl<'a> LineText for Report<'a> {
    ghost State = { MemberValue };

    ghost state = { λ r. r.member.now };

    ghost Beside = { ℕ };

    ghost beside = { λ r. r.member.ghost_name };

    ghost is_text = { ReportSaid };

    ghost may_leave = { MayLeave };

    ghost text = { λ r. string_bytes r.text.now };

    fn make(
        &mut self,
        number: u64,
        line: &[u8],
        said: &Option<Line>,
        comments: Comments,
    ) -> Result<(), NoMemory> {
        match said {
            None => {
                self.text.clear();
                push_comment(comments, line, self.text)
            }
            Some(said) => outcome_line(number, said, self.member, self.text),
        }
    }

    fn bytes(&self) -> &[u8] {
        self.text.as_bytes()
    }
}
