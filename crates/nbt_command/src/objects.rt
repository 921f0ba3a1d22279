//! The JSON objects of the lines of a capture (our choice).
#![tactic(auto, using(nb_telling::proofs::FoldLemmas::told_both))]

ghost use Rattle.std.specs.Prelude.{◌≡◌, ◌∷◌, [], OnOk, IfOk, fold, string_bytes, ℕ, List};
ghost use Rattle.nb_telling.specs.Telling.{Number, Text, tag_of};
ghost use Rattle.nb_telling.specs.ObjectLines.{IsObject};
ghost use Rattle.nbt_command.specs.Objects.{CommentObject, ObjectOf, PrintsComment, arrival_fields, bare_tag, comment_fields, comment_tag, comment_of, head_fields, line_tag, ObjectSaid};
ghost use Rattle.nbt_command.specs.Lines.{AnyLeft};

use crate::printing_lines::LineFields;
use nb_capture::{Comments, Line, LineText, push_comment_bytes};
use nb_streams::NoMemory;
use nb_telling::{FieldTag, JsonRoom, JsonSink, Sink};
use std::alloc::Global;
use std::mem;

/// The object of a line of a capture, with these fields of what it says, or of a comment.
#[derive(Drop)]
pub struct Objects<T> {
    alloc: Global,
    told: T,
    /// The comment that the line before is, or nothing.
    comment: String,
    /// The object of the line that was made last.
    room: JsonRoom,
}

impl<T: LineFields> Objects<T> {
    /// No object, and no line before. No memory is taken.
    pub fn new(alloc: Global, told: T) -> Objects<T>
        ensures { ⟦<Objects<T> as LineText>⟧.state result ≡ ([], T.state told) }
    {
        Objects {
            alloc,
            told,
            comment: String::new(alloc),
            room: JsonRoom::new(alloc),
        }
    }
}

impl<T: LineFields> LineText for Objects<T> {
    ghost State = { List ℕ × T.State };

    ghost state = { λ o. (string_bytes o.comment, T.state o.told) };

    ghost Beside = { Unit {0} };

    ghost beside = { λ o. tt };

    ghost is_text = { ObjectSaid T.are_fields };

    ghost may_leave = { AnyLeft };

    ghost text = { λ o. o.room };

    fn make(
        &mut self,
        number: u64,
        line: &[u8],
        said: &Option<Line>,
        comments: Comments,
    ) -> Result<(), NoMemory> {
        let room = mem::replace(&mut self.room, JsonRoom::new(self.alloc));
        self.room = match said {
            Some(said) => {
                let comment = self.comment.as_str();
                let object = line_object(number, said, comment, &mut self.told, room)?;
                self.comment.clear();
                object
            }
            None => blank_object(number, line, comments, &mut self.comment, room)?,
        };
        Ok(())
    }

    fn bytes(&self) -> &[u8] {
        self.room.as_slice()
    }
}

/// A tag of an object that no text has.
pub fn bare(name: &'static str) -> FieldTag
    ensures { tag_of result ≡ bare_tag name.now }
{
    FieldTag { name, lead: "" }
}

/// The object of the line with this number, which says this, after this comment, as a line.
fn line_object<T: LineFields>(
    number: u64,
    said: &Line,
    comment: &str,
    told: &mut T,
    room: JsonRoom,
) -> Result<JsonRoom, NoMemory>
    ensures { IfOk result (λ made.
        ObjectOf (T.are_fields said.now (T.state told.old) (T.state told.new))
        number said.now comment.now made) }
{
    let mut sink = JsonSink::begin(room)?;
    tell_head(number, said, comment, &mut sink)?;
    told.tell(said, &mut sink)?;
    let mut made = sink.end()?;
    made.end_line()?;
    Ok(made)
}

/// What is printed of the line with this number, which is a comment or empty: the object of the
/// comment as a line, where comments are printed. The comment is kept.
fn blank_object(
    number: u64,
    line: &[u8],
    comments: Comments,
    comment: &mut String,
    room: JsonRoom,
) -> Result<JsonRoom, NoMemory>
    ensures object { IfOk result (CommentObject comments number (comment_of line.now)) }
    ensures comment { IfOk result (λ made. string_bytes comment.new ≡ comment_of line.now) }
{
    comment.clear();
    push_comment_bytes(line, comment)?;
    match comments {
        Comments::Printed if !comment.is_empty() => text_object(number, comment.as_str(), room),
        _ => Ok(room.cleared()),
    }
}

/// The object of the comment that the line with this number is, as a line.
fn text_object(number: u64, comment: &str, room: JsonRoom) -> Result<JsonRoom, NoMemory>
    ensures { IfOk result
        (IsObject (Number line_tag number ∷ Text comment_tag comment.now ∷ [])) }
{
    let mut sink = JsonSink::begin(room)?;
    tell_text(number, comment, &mut sink)?;
    let mut made = sink.end()?;
    made.end_line()?;
    Ok(made)
}

/// Tells a comment that is a line.
fn tell_text<S: Sink>(number: u64, comment: &str, sink: &mut S) -> Result<(), NoMemory>
    ensures told { OnOk result (S.seen sink.new ≡ fold S.after (S.seen sink.old)
        (Number line_tag number ∷ Text comment_tag comment.now ∷ [])) }
{
    sink.number(bare("line"), number)?;
    sink.text(bare("comment"), comment)
}

/// Tells what the object of a line begins with.
fn tell_head<S: Sink>(number: u64, said: &Line, comment: &str, sink: &mut S) -> Result<(), NoMemory>
    ensures told { OnOk result (S.seen sink.new
        ≡ fold S.after (S.seen sink.old) (head_fields number said.now comment.now)) }
{
    sink.number(bare("line"), number)?;
    tell_arrival(said, sink)?;
    tell_comment(comment, sink)
}

/// Tells the port to which a payload came, and the moment.
fn tell_arrival<S: Sink>(said: &Line, sink: &mut S) -> Result<(), NoMemory>
    ensures told { OnOk result
        (S.seen sink.new ≡ fold S.after (S.seen sink.old) (arrival_fields said.now)) }
{
    match said {
        Line::Packet { port, moment, .. } => {
            sink.number(bare("port"), u64::from(*port))?;
            sink.number(bare("moment"), *moment)
        }
        Line::Tick { now } => sink.number(bare("moment"), *now),
    }
}

/// Tells a comment, where there is one.
fn tell_comment<S: Sink>(comment: &str, sink: &mut S) -> Result<(), NoMemory>
    ensures told { OnOk result
        (S.seen sink.new ≡ fold S.after (S.seen sink.old) (comment_fields comment.now)) }
{
    if comment.is_empty() {
        return Ok(());
    }
    sink.text(bare("comment"), comment)
}
