//! Fields as JSON.
ghost use Rattle.std.specs.Prelude.{◌≡◌, ◌≤◌, ◌++◌, ◌∷◌, [], ℕ, List, IfOk, OnOk, map};
ghost use Rattle.std.specs.Fmt.{decimal};
ghost use Rattle.json.specs.Token.{begin_object, end_object, key, number, string};
ghost use Rattle.json.specs.Print.{print};
ghost use Rattle.nb_telling.specs.Telling.{Field};
ghost use Rattle.nb_telling.specs.Members.{AreMembers, IsJson};
ghost use Rattle.nb_telling.specs.Texts.{names_of};
ghost use Rattle.nb_telling.specs.Tokens.{tokens_of};

use crate::sink::{FieldTag, Flag, Shows, Sink};
use json::Writer;
use nb_streams::{NoMemory, ascii_str, push_digits, push_shown};
use std::alloc::Global;
use std::fmt::Display;
use std::marker::Model;

/// How many bytes of earlier objects stay in front of the next one, at most. The kit's writer
/// makes as many bytes ready at once as stand there, so that most objects are made room for in one
/// step.
const MOST_KEPT: usize = 512;

/// The bytes of an object, and memory that is used again for the next one.
#[derive(Drop)]
pub struct JsonRoom {
    bytes: Vec<u8>,
    /// Where the object begins, behind what is kept of earlier ones.
    start: usize,
    scratch: String,
}

impl Model for JsonRoom {
    ghost use Rattle.std.specs.Prelude.{◌≤◌, List, drop, length, ℕ};

    ghost Value = { List ℕ };

    ghost view = { λ room. drop room.start room.bytes.items };

    ghost invariant = { λ room. room.start ≤ length room.bytes.items };
}

impl JsonRoom {
    /// Room without bytes.
    pub fn new(alloc: Global) -> JsonRoom
        ensures { result ≡ [] }
    {
        JsonRoom {
            bytes: Vec::new(alloc),
            start: 0,
            scratch: String::new(alloc),
        }
    }

    /// The bytes.
    pub fn as_slice(&self) -> &[u8]
        ensures { result.now ≡ self.now }
    {
        &self.bytes[self.start..]
    }

    /// The same room, whose bytes are gone.
    pub fn cleared(self) -> JsonRoom
        ensures { result ≡ [] }
    {
        let JsonRoom {
            mut bytes,
            scratch,
            ..
        } = self;
        bytes.truncate(MOST_KEPT);
        JsonRoom {
            start: bytes.len(),
            bytes,
            scratch,
        }
    }

    /// Adds a line feed, so that the object is a line.
    ///
    /// # Errors
    ///
    /// [`NoMemory`] where memory ran out.
    pub fn end_line(&mut self) -> Result<(), NoMemory>
        ensures { OnOk result (self.new ≡ self.old ++ 10 ∷ []) }
    {
        self.bytes.push(b'\n')?;
        Ok(())
    }
}

/// An object to which fields are reported as members, in JSON (RFC 8259).
///
/// Its bytes are made in the memory of a [`JsonRoom`], and the texts of values in a scratch text
/// there, from which they are written with what JSON escapes.
#[derive(Drop)]
pub struct JsonSink {
    writer: Writer,
    /// How many bytes stand before the object.
    start: usize,
    scratch: String,
}

impl Model for JsonSink {
    ghost use Rattle.std.specs.Prelude.{◌≡◌, List, length};
    ghost use Rattle.json.specs.Token.{Token, tokens_code};

    ghost Value = { List Token };

    ghost coded = { tokens_code };

    ghost view = { λ s. s.writer.tokens };

    ghost invariant = { λ s. length s.writer.before ≡ s.start };
}

impl JsonSink {
    /// An object without members, in the room, whose bytes are gone.
    ///
    /// # Errors
    ///
    /// [`NoMemory`] where memory ran out.
    pub fn begin(room: JsonRoom) -> Result<JsonSink, NoMemory>
        ensures { IfOk result (λ sink. sink ≡ begin_object ∷ []) }
    {
        let JsonRoom {
            bytes,
            start,
            scratch,
        } = room.cleared();
        let mut writer = Writer::new(bytes);
        writer.begin_object()?;
        Ok(JsonSink {
            writer,
            start,
            scratch,
        })
    }

    /// The object, ended: its bytes are those of the room.
    ///
    /// # Errors
    ///
    /// [`NoMemory`] where memory ran out.
    pub fn end(self) -> Result<JsonRoom, NoMemory>
        ensures bytes { IfOk result (λ room. room ≡ print (self ++ end_object ∷ [])) }
        ensures json { IfOk result (λ room. (depth : ℕ) (fields : List Field) →
            AreMembers depth fields → depth ≤ 60 →
            self ≡ begin_object ∷ tokens_of fields → IsJson room) }
    {
        let JsonSink {
            mut writer,
            start,
            scratch,
        } = self;
        writer.end_object()?;
        Ok(JsonRoom {
            bytes: writer.into_inner(),
            start,
            scratch,
        })
    }
}

/// Adds each field's member. Nothing is there of the ends of lines, and of how a part begins in
/// text.
impl Sink for JsonSink {
    type Seen = JsonSink;

    ghost use Rattle.std.specs.Prelude.{◌++◌, ⊤};
    ghost use Rattle.nb_telling.specs.Tokens.{field_tokens};

    ghost seen = { λ sink. sink };

    ghost after = { λ tokens field. tokens ++ field_tokens field };

    ghost is_front = { λ _ _. ⊤ };

    fn text(&mut self, tag: FieldTag, value: &str) -> Result<(), NoMemory> {
        write_text(tag.name, value, &mut self.writer)
    }

    fn shown<T: Shows>(&mut self, tag: FieldTag, value: &T) -> Result<(), NoMemory> {
        self.scratch.clear();
        value.push_to(&mut self.scratch)?;
        write_text(tag.name, self.scratch.as_str(), &mut self.writer)
    }

    fn displayed<D: Display + Drop>(&mut self, tag: FieldTag, value: D) -> Result<(), NoMemory> {
        self.scratch.clear();
        push_shown(value, &mut self.scratch)?;
        write_text(tag.name, self.scratch.as_str(), &mut self.writer)
    }

    fn number(&mut self, tag: FieldTag, value: u64) -> Result<(), NoMemory> {
        self.writer.key(tag.name)?;
        write_number(value, &mut self.writer)
    }

    fn digits(&mut self, tag: FieldTag, value: &[u8]) -> Result<(), NoMemory> {
        self.scratch.clear();
        push_digits(value, &mut self.scratch)?;
        write_text(tag.name, self.scratch.as_str(), &mut self.writer)
    }

    fn data(&mut self, tag: FieldTag, value: &[u8]) -> Result<(), NoMemory> {
        self.digits(tag, value)
    }

    fn set(&mut self, tag: FieldTag, flags: &[Flag]) -> Result<(), NoMemory> {
        self.writer.key(tag.name)?;
        self.writer.begin_array()?;
        write_names(flags, &mut self.writer)?;
        self.writer.end_array()?;
        Ok(())
    }

    fn known(&mut self, tag: FieldTag, value: Option<u64>) -> Result<(), NoMemory> {
        self.writer.key(tag.name)?;
        match value {
            Some(value) => write_number(value, &mut self.writer),
            None => {
                self.writer.null()?;
                Ok(())
            }
        }
    }

    fn range(&mut self, _lead: &str, from: u64, to: u64) -> Result<(), NoMemory> {
        self.writer.begin_array()?;
        write_number(from, &mut self.writer)?;
        write_number(to, &mut self.writer)?;
        self.writer.end_array()?;
        Ok(())
    }

    fn words(&mut self, _words: &str) -> Result<(), NoMemory> {
        Ok(())
    }

    fn at(&mut self, place: u64) -> Result<(), NoMemory> {
        self.writer.key("at")?;
        write_number(place, &mut self.writer)
    }

    fn begins(&mut self, name: &str) -> Result<(), NoMemory> {
        self.writer.key(name)?;
        self.writer.begin_array()?;
        Ok(())
    }

    fn ends(&mut self) -> Result<(), NoMemory> {
        self.writer.end_array()?;
        Ok(())
    }

    fn part(&mut self, _lead: &str) -> Result<(), NoMemory> {
        self.writer.begin_object()?;
        Ok(())
    }

    fn part_ends(&mut self) -> Result<(), NoMemory> {
        self.writer.end_object()?;
        Ok(())
    }

    fn line_ends(&mut self) -> Result<(), NoMemory> {
        Ok(())
    }
}

/// Writes a member that is a string.
fn write_text(name: &str, value: &str, writer: &mut Writer) -> Result<(), NoMemory>
    ensures written { OnOk result
        (writer.new.tokens ≡ writer.old.tokens ++ key name.now ∷ string value.now ∷ []) }
    ensures before { writer.new.before ≡ writer.old.before }
{
    writer.key(name)?;
    writer.string(value)?;
    Ok(())
}

/// Writes a number. One of a digit, as most counts are, needs no room for its digits.
fn write_number(value: u64, writer: &mut Writer) -> Result<(), NoMemory>
    ensures written { OnOk result
        (writer.new.tokens ≡ writer.old.tokens ++ number (decimal value) ∷ []) }
    ensures before { writer.new.before ≡ writer.old.before }
{
    if value < 10 {
        let digit = [b'0' + value as u8];
        writer.number(ascii_str(&digit))?;
        return Ok(());
    }
    writer.u64(value)?;
    Ok(())
}

/// Writes the names of the flags that are set, as strings.
fn write_names(flags: &[Flag], writer: &mut Writer) -> Result<(), NoMemory>
    ensures written { OnOk result
        (writer.new.tokens ≡ writer.old.tokens ++ map string (names_of flags.now)) }
    ensures before { writer.new.before ≡ writer.old.before }
{
    for flag in flags {
        if flag.is_set {
            writer.string(flag.name)?;
        }
    }
    Ok(())
}
