//! What the front of a payload says, told to a sink, and its text.
#![tactic(auto, using(nb_streams::specs::Growth::front_stays))]

ghost use Rattle.std.specs.Prelude.{◌≡◌, ◌≢◌, ◌++◌, ℕ, List, OnOk, fold, string_bytes, ◌∷◌, [], None, option_map};
ghost use Rattle.nb_streams.specs.Growth.{OnlyAdds};
ghost use Rattle.nb_session.specs.Parsing.{Parsed as ParsedValue, Parses, taken_by};
ghost use Rattle.nb_datagram.specs.FaultTexts.{key_text};
ghost use Rattle.nb_telling.specs.Telling.{Field, Grows, Digits, Text, tag_of};
ghost use Rattle.nb_text.specs.TellsFront.{FrontOf, IsFrontTold, ShowsFront};
ghost use Rattle.nb_text.specs.FrontFields.{datagram_front_fields, fragment_front_fields, session_front_fields, standing_name, type_field};
ghost use Rattle.nb_text.specs.Tags.{tag_named};
ghost use Rattle.nb_text.specs.Words.{datagram_word};

use crate::fields::{tell_byte, tell_kind, tell_number};
use crate::services::tell_service;
use crate::showing::tell_packet;
use crate::tags::field_tag;
use crate::words::{datagram_name, session_name};
use nb_datagram::{FragmentFront, Front, decode_lent, read_front};
use nb_names::LentName;
use nb_session::{Header, Parsed, front_header, parse_lent};
use nb_streams::NoMemory;
use nb_telling::{FieldTag, Sink};

/// Tells what the front of a payload that came to a port says to a sink, field by field: what
/// [`tell_packet`] tells, and where the payload begins with no packet then what still stands there.
///
/// That is the header, and nothing where it isn't whole; of port 137 also the questions and records
/// that stand whole, one after another; of a fragment of port 138 also its names that stand whole,
/// one or both. A payload of any port but 137 and 138 is taken for a session packet, port 139, of
/// which the front of one that lacks bytes says what it has, too.
///
/// # Errors
///
/// [`NoMemory`] where the sink ran out of memory. What it had is still its front; some of the
/// fields may be told after it.
///
/// The fields are our choice.
pub fn tell_front<S: Sink>(port: u16, payload: &[u8], sink: &mut S) -> Result<(), NoMemory>
    ensures told { OnOk result
        (IsFrontTold S.after payload.now port (S.seen sink.old) (S.seen sink.new)) }
    ensures front { Grows S.is_front (S.seen sink.old) (S.seen sink.new) }
{
    if port == 137 {
        return tell_service(payload, true, sink);
    }
    tell_packet(port, payload, sink)?;
    if port == 138 {
        return tell_datagram_front(payload, sink);
    }
    tell_session_front(payload, sink)
}

/// Adds the text of what the front of a payload that came to a port says: that of its packet; or
/// why it begins with none, and a line, which two spaces begin, for its header and for each item
/// that stands whole, with the lines of its parts. Each line ends with a line feed.
///
/// # Errors
///
/// [`NoMemory`] where memory ran out. What stood in the text is still its front; some of the lines
/// may stand after it.
///
/// The form is our choice.
pub fn push_front(port: u16, payload: &[u8], text: &mut String) -> Result<(), NoMemory>
    ensures added { OnOk result ((shown : List ℕ) × ShowsFront payload.now port shown
        × (string_bytes text.new ≡ string_bytes text.old ++ shown)) }
    ensures front { OnlyAdds (string_bytes text.old) (string_bytes text.new) }
{
    tell_front(port, payload, text)
}

/// Tells what still stands at the front of a payload of port 138; nothing of one that begins with a
/// packet.
pub fn tell_datagram_front<S: Sink>(payload: &[u8], sink: &mut S) -> Result<(), NoMemory>
    ensures told { OnOk result ((more : List Field) × FrontOf payload.now 138 more
        × (S.seen sink.new ≡ fold S.after (S.seen sink.old) more)) }
    ensures front { Grows S.is_front (S.seen sink.old) (S.seen sink.new) }
{
    match decode_lent(payload) {
        Ok(_) => Ok(()),
        Err(_) => match read_front(payload) {
            Some(front) => tell_datagram_line(&front, sink),
            None => Ok(()),
        },
    }
}

/// Tells the line of what still stands at the front of a payload of port 138.
fn tell_datagram_line<S: Sink>(front: &Front<'_>, sink: &mut S) -> Result<(), NoMemory>
    ensures told { OnOk result
        (S.seen sink.new ≡ fold S.after (S.seen sink.old) (datagram_front_fields front.now)) }
    ensures front { Grows S.is_front (S.seen sink.old) (S.seen sink.new) }
{
    sink.words("  ")?;
    tell_datagram_header(front, sink)?;
    tell_fragment(&front.fragment, sink)?;
    sink.line_ends()
}

/// Tells the ten bytes with which all packets of port 138 begin.
fn tell_datagram_header<S: Sink>(front: &Front<'_>, sink: &mut S) -> Result<(), NoMemory>
    ensures told { OnOk result (S.seen sink.new ≡ fold S.after (S.seen sink.old)
        (type_field (datagram_word front.now.message_type) front.now.message_type
        ∷ Digits (tag_named "flags") (front.now.flags ∷ [])
        ∷ Text (tag_named "key") (key_text front.now.key) ∷ [])) }
    ensures front { Grows S.is_front (S.seen sink.old) (S.seen sink.new) }
{
    tell_type(datagram_name(front.message_type), front.message_type, sink)?;
    tell_byte(field_tag!("flags"), front.flags, sink)?;
    sink.shown(field_tag!("key"), &front.key)
}

/// Tells what stands after the ten bytes with which all packets of port 138 begin: the rest of a
/// fragment's header, and the names that stand whole.
fn tell_fragment<S: Sink>(
    fragment: &Option<FragmentFront<'_>>,
    sink: &mut S,
) -> Result<(), NoMemory>
    ensures told { OnOk result
        (S.seen sink.new ≡ fold S.after (S.seen sink.old) (fragment_front_fields fragment.now)) }
    ensures front { Grows S.is_front (S.seen sink.old) (S.seen sink.new) }
{
    let Some(front) = fragment else {
        return Ok(());
    };
    tell_number(field_tag!("offset"), front.offset, sink)?;
    tell_standing_name(field_tag!("source"), &front.source, sink)?;
    tell_standing_name(field_tag!("destination"), &front.destination, sink)
}

/// Tells a name, where it stands whole.
fn tell_standing_name<S: Sink>(
    key: FieldTag,
    name: &Option<LentName<'_>>,
    sink: &mut S,
) -> Result<(), NoMemory>
    ensures told { OnOk result
        (S.seen sink.new ≡ fold S.after (S.seen sink.old) (standing_name (tag_of key) name.now)) }
    ensures front { Grows S.is_front (S.seen sink.old) (S.seen sink.new) }
{
    match name {
        Some(name) => sink.shown(key, name),
        None => Ok(()),
    }
}

/// Tells what still stands at the front of a payload of port 139; nothing of one that begins with a
/// packet.
pub fn tell_session_front<S: Sink>(payload: &[u8], sink: &mut S) -> Result<(), NoMemory>
    ensures told { OnOk result ((port : ℕ) → port ≢ 137 → port ≢ 138 →
        (more : List Field) × FrontOf payload.now port more
        × (S.seen sink.new ≡ fold S.after (S.seen sink.old) more)) }
    ensures front { Grows S.is_front (S.seen sink.old) (S.seen sink.new) }
{
    match parse_lent(payload) {
        Parsed::Whole(..) => Ok(()),
        Parsed::More(_) => tell_session_header(payload, sink),
        Parsed::Refused(_) => tell_session_header(payload, sink),
    }
}

/// Tells what still stands at the front of a payload of port 139 that begins with no whole packet.
fn tell_session_header<S: Sink>(payload: &[u8], sink: &mut S) -> Result<(), NoMemory>
    requires { (parsed : ParsedValue) × Parses payload.now parsed × (taken_by parsed ≡ None) }
    ensures told { OnOk result ((port : ℕ) → port ≢ 137 → port ≢ 138 →
        (more : List Field) × FrontOf payload.now port more
        × (S.seen sink.new ≡ fold S.after (S.seen sink.old) more)) }
    ensures front { Grows S.is_front (S.seen sink.old) (S.seen sink.new) }
{
    match front_header(payload) {
        Some(header) => tell_session_line(&header, sink),
        None => Ok(()),
    }
}

/// Tells the line of a session packet's header.
fn tell_session_line<S: Sink>(header: &Header, sink: &mut S) -> Result<(), NoMemory>
    ensures told { OnOk result
        (S.seen sink.new ≡ fold S.after (S.seen sink.old) (session_front_fields header.now)) }
    ensures front { Grows S.is_front (S.seen sink.old) (S.seen sink.new) }
{
    sink.words("  ")?;
    tell_type(session_name(header.packet_type), header.packet_type, sink)?;
    sink.number(field_tag!("length"), header.body_length() as u64)?;
    sink.line_ends()
}

/// Tells what a packet is, by its word where its type has one, else by its type.
fn tell_type<S: Sink>(
    word: Option<&'static str>,
    packet_type: u8,
    sink: &mut S,
) -> Result<(), NoMemory>
    ensures told { OnOk result (S.seen sink.new ≡ S.after (S.seen sink.old)
        (type_field (option_map (λ word. word.now) word.entry) packet_type)) }
    ensures front { Grows S.is_front (S.seen sink.old) (S.seen sink.new) }
{
    match word {
        Some(word) => tell_kind(word, sink),
        None => tell_byte(field_tag!("type", "type="), packet_type, sink),
    }
}
