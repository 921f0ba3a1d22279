//! The phrases of payloads of port 139.

ghost use Rattle.std.specs.Prelude.{◌≡◌, ◌≢◌, ℕ};
ghost use Rattle.nb_text.specs.Said.{Adds, parsed_said, refusal_words, session_said};
ghost use Rattle.nb_text.specs.SaysPacket.{AddsPhrase};

use crate::brief::pieces::{
    counts_in, push_bytes, push_coded, push_follow, push_refused, push_text,
};
use nb_names::push_lent_name;
use nb_session::{LentPacket, LentParsed, Packet, Parsed, SessionFault, parse_lent};
use nb_streams::{NoMemory, push_address, push_decimal};

/// Adds the phrase of a payload of port 139.
pub fn push_session(payload: &[u8], text: &mut String) -> Result<(), NoMemory>
    ensures { (port : ℕ) → port ≢ 137 → port ≢ 138 →
        AddsPhrase result payload.now port text.old text.new }
{
    push_parsed(&parse_lent(payload), payload.len(), text)
}

/// Adds what stands at the front of a payload of this size.
fn push_parsed(parsed: &LentParsed<'_>, size: usize, text: &mut String) -> Result<(), NoMemory>
    ensures { Adds result text.old text.new (parsed_said parsed.now size) }
{
    match parsed {
        Parsed::Whole(packet, used) => {
            push_packet(packet, text)?;
            push_follow(*used, size, text)
        }
        Parsed::More(needed) => push_bytes("begins a packet that lacks ", *needed as u64, text),
        Parsed::Refused(fault) => {
            let counted = match fault {
                SessionFault::Name(fault) => counts_in(*fault),
                _ => "",
            };
            push_refused(fault.subject(), fault.words(), fault.place(), counted, text)
        }
    }
}

/// Adds what a packet is.
fn push_packet(packet: &LentPacket<'_>, text: &mut String) -> Result<(), NoMemory>
    ensures { Adds result text.old text.new (session_said packet.now) }
{
    match packet {
        Packet::Message(message) => push_bytes("sends ", message.bytes().len() as u64, text),
        Packet::Request { called, calling } => {
            push_text("calls ", text)?;
            push_lent_name(text, called)?;
            push_text(" as ", text)?;
            push_lent_name(text, calling)
        }
        Packet::Positive => push_text("accepts", text),
        Packet::Negative(code) => push_coded("refuses: ", refusal_words(*code), *code, text),
        Packet::Retarget { address, port } => {
            let number = u64::from(*port);
            push_text("sends the caller to ", text)?;
            push_address(*address, text)?;
            push_text(", port ", text)?;
            push_decimal(number, text)
        }
        Packet::Keepalive => push_text("keeps the session alive", text),
    }
}

/// What the refusal of a session says (RFC 1002 section 4.3.4).
fn refusal_words(code: u8) -> &'static str
    ensures { result.now ≡ refusal_words code }
{
    match code {
        0x80 => "not listening on called name",
        0x81 => "not listening for calling name",
        0x82 => "called name not present",
        0x83 => "called name present, but insufficient resources",
        0x8f => "unspecified error",
        _ => "unknown code",
    }
}
