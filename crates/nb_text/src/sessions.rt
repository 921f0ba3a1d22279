//! A session packet, told to a sink.
ghost use Rattle.std.specs.Prelude.{◌≡◌, ◌≢◌, ℕ, OnOk, fold};
ghost use Rattle.nb_telling.specs.Telling.{Grows};
ghost use Rattle.nb_text.specs.SessionFields.{parts_fields, session_fields};
ghost use Rattle.nb_text.specs.Tells.{IsTold};

use crate::fields::{tell_byte, tell_kind, tell_number, tell_refusal, tell_used};
use crate::tags::field_tag;
use crate::words::{KEEPALIVE, MESSAGE, NEGATIVE, POSITIVE, REQUEST, RETARGET};
use nb_session::{LentPacket, LentParsed, Packet, Parsed, parse_lent};
use nb_streams::NoMemory;
use nb_telling::Sink;

/// Tells a payload of port 139.
pub fn tell_session<S: Sink>(payload: &[u8], sink: &mut S) -> Result<(), NoMemory>
    ensures told { OnOk result ((port : ℕ) → port ≢ 137 → port ≢ 138 →
        IsTold S.after payload.now port (S.seen sink.old) (S.seen sink.new)) }
    ensures front { Grows S.is_front (S.seen sink.old) (S.seen sink.new) }
{
    tell_parsed(&parse_lent(payload), sink)
}

/// Tells what stands at the front of a payload.
fn tell_parsed<S: Sink>(parsed: &LentParsed<'_>, sink: &mut S) -> Result<(), NoMemory>
    ensures told { OnOk result
        (S.seen sink.new ≡ fold S.after (S.seen sink.old) (session_fields parsed.now)) }
    ensures front { Grows S.is_front (S.seen sink.old) (S.seen sink.new) }
{
    match parsed {
        Parsed::Whole(packet, used) => {
            tell_parts(packet, sink)?;
            tell_used(*used, sink)
        }
        Parsed::More(needed) => {
            sink.number(field_tag!("more", "more "), *needed as u64)?;
            sink.line_ends()
        }
        Parsed::Refused(fault) => tell_refusal(*fault, fault.place(), sink),
    }
}

/// Tells what the packet is, and its parts.
fn tell_parts<S: Sink>(packet: &LentPacket<'_>, sink: &mut S) -> Result<(), NoMemory>
    ensures told { OnOk result
        (S.seen sink.new ≡ fold S.after (S.seen sink.old) (parts_fields packet.now)) }
    ensures front { Grows S.is_front (S.seen sink.old) (S.seen sink.new) }
{
    match packet {
        Packet::Message(message) => {
            let bytes = message.bytes();
            tell_kind(MESSAGE, sink)?;
            sink.number(field_tag!("length"), bytes.len() as u64)?;
            sink.data(field_tag!("data"), bytes)
        }
        Packet::Request { called, calling } => {
            tell_kind(REQUEST, sink)?;
            sink.shown(field_tag!("called"), called)?;
            sink.shown(field_tag!("calling"), calling)
        }
        Packet::Positive => tell_kind(POSITIVE, sink),
        Packet::Negative(code) => {
            tell_kind(NEGATIVE, sink)?;
            tell_byte(field_tag!("code"), *code, sink)
        }
        Packet::Retarget { address, port } => {
            tell_kind(RETARGET, sink)?;
            sink.shown(field_tag!("address"), address)?;
            tell_number(field_tag!("to_port", " port="), *port, sink)
        }
        Packet::Keepalive => tell_kind(KEEPALIVE, sink),
    }
}
