//! A datagram service packet, told to a sink.
ghost use Rattle.std.specs.Prelude.{◌≡◌, OnOk, fold};
ghost use Rattle.nb_telling.specs.Telling.{Grows};
ghost use Rattle.nb_text.specs.DatagramFields.{begin_fields, fragment_fields, parts_fields};
ghost use Rattle.nb_text.specs.Tells.{IsTold};

use crate::fields::{tell_byte, tell_kind, tell_number, tell_refusal, tell_used};
use crate::tags::field_tag;
use crate::words::{ERROR, query_name};
use nb_datagram::{Key, LentFragment, LentPacket, decode_lent, kind_name};
use nb_streams::NoMemory;
use nb_telling::Sink;

/// Tells a payload of port 138.
pub fn tell_datagram<S: Sink>(payload: &[u8], sink: &mut S) -> Result<(), NoMemory>
    ensures told { OnOk result
        (IsTold S.after payload.now 138 (S.seen sink.old) (S.seen sink.new)) }
    ensures front { Grows S.is_front (S.seen sink.old) (S.seen sink.new) }
{
    match decode_lent(payload) {
        Ok((packet, used)) => {
            tell_parts(&packet, sink)?;
            tell_used(used, sink)
        }
        Err(fault) => tell_refusal(fault, fault.place(), sink),
    }
}

/// Tells what the packet is, and its parts.
fn tell_parts<S: Sink>(packet: &LentPacket<'_>, sink: &mut S) -> Result<(), NoMemory>
    ensures told { OnOk result (S.seen sink.new
        ≡ fold S.after (S.seen sink.old) (parts_fields packet.now)) }
    ensures front { Grows S.is_front (S.seen sink.old) (S.seen sink.new) }
{
    match packet {
        LentPacket::Direct(fragment) => tell_fragment(fragment, sink),
        LentPacket::Error(error) => {
            tell_begin(ERROR, error.flags, error.key, sink)?;
            tell_byte(field_tag!("code"), error.code, sink)
        }
        LentPacket::Query(query) => {
            tell_begin(query_name(query.kind), query.flags, query.key, sink)?;
            sink.shown(field_tag!("destination"), &query.destination)
        }
    }
}

/// Tells what a packet is, FLAGS and the key.
fn tell_begin<S: Sink>(kind: &str, flags: u8, key: Key, sink: &mut S) -> Result<(), NoMemory>
    ensures told { OnOk result
        (S.seen sink.new ≡ fold S.after (S.seen sink.old) (begin_fields kind.now flags key)) }
    ensures front { Grows S.is_front (S.seen sink.old) (S.seen sink.new) }
{
    tell_kind(kind, sink)?;
    tell_byte(field_tag!("flags"), flags, sink)?;
    sink.shown(field_tag!("key"), &key)
}

/// Tells a fragment's parts.
fn tell_fragment<S: Sink>(fragment: &LentFragment<'_>, sink: &mut S) -> Result<(), NoMemory>
    ensures told { OnOk result
        (S.seen sink.new ≡ fold S.after (S.seen sink.old) (fragment_fields fragment.now)) }
    ensures front { Grows S.is_front (S.seen sink.old) (S.seen sink.new) }
{
    let (key, flags) = (fragment.key(), fragment.flags());
    tell_begin(kind_name(fragment.kind()), flags, key, sink)?;
    tell_number(field_tag!("offset"), fragment.offset(), sink)?;
    sink.shown(field_tag!("source"), fragment.source())?;
    sink.shown(field_tag!("destination"), fragment.destination())?;
    sink.data(field_tag!("data"), fragment.bytes())
}
