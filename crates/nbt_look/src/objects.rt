//! Packets as JSON objects.
#![tactic(auto, using(nb_telling::proofs::FoldLemmas::told_both))]

ghost use Rattle.std.specs.Prelude.{◌≡◌, List, OnOk, IfOk, fold, length, nat_eq};
ghost use Rattle.nb_pcap.specs.Frame.{value_of};
ghost use Rattle.nb_telling.specs.Telling.{Field, tag_of};
ghost use Rattle.nb_traffic.specs.Brought.{packet_value};
ghost use Rattle.nbt_look.specs.declared.standing.Standing.TheVariants.{Cut};
ghost use Rattle.nbt_look.specs.Bare.{bare_tag};
ghost use Rattle.nbt_look.specs.Entries.{entry_value};
ghost use Rattle.nbt_look.specs.Objects.{IsPacketObject, TellsStanding, arrival_fields, cut_field, known_port, left_out_field, moment_of};

use crate::counting::LeftOut;
use crate::entries::Entry;
use crate::frame_members::tell_frame;
use crate::standing::Standing;
use nb_pcap::Frame;
use nb_streams::NoMemory;
use nb_telling::{FieldTag, JsonRoom, JsonSink, Sink};
use nb_text::laws::fronts_are_members;
use nb_text::tell_front;
use nb_traffic::Packet;

/// Nanoseconds of a thousandth of a second.
const MILLISECOND: u64 = 1_000_000;

/// A tag of an object, which no text has.
pub fn bare(name: &'static str) -> FieldTag
    ensures { tag_of result ≡ bare_tag name.now }
{
    FieldTag { name, lead: "" }
}

/// A port, of which 0 is none.
pub fn known_port(port: u16) -> Option<u64>
    ensures { result ≡ known_port port }
{
    if port == 0 {
        return None;
    }
    Some(u64::from(port))
}

/// How many thousandths of a second passed since the first frame that has a time.
pub fn moment_of(first: Option<u64>, at: Option<u64>) -> Option<u64>
    ensures { result ≡ moment_of first at }
{
    match (first, at) {
        (Some(first), Some(at)) => Some(at.saturating_sub(first) / MILLISECOND),
        _ => None,
    }
}

/// Tells a packet: the port of its service, its moment and its phrase.
fn tell_arrival<S: Sink>(
    port: u16,
    moment: Option<u64>,
    phrase: &str,
    sink: &mut S,
) -> Result<(), NoMemory>
    ensures { OnOk result (S.seen sink.new
        ≡ fold S.after (S.seen sink.old) (arrival_fields port moment phrase.now)) }
{
    sink.known(bare("port"), known_port(port))?;
    sink.known(bare("moment"), moment)?;
    sink.text(bare("brief"), phrase)
}

/// Tells why something is left out.
fn tell_left_out<S: Sink>(reason: LeftOut, sink: &mut S) -> Result<(), NoMemory>
    ensures { OnOk result
        (S.seen sink.new ≡ S.after (S.seen sink.old) (left_out_field reason)) }
{
    sink.text(bare("left_out"), reason.words())
}

/// Whether no byte of a packet is captured.
fn has_nothing(packet: &Packet<'_>) -> bool
    ensures { result ≡ nat_eq (length packet.now.bytes.now) 0 }
{
    packet.bytes.len() == 0
}

/// Tells how many bytes a packet had that the snap length cut.
fn tell_cut_len<S: Sink>(packet: &Packet<'_>, sink: &mut S) -> Result<(), NoMemory>
    ensures { OnOk result
        (S.seen sink.new ≡ S.after (S.seen sink.old) (cut_field (packet_value packet.now))) }
{
    sink.number(bare("cut"), packet.wire_length as u64)
}

/// Tells what stands of a packet that the snap length cut.
fn tell_cut<S: Sink>(packet: &Packet<'_>, sink: &mut S) -> Result<(), NoMemory>
    ensures { OnOk result ((fields : List Field)
        × TellsStanding Cut (packet_value packet.now) fields
        × (S.seen sink.new ≡ fold S.after (S.seen sink.old) fields)) }
{
    if has_nothing(packet) {
        return tell_left_out(LeftOut::Cut, sink);
    }
    tell_cut_len(packet, sink)?;
    tell_front(packet.service, packet.bytes, sink)
}

/// Tells what stands of a packet that stands so.
fn tell_standing<S: Sink>(
    standing: Standing,
    packet: &Packet<'_>,
    sink: &mut S,
) -> Result<(), NoMemory>
    ensures { OnOk result ((fields : List Field)
        × TellsStanding standing (packet_value packet.now) fields
        × (S.seen sink.new ≡ fold S.after (S.seen sink.old) fields)) }
{
    match standing {
        Standing::Whole => tell_front(packet.service, packet.bytes, sink),
        Standing::Cut => tell_cut(packet, sink),
        Standing::LeftOut(reason, _) => tell_left_out(reason, sink),
    }
}

/// What is shown of a line.
#[derive(Clone, Copy)]
pub struct Shown<'a> {
    /// The time of the first frame that has one.
    pub first: Option<u64>,
    /// How the time of this one is shown.
    pub time: &'a str,
    /// The phrase.
    pub phrase: &'a str,
}

/// The object of what a line of this frame is about, as a line.
pub fn packet_object(
    frame: &Frame<'_>,
    entry: &Entry<'_>,
    shown: &Shown<'_>,
    scratch: &mut String,
    room: JsonRoom,
) -> Result<JsonRoom, NoMemory>
    ensures { IfOk result (IsPacketObject frame.now.number (value_of frame.now)
        (entry_value entry.now) shown.now.first shown.now.time.now shown.now.phrase.now) }
{
    // The law that makes the fields members; the call does nothing.
    fronts_are_members();
    let mut sink = JsonSink::begin(room)?;
    tell_frame(frame, shown.time, &entry.packet, scratch, &mut sink)?;
    tell_arrival(
        entry.packet.service,
        moment_of(shown.first, frame.time),
        shown.phrase,
        &mut sink,
    )?;
    tell_standing(entry.standing, &entry.packet, &mut sink)?;
    let mut made = sink.end()?;
    made.end_line()?;
    Ok(made)
}
