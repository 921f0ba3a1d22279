//! What is said of a packet: its phrase, that not all of it is there, or why it is left out.
ghost use Rattle.std.specs.Prelude.{◌≡◌, ◌++◌, ℕ, List, OnOk, string_bytes};
ghost use Rattle.nb_pcap.specs.Frame.{value_of};
ghost use Rattle.nb_traffic.specs.Brought.{packet_value};
ghost use Rattle.nbt_look.specs.Standing.{SaysStanding, cut_text, left_out_said, outcome_in, part_text, standing_of};

use crate::counting::{LeftOut, Outcome};
use crate::totals::push_plural;
use nb_pcap::Frame;
use nb_streams::{NoMemory, push_decimal};
use nb_text::push_brief;
use nb_traffic::Packet;

/// How much of a packet there is, or why it is left out.
#[derive(Clone, Copy)]
pub enum Standing {
    /// All of it.
    Whole,
    /// Not all, since the snap length cut the frame.
    Cut,
    /// None: this is why, and how many bytes there are, where they are counted.
    LeftOut(LeftOut, usize),
}

/// How much of a packet there is in its frame. One of which a whole frame has not all is left out.
pub fn standing_of(frame: &Frame<'_>, packet: &Packet<'_>) -> Standing
    ensures { result ≡ standing_of (value_of frame.now) (packet_value packet.now) }
{
    if packet.wire_length <= packet.bytes.len() {
        return Standing::Whole;
    }
    if frame.bytes.len() < frame.original as usize {
        return Standing::Cut;
    }
    Standing::LeftOut(LeftOut::BadLength, 0)
}

/// Adds that so many bytes are there of so many.
fn push_part(what: &str, some: u64, all: u64, text: &mut String) -> Result<(), NoMemory>
    ensures { OnOk result
        (string_bytes text.new ≡ string_bytes text.old ++ part_text what.now some all) }
{
    text.push_str(what)?;
    push_decimal(some, text)?;
    text.push_str(" of ")?;
    push_decimal(all, text)?;
    text.push_str(" bytes")?;
    Ok(())
}

/// Adds what is said where the snap length cut a packet: `held` of its `wire` bytes are there, or
/// where none is, `captured` of the `original` bytes of its frame.
fn push_cut(
    captured: usize,
    original: u64,
    held: usize,
    wire: usize,
    text: &mut String,
) -> Result<(), NoMemory>
    ensures { OnOk result
        (string_bytes text.new ≡ string_bytes text.old ++ cut_text captured original held wire) }
{
    if held == 0 {
        let what = "left out: cut by the snap length, ";
        return push_part(what, captured as u64, original, text);
    }
    push_part("cut: ", held as u64, wire as u64, text)
}

/// Adds what is said of so many bytes that are left out.
fn push_left_out(reason: LeftOut, count: usize, text: &mut String) -> Result<(), NoMemory>
    ensures { OnOk result
        (string_bytes text.new ≡ string_bytes text.old ++ left_out_said reason count) }
{
    text.push_str("left out: ")?;
    text.push_str(reason.words())?;
    if count != 0 {
        text.push_str(", ")?;
        return push_plural(count as u64, "byte", text);
    }
    Ok(())
}

/// Adds what is said of a packet that stands so.
pub fn push_said(
    standing: Standing,
    frame: &Frame<'_>,
    packet: &Packet<'_>,
    text: &mut String,
) -> Result<(), NoMemory>
    ensures { OnOk result ((said : List ℕ)
        × SaysStanding standing (value_of frame.now) (packet_value packet.now) said
        × (string_bytes text.new ≡ string_bytes text.old ++ said)) }
{
    match standing {
        Standing::Whole => push_brief(packet.service, packet.bytes, text),
        Standing::Cut => push_cut(
            frame.bytes.len(),
            u64::from(frame.original),
            packet.bytes.len(),
            packet.wire_length,
            text,
        ),
        Standing::LeftOut(reason, count) => push_left_out(reason, count, text),
    }
}

/// How a packet is counted of which this is said.
pub fn outcome_in(standing: Standing, said: &str) -> Outcome
    ensures { result ≡ outcome_in standing said.now }
{
    match standing {
        Standing::Whole => {
            if said.as_bytes().starts_with(b"refused: ") {
                return Outcome::Malformed;
            }
            Outcome::Packet
        }
        Standing::Cut => Outcome::LeftOut(LeftOut::Cut),
        Standing::LeftOut(reason, _) => Outcome::LeftOut(reason),
    }
}
