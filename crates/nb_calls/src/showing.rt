//! The texts of packets, their phrases and JSON objects, and the lines of captures.
ghost use Rattle.std.specs.Prelude.{IfOk, ◌≡◌, Ok};
ghost use Rattle.nb_calls.specs.Common.{IsSaid, Shown};
ghost use Rattle.nb_calls.specs.Outputs.{Answers, lent, lent_with, of_memory};
ghost use Rattle.nb_calls.specs.Captures.{WritesLine, line_answer};

use crate::output::{line_refusal, put, status_of};
use crate::statuses::NO_MEMORY;
use nb_capture::{Line, LineFault};
use nb_streams::{Bytes, NoMemory};
use nb_telling::JsonRoom;
use nb_text::{push_brief, push_packet};
use std::alloc::Global;

/// The text of a payload.
pub fn shown(alloc: Global, port: u16, payload: &[u8]) -> Result<Bytes, NoMemory>
    ensures { IfOk result (Shown payload.now port) }
{
    let mut text = String::new(alloc);
    push_packet(port, payload, &mut text)?;
    Ok(Bytes::from_vec(text.into_bytes()))
}

/// The phrase of a payload.
pub fn phrase(alloc: Global, port: u16, payload: &[u8]) -> Result<Bytes, NoMemory>
    ensures { IfOk result (IsSaid payload.now port) }
{
    let mut text = String::new(alloc);
    push_brief(port, payload, &mut text)?;
    Ok(Bytes::from_vec(text.into_bytes()))
}

/// Writes an object, unless memory ran out.
pub fn write_object(object: Result<JsonRoom, NoMemory>, into: &mut [u8], used: &mut usize) -> u32
    ensures { Answers (of_memory object) (lent into.old used.old 0)
        (lent into.new used.new 0) result }
{
    match object {
        Ok(object) => put(object.as_slice(), into, used),
        Err(_) => NO_MEMORY,
    }
}

/// A line that is empty, or a comment.
pub const BLANK: u32 = 0;

/// A line that is a payload.
pub const PACKET: u32 = 1;

/// A line that is what the clock shows.
pub const TICK: u32 = 2;

/// What a line of a capture is, in numbers. A number of which nothing is said is 0.
#[repr(C)]
#[derive(Clone, Copy)]
pub struct NbtLine {
    /// [`BLANK`], [`PACKET`] or [`TICK`].
    pub kind: u32,
    /// Of a packet: the port that it came to.
    pub port: u16,
    /// Of a packet when it came, of a tick what the clock shows, in milliseconds.
    pub moment: u64,
}

/// Tells what was read of a line.
pub fn tell_line(
    read: &Result<Option<Line>, LineFault>,
    said: &mut NbtLine,
    into: &mut [u8],
    used: &mut usize,
) -> u32
    ensures { WritesLine (line_answer read.now) (lent_with said.old into.old used.old)
        (lent_with said.new into.new used.new) result }
{
    match read {
        Ok(None) => put_line(numbers(BLANK, 0, 0), &[], said, into, used),
        Ok(Some(line)) => match line {
            Line::Packet {
                port,
                moment,
                payload,
            } => {
                let numbers = numbers(PACKET, *port, *moment);
                put_line(numbers, payload.as_slice(), said, into, used)
            }
            Line::Tick { now } => put_line(numbers(TICK, 0, *now), &[], said, into, used),
        },
        Err(fault) => status_of(line_refusal(*fault)),
    }
}

/// These numbers of a line.
fn numbers(kind: u32, port: u16, moment: u64) -> NbtLine
    ensures { result ≡ record { kind = kind; port = port; moment = moment } }
{
    NbtLine { kind, port, moment }
}

/// Writes the payload and the numbers of a line, where the payload fits.
fn put_line(
    numbers: NbtLine,
    payload: &[u8],
    said: &mut NbtLine,
    into: &mut [u8],
    used: &mut usize,
) -> u32
    ensures { WritesLine (Ok (record { numbers = numbers; bytes = payload.now }))
        (lent_with said.old into.old used.old) (lent_with said.new into.new used.new) result }
{
    if payload.len() <= into.len() {
        *said = numbers;
    }
    put(payload, into, used)
}
