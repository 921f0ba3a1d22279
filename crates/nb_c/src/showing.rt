//! The texts of packets, their phrases and JSON objects, and the lines of captures.
#![tactic(auto, using(nb_calls::proofs::ObjectLemmas::makes))]

ghost use Rattle.nb_calls.specs.Outputs.{Writes, lent, lent_with};
ghost use Rattle.nb_calls.specs.Showing.{Objects, Phrases, Shows};
ghost use Rattle.nb_calls.specs.Captures.{TellsLine};

use nb_calls::output::write_bytes;
use nb_calls::showing::{NbtLine, phrase, shown, tell_line, write_object};
use nb_capture::capture_line;
use nb_telling::JsonRoom;
use nb_text::packet_object;
use std::alloc::Global;

/// Writes the text of a payload that came to a port, as `nbt show` prints it.
///
/// The form is our choice.
#[unsafe(no_mangle)]
pub extern "C" fn nbt_show(
    alloc: Global,
    port: u16,
    payload: &[u8],
    into: &mut [u8],
    used: &mut usize,
) -> u32
    ensures { Writes (Shows payload.now port) (lent into.old used.old 0)
        (lent into.new used.new 0) result }
{
    write_bytes(shown(alloc, port, payload), into, used)
}

/// Writes the phrase of a payload that came to a port, as `nbt show --brief` prints it.
///
/// The words are our choice, in those of RFC 1002.
#[unsafe(no_mangle)]
pub extern "C" fn nbt_brief(
    alloc: Global,
    port: u16,
    payload: &[u8],
    into: &mut [u8],
    used: &mut usize,
) -> u32
    ensures { Writes (Phrases payload.now port) (lent into.old used.old 0)
        (lent into.new used.new 0) result }
{
    write_bytes(phrase(alloc, port, payload), into, used)
}

/// Writes the JSON object of a payload that came to a port: the members that `nbt show --json`
/// prints of it, but for those of its line.
///
/// The form is our choice.
#[unsafe(no_mangle)]
pub extern "C" fn nbt_json(
    alloc: Global,
    port: u16,
    payload: &[u8],
    into: &mut [u8],
    used: &mut usize,
) -> u32
    ensures { Writes (Objects payload.now port) (lent into.old used.old 0)
        (lent into.new used.new 0) result }
{
    let object = packet_object(port, payload, JsonRoom::new(alloc));
    write_object(object, into, used)
}

/// Reads a line of a capture, which is without its line feed, and writes the payload that it has.
///
/// The form is our choice.
#[unsafe(no_mangle)]
pub extern "C" fn nbt_capture_line(
    alloc: Global,
    line: &[u8],
    said: &mut NbtLine,
    into: &mut [u8],
    used: &mut usize,
) -> u32
    ensures { TellsLine line.now (lent_with said.old into.old used.old)
        (lent_with said.new into.new used.new) result }
{
    tell_line(&capture_line(alloc, line), said, into, used)
}
