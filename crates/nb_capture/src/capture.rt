//! Reading a line of a capture.
ghost use Rattle.std.specs.Prelude.{◌≡◌, ℕ, ◌++◌, ◌∷◌, List, Contains, MatchOption, IsTrue, ◌↔◌};
ghost use Rattle.std.specs.List.{list_all};
ghost use Rattle.std.specs.Char.{is_ascii_digit};
ghost use Rattle.nb_capture.specs.Capture.{space, PortText, MomentText, Reads, ReadsBy, NeedsMemory, Blank, HasWords};

use crate::fault::LineFault;
use crate::limits::{MAX_LINE, MAX_MOMENT_DIGITS};
use crate::line::Line;
use nb_streams::{ascii_str, data_in};
use std::alloc::Global;
use std::mem;

/// What a line of a capture says, or nothing where it is empty or a comment.
///
/// `line` is one line without its line feed. It is one of
///
/// - the empty line, or a comment, which begins with `#`;
/// - `PORT MOMENT HEX`, a payload that came to port 137, 138 or 139: HEX is its bytes, two
///   hexadecimal digits of either case for each, or the word `empty`;
/// - `tick MOMENT`, what the clock shows.
///
/// One space stands between the words, and none before or after them. A moment is 1 to 20 decimal
/// digits, and at most 18,446,744,073,709,551,615. Memory is taken for the payload alone.
///
/// # Errors
///
/// [`LineFault::BadLine`] for every other line, and for one of more than [`MAX_LINE`] bytes,
/// whatever memory there is; [`LineFault::NoMemory`] only for a line whose payload has a byte or
/// more.
///
/// The form is our choice.
pub fn capture_line(alloc: Global, line: &[u8]) -> Result<Option<Line>, LineFault>
    ensures { Reads line.now result }
{
    capture_line_in(&mut Vec::new(alloc), line)
}

/// What a line of a capture says, as [`capture_line`] has it. A payload is read into this room,
/// which is then an empty one.
pub(crate) fn capture_line_in(room: &mut Vec<u8>, line: &[u8]) -> Result<Option<Line>, LineFault>
    ensures { Reads line.now result }
{
    if MAX_LINE < line.len() {
        return Err(LineFault::BadLine);
    }
    if is_blank(line) {
        return Ok(None);
    }
    Ok(Some(value_of(room, line)?))
}

/// Whether a line is empty or a comment, whatever its length.
fn is_blank(line: &[u8]) -> bool
    ensures { IsTrue result ↔ Blank line.now }
{
    match line.first() {
        None => true,
        Some(b'#') => !line.contains(&b'\n'),
        Some(_) => false,
    }
}

/// What a line says that is neither empty nor a comment, whatever its length.
fn value_of(room: &mut Vec<u8>, line: &[u8]) -> Result<Line, LineFault>
    ensures { ReadsBy (HasWords line.now) NeedsMemory result }
{
    if let Some(digits) = line.strip_prefix(b"tick ") {
        return match moment_of(digits) {
            Some(now) => Ok(Line::Tick { now }),
            None => Err(LineFault::BadLine),
        };
    }
    match after_port(line) {
        Some((port, words)) => packet_of(room, port, words),
        None => Err(LineFault::BadLine),
    }
}

/// The port that a packet's line begins with, and what stands after it and a space.
fn after_port(line: &[u8]) -> Option<(u16, &[u8])>
    ensures { MatchOption result
        ((port : ℕ) (text words : List ℕ) → PortText port text →
        ¬ (line.now ≡ text ++ space ∷ words))
        (λ read. (text : List ℕ) × PortText read.0 text
        × (line.now ≡ text ++ space ∷ read.1.now)) }
{
    if let Some(words) = line.strip_prefix(b"137 ") {
        return Some((137, words));
    }
    if let Some(words) = line.strip_prefix(b"138 ") {
        return Some((138, words));
    }
    if let Some(words) = line.strip_prefix(b"139 ") {
        return Some((139, words));
    }
    None
}

/// The packet of a line with this port and, after it, these words.
fn packet_of(room: &mut Vec<u8>, port: u16, words: &[u8]) -> Result<Line, LineFault>
    ensures { (text : List ℕ) → PortText port text →
        ReadsBy (HasWords (text ++ space ∷ words.now)) NeedsMemory result }
{
    let Some((digits, hexadecimal)) = at_space(words) else {
        return Err(LineFault::BadLine);
    };
    let Some(moment) = moment_of(digits) else {
        return Err(LineFault::BadLine);
    };
    let empty = Vec::new(*room.allocator());
    let payload = data_in(mem::replace(room, empty), hexadecimal)?;
    Ok(Line::Packet {
        port,
        moment,
        payload,
    })
}

/// What stands before the first space, and what after it.
fn at_space(text: &[u8]) -> Option<(&[u8], &[u8])>
    ensures { MatchOption result (¬ Contains text.now space)
        (λ parts. (text.now ≡ parts.0.now ++ space ∷ parts.1.now)
        × (¬ Contains parts.0.now space)) }
{
    let at = text.iter().position(|byte| *byte == b' ')?;
    Some((&text[..at], &text[at + 1..]))
}

/// The moment that a word stands for.
fn moment_of(text: &[u8]) -> Option<u64>
    ensures { MatchOption result ((moment : ℕ) → ¬ MomentText moment text.now)
        (λ moment. MomentText moment text.now) }
{
    if MAX_MOMENT_DIGITS < text.len() {
        return None;
    }
    if !are_digits(text) {
        return None;
    }
    ascii_str(text).parse().ok()
}

/// Whether each byte is a decimal digit.
fn are_digits(text: &[u8]) -> bool
    ensures { result ≡ list_all is_ascii_digit text.now }
{
    text.iter().all(|digit| digit.is_ascii_digit())
}
