//! The packets that words name, as the lines of a capture.
ghost use Rattle.std.specs.Prelude.{◌≡◌, ◌++◌, Bool, IfErr, IfOk, OnOk, string_bytes};
ghost use Rattle.nb_building.specs.Building.{AreLinesOf, payload_line, payload_lines};
ghost use Rattle.nb_building.specs.Built.{NamesAny, texts};
ghost use Rattle.nb_building.specs.Refusals.{ExplainsAny, ExplainsDatagrams, ExplainsService, ExplainsSession, Unnamed, GiveTooMuch};
ghost use Rattle.nb_building.specs.Words.{IsDatagramWord, IsServiceWord, IsSessionWord};

use crate::build_fault::BuildFault;
use crate::{datagram, service, session};
use nb_streams::{Bytes, NoMemory, push_digits};
use std::alloc::Global;

/// The lines of a capture for the packets that the words name: for each its port, the moment 0, and
/// its bytes as hexadecimal digits. There is one, or for a datagram one for each of its pieces.
///
/// | `what` | `words` |
/// |---|---|
/// | `query`, `status` | ID NAME |
/// | `registration`, `refresh` | ID NAME TTL FLAGS ADDRESS |
/// | `release` | ID NAME FLAGS ADDRESS |
/// | `response` | ID WORD NAME TYPE TTL HEX |
/// | `request` | CALLED CALLING |
/// | `message` | HEX |
/// | `positive`, `keepalive` | |
/// | `negative` | CODE |
/// | `retarget` | ADDRESS PORT |
/// | `unique`, `group`, `broadcast` | KEY SOURCE DESTINATION HEX MOST |
/// | `error` | KEY CODE |
/// | `find`, `found`, `missing` | KEY NAME |
///
/// ID, WORD, TYPE and FLAGS are four hexadecimal digits, CODE two, and HEX two a byte, or `empty`;
/// TTL, PORT and MOST are decimal without leading zeros; KEY is an address, a port and an
/// identifier, as `10.0.0.5:138/0001`. `broadcast` sets B in a packet of port 137, and does nothing
/// to others.
///
/// `what` is judged before the number of words, and that before each of them from left to right.
///
/// # Errors
///
/// The first that is met, as each [`BuildFault`] says.
///
/// The words and the form are our choice.
pub fn capture_lines(
    alloc: Global,
    what: &str,
    words: &[&str],
    broadcast: bool,
) -> Result<String, BuildFault>
    ensures built { IfOk result
        (λ lines. AreLinesOf broadcast what.now (texts words.now) (string_bytes lines)) }
    ensures too_long { IfErr result (λ fault. fault ≡ BuildFault.TooLong →
        GiveTooMuch what.now (texts words.now)) }
    ensures refused { IfErr result (Unnamed (NamesAny broadcast what.now (texts words.now))) }
    // Which word is wrong: the first that the packet doesn't take.
    ensures why { IfErr result (ExplainsAny broadcast what.now (texts words.now)) }
{
    match what {
        "query" | "status" | "registration" | "refresh" | "release" | "response" => {
            service_line(alloc, what, words, broadcast)
        }
        "request" | "message" | "positive" | "negative" | "retarget" | "keepalive" => {
            session_line(alloc, what, words)
        }
        "unique" | "group" | "broadcast" | "error" | "find" | "found" | "missing" => {
            datagram_lines(alloc, what, words)
        }
        _ => Err(BuildFault::What),
    }
}

/// The line of a name service packet.
fn service_line(
    alloc: Global,
    what: &str,
    words: &[&str],
    broadcast: bool,
) -> Result<String, BuildFault>
    requires { IsServiceWord what.now }
    ensures built { IfOk result
        (λ lines. AreLinesOf broadcast what.now (texts words.now) (string_bytes lines)) }
    ensures refused { IfErr result (ExplainsService broadcast what.now (texts words.now)) }
{
    let packet = service::build(alloc, what, words, broadcast)?;
    Ok(lines(alloc, 137, &[packet])?)
}

/// The line of a session packet.
fn session_line(alloc: Global, what: &str, words: &[&str]) -> Result<String, BuildFault>
    requires { IsSessionWord what.now }
    ensures built { IfOk result (λ lines. (broadcast : Bool) →
        AreLinesOf broadcast what.now (texts words.now) (string_bytes lines)) }
    ensures refused { IfErr result (ExplainsSession what.now (texts words.now)) }
{
    let packet = session::build(alloc, what, words)?;
    Ok(lines(alloc, 139, &[packet])?)
}

/// The lines of the packets of a datagram, or of one that is no fragment.
fn datagram_lines(alloc: Global, what: &str, words: &[&str]) -> Result<String, BuildFault>
    requires { IsDatagramWord what.now }
    ensures built { IfOk result (λ lines. (broadcast : Bool) →
        AreLinesOf broadcast what.now (texts words.now) (string_bytes lines)) }
    ensures refused { IfErr result (ExplainsDatagrams what.now (texts words.now)) }
{
    let packets = datagram::build(alloc, what, words)?;
    Ok(lines(alloc, 138, packets.as_slice())?)
}

/// The capture lines of payloads, in order.
fn lines(alloc: Global, port: u16, payloads: &[Bytes]) -> Result<String, NoMemory>
    ensures { IfOk result (λ text. string_bytes text ≡ payload_lines port payloads.now) }
{
    let mut text = String::new(alloc);
    for payload in payloads {
        push_line(port, payload, &mut text)?;
    }
    Ok(text)
}

/// Adds the capture line of a payload, at moment 0.
fn push_line(port: u16, payload: &Bytes, text: &mut String) -> Result<(), NoMemory>
    ensures { OnOk result
        (string_bytes text.new ≡ string_bytes text.old ++ payload_line port payload.now) }
{
    write!(text, "{port} 0 ")?;
    push_digits(payload.as_slice(), text)?;
    text.push_str("\n")?;
    Ok(())
}
