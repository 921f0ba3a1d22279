//! Session packets from arguments.
ghost use Rattle.std.specs.Prelude.{◌≡◌, ◌⊎◌, [], codes, length, IfErr, IfOk};
ghost use Rattle.nb_session.specs.Packet.{IsPacket};
ghost use Rattle.nb_building.specs.Built.{IsSessionBuilt, texts};
ghost use Rattle.nb_building.specs.Refusals.{ExplainsSession};
ghost use Rattle.nb_building.specs.Words.{IsSessionWord};

use crate::arguments::{address, code, data, named, number};
use crate::build_fault::BuildFault;
use nb_session::{MessageData, Packet, encode};
use nb_streams::Bytes;
use std::alloc::Global;

/// The bytes of the packet that WHAT and its arguments give.
pub fn build(alloc: Global, what: &str, words: &[&str]) -> Result<Bytes, BuildFault>
    requires { IsSessionWord what.now }
    ensures built { IfOk result (IsSessionBuilt what.now (texts words.now)) }
    ensures refused { IfErr result (ExplainsSession what.now (texts words.now)) }
{
    match what {
        "request" => request(alloc, words),
        "message" => message(alloc, words),
        "positive" => bare(alloc, words, &Packet::Positive),
        "negative" => negative(alloc, words),
        "retarget" => retarget(alloc, words),
        "keepalive" => bare(alloc, words, &Packet::Keepalive),
        _ => Err(BuildFault::What),
    }
}

/// The bytes of a request, from CALLED CALLING.
fn request(alloc: Global, words: &[&str]) -> Result<Bytes, BuildFault>
    ensures built { IfOk result (IsSessionBuilt (codes "request") (texts words.now)) }
    ensures refused { IfErr result (ExplainsSession (codes "request") (texts words.now)) }
{
    let [called, calling] = words else {
        return Err(BuildFault::Count);
    };
    let called = named(called, 0)?;
    let calling = named(calling, 1)?;
    encoded(alloc, &Packet::Request { called, calling })
}

/// The bytes of a message, from HEX.
fn message(alloc: Global, words: &[&str]) -> Result<Bytes, BuildFault>
    ensures built { IfOk result (IsSessionBuilt (codes "message") (texts words.now)) }
    ensures refused { IfErr result (ExplainsSession (codes "message") (texts words.now)) }
{
    let [digits] = words else {
        return Err(BuildFault::Count);
    };
    let bytes = data(alloc, digits, 0)?;
    match MessageData::new(bytes.as_slice()) {
        Ok(message) => encoded(alloc, &Packet::Message(message)),
        Err(_) => Err(BuildFault::TooLong),
    }
}

/// The bytes of a negative response, from CODE.
fn negative(alloc: Global, words: &[&str]) -> Result<Bytes, BuildFault>
    ensures built { IfOk result (IsSessionBuilt (codes "negative") (texts words.now)) }
    ensures refused { IfErr result (ExplainsSession (codes "negative") (texts words.now)) }
{
    let [digits] = words else {
        return Err(BuildFault::Count);
    };
    encoded(alloc, &Packet::Negative(code(alloc, digits, 0)?))
}

/// The bytes of a retarget response, from ADDRESS PORT.
fn retarget(alloc: Global, words: &[&str]) -> Result<Bytes, BuildFault>
    ensures built { IfOk result (IsSessionBuilt (codes "retarget") (texts words.now)) }
    ensures refused { IfErr result (ExplainsSession (codes "retarget") (texts words.now)) }
{
    let [place, port] = words else {
        return Err(BuildFault::Count);
    };
    let address = address(place, 0)?;
    let port = number(port, 1)?;
    encoded(alloc, &Packet::Retarget { address, port })
}

/// The bytes of a packet that takes no arguments.
fn bare(alloc: Global, words: &[&str], packet: &Packet<'_>) -> Result<Bytes, BuildFault>
    ensures built { IfOk result (λ bytes. (words.now ≡ []) × IsPacket packet.now bytes) }
    ensures refused { IfErr result (λ fault. (fault ≡ BuildFault.Memory)
        ⊎ ((fault ≡ BuildFault.Count) × ¬ (length words.now ≡ 0))) }
{
    match words {
        [] => encoded(alloc, packet),
        _ => Err(BuildFault::Count),
    }
}

/// The bytes of a packet.
fn encoded(alloc: Global, packet: &Packet<'_>) -> Result<Bytes, BuildFault>
    ensures built { IfOk result (IsPacket packet.now) }
    ensures memory { IfErr result (λ fault. fault ≡ BuildFault.Memory) }
{
    Ok(encode(alloc, packet)?)
}
