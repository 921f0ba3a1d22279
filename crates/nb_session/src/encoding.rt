//! Packets, written.
ghost use Rattle.std.specs.Prelude.{◌≡◌, ◌+◌, ◌≤◌, ◌++◌, length, IfOk};
ghost use Rattle.nb_session.specs.declared.limits.TheConstants.{MAX_MESSAGE};
ghost use Rattle.nb_session.specs.Header.{header_bytes};
ghost use Rattle.nb_session.specs.Packet.{IsPacket};

use crate::limits::HEADER_LENGTH;
use crate::packet::{Kind, Packet};
use nb_names::Name;
use nb_streams::{Bytes, NoMemory};
use std::alloc::Global;

/// What one bit of FLAGS adds to the length of the body.
const LENGTHS: usize = 65_536;

/// The bytes of a packet: its header, then its body.
///
/// They are parsed as the packet again, whatever follows.
///
/// # Errors
///
/// [`NoMemory`] where memory ran out.
///
/// RFC 1002 section 4.3.
pub fn encode(alloc: Global, packet: &Packet<'_>) -> Result<Bytes, NoMemory>
    ensures { IfOk result (IsPacket packet.now) }
{
    match packet {
        Packet::Message(message) => framed(alloc, Kind::Message, message.bytes(), &[]),
        Packet::Request { called, calling } => request(alloc, called, calling),
        Packet::Negative(code) => framed(alloc, Kind::Negative, &[*code], &[]),
        Packet::Retarget { address, port } => {
            framed(alloc, Kind::Retarget, address, &port.to_be_bytes())
        }
        Packet::Positive | Packet::Keepalive => framed(alloc, packet.kind(), &[], &[]),
    }
}

/// The header before a body of this kind and length.
fn header_of(kind: Kind, length: usize) -> [u8; HEADER_LENGTH]
    requires { length ≤ MAX_MESSAGE }
    ensures { result ≡ header_bytes kind length }
{
    let [high, low] = ((length % LENGTHS) as u16).to_be_bytes();
    [kind.packet_type(), (length / LENGTHS) as u8, high, low]
}

/// The bytes of a packet of this kind, whose body is these two parts.
fn framed(alloc: Global, kind: Kind, first: &[u8], second: &[u8]) -> Result<Bytes, NoMemory>
    requires { length first.now + length second.now ≤ MAX_MESSAGE }
    ensures { IfOk result (λ bytes. bytes ≡
        header_bytes kind (length (first.now ++ second.now)) ++ (first.now ++ second.now)) }
{
    let length = first.len() + second.len();
    let mut bytes = Vec::with_capacity(alloc, HEADER_LENGTH + length)?;
    bytes.extend_from_slice(&header_of(kind, length))?;
    bytes.extend_from_slice(first)?;
    bytes.extend_from_slice(second)?;
    Ok(Bytes::from_vec(bytes))
}

/// The bytes of a request.
fn request(alloc: Global, called: &Name, calling: &Name) -> Result<Bytes, NoMemory>
    ensures { IfOk result (IsPacket (Packet.Request called.now calling.now)) }
{
    let first = called.to_domain();
    let second = calling.to_domain();
    // Each call says that its name is one.
    let _ = called.bytes();
    let _ = calling.bytes();
    framed(alloc, Kind::Request, first.spelling(), second.spelling())
}
