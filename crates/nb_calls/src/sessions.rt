//! Packets of the session service: read, taken apart and written.
ghost use Rattle.std.specs.Prelude.{◌≡◌, ◌≤◌, length, IfOk};
ghost use Rattle.nb_calls.specs.Common.{MAX_MESSAGE};
ghost use Rattle.nb_calls.specs.Sessions.{Reads, ReadsFront, ReadsNames, ReadsRetarget, Stands, WritesPacket, frame};

use crate::names::spelled_in_place;
use crate::output::{Refusal, session_refusal};
use crate::statuses::{BAD_LENGTH, MORE, OTHER_TYPE, UNKNOWN_TYPE};
use nb_names::limits::MAX_SPELLING;
use nb_session::limits::{HEADER_LENGTH, MAX_MESSAGE};
use nb_session::{Kind, Packet, Parsed, front_header, parse_lent};
use nb_streams::{Bytes, NoMemory};
use std::alloc::Global;

/// A packet of the session service: its type, and where its body stands.
#[repr(C)]
#[derive(Clone, Copy)]
pub struct NbtSession {
    /// TYPE.
    pub packet_type: u8,
    /// Where the body begins.
    pub body: usize,
    /// How many bytes it has.
    pub body_length: usize,
    /// How many bytes the packet has.
    pub used: usize,
}

/// What stands at the front of bytes: a packet, or why it isn't one.
pub fn read(bytes: &[u8]) -> Result<NbtSession, Refusal>
    ensures { Reads bytes.now result }
{
    match parse_lent(bytes) {
        Parsed::Whole(packet, used) => Ok(NbtSession {
            packet_type: packet.kind().packet_type(),
            body: HEADER_LENGTH,
            body_length: used.saturating_sub(HEADER_LENGTH),
            used,
        }),
        Parsed::More(needed) => Err(Refusal::FaultAt(MORE, needed)),
        Parsed::Refused(fault) => Err(session_refusal(fault)),
    }
}

/// The header of a packet of the session service.
#[repr(C)]
#[derive(Clone, Copy)]
pub struct NbtSessionFront {
    /// TYPE, also one that no packet has.
    pub packet_type: u8,
    /// FLAGS, all eight bits.
    pub flags: u8,
    /// How many bytes the body has: LENGTH, and 65,536 where the lowest bit of FLAGS is set.
    pub body_length: usize,
}

/// The header at the front of bytes, if it is there whole.
pub fn front_of(bytes: &[u8]) -> Result<NbtSessionFront, Refusal>
    ensures { ReadsFront bytes.now result }
{
    match front_header(bytes) {
        Some(header) => Ok(NbtSessionFront {
            packet_type: header.packet_type,
            flags: header.flags,
            body_length: header.body_length(),
        }),
        None => Err(Refusal::FaultAt(MORE, HEADER_LENGTH - bytes.len())),
    }
}

/// The names of a session request.
#[repr(C)]
#[derive(Clone, Copy)]
pub struct NbtSessionNames {
    /// How many bytes the spelling of the called name has.
    pub called_length: u8,
    /// The spelling of the called name, and bytes of zero after it.
    pub called: [u8; MAX_SPELLING],
    /// How many bytes the spelling of the calling name has.
    pub calling_length: u8,
    /// The spelling of the calling name, and bytes of zero after it.
    pub calling: [u8; MAX_SPELLING],
}

/// Where a retarget leads.
#[repr(C)]
#[derive(Clone, Copy)]
pub struct NbtSessionRetarget {
    /// RETARGET_IP_ADDRESS.
    pub address: u32,
    /// PORT.
    pub port: u16,
}

/// The names of the request at the front of bytes, or why none stands there.
pub fn names_in(bytes: &[u8]) -> Result<NbtSessionNames, Refusal>
    ensures { ReadsNames bytes.now result }
{
    match parse_lent(bytes) {
        Parsed::Whole(Packet::Request { called, calling }, _) => {
            let called = called.to_domain();
            let calling = calling.to_domain();
            Ok(NbtSessionNames {
                called_length: called.spelled_len() as u8,
                called: spelled_in_place(&called),
                calling_length: calling.spelled_len() as u8,
                calling: spelled_in_place(&calling),
            })
        }
        Parsed::Whole(_, _) => Err(Refusal::Fault(OTHER_TYPE)),
        Parsed::More(needed) => Err(Refusal::FaultAt(MORE, needed)),
        Parsed::Refused(fault) => Err(session_refusal(fault)),
    }
}

/// Where the retarget at the front of bytes leads, or why none stands there.
pub fn retarget_in(bytes: &[u8]) -> Result<NbtSessionRetarget, Refusal>
    ensures { ReadsRetarget bytes.now result }
{
    match parse_lent(bytes) {
        Parsed::Whole(Packet::Retarget { address, port }, _) => Ok(NbtSessionRetarget {
            address: u32::from_be_bytes(address),
            port,
        }),
        Parsed::Whole(_, _) => Err(Refusal::Fault(OTHER_TYPE)),
        Parsed::More(needed) => Err(Refusal::FaultAt(MORE, needed)),
        Parsed::Refused(fault) => Err(session_refusal(fault)),
    }
}

/// The packet with this type and this body.
pub fn packet_of(alloc: Global, packet_type: u8, body: &[u8]) -> Result<Bytes, Refusal>
    ensures { WritesPacket packet_type body.now result }
{
    let Some(kind) = Kind::of_type(packet_type) else {
        return Err(Refusal::Fault(UNKNOWN_TYPE));
    };
    if body.len() > MAX_MESSAGE {
        return Err(Refusal::Fault(BAD_LENGTH));
    }
    match frame(alloc, kind, body) {
        Ok(bytes) => judge(bytes),
        Err(_) => Err(Refusal::Memory),
    }
}

/// A header of this kind, and this body after it.
fn frame(alloc: Global, kind: Kind, body: &[u8]) -> Result<Bytes, NoMemory>
    requires { length body.now ≤ MAX_MESSAGE }
    ensures { IfOk result (λ bytes. bytes ≡ frame kind body.now) }
{
    let size = body.len();
    let [high, low] = ((size % 65_536) as u16).to_be_bytes();
    let mut bytes = Vec::with_capacity(alloc, HEADER_LENGTH + size)?;
    bytes.extend_from_slice(&[kind.packet_type(), (size / 65_536) as u8, high, low])?;
    bytes.extend_from_slice(body)?;
    Ok(Bytes::from_vec(bytes))
}

/// The bytes, if they are a packet, else why they aren't.
fn judge(bytes: Bytes) -> Result<Bytes, Refusal>
    ensures { Stands bytes result }
{
    match parse_lent(bytes.as_slice()) {
        Parsed::Whole(_, _) => {}
        Parsed::More(needed) => return Err(Refusal::FaultAt(MORE, needed)),
        Parsed::Refused(fault) => return Err(session_refusal(fault)),
    }
    Ok(bytes)
}
