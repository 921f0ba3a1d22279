//! Packets of the session service: read, taken apart and written.
#![tactic(auto, using(nb_calls::proofs::AnswerLemmas::answered))]

ghost use Rattle.nb_calls.specs.Outputs.{Fills, Writes, lent};
ghost use Rattle.nb_calls.specs.Sessions.{Reads, ReadsFront, ReadsNames, ReadsRetarget, WritesPacket};

use nb_calls::output::{fill, write_answer};
use nb_calls::sessions::{
    NbtSession, NbtSessionFront, NbtSessionNames, NbtSessionRetarget, front_of, names_in,
    packet_of, read, retarget_in,
};
use std::alloc::Global;

/// Reads the packet at the front of what came over a connection. No memory is taken.
///
/// RFC 1002 section 4.3.
#[unsafe(no_mangle)]
pub extern "C" fn nbt_session_read(bytes: &[u8], packet: &mut NbtSession, at: &mut usize) -> u32
    ensures { Fills (Reads bytes.now) packet.old packet.new at.old at.new result }
{
    fill(read(bytes), packet, at)
}

/// Reads the header at the front of what came over a connection, whether or not a packet stands
/// there. No memory is taken.
///
/// RFC 1002 section 4.3.1.
#[unsafe(no_mangle)]
pub extern "C" fn nbt_session_front(
    bytes: &[u8],
    front: &mut NbtSessionFront,
    at: &mut usize,
) -> u32
    ensures { Fills (ReadsFront bytes.now) front.old front.new at.old at.new result }
{
    fill(front_of(bytes), front, at)
}

/// Reads the names of the session request at the front of what came over a connection. No memory
/// is taken.
///
/// RFC 1002 section 4.3.2.
#[unsafe(no_mangle)]
pub extern "C" fn nbt_session_names(
    bytes: &[u8],
    names: &mut NbtSessionNames,
    at: &mut usize,
) -> u32
    ensures { Fills (ReadsNames bytes.now) names.old names.new at.old at.new result }
{
    fill(names_in(bytes), names, at)
}

/// Reads where the retarget leads at the front of what came over a connection. No memory is taken.
///
/// RFC 1002 section 4.3.5.
#[unsafe(no_mangle)]
pub extern "C" fn nbt_session_retarget(
    bytes: &[u8],
    retarget: &mut NbtSessionRetarget,
    at: &mut usize,
) -> u32
    ensures { Fills (ReadsRetarget bytes.now) retarget.old retarget.new at.old at.new result }
{
    fill(retarget_in(bytes), retarget, at)
}

/// Writes the packet with this type and this body.
///
/// RFC 1002 section 4.3.
#[unsafe(no_mangle)]
pub extern "C" fn nbt_session_write(
    alloc: Global,
    packet_type: u8,
    body: &[u8],
    into: &mut [u8],
    used: &mut usize,
    at: &mut usize,
) -> u32
    ensures { Writes (WritesPacket packet_type body.now) (lent into.old used.old at.old)
        (lent into.new used.new at.new) result }
{
    write_answer(packet_of(alloc, packet_type, body), into, used, at)
}
