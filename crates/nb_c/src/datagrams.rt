//! Packets of the datagram service, read, and what stands at the front of others.
#![tactic(auto, using(nb_calls::proofs::AnswerLemmas::answered))]

ghost use Rattle.nb_calls.specs.Datagrams.{Reads, ReadsFront};
ghost use Rattle.nb_calls.specs.Outputs.{Fills};

use nb_calls::datagrams::{NbtDatagram, NbtDatagramFront, front_of, read};
use nb_calls::output::fill;

/// Reads the packet at the front of a payload of port 138. No memory is taken.
///
/// RFC 1002 section 4.4.
#[unsafe(no_mangle)]
pub extern "C" fn nbt_datagram_read(payload: &[u8], packet: &mut NbtDatagram, at: &mut usize) -> u32
    ensures { Fills (Reads payload.now) packet.old packet.new at.old at.new result }
{
    fill(read(payload), packet, at)
}

/// Reads what stands at the front of a payload of port 138, whether or not a packet does. No memory
/// is taken.
///
/// RFC 1002 sections 4.4.1 and 4.4.2.
#[unsafe(no_mangle)]
pub extern "C" fn nbt_datagram_front(
    payload: &[u8],
    front: &mut NbtDatagramFront,
    at: &mut usize,
) -> u32
    ensures { Fills (ReadsFront payload.now) front.old front.new at.old at.new result }
{
    fill(front_of(payload), front, at)
}
