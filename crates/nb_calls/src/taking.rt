//! Payloads that a station takes, and what becomes of each.
ghost use Rattle.std.specs.Prelude.{◌≤◌, length, ◌≡◌, ◌++◌};
ghost use Rattle.nb_calls.specs.Common.{TAKE_ROOM, packet_bytes, Error};
ghost use Rattle.nb_calls.specs.Outputs.{lent_with};
ghost use Rattle.nb_calls.specs.Stations.{Fronted, Took, told_of, told_refused, delivered_bytes, error_bytes};

use crate::output::{datagram_refusal, refuse, status_of, table_refusal};
use crate::statuses::{DONE, NO_ROOM};
use crate::taken::{
    DELIVERED, KEPT, NbtTaken, REFUSED, SPOILT, TAKE_ROOM, UNHEARD, of_key, of_other,
};
use nb_datagram::{Datagram, DatagramFault, ErrorPacket};
use nb_member::{Member, MemberFault, Outcome};

/// Takes a payload, and tells what became of it, where the buffer has room.
pub fn take(
    member: &mut Member,
    moment: u64,
    payload: &[u8],
    taken: &mut NbtTaken,
    into: &mut [u8],
    used: &mut usize,
) -> u32
    ensures { Took member.old moment payload.now member.new (lent_with taken.old into.old used.old)
        (lent_with taken.new into.new used.new) result }
{
    if into.len() < TAKE_ROOM {
        *used = TAKE_ROOM;
        return NO_ROOM;
    }
    match member.take(moment, payload) {
        Ok(outcome) => *used = tell(&outcome, taken, into),
        Err(MemberFault::Packet(fault, error)) => {
            *used = tell_refused(fault, error, taken, into);
        }
        Err(MemberFault::Table(fault)) => return status_of(table_refusal(fault)),
    }
    DONE
}

/// MSG_TYPE of error packets (RFC 1002 section 4.4.3).
const ERROR_TYPE: u8 = 0x13;

/// Writes what became of a payload, and answers how many bytes that is.
pub(crate) fn tell(outcome: &Outcome, taken: &mut NbtTaken, into: &mut [u8]) -> usize
    requires { TAKE_ROOM ≤ length into.old }
    ensures numbers { taken.new ≡ (told_of outcome.now).numbers }
    ensures bytes { Fronted (told_of outcome.now).bytes into.old into.new result }
{
    match outcome {
        Outcome::Kept(key) => {
            *taken = of_key(KEPT, *key);
            0
        }
        Outcome::Spoilt(key) => {
            *taken = of_key(SPOILT, *key);
            0
        }
        Outcome::Delivered(datagram) => tell_delivered(datagram, taken, into),
        Outcome::Unheard(key, error) => {
            *taken = of_key(UNHEARD, *key);
            taken.error_length = put_error(*error, into);
            taken.error_length
        }
        Outcome::Other => {
            *taken = of_other();
            0
        }
    }
}

/// Writes why a payload is refused, and answers how many bytes that is.
pub(crate) fn tell_refused(
    fault: DatagramFault,
    error: Option<ErrorPacket>,
    taken: &mut NbtTaken,
    into: &mut [u8],
) -> usize
    requires { TAKE_ROOM ≤ length into.old }
    ensures numbers { taken.new ≡ (told_refused fault error).numbers }
    ensures bytes { Fronted (error_bytes error) into.old into.new result }
{
    *taken = of_other();
    taken.outcome = REFUSED;
    taken.error_length = put_error(error, into);
    taken.refusal = refuse(datagram_refusal(fault), &mut taken.refused_at);
    taken.error_length
}

/// Writes a datagram that is handed over, and answers how many bytes that is.
fn tell_delivered(datagram: &Datagram, taken: &mut NbtTaken, into: &mut [u8]) -> usize
    requires { TAKE_ROOM ≤ length into.old }
    ensures numbers { taken.new ≡ (told_of (Outcome.Delivered datagram.now)).numbers }
    ensures bytes { Fronted (delivered_bytes datagram.now) into.old into.new result }
{
    let source = datagram.source().to_domain();
    let destination = datagram.destination().to_domain();
    *taken = of_key(DELIVERED, datagram.key());
    taken.packet_type = datagram.kind().message_type();
    taken.source_length = source.spelled_len();
    taken.destination_length = destination.spelled_len();
    taken.contents_length = datagram.bytes().len();
    let size = put_front(source.spelling(), into);
    size + put_two(destination.spelling(), datagram.bytes(), &mut into[size..])
}

/// Writes two rows of bytes one after the other, and answers how many they are.
fn put_two(first: &[u8], second: &[u8], into: &mut [u8]) -> usize
    requires { length (first.now ++ second.now) ≤ length into.old }
    ensures { Fronted (first.now ++ second.now) into.old into.new result }
{
    let size = put_front(first, into);
    size + put_front(second, &mut into[size..])
}

/// Copies bytes to the front of a buffer that has room for them, and answers how many they are.
fn put_front(bytes: &[u8], into: &mut [u8]) -> usize
    requires { length bytes.now ≤ length into.old }
    ensures { Fronted bytes.now into.old into.new result }
{
    into[..bytes.len()].copy_from_slice(bytes);
    bytes.len()
}

/// Writes the packet to send, if there is one, and answers how many bytes it has.
fn put_error(error: Option<ErrorPacket>, into: &mut [u8]) -> usize
    requires { TAKE_ROOM ≤ length into.old }
    ensures { Fronted (error_bytes error) into.old into.new result }
{
    match error {
        Some(error) => put_front(&packet_of(&error), into),
        None => 0,
    }
}

/// The bytes of an error packet.
fn packet_of(error: &ErrorPacket) -> [u8; 11]
    ensures bytes { result ≡ packet_bytes (Error error.now) }
    ensures count { length result ≡ 11 }
{
    // For the clause; the call does nothing.
    has_four(error.key.ip);
    let [id_high, id_low] = error.key.id.to_be_bytes();
    let [first, second, third, fourth] = error.key.ip;
    let [port_high, port_low] = error.key.port.to_be_bytes();
    [
        ERROR_TYPE,
        error.flags,
        id_high,
        id_low,
        first,
        second,
        third,
        fourth,
        port_high,
        port_low,
        error.code,
    ]
}

/// An address has four bytes.
fn has_four(_ip: [u8; 4])
    ensures { length _ip ≡ 4 }
{}
