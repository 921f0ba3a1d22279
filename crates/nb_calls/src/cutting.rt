//! Packets of the datagram service, written: datagrams cut into pieces, and packets without data.
ghost use Rattle.std.specs.Prelude.{◌≡◌, ◌≤◌, length, IfOk};
ghost use Rattle.nb_calls.specs.Common.{flat_map, MAX_LENGTH};
ghost use Rattle.nb_calls.specs.Cutting.{are_long, cut_names, datagram_of, key_from, packet_of, packets_of, counted, error_packet, query_answer};
ghost use Rattle.nb_calls.specs.Outputs.{OrMemory};

use crate::output::{Refusal, answer_of, text_refusal};
use crate::statuses::{
    DESTINATION_TEXT, LONG_DATA, NO_ROLE, SOURCE_TEXT, UNKNOWN_TYPE, ZERO_PIECE,
};
use nb_datagram::limits::{DIRECT_HEADER_LENGTH, MAX_LENGTH};
use nb_datagram::{
    Datagram, ErrorPacket, Key, Kind, Packet, Pieces, QueryKind, QueryPacket, cut, encode,
};
use nb_names::{Name, TextFault};
use nb_streams::{Bytes, NoMemory};
use std::alloc::Global;

/// How a datagram is sent: what its packets say but for the names, and the most data of each.
#[derive(Clone, Copy)]
pub struct Sent {
    /// MSG_TYPE.
    pub packet_type: u8,
    /// DGM_ID.
    pub identifier: u16,
    /// SOURCE_IP.
    pub address: u32,
    /// SOURCE_PORT.
    pub port: u16,
    /// The most bytes of data in a packet.
    pub most: u16,
}

/// The packets of the datagram between two names, if they are names.
pub fn packets(
    alloc: Global,
    sent: Sent,
    source: Result<Name, TextFault>,
    destination: Result<Name, TextFault>,
    contents: &[u8],
) -> Result<Bytes, Refusal>
    ensures { OrMemory (cut_names sent source destination contents.now) result }
{
    let kind = match sent.packet_type {
        0x10 => Kind::Unique,
        0x11 => Kind::Group,
        0x12 => Kind::Broadcast,
        _ => return Err(Refusal::Fault(UNKNOWN_TYPE)),
    };
    let source = match source {
        Ok(name) => name,
        Err(fault) => return Err(text_refusal(SOURCE_TEXT, fault)),
    };
    let destination = match destination {
        Ok(name) => name,
        Err(fault) => return Err(text_refusal(DESTINATION_TEXT, fault)),
    };
    // Lengths are judged before memory is taken.
    if contents.len() > MAX_LENGTH {
        return Err(Refusal::Fault(LONG_DATA));
    }
    if sent.most == 0 {
        return Err(Refusal::Fault(ZERO_PIECE));
    }
    if are_long(&source, &destination, contents.len(), sent.most) {
        return Err(Refusal::Fault(LONG_DATA));
    }
    answer_of(cut_whole(alloc, sent, kind, source, destination, contents))
}

/// The key with these numbers.
pub fn key_from(identifier: u16, address: u32, port: u16) -> Key
    ensures { result ≡ key_from identifier address port }
{
    Key {
        ip: address.to_be_bytes(),
        port,
        id: identifier,
    }
}

/// Whether the longest packet of a datagram with so many bytes passes 65,535 bytes.
fn are_long(source: &Name, destination: &Name, size: usize, most: u16) -> bool
    ensures { result ≡ are_long source.now destination.now size most }
{
    let names = source.to_domain().spelled_len() + destination.to_domain().spelled_len();
    DIRECT_HEADER_LENGTH + names + size.min(usize::from(most)) > MAX_LENGTH
}

/// The packets of a datagram that isn't too long.
fn cut_whole(
    alloc: Global,
    sent: Sent,
    kind: Kind,
    source: Name,
    destination: Name,
    contents: &[u8],
) -> Result<Bytes, NoMemory>
    requires { length contents.now ≤ MAX_LENGTH }
    ensures { IfOk result (λ bytes.
        bytes ≡ packets_of (datagram_of sent kind source destination contents.now) sent.most) }
{
    let bytes = Bytes::copy(alloc, contents)?;
    let key = key_from(sent.identifier, sent.address, sent.port);
    let datagram = Datagram::new(key, kind, source, destination, bytes).unwrap();
    match cut(alloc, &datagram, sent.most) {
        Ok(pieces) => joined(alloc, pieces),
        // The other faults were judged.
        Err(_) => Err(NoMemory),
    }
}

/// The packets of the pieces, each after its length.
fn joined(alloc: Global, pieces: Pieces<'_>) -> Result<Bytes, NoMemory>
    ensures { IfOk result (λ bytes.
        bytes ≡ flat_map (λ piece. counted (packet_of piece)) pieces.entry) }
{
    let mut bytes = Vec::new(alloc);
    for piece in pieces.into_vec() {
        let packet = encode(alloc, &Packet::Direct(piece))?;
        let length = (packet.as_slice().len() % 65_536) as u16;
        bytes.extend_from_slice(&length.to_be_bytes())?;
        bytes.extend_from_slice(packet.as_slice())?;
    }
    Ok(Bytes::from_vec(bytes))
}

/// FLAGS: the first fragment, and no more of them.
const FLAGS: u8 = 0x02;

/// The bytes of an error packet.
pub fn error_packet(alloc: Global, key: Key, code: u8) -> Result<Bytes, NoMemory>
    ensures { IfOk result (λ bytes. bytes ≡ error_packet key code) }
{
    let flags = FLAGS;
    encode(alloc, &Packet::Error(ErrorPacket { flags, key, code }))
}

/// The query about a name, if one was read.
pub fn query_of(
    alloc: Global,
    packet_type: u8,
    key: Key,
    read: Result<Name, TextFault>,
) -> Result<Bytes, Refusal>
    ensures { OrMemory (query_answer packet_type key read) result }
{
    let kind = match packet_type {
        0x14 => QueryKind::Request,
        0x15 => QueryKind::Positive,
        0x16 => QueryKind::Negative,
        _ => return Err(Refusal::Fault(UNKNOWN_TYPE)),
    };
    match read {
        Ok(destination) => answer_of(encode(
            alloc,
            &Packet::Query(QueryPacket {
                kind,
                flags: FLAGS,
                key,
                destination,
            }),
        )),
        Err(fault) => Err(text_refusal(NO_ROLE, fault)),
    }
}
