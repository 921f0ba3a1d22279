//! Packets of the datagram service, read, and what stands at the front of others.
ghost use Rattle.std.specs.Prelude.{◌≡◌, ◌≤◌, length};
ghost use Rattle.nb_calls.specs.Common.{MAX_SPELLING, name_bytes};
ghost use Rattle.nb_calls.specs.Datagrams.{Reads, places_of, header_places, fragment_places, ReadsFront, numbers, place_if, spelled_length};

use crate::output::{Refusal, datagram_refusal};
use crate::statuses::TRUNCATED;
use nb_datagram::limits::{DIRECT_HEADER_LENGTH, HEADER_LENGTH};
use nb_datagram::{Fragment, Front, Key, Packet, decode, read_front};
use nb_names::{LentName, Name};

/// MSG_TYPE of error packets.
const ERROR_TYPE: u8 = 0x13;

/// A packet of the datagram service: its numbers, and where its parts stand in the payload.
#[repr(C)]
#[derive(Clone, Copy, Default)]
pub struct NbtDatagram {
    /// MSG_TYPE.
    pub packet_type: u8,
    /// FLAGS.
    pub flags: u8,
    /// DGM_ID.
    pub identifier: u16,
    /// SOURCE_IP.
    pub address: u32,
    /// SOURCE_PORT.
    pub port: u16,
    /// PACKET_OFFSET, 0 but in a fragment.
    pub offset: u16,
    /// Where the spelling of the source stands.
    pub source: usize,
    /// How many bytes it has.
    pub source_length: usize,
    /// Where the spelling of the destination stands.
    pub destination: usize,
    /// How many bytes it has.
    pub destination_length: usize,
    /// Where the data stands, or an error's code.
    pub contents: usize,
    /// How many bytes it has.
    pub contents_length: usize,
    /// How many bytes the packet has.
    pub used: usize,
}

/// The numbers and places of the packet at the front of a payload.
pub fn read(payload: &[u8]) -> Result<NbtDatagram, Refusal>
    ensures { Reads payload.now result }
{
    match decode(payload) {
        Ok((packet, used)) => Ok(places_of(&packet, used)),
        Err(fault) => Err(datagram_refusal(fault)),
    }
}

/// The numbers and places of a packet that has so many bytes.
fn places_of(packet: &Packet<'_>, used: usize) -> NbtDatagram
    ensures { result ≡ places_of packet.now used }
{
    match packet {
        Packet::Direct(fragment) => fragment_places(fragment, used),
        Packet::Error(error) => NbtDatagram {
            contents: HEADER_LENGTH,
            contents_length: 1,
            ..header_places(ERROR_TYPE, error.flags, error.key, used)
        },
        Packet::Query(query) => NbtDatagram {
            destination: HEADER_LENGTH,
            destination_length: name_length(&query.destination),
            ..header_places(query.kind.message_type(), query.flags, query.key, used)
        },
    }
}

/// What stands in the header, and nothing else yet.
fn header_places(packet_type: u8, flags: u8, key: Key, used: usize) -> NbtDatagram
    ensures { result ≡ header_places packet_type flags key used }
{
    NbtDatagram {
        packet_type,
        flags,
        identifier: key.id,
        address: u32::from_be_bytes(key.ip),
        port: key.port,
        used,
        ..NbtDatagram::default()
    }
}

/// The numbers and places of a fragment.
fn fragment_places(fragment: &Fragment<'_>, used: usize) -> NbtDatagram
    ensures { result ≡ fragment_places fragment.now used }
{
    let kind = fragment.kind().message_type();
    let mut places = header_places(kind, fragment.flags(), fragment.key(), used);
    places.offset = fragment.offset();
    places.source = DIRECT_HEADER_LENGTH;
    places.source_length = name_length(fragment.source());
    places.destination = places.source + places.source_length;
    places.destination_length = name_length(fragment.destination());
    places.contents = places.destination + places.destination_length;
    places.contents_length = fragment.bytes().len();
    places
}

/// How many bytes the spelling of a name has.
fn name_length(name: &Name) -> usize
    ensures value { result ≡ length (name_bytes name.now) }
    ensures short { result ≤ MAX_SPELLING }
{
    name.to_domain().spelled_len()
}

/// What stands at the front of a payload of the datagram service: its header, and where the names
/// stand that are there whole.
#[repr(C)]
#[derive(Clone, Copy)]
pub struct NbtDatagramFront {
    /// MSG_TYPE, also one that no packet has.
    pub packet_type: u8,
    /// FLAGS.
    pub flags: u8,
    /// DGM_ID.
    pub identifier: u16,
    /// SOURCE_IP.
    pub address: u32,
    /// SOURCE_PORT.
    pub port: u16,
    /// PACKET_OFFSET, 0 but in a fragment.
    pub offset: u16,
    /// Where the spelling of the source stands.
    pub source: usize,
    /// How many bytes it has.
    pub source_length: usize,
    /// Where the spelling of the destination stands.
    pub destination: usize,
    /// How many bytes it has.
    pub destination_length: usize,
}

/// What stands at the front of a payload, if its header is there whole.
pub fn front_of(payload: &[u8]) -> Result<NbtDatagramFront, Refusal>
    ensures { ReadsFront payload.now result }
{
    let Some(front) = read_front(payload) else {
        return Err(Refusal::FaultAt(TRUNCATED, payload.len()));
    };
    Ok(match &front.fragment {
        Some(rest) => numbers(&front, rest.offset, &rest.source, &rest.destination),
        None => numbers(&front, 0, &None, &None),
    })
}

/// What the header says, and where these names stand.
fn numbers(
    front: &Front<'_>,
    offset: u16,
    source: &Option<LentName<'_>>,
    destination: &Option<LentName<'_>>,
) -> NbtDatagramFront
    ensures { result ≡ numbers front.now offset source.now destination.now }
{
    let source_length = spelled_length(source);
    NbtDatagramFront {
        packet_type: front.message_type,
        flags: front.flags,
        identifier: front.key.id,
        address: u32::from_be_bytes(front.key.ip),
        port: front.key.port,
        offset,
        source: place_if(source, DIRECT_HEADER_LENGTH),
        source_length,
        destination: place_if(destination, DIRECT_HEADER_LENGTH + source_length),
        destination_length: spelled_length(destination),
    }
}

/// How many bytes the spelling of a name has, 0 where it isn't there.
fn spelled_length(name: &Option<LentName<'_>>) -> usize
    ensures value { result ≡ spelled_length name.now }
    ensures short { result ≤ 255 }
{
    match name {
        Some(name) => name.spelled_len(),
        None => 0,
    }
}

/// The place of a name, 0 where it isn't there.
fn place_if(name: &Option<LentName<'_>>, place: usize) -> usize
    ensures { result ≡ place_if name.now place }
{
    match name {
        Some(_) => place,
        None => 0,
    }
}
