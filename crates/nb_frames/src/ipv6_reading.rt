//! Packets of IPv6.
ghost use Rattle.std.specs.Prelude.{◌≡◌, ◌+◌, ◌≤◌, length, IfOk};
ghost use Rattle.nb_frames.specs.Ipv6.{is_extension, extent, wire_6, place_6, leads, ipv6};

use crate::carried::{Hosts, IpPacket, Place};
use crate::fields::{long, octets, word};
use crate::payload::Payload;
use crate::reason::Reason;
use std::net::{IpAddr, Ipv6Addr};

/// Where the extension headers of a packet lead.
#[derive(Clone, Copy)]
pub(crate) struct Upper {
    /// The number of the header that begins there.
    pub(crate) protocol: u8,
    /// Where that is in the packet.
    pub(crate) at: usize,
    /// The place of what begins there, where that is a fragment's.
    pub(crate) place: Option<Place>,
}

/// What is read of a packet (RFC 8200 section 3).
pub(crate) fn read_ipv6<'a>(packet: &'a [u8]) -> Result<IpPacket<'a>, Reason>
    ensures { result ≡ ipv6 packet.now }
{
    if packet.len() < 40 {
        return Err(Reason::Cut);
    }
    let wire = wire_len(packet);
    let upper = upper_of(packet, wire, packet[6], 40)?;
    Ok(IpPacket {
        hosts: Hosts {
            source: IpAddr::V6(Ipv6Addr::from_octets(octets(packet, 8))),
            destination: IpAddr::V6(Ipv6Addr::from_octets(octets(packet, 24))),
        },
        protocol: upper.protocol,
        place: upper.place,
        body: Payload::after(packet, wire, upper.at),
    })
}

/// How many bytes the packet had on the wire.
fn wire_len(packet: &[u8]) -> usize
    requires { 40 ≤ length packet.now }
    ensures value { result ≡ wire_6 packet.now }
    ensures header { 40 ≤ result }
{
    let length = word(packet, 4) as usize;
    if length == 0 && packet[6] == 0 {
        packet.len()
    } else {
        40 + length
    }
}

/// Where the extension headers of a packet lead, from the header of this number on, which begins at
/// `at`; the packet had `wire` bytes on the wire.
pub(crate) fn upper_of(
    packet: &[u8],
    wire: usize,
    mut number: u8,
    mut at: usize,
) -> Result<Upper, Reason>
    requires there { at ≤ length packet.now }
    requires within { at ≤ wire }
    ensures leads { result ≡ leads packet.now wire number at }
    ensures within { IfOk result (λ upper. upper.at ≤ wire) }
{
    'headers: while is_extension(number) {
        let end = at + extent(packet, number, at);
        if wire < end {
            return Err(Reason::Bad);
        }
        if packet.len() < end {
            return Err(Reason::Cut);
        }
        if let Some(place) = place_of(packet, number, at) {
            return Ok(Upper {
                protocol: packet[at],
                at: end,
                place: Some(place),
            });
        }
        number = packet[at];
        at = end;
    }
    Ok(Upper {
        protocol: number,
        at,
        place: None,
    })
}

/// Whether a number is that of an extension header: hop-by-hop options, routing, fragment,
/// authentication, destination options.
fn is_extension(number: u8) -> bool
    ensures { result ≡ is_extension number }
{
    matches!(number, 0 | 43 | 44 | 51 | 60)
}

/// How many bytes the extension header of this number has at a place. Of a length that isn't there
/// it is the least.
fn extent(packet: &[u8], number: u8, at: usize) -> usize
    requires { at ≤ length packet.now }
    ensures value { result ≡ extent packet.now number at }
    ensures some { (8 ≤ result) × (result ≤ 2048) }
{
    let length = packet.get(at + 1).copied().unwrap_or(0) as usize;
    match number {
        44 => 8,
        51 => 4 * (length + 2),
        _ => 8 * (length + 1),
    }
}

/// The place of a fragment, where the extension header of this number says one (section 4.5).
fn place_of(packet: &[u8], number: u8, at: usize) -> Option<Place>
    requires { at + 8 ≤ length packet.now }
    ensures { result ≡ place_6 packet.now number at }
{
    let field = word(packet, at + 2);
    if number != 44 || (field < 8 && field % 2 == 0) {
        return None;
    }
    Some(Place {
        identification: long(packet, at + 4),
        offset: field as u32 / 8 * 8,
        more: field % 2 == 1,
    })
}
