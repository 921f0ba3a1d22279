//! Packets of IP, and of IPv4.
ghost use Rattle.std.specs.Prelude.{◌≡◌, ◌≤◌, length};
ghost use Rattle.nb_frames.specs.Carried.{ip_in};
ghost use Rattle.nb_frames.specs.Ipv4.{wire_4, place_4, ipv4};

use crate::carried::{Hosts, IpPacket, Place};
use crate::fields::{octets, word};
use crate::ipv6_reading::read_ipv6;
use crate::payload::Payload;
use crate::reason::Reason;
use std::net::{IpAddr, Ipv4Addr};

/// What is read of a packet, by the version that it says.
pub(crate) fn read_ip<'a>(packet: &'a [u8]) -> Result<IpPacket<'a>, Reason>
    ensures { result ≡ ip_in packet.now }
{
    if packet.len() < 20 {
        return Err(Reason::Cut);
    }
    match packet[0] / 16 {
        4 => read_ipv4(packet),
        6 => read_ipv6(packet),
        _ => Err(Reason::Bad),
    }
}

/// What is read of a packet of IPv4 whose first twenty bytes are there (RFC 791 section 3.1).
fn read_ipv4<'a>(packet: &'a [u8]) -> Result<IpPacket<'a>, Reason>
    requires { 20 ≤ length packet.now }
    ensures { result ≡ ipv4 packet.now }
{
    let header = packet[0] as usize % 16 * 4;
    let wire = wire_len(packet);
    if header < 20 || wire < header {
        return Err(Reason::Bad);
    }
    if packet.len() < header {
        return Err(Reason::Cut);
    }
    Ok(IpPacket {
        hosts: Hosts {
            source: IpAddr::V4(Ipv4Addr::from_octets(octets(packet, 12))),
            destination: IpAddr::V4(Ipv4Addr::from_octets(octets(packet, 16))),
        },
        protocol: packet[9],
        place: place_of(packet),
        body: Payload::after(packet, wire, header),
    })
}

/// How many bytes the packet had on the wire.
fn wire_len(packet: &[u8]) -> usize
    requires { 20 ≤ length packet.now }
    ensures { result ≡ wire_4 packet.now }
{
    match word(packet, 2) as usize {
        0 => packet.len(),
        total => total,
    }
}

/// The place of a fragment.
fn place_of(packet: &[u8]) -> Option<Place>
    requires { 20 ≤ length packet.now }
    ensures { result ≡ place_4 packet.now }
{
    let field = word(packet, 6);
    if field % 0x4000 == 0 {
        return None;
    }
    Some(Place {
        identification: word(packet, 4) as u32,
        offset: field as u32 % 0x2000 * 8,
        more: 0x2000 <= field % 0x4000,
    })
}
