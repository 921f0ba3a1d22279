//! What a frame has.
ghost use Rattle.std.specs.Prelude.{◌≡◌};
ghost use Rattle.nb_frames.specs.Carried.{carried_from, carried_in, carried_joined};
ghost use Rattle.nb_frames.specs.Contents.{HasContents};

use crate::carried::{Carried, Hosts, IpFragment, IpPacket};
use crate::contents::Contents;
use crate::fields::behind;
use crate::ip_reading::read_ip;
use crate::ipv6_reading::upper_of;
use crate::link::Link;
use crate::payload::Payload;
use crate::reason::Reason;
use crate::transport_reading::{read_tcp, read_udp};

/// What a frame of this link type has; `link_type` is a LINKTYPE of tcpdump.org. It depends on
/// nothing else, and takes no memory.
///
/// Ethernet, Linux cooked captures of both versions, raw IP and the loopback of BSD are read, with
/// at most four tags of VLANs, then IPv4 and IPv6, then UDP and TCP. Checksums aren't judged.
pub fn contents_of<'a>(link_type: u16, frame: &'a [u8]) -> Contents<'a>
    ensures { HasContents link_type frame.now result }
{
    let link = Link::of(link_type);
    let layer = link.layer(frame);
    Contents {
        sender: link.sender(frame),
        receiver: link.receiver(frame),
        vlans: layer.vlans,
        carried: carried_by(frame, layer.network),
    }
}

/// What a frame carries where its packet begins there.
fn carried_by<'a>(frame: &'a [u8], network: Result<usize, Reason>) -> Carried<'a>
    ensures { result ≡ carried_from frame.now network }
{
    match network {
        Ok(at) => match read_ip(behind(frame, at)) {
            Ok(packet) => carried_in(packet),
            Err(reason) => Carried::Other(reason),
        },
        Err(reason) => Carried::Other(reason),
    }
}

/// What a packet of IP carries whose fragments were put together: `body` is what they make, between
/// these hosts and of their protocol. No memory is taken.
///
/// RFC 791 section 3.2, RFC 8200 section 4.5.
pub fn carried_by_joined<'a>(hosts: Hosts, protocol: u8, body: Payload<'a>) -> Carried<'a>
    ensures { result ≡ carried_joined hosts protocol body.entry }
{
    if !hosts.source.is_ipv6() {
        return carried_in(IpPacket {
            hosts,
            protocol,
            place: None,
            body,
        });
    }
    match upper_of(body.bytes(), body.wire_len(), protocol, 0) {
        Ok(upper) => carried_in(IpPacket {
            hosts,
            protocol: upper.protocol,
            place: upper.place,
            body: Payload::after(body.bytes(), body.wire_len(), upper.at),
        }),
        Err(reason) => Carried::Other(reason),
    }
}

/// What a packet of IP carries.
fn carried_in<'a>(packet: IpPacket<'a>) -> Carried<'a>
    ensures { result ≡ carried_in packet.entry }
{
    if let Some(place) = packet.place {
        return Carried::Fragment(IpFragment {
            hosts: packet.hosts,
            protocol: packet.protocol,
            place,
            payload: packet.body,
        });
    }
    match packet.protocol {
        17 => read_udp(packet.hosts, &packet.body),
        6 => read_tcp(packet.hosts, &packet.body),
        other => Carried::Other(Reason::Protocol(other)),
    }
}
