//! What lines are about.
ghost use Rattle.std.specs.Prelude.{◌≡◌, option_map};
ghost use Rattle.nb_pcap.specs.Frame.{value_of};
ghost use Rattle.nb_traffic.specs.Brought.{brought_value, packet_value, segment_value};
ghost use Rattle.nbt_look.specs.Entries.{differing_in, entry_value, fragment_entry, has_nothing, is_of_ports, lack_of, lost_entry, lost_of, packet_entry, session_entry};

use crate::counting::{Lack, LeftOut, Outcome, unread, why_fragment, why_lost};
use crate::standing::{Standing, standing_of};
use nb_frames::{Hosts, Ports};
use nb_pcap::Frame;
use nb_traffic::{Brought, FragmentFault, Packet, Segment};

/// What a line is about: a packet, and how much of it there is, or why it is left out.
#[derive(Clone, Copy)]
pub struct Entry<'a> {
    /// The packet; of what is left out only its ends and its service.
    pub packet: Packet<'a>,
    /// How it stands.
    pub standing: Standing,
}

/// A packet that a frame brings.
pub fn packet_entry<'a>(frame: &Frame<'_>, packet: &Packet<'a>) -> Entry<'a>
    ensures { entry_value result ≡ packet_entry (value_of frame.now) (packet_value packet.now) }
{
    Entry {
        packet: *packet,
        standing: standing_of(frame, packet),
    }
}

/// One of the session packets that a segment completes.
pub fn session_entry<'a>(segment: &Segment<'_>, bytes: &'a [u8]) -> Entry<'a>
    ensures { entry_value result ≡ session_entry (segment_value segment.now) bytes.now }
{
    Entry {
        packet: Packet {
            hosts: segment.hosts,
            ports: segment.ports,
            service: 139,
            bytes,
            wire_length: bytes.len(),
        },
        standing: Standing::Whole,
    }
}

/// So many bytes that are left out, or something whose bytes aren't counted, between these ends.
fn lost_entry<'a>(
    hosts: Hosts,
    ports: Ports,
    service: u16,
    reason: LeftOut,
    count: usize,
) -> Entry<'a>
    ensures { entry_value result ≡ lost_entry hosts ports service reason count }
{
    Entry {
        packet: Packet {
            hosts,
            ports,
            service,
            bytes: b"".as_slice(),
            wire_length: 0,
        },
        standing: Standing::LeftOut(reason, count),
    }
}

/// A fragment of IP of which nothing is made. Its ports and its service aren't known, and are 0.
pub fn fragment_entry<'a>(hosts: Hosts, fault: FragmentFault) -> Entry<'a>
    ensures { entry_value result ≡ fragment_entry hosts fault }
{
    let ports = Ports {
        source: 0,
        destination: 0,
    };
    lost_entry(hosts, ports, 0, why_fragment(fault), 0)
}

/// Bytes that are left out with a segment, where it had some or some are.
pub fn lost_in<'a>(segment: &Segment<'_>) -> Option<Entry<'a>>
    ensures { option_map entry_value result
        ≡ lost_of (segment_value segment.now) segment.now.left_out }
{
    let lost = segment.left_out?;
    if lost.count == 0 && segment.wire_length == 0 {
        return None;
    }
    let reason = why_lost(lost.reason);
    Some(lost_entry(segment.hosts, segment.ports, 139, reason, lost.count))
}

/// Bytes of a segment that came before with other values, where some did.
pub fn differing_in<'a>(segment: &Segment<'_>) -> Option<Entry<'a>>
    ensures { option_map entry_value result ≡ differing_in (segment_value segment.now) }
{
    if !segment.differs {
        return None;
    }
    Some(lost_entry(segment.hosts, segment.ports, 139, LeftOut::Differs, 0))
}

/// Whether a frame brings something of the services' ports.
pub fn is_of_ports(brought: &Brought<'_>) -> bool
    ensures { result ≡ is_of_ports (brought_value brought.now) }
{
    matches!(brought, Brought::Datagram(_) | Brought::Segment(_))
}

/// Whether a segment completes no packet, and nothing is left out with it.
fn has_nothing(segment: &Segment<'_>) -> bool
    ensures { result ≡ has_nothing (segment_value segment.now) }
{
    segment.packets.is_empty() && lost_in(segment).is_none() && !segment.differs
}

/// How a frame counts that has no line, by what it brings.
pub fn lack_of(brought: &Brought<'_>) -> Option<Outcome>
    ensures { result ≡ lack_of (brought_value brought.now) }
{
    match brought {
        Brought::Segment(segment) if has_nothing(segment) => {
            if segment.wire_length == 0 {
                return Some(Outcome::Without(Lack::Empty));
            }
            Some(Outcome::Without(Lack::Part))
        }
        Brought::Datagram(_) | Brought::Segment(_) | Brought::NoFragment(..) => None,
        Brought::Fragment => Some(Outcome::Without(Lack::Fragment)),
        Brought::OtherPorts => Some(Outcome::Without(Lack::Other)),
        Brought::Unread(reason) => Some(unread(*reason)),
    }
}
