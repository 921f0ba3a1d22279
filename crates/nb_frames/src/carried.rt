//! What a packet of IP carries, as values.
ghost use Rattle.std.specs.Prelude.{◌≡◌};
ghost use Rattle.nb_frames.specs.Services.{service_of};

use crate::payload::Payload;
use crate::reason::Reason;
use crate::tcp_flags::TcpFlags;
use std::net::IpAddr;

/// What a frame carries, lent from its bytes.
#[derive(Drop)]
pub enum Carried<'a> {
    /// A datagram of UDP.
    Udp(UdpDatagram<'a>),
    /// A segment of TCP.
    Tcp(TcpSegment<'a>),
    /// A fragment of a packet of IP, the first one or another.
    Fragment(IpFragment<'a>),
    /// Something else.
    Other(Reason),
}

impl Carried<'_> {
    /// The port of the NetBIOS service that the payload is of, 137 or 138 of UDP, 139 of TCP: the
    /// one where it goes, else the one where it comes from. Of a fragment none is known.
    pub fn service_port(&self) -> Option<u16>
        ensures { result ≡ service_of self.now }
    {
        match self {
            Carried::Udp(datagram) => match (datagram.ports.destination, datagram.ports.source) {
                (port @ (137 | 138), _) | (_, port @ (137 | 138)) => Some(port),
                _ => None,
            },
            Carried::Tcp(segment) => match (segment.ports.destination, segment.ports.source) {
                (139, _) | (_, 139) => Some(139),
                _ => None,
            },
            Carried::Fragment(_) | Carried::Other(_) => None,
        }
    }
}

/// From where to where a packet of IP goes, by its own header: both are of its version.
///
/// They are ordered by the source, then by the destination; of each those of IPv4 come first (our
/// choice).
#[derive(Clone, Copy, Debug)]
pub struct Hosts {
    /// Where it comes from.
    pub source: IpAddr,
    /// Where it goes.
    pub destination: IpAddr,
}

/// The ports of UDP or TCP from where and to where a payload goes.
#[derive(Clone, Copy, Debug, PartialEq, Eq, PartialOrd, Ord)]
pub struct Ports {
    /// Where it comes from.
    pub source: u16,
    /// Where it goes.
    pub destination: u16,
}

/// A datagram of UDP (RFC 768).
#[derive(Drop)]
pub struct UdpDatagram<'a> {
    /// From where to where its packet goes.
    pub hosts: Hosts,
    /// Its ports.
    pub ports: Ports,
    /// What follows its header, as many bytes as its length says. Where that is more than its
    /// packet has, the payload is cut, as one is of which the frame has less.
    pub payload: Payload<'a>,
}

/// A segment of TCP (RFC 9293 section 3.1).
#[derive(Drop)]
pub struct TcpSegment<'a> {
    /// From where to where its packet goes.
    pub hosts: Hosts,
    /// Its ports.
    pub ports: Ports,
    /// The number of its first byte; of a SYN, that of the SYN.
    pub sequence: u32,
    /// The number of the byte that is expected next, where ACK is set.
    pub acknowledgment: u32,
    /// Its control bits.
    pub flags: TcpFlags,
    /// What follows its header and options, as far as its packet goes.
    pub payload: Payload<'a>,
}

/// A fragment of a packet of IP.
#[derive(Drop)]
pub struct IpFragment<'a> {
    /// From where to where the packet goes.
    pub hosts: Hosts,
    /// The protocol: of IPv4 the packet's, of IPv6 the header that comes next in the packet.
    pub protocol: u8,
    /// Its place in the packet.
    pub place: Place,
    /// The part of the packet that it has.
    pub payload: Payload<'a>,
}

/// Where a fragment has its place (RFC 791 section 3.1, RFC 8200 section 4.5).
#[derive(Clone, Copy, Debug, PartialEq, Eq)]
pub struct Place {
    /// The number that the fragments of a packet share: of 16 bits in IPv4, of 32 in IPv6.
    pub identification: u32,
    /// The place of its first byte in what is put together, in bytes: a multiple of 8 below 65,536.
    pub offset: u32,
    /// Whether more follow it.
    pub more: bool,
}

/// A packet of IP, without its headers.
#[derive(Drop)]
pub(crate) struct IpPacket<'a> {
    /// From where to where it goes.
    pub(crate) hosts: Hosts,
    /// What its body is of.
    pub(crate) protocol: u8,
    /// The place of its body, where that is a fragment's.
    pub(crate) place: Option<Place>,
    /// What follows its headers.
    pub(crate) body: Payload<'a>,
}
