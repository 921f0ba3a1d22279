//! What a frame brings.
use nb_connections::LeftOut;
use nb_frames::{Hosts, Ports, Reason};

/// A packet of a service, lent, as far as it is captured.
#[derive(Clone, Copy, Debug)]
pub struct Packet<'a> {
    /// From where to where it goes.
    pub hosts: Hosts,
    /// Its ports.
    pub ports: Ports,
    /// The port of its service: 137, 138 or 139.
    pub service: u16,
    /// Its bytes.
    pub bytes: &'a [u8],
    /// How many bytes it had on the wire.
    pub wire_length: usize,
}

/// A segment of TCP of port 139.
#[derive(Clone, Copy, Debug)]
pub struct Segment<'a> {
    /// From where to where it goes.
    pub hosts: Hosts,
    /// Its ports.
    pub ports: Ports,
    /// How many bytes of payload it had on the wire.
    pub wire_length: usize,
    /// The session packets that it completes, one after another.
    pub packets: &'a [u8],
    /// Bytes that are in no packet, and why, where some are left out with it.
    pub left_out: Option<LeftOut>,
    /// Whether bytes came again with other values.
    pub differs: bool,
}

/// Why nothing is made of a fragment of IP.
#[derive(Clone, Copy, Debug, PartialEq, Eq)]
pub enum FragmentFault {
    /// It, or one before it, contradicts another of its packet.
    Disagrees,
    /// Some of its bytes aren't captured.
    Cut,
    /// It reaches past the 65,535 bytes that a packet may have.
    TooLong,
    /// There is no room for it.
    TooMany,
}

/// What a frame brings.
#[derive(Clone, Copy, Debug)]
pub enum Brought<'a> {
    /// A datagram of UDP of port 137 or 138, as [`Packet`].
    Datagram(Packet<'a>),
    /// A segment of TCP of port 139.
    Segment(Segment<'a>),
    /// A fragment of IP that makes no packet: it waits for others, or its packet was whole before.
    Fragment,
    /// A fragment of a packet between these hosts, of which nothing is made.
    NoFragment(Hosts, FragmentFault),
    /// Other ports of UDP or TCP.
    OtherPorts,
    /// Nothing that is read, and why. A fragment in what fragments make counts as bad.
    Unread(Reason),
}

/// What is missing at the end of a capture.
#[derive(Clone, Copy, Debug, PartialEq, Eq)]
pub struct Unfinished {
    /// Directions of TCP of which some bytes are in no packet, since others didn't come. Those that
    /// began anew with such bytes count too.
    pub sessions: u64,
    /// Packets of IP of which some fragments came and others not.
    pub fragments: u64,
}
