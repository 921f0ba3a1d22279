//! What a frame of a capture has: who sent it, its VLANs, and the datagram of UDP, the segment of
//! TCP or the fragment of IP that it carries.
#![tactic(auto)]

mod carried;
mod contents;
mod fields;
mod ip_reading;
mod ipv6_reading;
pub mod laws;
pub mod limits;
mod link;
mod order;
mod payload;
mod reading;
mod reason;
mod tags;
mod tcp_flags;
mod transport_reading;

pub use carried::{Carried, Hosts, IpFragment, Place, Ports, TcpSegment, UdpDatagram};
pub use contents::{Contents, Mac};
pub use payload::Payload;
pub use reading::{carried_by_joined, contents_of};
pub use reason::Reason;
pub use tcp_flags::TcpFlags;
