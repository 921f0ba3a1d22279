//! The session packets at the front of bytes.
ghost use Rattle.std.specs.Prelude.{◌≤◌, List, length, take, drop};
ghost use Rattle.nb_session.specs.Cutting.{ArePackets, BeginsWithNone};
ghost use Rattle.nb_session.specs.Packet.{Packet};
ghost use Rattle.nb_connections.specs.Rests.{StandsAfter};

use nb_session::{Parsed, SessionFault, parse_lent};

/// What stands after whole packets.
#[derive(Clone, Copy, Debug, PartialEq, Eq)]
pub(crate) enum Rest {
    /// The front of a packet, or nothing: so many bytes are lacking of the header, or of the packet
    /// whose header is there.
    Lacks(usize),
    /// Bytes that no packet begins with.
    Refused(SessionFault),
}

/// Where the whole packets end that stand at the front of bytes, and what stands after them.
pub(crate) fn whole_packets(bytes: &[u8]) -> (usize, Rest)
    ensures packets { (packets : List Packet) × ArePackets packets (take result.0 bytes.now) }
    ensures within { result.0 ≤ length bytes.now }
    ensures after { StandsAfter (drop result.0 bytes.now) result.1 }
    ensures behind { BeginsWithNone (drop result.0 bytes.now) }
{
    let mut end = 0;
    'packets: loop {
        match parse_lent(&bytes[end..]) {
            Parsed::Whole(_, used) => end += used,
            Parsed::More(needed) => return (end, Rest::Lacks(needed)),
            Parsed::Refused(fault) => return (end, Rest::Refused(fault)),
        }
    }
}
