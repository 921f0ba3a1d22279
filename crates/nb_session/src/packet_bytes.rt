//! The bytes of one packet.
ghost use Rattle.std.specs.Prelude.{◌≡◌};
ghost use Rattle.nb_session.specs.Packet.{IsPacket, IsWhole};
ghost use Rattle.nb_session.specs.Parsing.{AreOnePacket};

use crate::laws::one_answer;
use crate::packet::{LentPacket, Packet};
use crate::parsing::{Parsed, parse_lent};

/// The bytes of one whole packet, lent.
#[derive(Clone, Copy, Debug)]
pub struct PacketBytes<'a> {
    /// The bytes: header and body.
    pub bytes: &'a [u8],
    ghost whole: { AreOnePacket bytes.now },
}

impl<'a> PacketBytes<'a> {
    /// These bytes, which are one packet.
    pub(crate) fn of(bytes: &'a [u8]) -> PacketBytes<'a>
        requires { IsWhole bytes.now }
        ensures { result.bytes.now ≡ bytes.now }
    {
        // The law on which the field's fact stands; the call does nothing.
        one_answer();
        PacketBytes { bytes }
    }

    /// The bytes: header and body.
    pub fn as_slice(&self) -> &'a [u8]
        ensures { result.now ≡ self.now.bytes.now }
    {
        self.bytes
    }

    /// The packet, whose names are lent from the bytes, too. No memory is taken.
    pub fn lent_packet(&self) -> LentPacket<'a>
        ensures { IsPacket result self.now.bytes.now }
    {
        match parse_lent(self.bytes) {
            Parsed::Whole(packet, _) => packet,
            _ => unreachable!(),
        }
    }

    /// The packet. No memory is taken: a message is lent from the bytes.
    pub fn packet(&self) -> Packet<'a>
        ensures { IsPacket result self.now.bytes.now }
    {
        self.lent_packet().to_packet()
    }
}
