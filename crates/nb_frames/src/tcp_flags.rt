//! The control bits of TCP.
ghost use Rattle.std.specs.Prelude.{⊤, [], ◌∷◌, codes};

use bitflags::{Flag, Flags, bitflag_items};

/// The control bits of a segment (RFC 9293 section 3.1), all eight of their byte.
#[derive(Clone, Copy, Debug, PartialEq, Eq)]
pub struct TcpFlags(pub u8);

bitflag_items! {
    impl TcpFlags: u8 {
        /// The congestion window is reduced (RFC 3168).
        const CWR = 0x80;
        /// Congestion is met (RFC 3168).
        const ECE = 0x40;
        /// The urgent pointer counts.
        const URG = 0x20;
        /// The acknowledgment number counts.
        const ACK = 0x10;
        /// The bytes are to be handed on at once.
        const PSH = 0x08;
        /// The connection is reset.
        const RST = 0x04;
        /// The connection is opened: sequence numbers begin here.
        const SYN = 0x02;
        /// The sender has no more bytes.
        const FIN = 0x01;
    }
}

impl Flags for TcpFlags {
    type Bits = u8;

    ghost exact = { ⊤ };

    ghost table = { (codes "CWR", 128) ∷ (codes "ECE", 64) ∷ (codes "URG", 32)
        ∷ (codes "ACK", 16) ∷ (codes "PSH", 8) ∷ (codes "RST", 4) ∷ (codes "SYN", 2)
        ∷ (codes "FIN", 1) ∷ [] };

    ghost set_of = { λ flags. flags.0 };

    fn flags<'a>() -> &'a [Flag<TcpFlags>] {
        TcpFlags::FLAGS
    }

    fn bits(&self) -> u8 {
        self.0
    }

    fn from_bits_retain(bits: u8) -> TcpFlags {
        TcpFlags(bits)
    }
}
