//! Flags of packets, and of a node's names.
ghost use Rattle.std.specs.Prelude.{⊤, ◌≡◌, [], ◌∷◌, codes};
ghost use Rattle.nb_service.specs.Header.{opcode_of, rcode_of, ont_of};

use bitflags::{Flag, Flags, bitflag_items};

/// The flags NM_FLAGS of a packet (RFC 1002 section 4.2.1.1), by their places in the flag word.
#[derive(Clone, Copy, Debug, PartialEq, Eq)]
pub struct NmFlags(u16);

bitflag_items! {
    impl NmFlags: u16 {
        /// The answer is authoritative.
        const AA = 0x0400;
        /// The packet was cut short.
        const TC = 0x0200;
        /// Recursion is desired.
        const RD = 0x0100;
        /// Recursion is available.
        const RA = 0x0080;
        /// The packet was broadcast.
        const B = 0x0010;
    }
}

impl Flags for NmFlags {
    type Bits = u16;

    ghost exact = { ⊤ };

    ghost table = { (codes "AA", 1024) ∷ (codes "TC", 512) ∷ (codes "RD", 256)
        ∷ (codes "RA", 128) ∷ (codes "B", 16) ∷ [] };

    ghost set_of = { λ flags. flags.0 };

    fn flags<'a>() -> &'a [Flag<NmFlags>] {
        NmFlags::FLAGS
    }

    fn bits(&self) -> u16 {
        self.0
    }

    fn from_bits_retain(bits: u16) -> NmFlags {
        NmFlags(bits)
    }
}

/// The flags of one of a node's names (RFC 1002 section 4.2.18), by their places in its word.
#[derive(Clone, Copy, Debug, PartialEq, Eq)]
pub struct NodeFlags(u16);

bitflag_items! {
    impl NodeFlags: u16 {
        /// The name is a group's.
        const G = 0x8000;
        /// The name is being given up.
        const DRG = 0x1000;
        /// The name is in conflict.
        const CNF = 0x0800;
        /// The name is active.
        const ACT = 0x0400;
        /// The name is permanent.
        const PRM = 0x0200;
    }
}

impl Flags for NodeFlags {
    type Bits = u16;

    ghost exact = { ⊤ };

    ghost table = { (codes "G", 32768) ∷ (codes "DRG", 4096) ∷ (codes "CNF", 2048)
        ∷ (codes "ACT", 1024) ∷ (codes "PRM", 512) ∷ [] };

    ghost set_of = { λ flags. flags.0 };

    fn flags<'a>() -> &'a [Flag<NodeFlags>] {
        NodeFlags::FLAGS
    }

    fn bits(&self) -> u16 {
        self.0
    }

    fn from_bits_retain(bits: u16) -> NodeFlags {
        NodeFlags(bits)
    }
}

/// The operation in a flag word, OPCODE; any number from 0 to 15.
///
/// RFC 1002 section 4.2.1.1.
pub fn opcode(word: u16) -> u8
    ensures { result ≡ opcode_of word }
{
    (word >> 11 & 0xf) as u8
}

/// The result of a request in a flag word, RCODE; any number from 0 to 15.
///
/// RFC 1002 section 4.2.1.1.
pub fn rcode(word: u16) -> u8
    ensures { result ≡ rcode_of word }
{
    (word & 0xf) as u8
}

/// The owner's node type, ONT, in NB_FLAGS or NAME_FLAGS: 0 is B, 1 is P, 2 is M, 3 is reserved.
///
/// RFC 1002 sections 4.2.13 and 4.2.18.
pub fn ont(flags: u16) -> u8
    ensures { result ≡ ont_of flags }
{
    (flags >> 13 & 0x3) as u8
}
