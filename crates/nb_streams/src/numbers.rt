//! Numbers, read where they stand in a packet.
ghost use Rattle.std.specs.Prelude.{◌+◌, ◌≤◌, length};
ghost use Rattle.std.specs.Int.{w16, w32};
ghost use Rattle.nb_streams.specs.Places.{NumberAt};

/// The number in the two bytes at an offset, which are there, high byte first.
pub fn number_16(packet: &[u8], at: usize) -> u16
    requires { at + 2 ≤ length packet.now }
    ensures { NumberAt packet.now at w16 result }
{
    u16::from_be_bytes([packet[at], packet[at + 1]])
}

/// The number in the four bytes at an offset, which are there, high byte first.
pub fn number_32(packet: &[u8], at: usize) -> u32
    requires { at + 4 ≤ length packet.now }
    ensures { NumberAt packet.now at w32 result }
{
    u32::from_be_bytes([packet[at], packet[at + 1], packet[at + 2], packet[at + 3]])
}
