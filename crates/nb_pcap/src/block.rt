//! Blocks of pcapng: their types and lengths.
ghost use Rattle.std.specs.Prelude.{◌≡◌, ◌≤◌, length};
ghost use Rattle.nb_pcap.specs.declared.limits.TheConstants.{BLOCK_LENGTH};
ghost use Rattle.nb_pcap.specs.Block.{least_length, block_order, kind_in, block_size};

use crate::fault::FileFault;
use crate::limits::{
    BLOCK_LENGTH, INTERFACE_LENGTH, MAX_ITEM, PACKET_LENGTH, SECTION_LENGTH, SIMPLE_LENGTH,
};
use crate::numbers::{Order, number_32};

/// What a block is.
#[derive(Clone, Copy, PartialEq, Eq)]
pub enum BlockKind {
    /// A Section Header.
    Section,
    /// An Interface Description.
    Interface,
    /// An obsolete Packet.
    Obsolete,
    /// A Simple Packet.
    Simple,
    /// An Enhanced Packet.
    Enhanced,
    /// A block of another type, which is passed over.
    Other,
}

impl BlockKind {
    /// How many bytes a block of this kind has at least.
    fn least_length(self) -> usize
        ensures { result ≡ least_length self }
    {
        match self {
            BlockKind::Section => SECTION_LENGTH,
            BlockKind::Interface => INTERFACE_LENGTH,
            BlockKind::Obsolete | BlockKind::Enhanced => PACKET_LENGTH,
            BlockKind::Simple => SIMPLE_LENGTH,
            BlockKind::Other => BLOCK_LENGTH,
        }
    }
}

/// What the block is that begins with these bytes.
pub fn kind_in(order: Order, bytes: &[u8]) -> BlockKind
    requires { BLOCK_LENGTH ≤ length bytes.now }
    ensures { result ≡ kind_in order bytes.now }
{
    match number_32(order, bytes, 0) {
        0x0a0d_0d0a => BlockKind::Section,
        1 => BlockKind::Interface,
        2 => BlockKind::Obsolete,
        3 => BlockKind::Simple,
        6 => BlockKind::Enhanced,
        _ => BlockKind::Other,
    }
}

/// The order of the numbers of the block that begins with these bytes, in a section of this order:
/// a Section Header says its own, by its magic number of byte order.
pub fn block_order(order: Order, bytes: &[u8]) -> Option<Order>
    requires { BLOCK_LENGTH ≤ length bytes.now }
    ensures { result ≡ block_order order bytes.now }
{
    if kind_in(order, bytes) != BlockKind::Section {
        return Some(order);
    }
    match number_32(Order::Little, bytes, 8) {
        0x1a2b_3c4d => Some(Order::Little),
        0x4d3c_2b1a => Some(Order::Big),
        _ => None,
    }
}

/// How many bytes the block has at least that begins with these bytes, as far as they say.
pub fn block_size(order: Order, bytes: &[u8]) -> Result<usize, FileFault>
    ensures { result ≡ block_size order bytes.now }
{
    if bytes.len() < BLOCK_LENGTH {
        return Ok(BLOCK_LENGTH);
    }
    let front = &bytes[..BLOCK_LENGTH];
    let kind = kind_in(order, front);
    match block_order(order, front) {
        Some(order) => {
            let size = number_32(order, front, 4) as usize;
            if size < kind.least_length() || size % 4 != 0 {
                return Err(FileFault::BadBlock);
            }
            if kind != BlockKind::Other && MAX_ITEM < size {
                return Err(FileFault::TooLong);
            }
            Ok(size)
        }
        None => Err(FileFault::UnknownForm),
    }
}
