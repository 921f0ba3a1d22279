//! Sections of pcapng files: their interfaces, and the packets of these.
ghost use Rattle.std.specs.Prelude.{◌≡◌, ◌≤◌, Ok, length};
ghost use Rattle.nb_pcap.specs.declared.limits.TheConstants.{PACKET_LENGTH, SIMPLE_LENGTH};
ghost use Rattle.nb_pcap.specs.Block.{block_size};
ghost use Rattle.nb_pcap.specs.Section.{simple_head, timed_head, fitting, block_content, Gives};

use crate::block::{BlockKind, block_order, kind_in};
use crate::clock::{Clock, time_at};
use crate::describing::describe;
use crate::fault::FileFault;
use crate::frame::Head;
use crate::limits::{MAX_CAPTURED, PACKET_LENGTH, SIMPLE_LENGTH};
use crate::numbers::{Order, number_16, number_32};
use nb_streams::{Bytes, Items};
use std::alloc::Global;

/// An interface, as its section describes it.
#[derive(Drop)]
pub struct Interface {
    /// What its frames begin with (LINKTYPE).
    pub link: u16,
    /// The most captured bytes of a frame; 0 where there is no such limit.
    pub snap: u32,
    /// How its times are counted.
    pub clock: Clock,
    /// Its name.
    pub name: Option<Bytes>,
}

/// A section of a file.
#[derive(Drop)]
pub struct Section {
    /// The order of the bytes of its numbers.
    pub order: Order,
    /// Its interfaces, in order.
    pub interfaces: Items<Interface>,
    /// How many interfaces the sections before it have.
    pub earlier: u64,
}

/// A head, where the captured bytes are no more than a frame may have, and than the block has room
/// for.
fn fitting(head: Head, room: usize) -> Result<Head, FileFault>
    ensures { result ≡ fitting head room }
{
    if MAX_CAPTURED < head.captured {
        return Err(FileFault::TooLong);
    }
    if room < head.captured {
        return Err(FileFault::BadBlock);
    }
    Ok(head)
}

/// Where the frame of a Simple Packet stands.
fn simple_head(section: &Section, block: &[u8]) -> Result<Head, FileFault>
    requires { SIMPLE_LENGTH ≤ length block.now }
    ensures { result ≡ simple_head section.now block.now }
{
    match section.interfaces.as_slice().get(0) {
        Some(interface) => {
            let original = number_32(section.order, block, 8);
            let captured = match interface.snap {
                0 => original,
                snap => snap.min(original),
            };
            let head = Head {
                interface: 0,
                link: interface.link,
                time: None,
                start: 12,
                captured: captured as usize,
                original,
            };
            fitting(head, block.len() - SIMPLE_LENGTH)
        }
        None => Err(FileFault::NoInterface),
    }
}

/// Where the frame of an Enhanced or obsolete Packet of this interface stands.
fn timed_head(section: &Section, which: usize, block: &[u8]) -> Result<Head, FileFault>
    requires { PACKET_LENGTH ≤ length block.now }
    ensures { result ≡ timed_head section.now which block.now }
{
    match section.interfaces.as_slice().get(which) {
        Some(interface) => {
            let high = number_32(section.order, block, 12) as u64;
            let low = number_32(section.order, block, 16) as u64;
            let head = Head {
                interface: which,
                link: interface.link,
                time: time_at(interface.clock, high * 0x1_0000_0000 + low),
                start: 28,
                captured: number_32(section.order, block, 20) as usize,
                original: number_32(section.order, block, 24),
            };
            fitting(head, block.len() - PACKET_LENGTH)
        }
        None => Err(FileFault::NoInterface),
    }
}

/// Takes in a whole block, which is as long as it says, and answers where a frame stands in it. At
/// a fault the section is as it was.
#[tactic(auto, using(crate::proofs::SizeLemmas::whole_block))]
pub fn take_block(
    alloc: Global,
    section: &mut Section,
    block: &[u8],
) -> Result<Option<Head>, FileFault>
    requires { block_size section.old.order block.now ≡ Ok (length block.now) }
    ensures { Gives (block_content section.old block.now) result section.old section.new }
{
    let kind = kind_in(section.order, block);
    let order = match block_order(section.order, block) {
        Some(order) => order,
        None => return Err(FileFault::UnknownForm),
    };
    if number_32(order, block, block.len() - 4) as usize != block.len() {
        return Err(FileFault::BadBlock);
    }
    match kind {
        BlockKind::Section => {
            let interfaces = section.interfaces.as_slice().len() as u64;
            *section = Section {
                order,
                interfaces: Items::from_vec(Vec::new(alloc)),
                earlier: section.earlier.saturating_add(interfaces),
            };
            Ok(None)
        }
        BlockKind::Interface => describe(alloc, section, block),
        BlockKind::Obsolete => {
            let which = number_16(order, block, 8) as usize;
            Ok(Some(timed_head(section, which, block)?))
        }
        BlockKind::Simple => Ok(Some(simple_head(section, block)?)),
        BlockKind::Enhanced => {
            let which = number_32(order, block, 8) as usize;
            Ok(Some(timed_head(section, which, block)?))
        }
        BlockKind::Other => Ok(None),
    }
}
