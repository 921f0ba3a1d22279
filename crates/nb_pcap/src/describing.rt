//! Interface Descriptions.
ghost use Rattle.std.specs.Prelude.{◌≡◌, ◌≤◌, IfOk, length};
ghost use Rattle.nb_pcap.specs.declared.limits.TheConstants.{INTERFACE_LENGTH};
ghost use Rattle.nb_pcap.specs.Options.{said_value};
ghost use Rattle.nb_pcap.specs.Section.{Gives, described, interface_said};

use crate::clock::{Clock, ticks_of};
use crate::fault::FileFault;
use crate::frame::Head;
use crate::limits::MAX_INTERFACES;
use crate::numbers::{Order, number_16, number_32};
use crate::options::{Said, options_said};
use crate::section::{Interface, Section};
use nb_streams::{Bytes, NoMemory};
use std::alloc::Global;

/// The interface that a block describes whose options say this.
fn interface_of(
    alloc: Global,
    order: Order,
    block: &[u8],
    said: Said<'_>,
) -> Result<Interface, NoMemory>
    requires { INTERFACE_LENGTH ≤ length block.now }
    ensures { IfOk result (λ i. i ≡ interface_said order block.now (said_value said.entry)) }
{
    let name = match said.name {
        Some(name) => Some(Bytes::copy(alloc, name)?),
        None => None,
    };
    Ok(Interface {
        link: number_16(order, block, 8),
        snap: number_32(order, block, 12),
        clock: Clock {
            ticks: ticks_of(said.resolution),
            offset: said.offset,
        },
        name,
    })
}

/// Adds the interface that a block describes to its section, which at a fault is as it was.
pub fn describe(
    alloc: Global,
    section: &mut Section,
    block: &[u8],
) -> Result<Option<Head>, FileFault>
    requires { INTERFACE_LENGTH ≤ length block.now }
    ensures { Gives (described section.old block.now) result section.old section.new }
{
    if MAX_INTERFACES <= section.interfaces.as_slice().len() {
        return Err(FileFault::TooManyInterfaces);
    }
    match options_said(section.order, &block[16..block.len() - 4]) {
        Some(said) => match interface_of(alloc, section.order, block, said) {
            Ok(interface) => match section.interfaces.push(interface) {
                Ok(()) => Ok(None),
                Err(NoMemory) => Err(FileFault::NoMemory),
            },
            Err(NoMemory) => Err(FileFault::NoMemory),
        },
        None => Err(FileFault::BadBlock),
    }
}
