//! What has a line.
ghost use Rattle.std.specs.Prelude.{◌≡◌, IfOk};
ghost use Rattle.nb_traffic.specs.Brought.{packet_value};
ghost use Rattle.nbt_look.specs.Choosing.{FitsInside, IsWanted, fits};

use crate::counting::Outcome;
use crate::heading::heading_of;
use crate::hearing::hear;
use crate::kinds::Marks;
use crate::wanted::Filter;
use nb_streams::NoMemory;
use nb_traffic::Packet;
use std::alloc::Global;

/// Whether a packet is wanted that counts so, where there are so many lines.
pub fn is_wanted(
    alloc: Global,
    filter: &Filter,
    shown: u64,
    packet: &Packet<'_>,
    outcome: Outcome,
) -> Result<bool, NoMemory>
    ensures { IfOk result (IsWanted filter.now shown (packet_value packet.now) outcome) }
{
    if filter.is_enough(shown) || !filter.wants(packet) {
        return Ok(false);
    }
    if !filter.looks_inside() {
        return Ok(true);
    }
    fits_inside(alloc, filter, packet.bytes, packet.service, outcome)
}

/// Whether a payload that came to a port, of a packet that counts so, has a name that is wanted,
/// and is of a kind that is.
fn fits_inside(
    alloc: Global,
    filter: &Filter,
    payload: &[u8],
    port: u16,
    outcome: Outcome,
) -> Result<bool, NoMemory>
    ensures { IfOk result (FitsInside filter.now payload.now port outcome) }
{
    let heard = hear(alloc, filter.names.as_slice(), port, payload)?;
    let heading = heading_of(port, payload);
    let marks = Marks {
        outcome,
        heading,
        heard,
    };
    Ok(fits(filter, marks))
}

/// Whether a packet of which this is known has a name that is wanted, and is of a kind that is; any
/// does, where none is.
fn fits(filter: &Filter, marks: Marks) -> bool
    ensures { result ≡ fits filter.now marks }
{
    (filter.names.as_slice().is_empty() || marks.heard.is_named)
        && marks.is_of_kinds(filter.kinds.as_slice())
}
