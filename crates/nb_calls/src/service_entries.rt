//! Questions and records of the name service, many by one call, with the names in their RDATA.
ghost use Rattle.std.specs.Prelude.{◌<◌, ◌^◌};
ghost use Rattle.nb_calls.specs.Common.{HasHeader, header_value};
ghost use Rattle.nb_calls.specs.ServiceParts.{FilledFront, ReadsEntries, ReadsEntry, ReadsServer, IsEntry, room_of, spelled_answer};

use crate::names::spelled_in_place;
use crate::output::{Refusal, service_refusal};
use crate::service_parts::domain_by;
use crate::service_reading::{NbtServiceItem, fill_item_of};
use crate::statuses::OTHER_RDATA;
use nb_names::limits::{MAX_SPELLING, POINTED_OFFSETS};
use nb_names::{DomainName, NameReader};
use nb_service::kinds::NS;
use nb_service::limits::SHORT_PACKET;
use nb_service::{Header, read_header};

/// As many questions and records as no packet has more of.
const MOST_ITEMS: usize = 4 * 65_535;

/// A question or a record of the name service, and the name that is the RDATA of a record of type
/// NS.
#[repr(C)]
#[derive(Clone, Copy)]
pub struct NbtServiceEntry {
    /// The question or the record.
    pub item: NbtServiceItem,
    /// How many bytes the spelling of the name in RDATA has; 0 where there is none.
    pub server_length: u8,
    /// The spelling of that name, and bytes of zero after it.
    pub server: [u8; MAX_SPELLING],
}

/// Fills in the items from a number on, the first of which stands at an offset of a payload.
pub fn fill_entries(
    payload: &[u8],
    number: usize,
    place: usize,
    into: &mut [NbtServiceEntry],
) -> Result<usize, Refusal>
    requires { number < 2 ^ 32 }
    ensures { FilledFront (ReadsEntries payload.now number place (room_of into.old))
        into.old into.new result }
{
    if payload.len() <= SHORT_PACKET {
        return fill_entries_by(&NameReader::of(payload, &mut []), number, place, into);
    }
    fill_long(payload, number, place, into)
}

/// The same of a payload with many names; out of line, so that others don't pay for its stack.
#[inline(never)]
fn fill_long(
    payload: &[u8],
    number: usize,
    place: usize,
    into: &mut [NbtServiceEntry],
) -> Result<usize, Refusal>
    requires { number < 2 ^ 32 }
    ensures { FilledFront (ReadsEntries payload.now number place (room_of into.old))
        into.old into.new result }
{
    let mut ends = [0; POINTED_OFFSETS];
    fill_entries_by(&NameReader::of(payload, &mut ends), number, place, into)
}

/// The same of a payload whose names are read so: one item after the other, while there is room.
fn fill_entries_by(
    names: &NameReader<'_, '_>,
    number: usize,
    place: usize,
    into: &mut [NbtServiceEntry],
) -> Result<usize, Refusal>
    requires { number < 2 ^ 32 }
    ensures { FilledFront (ReadsEntries names.now number place (room_of into.old))
        into.old into.new result }
{
    if into.is_empty() {
        return Ok(0);
    }
    let header = match read_header(names.packet()) {
        Ok(header) => header,
        Err(fault) => return Err(service_refusal(fault)),
    };
    let room = into.len().min(MOST_ITEMS);
    let mut count = 0;
    let mut at = place;
    'entries: while count < room {
        match entry_at(names, &header, number + count, at) {
            Ok(entry) => {
                into[count] = entry;
                at = entry.item.next;
                count += 1;
            }
            Err(refusal) if count == 0 => return Err(refusal),
            Err(_) => return Ok(count),
        }
    }
    Ok(count)
}

/// The item of a number that stands at an offset of a packet of this header.
fn entry_at(
    names: &NameReader<'_, '_>,
    header: &Header,
    number: usize,
    place: usize,
) -> Result<NbtServiceEntry, Refusal>
    requires { HasHeader names.now (header_value header.now) }
    ensures { ReadsEntry names.now number place result }
{
    let mut item = NbtServiceItem {
        section: 0,
        time_to_live: 0,
        kind: 0,
        class: 0,
        contents: 0,
        contents_length: 0,
        next: 0,
        netbios: 0,
        name_length: 0,
        name: [0; MAX_SPELLING],
    };
    fill_item_of(names, header, number, place, &mut item)?;
    Ok(entry_of(names, item))
}

/// An item of a packet, with the name in its RDATA.
fn entry_of(names: &NameReader<'_, '_>, item: NbtServiceItem) -> NbtServiceEntry
    ensures { IsEntry names.now item result }
{
    match server_of(names, &item) {
        Ok(domain) => NbtServiceEntry {
            item,
            server_length: domain.spelled_len() as u8,
            server: spelled_in_place(&domain),
        },
        Err(_) => NbtServiceEntry {
            item,
            server_length: 0,
            server: [0; MAX_SPELLING],
        },
    }
}

/// The name that is the RDATA of a record of type NS.
fn server_of(names: &NameReader<'_, '_>, item: &NbtServiceItem) -> Result<DomainName, Refusal>
    ensures { ReadsServer names.now item.now (spelled_answer result) }
{
    if item.section == 0 || item.kind != NS {
        return Err(Refusal::Fault(OTHER_RDATA));
    }
    domain_by(names, item.contents, item.contents_length)
}
