//! Questions and records of the name service, many by one call, with the names in their RDATA.
ghost use Rattle.nb_calls.specs.ServiceParts.{FillsFront, ReadsEntries, room_of};

use nb_calls::output::refuse;
use nb_calls::service_entries::{NbtServiceEntry, fill_entries};
use nb_calls::statuses::DONE;

/// Reads the items from this number on, counted from 0, the first of which stands at an offset of
/// a payload of port 137: as many as stand, and as there is room for. No memory is taken.
///
/// RFC 1002 sections 4.2.1.2 and 4.2.1.3.
#[unsafe(no_mangle)]
pub extern "C" fn nbt_service_items(
    payload: &[u8],
    number: u32,
    place: usize,
    entries: &mut [NbtServiceEntry],
    used: &mut usize,
    at: &mut usize,
) -> u32
    ensures { FillsFront
        (ReadsEntries payload.now number place (room_of entries.old))
        entries.old entries.new used.old used.new at.old at.new result }
{
    match fill_entries(payload, number as usize, place, entries) {
        Ok(count) => {
            *used = count;
            DONE
        }
        Err(refusal) => refuse(refusal, at),
    }
}
