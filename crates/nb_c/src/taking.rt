//! Payloads that a station takes, and what becomes of each.
ghost use Rattle.std.specs.Prelude.{Err};
ghost use Rattle.nb_calls.specs.Outputs.{lent_with};
ghost use Rattle.nb_calls.specs.Stations.{OnStation, Took, Tells};
ghost use Rattle.nb_calls.specs.declared.output.Refusal.TheVariants.{Fault};
ghost use Rattle.nb_calls.specs.declared.statuses.TheConstants.{NO_STATION};

use nb_calls::handle::{self, NbtStation, put_back};
use nb_calls::statuses::NO_STATION;
use nb_calls::taken::NbtTaken;
use nb_calls::taking::take;
use std::alloc::Global;

/// Takes a payload that came at this moment, and tells what became of it.
///
/// RFC 1002 section 5.3. That the room is judged first, whatever the payload, is our choice.
#[unsafe(no_mangle)]
pub extern "C" fn nbt_station_take(
    alloc: Global,
    station: &mut NbtStation,
    moment: u64,
    payload: &[u8],
    taken: &mut NbtTaken,
    into: &mut [u8],
    used: &mut usize,
) -> u32
    ensures { OnStation station.old station.new
        (λ m after. Took m moment payload.now after (lent_with taken.old into.old used.old)
        (lent_with taken.new into.new used.new) result)
        (Tells (Err (Fault NO_STATION)) (lent_with taken.old into.old used.old)
        (lent_with taken.new into.new used.new) result) }
{
    let Some(mut kept) = handle::taken(alloc, station) else {
        return NO_STATION;
    };
    let status = take(&mut kept.member, moment, payload, taken, into, used);
    put_back(station, kept);
    status
}
