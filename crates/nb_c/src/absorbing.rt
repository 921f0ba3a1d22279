//! Tables of other stations, taken in by a station.
ghost use Rattle.nb_calls.specs.Absorbing.{AbsorbsInto};
ghost use Rattle.nb_calls.specs.Outputs.{lent};
ghost use Rattle.nb_calls.specs.Stations.{OnLent};

use nb_calls::absorbing::absorb_saved;
use nb_calls::handle::{NbtStation, put_back, taken};
use nb_calls::output::write_answer;
use nb_calls::statuses::NO_STATION;
use std::alloc::Global;

/// Joins the saved table of another station to the station's at this moment, and writes the
/// datagrams that become whole by this, of those that are heard, by ascending key.
///
/// That the room is judged first, and the form, are our choice.
#[unsafe(no_mangle)]
pub extern "C" fn nbt_station_absorb(
    alloc: Global,
    station: &mut NbtStation,
    moment: u64,
    table: &[u8],
    into: &mut [u8],
    used: &mut usize,
    at: &mut usize,
) -> u32
    ensures { OnLent station.old station.new (λ m. AbsorbsInto m moment table.now)
        (lent into.old used.old at.old) (lent into.new used.new at.new) result }
{
    let Some(mut kept) = taken(alloc, station) else {
        return NO_STATION;
    };
    let answer = absorb_saved(alloc, &mut kept.member, moment, table, into.len());
    put_back(station, kept);
    write_answer(answer, into, used, at)
}
