//! Stations: made of names, shown the clock, saved, listed and given back.
#![tactic(auto, using(nb_calls::proofs::AnswerLemmas::answered))]

ghost use Rattle.std.specs.Prelude.{◌≡◌, ◌≢◌};
ghost use Rattle.nb_calls.specs.Common.{contents, listing, saved as saved_bytes};
ghost use Rattle.nb_calls.specs.Outputs.{lent};
ghost use Rattle.nb_calls.specs.Stations.{Creates, OnLent, OnStation, Ticks, WritesOf};
ghost use Rattle.nb_calls.specs.declared.statuses.TheConstants.{DONE, NO_STATION};
ghost use denote.RawPtr.{null_ptr};

use nb_calls::handle::{NbtStation, let_go, put_back, taken};
use nb_calls::output::{refuse, write_bytes};
use nb_calls::stations::{create, member_of, names_of};
use nb_calls::statuses::{DONE, NO_STATION};
use nb_calls::tables::lines_of;
use std::alloc::Global;
use std::ptr;

/// Makes a station with these names and an empty table, and answers the pointer to it.
///
/// What stands behind the pointer is what [`member_of`] answers of the names; no clause says so.
/// The form of names is our choice.
#[unsafe(no_mangle)]
pub extern "C" fn nbt_station_create(
    alloc: Global,
    names: &[u8],
    address: u32,
    port: u16,
    keys: u32,
    per_source: u32,
    station: &mut *mut (),
    at: &mut usize,
) -> u32
    ensures answer { Creates names.now at.old at.new station.new result }
    ensures none { result ≢ DONE → station.new ≡ null_ptr }
{
    *station = ptr::null_mut();
    match names_of(alloc, names) {
        Ok(names) => {
            let member = member_of(alloc, names, address, port, keys, per_source);
            create(alloc, member, station)
        }
        Err(refusal) => refuse(refusal, at),
    }
}

/// Looks at the clock, which shows `now`, and answers how many keys that dropped.
///
/// RFC 1002 section 5.3; that a station has to be shown the clock is our choice.
#[unsafe(no_mangle)]
pub extern "C" fn nbt_station_tick(
    alloc: Global,
    station: &mut NbtStation,
    now: u64,
    dropped: &mut u32,
) -> u32
    ensures { OnStation station.old station.new
        (λ m after. Ticks m now after dropped.old dropped.new result)
        ((dropped.new ≡ dropped.old) × (result ≡ NO_STATION)) }
{
    let Some(mut kept) = taken(alloc, station) else {
        return NO_STATION;
    };
    *dropped = kept.member.tick(now).keys;
    put_back(station, kept);
    DONE
}

/// Writes the station's table, saved.
///
/// The form is our choice.
#[unsafe(no_mangle)]
pub extern "C" fn nbt_station_save(
    alloc: Global,
    station: &mut NbtStation,
    into: &mut [u8],
    used: &mut usize,
) -> u32
    ensures { OnLent station.old station.new
        (λ m. WritesOf (saved_bytes (contents m)) m)
        (lent into.old used.old 0) (lent into.new used.new 0) result }
{
    let Some(kept) = taken(alloc, station) else {
        return NO_STATION;
    };
    let status = write_bytes(kept.member.table().save(), into, used);
    put_back(station, kept);
    status
}

/// Writes the lines of the station's keys, as `nbt list` prints them of its table.
///
/// The form is our choice.
#[unsafe(no_mangle)]
pub extern "C" fn nbt_station_list(
    alloc: Global,
    station: &mut NbtStation,
    into: &mut [u8],
    used: &mut usize,
) -> u32
    ensures { OnLent station.old station.new
        (λ m. WritesOf (listing (contents m)) m)
        (lent into.old used.old 0) (lent into.new used.new 0) result }
{
    let Some(kept) = taken(alloc, station) else {
        return NO_STATION;
    };
    let status = write_bytes(lines_of(alloc, kept.member.table()), into, used);
    put_back(station, kept);
    status
}

/// Gives a station back. Of none it does nothing.
#[unsafe(no_mangle)]
pub extern "C" fn nbt_station_free(alloc: Global, station: NbtStation) {
    let mut station = station;
    let _kept = taken(alloc, &mut station);
    let_go(station);
}
