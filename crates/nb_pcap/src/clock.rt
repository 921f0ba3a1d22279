//! Times: nanoseconds since 1970.
ghost use Rattle.std.specs.Prelude.{◌≡◌};
ghost use Rattle.nb_pcap.specs.Clock.{ticks_a_second, time_of};

use crate::limits::SECOND;

/// The clock of an interface.
#[derive(Clone, Copy)]
pub struct Clock {
    /// How many of its units a second has; none where that is 2^128 or more.
    pub ticks: Option<u128>,
    /// The seconds at its unit 0, since 1970: a number of 64 bits with its sign (two's complement).
    pub offset: u64,
}

/// How many units a second has where an interface has this resolution: a power of 10, or, where the
/// highest bit is set, one of 2. None where it is 2^128 or more.
pub fn ticks_of(resolution: u8) -> Option<u128>
    ensures { result ≡ ticks_a_second resolution }
{
    if resolution < 0x80 {
        10u128.checked_pow(resolution as u32)
    } else {
        2u128.checked_pow((resolution - 0x80) as u32)
    }
}

/// The time of so many units of a clock, in nanoseconds since 1970, rounded down; none before 1970,
/// and none of 2^64 or more.
pub fn time_at(clock: Clock, units: u64) -> Option<u64>
    ensures { result ≡ time_of clock units }
{
    let since = match clock.ticks {
        Some(ticks) if ticks != 0 => units as u128 * SECOND as u128 / ticks,
        _ => 0,
    };
    let nanoseconds = if clock.offset < 1 << 63 {
        Some(since + clock.offset as u128 * SECOND as u128)
    } else {
        since.checked_sub(((1u128 << 64) - clock.offset as u128) * SECOND as u128)
    };
    match nanoseconds {
        Some(nanoseconds) if nanoseconds < 1 << 64 => Some(nanoseconds as u64),
        _ => None,
    }
}
