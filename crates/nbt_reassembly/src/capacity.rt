//! How much a table may hold, as the options say, and what a member is set up with.
ghost use Rattle.std.specs.Prelude.{◌≡◌, IfOk, IfErr};
ghost use Rattle.nbt_reassembly.specs.Capacity.{HasNoCapacity, IsCapacity, program_settings};

use clap::ArgMatches;
use nb_member::Settings;
use nbt_command::Fault;

/// The port of the datagram service (RFC 1002 section 4.4).
pub const PORT: u16 = 138;

/// The most bytes of a datagram.
pub const LONGEST: u16 = 65_535;

/// How much a table may hold.
#[derive(Clone, Copy)]
pub struct Capacity {
    /// How many keys.
    pub keys: u32,
    /// How many keys of one address.
    pub per_source: u32,
}

/// The capacity that the options say: as many keys as `--keys`, and of one address as many as
/// `--per-source`, or 4,294,967,295 where that isn't given.
pub fn capacity_of(matches: &ArgMatches<'_>) -> Result<Capacity, Fault>
    ensures given { IfOk result (IsCapacity matches.now) }
    ensures fault { IfErr result (λ fault. fault ≡ Fault.Arguments) }
    ensures none { IfErr result (λ _. HasNoCapacity (IsCapacity matches.now)) }
{
    let Some(keys) = matches.get_one::<u32>("keys") else {
        return Err(Fault::Arguments);
    };
    let per_source = matches.get_one::<u32>("per-source").unwrap_or(u32::MAX);
    Ok(Capacity { keys, per_source })
}

/// The settings of a member that may hold so much, at 0.0.0.0 and the datagram service's port.
pub fn settings_with(capacity: Capacity) -> Settings
    ensures { result ≡ program_settings capacity }
{
    Settings {
        ip: [0, 0, 0, 0],
        port: PORT,
        keys: capacity.keys,
        per_source: capacity.per_source,
        longest: LONGEST,
    }
}
