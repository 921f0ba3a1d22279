//! What became of a payload, in numbers.
ghost use Rattle.std.specs.Prelude.{◌≡◌};
ghost use Rattle.nb_calls.specs.Stations.{of_key, of_other};

use nb_datagram::Key;

/// A fragment, by which its datagram became neither whole nor spoilt.
pub const KEPT: u32 = 0;

/// A fragment that contradicts what was known of its datagram.
pub const SPOILT: u32 = 1;

/// A fragment that made its datagram whole, which is heard.
pub const DELIVERED: u32 = 2;

/// A fragment that made its datagram whole, which isn't heard.
pub const UNHEARD: u32 = 3;

/// An error or a query packet.
pub const OTHER: u32 = 4;

/// No packet.
pub const REFUSED: u32 = 5;

/// How many bytes the buffer of a payload's outcome has room for: two spellings of at most 255
/// bytes, and 65,535 of data.
pub const TAKE_ROOM: usize = 66_045;

/// What became of a payload, in numbers. A number of which nothing is said is 0.
#[repr(C)]
#[derive(Clone, Copy, Default)]
pub struct NbtTaken {
    /// Which outcome.
    pub outcome: u32,
    /// The key of a fragment's datagram: SOURCE_IP,
    pub address: u32,
    /// SOURCE_PORT,
    pub port: u16,
    /// and DGM_ID.
    pub identifier: u16,
    /// MSG_TYPE of what is handed over.
    pub packet_type: u8,
    /// How many bytes the spelling of its source has.
    pub source_length: usize,
    /// How many that of its destination has.
    pub destination_length: usize,
    /// How many its data has.
    pub contents_length: usize,
    /// How many the packet to send has.
    pub error_length: usize,
    /// Why the payload is no packet, as a status.
    pub refusal: u32,
    /// Where.
    pub refused_at: usize,
}

/// Another packet came.
pub(crate) fn of_other() -> NbtTaken
    ensures { result ≡ of_other }
{
    NbtTaken {
        outcome: OTHER,
        ..NbtTaken::default()
    }
}

/// This became of a fragment of the key.
pub(crate) fn of_key(outcome: u32, key: Key) -> NbtTaken
    ensures { result ≡ of_key outcome key }
{
    let mut taken = of_other();
    taken.outcome = outcome;
    taken.address = u32::from_be_bytes(key.ip);
    taken.port = key.port;
    taken.identifier = key.id;
    taken
}
