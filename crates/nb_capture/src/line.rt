//! What a line of a capture says.

use nb_streams::Bytes;

/// What a line of a capture says (our choice).
///
/// Moments are in milliseconds, from whatever beginning the capture has.
#[derive(Debug, PartialEq, Eq, Drop)]
pub enum Line {
    /// A payload, and the moment at which it came.
    Packet {
        /// The port that it came to: 137, 138 or 139.
        port: u16,
        /// When it came.
        moment: u64,
        /// Its bytes.
        payload: Bytes,
    },
    /// The clock.
    Tick {
        /// What it shows.
        now: u64,
    },
}
