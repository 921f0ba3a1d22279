//! What a segment has, and of which direction.
use nb_frames::{Hosts, Ports};

/// From where to where the segments of a direction go. They are ordered by the hosts, then by the
/// ports (our choice).
#[derive(Clone, Copy, Debug, PartialEq, Eq, PartialOrd, Ord)]
pub struct Ends {
    /// The hosts.
    pub hosts: Hosts,
    /// The ports.
    pub ports: Ports,
}

/// What a segment has of its direction.
#[derive(Clone, Copy, Debug)]
pub(crate) struct Piece<'a> {
    /// The sequence number of its first byte.
    pub(crate) number: u32,
    /// Its bytes, as far as they are captured.
    pub(crate) bytes: &'a [u8],
    /// How many numbers it takes on the wire.
    pub(crate) numbers: u32,
    /// Whether some of its bytes aren't captured.
    pub(crate) is_cut: bool,
}
