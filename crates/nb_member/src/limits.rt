//! The limits of members, each with its unit.

/// How long a key is kept after it came, in milliseconds (RFC 1002 section 5.3, FRAGMENT_TO; the
/// time is our choice of a default).
pub const FRAGMENT_TIMEOUT: u64 = 2_000;

/// The most names of a member (our choice).
pub const MAX_NAMES: usize = 254;
