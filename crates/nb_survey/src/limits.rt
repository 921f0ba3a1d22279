//! The limits of a survey (our choice).

/// The most names that are kept, each from its first packet on or never, and the most that are
/// counted of those that found no room.
pub const MAX_NAMES: usize = 65_536;

/// The most rows of a table.
pub const MAX_ROWS: usize = 65_536;

/// The most requests that are remembered: the latest claim and release of each name at each
/// address, and each query with its repeats.
pub const MAX_REQUESTS: usize = 65_536;

/// How long after its latest repeat a query may be repeated or answered, in nanoseconds: 10 s.
pub const ANSWERING: u64 = 10_000_000_000;

/// The most frames of a query that are kept.
pub const MAX_FRAMES: usize = 16;
