//! The limits of what waits, each with its unit.

/// The most packets of which fragments are kept.
pub const KEYS: usize = 4_096;

/// The most bytes that are kept: 64 MiB.
pub const ROOM: usize = 67_108_864;

/// How long the fragments of a packet are kept, in nanoseconds from the first on: 60 seconds (RFC
/// 8200 section 4.5; RFC 1122 section 3.3.2 allows no less).
pub const LIFETIME: u64 = 60_000_000_000;
