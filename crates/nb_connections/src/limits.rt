//! The limits, each with its unit.

/// The most directions of which something is kept (our choice).
pub const MAX_DIRECTIONS: usize = 65_536;

/// The most that all directions keep together, in bytes (our choice).
pub const MAX_KEPT: usize = 0x400_0000;

/// How much the others may keep, in bytes, before what a direction handed on is forgotten (our
/// choice).
pub const TAILS: usize = 0x4_0000;
