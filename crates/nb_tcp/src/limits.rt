//! The limits of a direction, each with its unit.

/// The place of a direction's first byte: a multiple of 2^32, so far up that what was sent before
/// it has a place too.
pub const START: u64 = 0x1_0000_0000;

/// The last place up to which bytes are handed on: some 2^62 bytes (our choice).
pub const LAST: u64 = 0x4000_0000_0000_0000;

/// The most that a direction keeps, in bytes: what waits, with what was handed on last, and
/// `RUN_COST` for each run of them (our choice).
pub const ROOM: usize = 0x10_0000;

/// How much of that there is, in bytes, before what was handed on is forgotten (our choice).
pub const TAIL: usize = 0x1_0000;

/// What a run of bytes takes beside its bytes, about (our choice).
pub const RUN_COST: usize = 64;
