//! The limits of captures, each with its unit.

/// The longest line of a capture, in bytes, its line feed not counted (our choice).
pub const MAX_LINE: usize = 262_200;

pub use nb_streams::limits::MAX_READ;

/// The most bytes that a room for lines has: a longest line, and a read after it.
pub const MAX_HELD: usize = 266_296;

/// The most digits of a moment (our choice).
pub const MAX_MOMENT_DIGITS: usize = 20;
