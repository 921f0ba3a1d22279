//! The limits of what is read, each with its unit.

/// The most tags that a frame may have before its packet (our choice).
pub const MAX_TAGS: usize = 4;
