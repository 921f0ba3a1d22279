//! The limits of name service packets, each with its unit.

pub use crate::views::{ENTRY_LENGTH, NODE_NAME_LENGTH, UNIT_ID_LENGTH};

/// A packet's header, in bytes (RFC 1002 section 4.2.1.1).
pub const HEADER_LENGTH: usize = 12;

/// The most questions of a packet, and the most records of one of its sections: a count has 16 bits
/// (RFC 1002 section 4.2.1.1).
pub const MAX_ENTRIES: usize = 65_535;

/// The longest RDATA, in bytes: RDLENGTH has 16 bits (RFC 1002 section 4.2.1.3).
pub const MAX_RDATA: usize = 65_535;

/// The longest packet, in bytes, of which each name's pointers are followed one by one. It is the
/// longest that comes over UDP (RFC 1002 section 4.2.1.1, at TC); for so few names it takes less
/// time than to clear the places in which the ends of chains are kept.
pub const SHORT_PACKET: usize = 576;
