//! The limits of names, each with its unit.

/// The longest label, in bytes (RFC 1002 section 4.1: six bits of length).
pub const MAX_LABEL: usize = 63;

/// The longest spelling of a domain name, in bytes, its zero byte included (RFC 1002 section 4.1).
pub const MAX_SPELLING: usize = 255;

/// The bytes of a NetBIOS name, its suffix included (RFC 1001 section 14.1).
pub const NAME_LENGTH: usize = 16;

/// The bytes of a NetBIOS name before its suffix (RFC 1001 section 14.1).
pub const FRONT_LENGTH: usize = 15;

/// The letters that spell those bytes, two a byte (RFC 1001 section 14.1).
pub const LETTERS: usize = 32;

/// The longest spelling of a scope, in bytes: what is left beside a name's first label.
pub const MAX_SCOPE: usize = 222;

/// The offsets to which a pointer can lead, from 0 on (RFC 1002 section 4.1: 14 bits).
pub const POINTED_OFFSETS: usize = 16_384;
