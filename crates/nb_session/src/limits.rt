//! The limits of session packets, each with its unit.

/// A packet's header, in bytes (RFC 1002 section 4.3.1).
pub const HEADER_LENGTH: usize = 4;

/// The longest message, in bytes: LENGTH has 17 bits (RFC 1002 section 4.3.1).
pub const MAX_MESSAGE: usize = 131_071;

/// The longest packet, in bytes: a header and the longest message.
pub const MAX_PACKET: usize = 131_075;

/// The shortest body of a request, in bytes: two names without a scope (RFC 1002 section 4.3.2).
pub const MIN_REQUEST: usize = 68;

/// The longest body of a request, in bytes: two names of 255 bytes.
pub const MAX_REQUEST: usize = 510;

/// The interrupts of one reading of a packet with which it is given up (our choice).
pub const MAX_INTERRUPTS: u32 = 1_024;
