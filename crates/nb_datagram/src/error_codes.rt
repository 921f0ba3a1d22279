//! The codes of error packets (RFC 1002 section 4.4.3). Others are kept as they come.

/// No station here has the destination's name.
pub const DESTINATION_NAME_NOT_PRESENT: u8 = 0x82;

/// The source name's form is bad.
pub const INVALID_SOURCE_NAME_FORMAT: u8 = 0x83;

/// The destination name's form is bad.
pub const INVALID_DESTINATION_NAME_FORMAT: u8 = 0x84;
