//! The limits, lengths, types and flag bits of datagram packets, each with its unit.

/// The most bytes that the names and the data of one packet have together, and the most bytes of
/// data of one datagram: what a field of 16 bits can count (RFC 1002 section 4.4.2, DGM_LENGTH).
pub const MAX_LENGTH: usize = 65_535;

/// The bytes of the header that all packets begin with (RFC 1002 section 4.4.1).
pub const HEADER_LENGTH: usize = 10;

/// The bytes of an error packet: the header and ERROR_CODE (RFC 1002 section 4.4.3).
pub const ERROR_LENGTH: usize = 11;

/// The bytes of a fragment's packet before its names: the header, DGM_LENGTH and PACKET_OFFSET
/// (RFC 1002 section 4.4.2).
pub const DIRECT_HEADER_LENGTH: usize = 14;

/// The bit of FLAGS that says that more fragments follow (RFC 1002 section 4.4.1, M).
pub const MORE: u8 = 0x01;

/// The bit of FLAGS that says that this is the first fragment (RFC 1002 section 4.4.1, F).
pub const FIRST: u8 = 0x02;

/// The MSG_TYPE of a datagram to one station (RFC 1002 section 4.4.1, DIRECT_UNIQUE).
pub(crate) const DIRECT_UNIQUE: u8 = 0x10;

/// The MSG_TYPE of a datagram to a group (RFC 1002 section 4.4.1, DIRECT_GROUP).
pub(crate) const DIRECT_GROUP: u8 = 0x11;

/// The MSG_TYPE of a datagram to all stations of a scope (RFC 1002 section 4.4.1, BROADCAST).
pub(crate) const BROADCAST: u8 = 0x12;

/// The MSG_TYPE of error packets (RFC 1002 section 4.4.1, DATAGRAM ERROR).
pub(crate) const ERROR_TYPE: u8 = 0x13;

/// The MSG_TYPE of a query request (RFC 1002 section 4.4.1).
pub(crate) const QUERY_REQUEST: u8 = 0x14;

/// The MSG_TYPE of a positive query response (RFC 1002 section 4.4.1).
pub(crate) const POSITIVE_RESPONSE: u8 = 0x15;

/// The MSG_TYPE of a negative query response (RFC 1002 section 4.4.1).
pub(crate) const NEGATIVE_RESPONSE: u8 = 0x16;
