//! Types of questions and records, by their numbers. Other numbers may stand in packets too.

/// An IPv4 address (RFC 1002 section 4.2.1.3).
pub const A: u16 = 0x0001;

/// The domain name of a name server (RFC 1002 section 4.2.1.3).
pub const NS: u16 = 0x0002;

/// Nothing (RFC 1002 section 4.2.1.3).
pub const NULL: u16 = 0x000a;

/// A NetBIOS name's addresses (RFC 1002 sections 4.2.1.2 and 4.2.1.3).
pub const NB: u16 = 0x0020;

/// A node's names and its statistics (RFC 1002 sections 4.2.1.2 and 4.2.1.3).
pub const NBSTAT: u16 = 0x0021;
