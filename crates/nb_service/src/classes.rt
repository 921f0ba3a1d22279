//! Classes of questions and records, by their numbers. Other numbers may stand in packets too.

/// The Internet class (RFC 1002 sections 4.2.1.2 and 4.2.1.3).
pub const IN: u16 = 0x0001;
