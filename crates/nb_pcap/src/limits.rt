//! The limits of capture files, each with its unit.

/// The bytes that tell a file's form: the magic number.
pub const MAGIC_LENGTH: usize = 4;

/// The header of a classic file, in bytes.
pub const HEADER_LENGTH: usize = 24;

/// What stands before the captured bytes of a record, in bytes.
pub const RECORD_LENGTH: usize = 16;

/// What each block has, in bytes: its type, its length, and its length again.
pub const BLOCK_LENGTH: usize = 12;

/// The most captured bytes of a frame (our choice, and that of tcpdump and Wireshark).
pub const MAX_CAPTURED: usize = 262_144;

/// The longest record or block that is read, in bytes: a frame of the most captured bytes, and 128
/// KiB for what else its block says (our choice). Longer blocks of other types are passed over.
pub const MAX_ITEM: usize = 393_216;

/// The most interfaces of a section (our choice).
pub const MAX_INTERFACES: usize = 65_536;

/// The longest name of an interface, in bytes; one whose name is longer has none (our choice).
pub const MAX_NAME: usize = 255;

/// Nanoseconds of a second.
pub const SECOND: u64 = 1_000_000_000;

/// What stands before the value of an option, in bytes.
pub const OPTION_LENGTH: usize = 4;

/// The shortest Section Header, in bytes.
pub const SECTION_LENGTH: usize = 28;

/// The shortest Interface Description, in bytes.
pub const INTERFACE_LENGTH: usize = 20;

/// The shortest Enhanced or obsolete Packet, in bytes.
pub const PACKET_LENGTH: usize = 32;

/// The shortest Simple Packet, in bytes.
pub const SIMPLE_LENGTH: usize = 16;
