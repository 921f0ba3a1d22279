//! Why a capture file can't be read further.

/// Why a capture file can't be read further.
#[derive(Clone, Copy, Debug, PartialEq, Eq)]
pub enum FileFault {
    /// The file begins with no magic number of pcap or pcapng, or a section has none of byte order.
    UnknownForm,
    /// The file ends inside a header, a record or a block.
    Cut,
    /// More bytes of a frame were captured than [`MAX_CAPTURED`](crate::limits::MAX_CAPTURED), or a
    /// block that is read has more than [`MAX_ITEM`](crate::limits::MAX_ITEM).
    TooLong,
    /// The two lengths of a block differ, its length isn't a multiple of 4, or it is too short for
    /// its type or for what it says.
    BadBlock,
    /// A packet names an interface that its section doesn't describe.
    NoInterface,
    /// A section describes more interfaces than
    /// [`MAX_INTERFACES`](crate::limits::MAX_INTERFACES).
    TooManyInterfaces,
    /// The reader failed.
    Read,
    /// Memory ran out.
    NoMemory,
}
