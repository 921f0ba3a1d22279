//! Why bytes begin with no packet, and why a fragment or datagram isn't made or cut.
ghost use Rattle.std.specs.Prelude.{◌≡◌, Some, codes};
ghost use Rattle.nb_datagram.specs.FaultTexts.{datagram_fault_place, datagram_fault_subject, datagram_fault_words, datagram_fault_text, cut_fault_text};
ghost use Rattle.nb_datagram.specs.declared.fault.CutFault.TheVariants.{NoMemory};

use nb_names::NameFault;
use std::alloc::AllocFailed;
use std::error::Error;
use std::fmt;

/// Why bytes could not be decoded, and where.
///
/// Offsets count from the packet's first byte, but for the place in `NotNetbios`, which counts in
/// the spelling of the name. A reading looks for the header, its type, the bytes
/// that the type and DGM_LENGTH ask for, then the names, and answers the first that it misses.
#[derive(Clone, Copy, Debug, PartialEq, Eq)]
pub enum DatagramFault {
    /// The bytes end inside the packet. The offset is that of the first missing byte, which is how
    /// many there are.
    Truncated(usize),
    /// MSG_TYPE is none of 10 to 16.
    UnknownType,
    /// No NetBIOS name stands where the source's is to stand.
    SourceName(NameFault),
    /// No NetBIOS name stands where the destination's is to stand.
    DestinationName(NameFault),
}

impl DatagramFault {
    /// The number with which its text ends, where it ends with one.
    pub fn place(self) -> Option<usize>
        ensures { result ≡ datagram_fault_place self }
    {
        match self {
            DatagramFault::Truncated(at) => Some(at),
            DatagramFault::UnknownType => None,
            DatagramFault::SourceName(fault) | DatagramFault::DestinationName(fault) => {
                Some(fault.place())
            }
        }
    }

    /// Which name is wrong, where one is, else nothing: the words with which its text begins.
    pub fn subject(self) -> &'static str
        ensures { result.now ≡ datagram_fault_subject self }
    {
        match self {
            DatagramFault::SourceName(_) => "source name: ",
            DatagramFault::DestinationName(_) => "destination name: ",
            DatagramFault::Truncated(_) | DatagramFault::UnknownType => "",
        }
    }

    /// What is wrong, in words: its text between the subject and the place.
    pub fn words(self) -> &'static str
        ensures { result.now ≡ datagram_fault_words self }
    {
        match self {
            DatagramFault::Truncated(_) => "truncated",
            DatagramFault::UnknownType => "unknown type",
            DatagramFault::SourceName(fault) | DatagramFault::DestinationName(fault) => {
                fault.words()
            }
        }
    }
}

impl fmt::Display for DatagramFault {
    ghost output = { λ fault. Some (datagram_fault_text fault) };

    fn fmt<W: fmt::Write>(&self, f: &mut fmt::Formatter<W>) -> fmt::Result {
        f.write_str(self.subject())?;
        f.write_str(self.words())?;
        match self.place() {
            Some(place) => write!(f, " {place}"),
            None => Ok(()),
        }
    }
}

impl Error for DatagramFault {}

/// Why a datagram isn't cut: the first of these that applies.
#[derive(Clone, Copy, Debug, PartialEq, Eq)]
pub enum CutFault {
    /// Pieces of no bytes were asked for.
    ZeroPiece,
    /// One of the pieces would pass 65,535 bytes with its names.
    TooLong,
    /// Memory ran out.
    NoMemory,
}

impl fmt::Display for CutFault {
    ghost output = { λ fault. Some (cut_fault_text fault) };

    fn fmt<W: fmt::Write>(&self, f: &mut fmt::Formatter<W>) -> fmt::Result {
        match self {
            CutFault::ZeroPiece => f.write_str("zero piece"),
            CutFault::TooLong => f.write_str("too long"),
            CutFault::NoMemory => f.write_str("memory"),
        }
    }
}

impl Error for CutFault {}

impl<T: Drop> From<AllocFailed<T>> for CutFault {
    ghost from_gives = { λ _ fault. fault ≡ NoMemory };

    fn from(_e: AllocFailed<T>) -> CutFault {
        CutFault::NoMemory
    }
}

/// The bytes are more than the field that counts them can say: 65,535.
#[derive(Clone, Copy, Debug, PartialEq, Eq)]
pub struct TooLong;

impl fmt::Display for TooLong {
    ghost output = { λ _. Some (codes "too long") };

    fn fmt<W: fmt::Write>(&self, f: &mut fmt::Formatter<W>) -> fmt::Result {
        f.write_str("too long")
    }
}

impl Error for TooLong {}
