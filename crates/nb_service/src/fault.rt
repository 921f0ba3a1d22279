//! Why bytes are no packet, and why a packet or a record was not made.
ghost use Rattle.std.specs.Prelude.{◌≡◌, Some};
ghost use Rattle.nb_service.specs.FaultTexts.{service_fault_place, service_fault_subject, service_fault_words, service_fault_text, push_fault_text, record_fault_text};

use nb_names::NameFault;
use nb_streams::NoMemory;
use std::error::Error;
use std::fmt;

/// Why a name service packet could not be decoded, and where.
///
/// Offsets count from the packet's first byte. Of several faults the first in
/// reading order is answered: RDATA is there whole before the name in it is read.
#[derive(Clone, Copy, Debug, PartialEq, Eq)]
pub enum ServiceFault {
    /// A byte of the header, of the numbers after a name, or of a record's RDATA is missing. The
    /// number is how many bytes there are: the place where one is missing.
    Truncated(usize),
    /// A name could not be read: that of a question or a record, or the one in the RDATA of an NS
    /// record.
    Name(NameFault),
    /// The name in the RDATA at this offset doesn't end where the RDATA does (our choice).
    NameRdata(usize),
    /// Memory ran out. The bytes begin with a packet that has a question or a record.
    NoMemory,
}

impl ServiceFault {
    /// The number with which its text ends, where it ends with one.
    pub fn place(self) -> Option<usize>
        ensures { result ≡ service_fault_place self }
    {
        match self {
            ServiceFault::Truncated(at) | ServiceFault::NameRdata(at) => Some(at),
            ServiceFault::Name(fault) => Some(fault.place()),
            ServiceFault::NoMemory => None,
        }
    }

    /// Which name is wrong, where one is, else nothing: the words with which its text begins.
    pub fn subject(self) -> &'static str
        ensures { result.now ≡ service_fault_subject self }
    {
        match self {
            ServiceFault::Name(_) => "name: ",
            ServiceFault::Truncated(_) | ServiceFault::NameRdata(_) | ServiceFault::NoMemory => "",
        }
    }

    /// What is wrong, in words: its text between the subject and the place.
    pub fn words(self) -> &'static str
        ensures { result.now ≡ service_fault_words self }
    {
        match self {
            ServiceFault::Truncated(_) => "truncated",
            ServiceFault::Name(fault) => fault.words(),
            ServiceFault::NameRdata(_) => "name rdata",
            ServiceFault::NoMemory => "memory",
        }
    }
}

impl fmt::Display for ServiceFault {
    ghost output = { λ fault. Some (service_fault_text fault) };

    fn fmt<W: fmt::Write>(&self, f: &mut fmt::Formatter<W>) -> fmt::Result {
        f.write_str(self.subject())?;
        f.write_str(self.words())?;
        match self.place() {
            Some(place) => write!(f, " {place}"),
            None => Ok(()),
        }
    }
}

impl Error for ServiceFault {}

impl From<NameFault> for ServiceFault {
    ghost use Rattle.nb_service.specs.declared.fault.ServiceFault.TheVariants.{Name};

    ghost from_gives = { λ fault e. e ≡ Name fault };

    fn from(fault: NameFault) -> ServiceFault {
        ServiceFault::Name(fault)
    }
}

impl From<NoMemory> for ServiceFault {
    ghost use Rattle.nb_service.specs.declared.fault.ServiceFault.TheVariants.{NoMemory};

    ghost from_gives = { λ _ e. e ≡ NoMemory };

    fn from(_e: NoMemory) -> ServiceFault {
        ServiceFault::NoMemory
    }
}

/// Why a question or a record could not be added to a packet.
///
/// Where both apply, it is the upper one.
#[derive(Clone, Copy, Debug, PartialEq, Eq)]
pub enum PushFault {
    /// The list has 65,535 items already.
    TooMany,
    /// Memory ran out.
    NoMemory,
}

impl fmt::Display for PushFault {
    ghost output = { λ fault. Some (push_fault_text fault) };

    fn fmt<W: fmt::Write>(&self, f: &mut fmt::Formatter<W>) -> fmt::Result {
        match self {
            PushFault::TooMany => f.write_str("too many"),
            PushFault::NoMemory => f.write_str("memory"),
        }
    }
}

impl Error for PushFault {}

impl From<NoMemory> for PushFault {
    ghost use Rattle.nb_service.specs.declared.fault.PushFault.TheVariants.{NoMemory};

    ghost from_gives = { λ _ e. e ≡ NoMemory };

    fn from(_e: NoMemory) -> PushFault {
        PushFault::NoMemory
    }
}

/// Why there is no such record. Where both apply, the first is answered.
#[derive(Clone, Copy, Debug, PartialEq, Eq)]
pub enum RecordFault {
    /// The type is NS, whose RDATA is a domain name (our choice).
    KindIsNs,
    /// The RDATA has more than 65,535 bytes.
    TooLong,
}

impl fmt::Display for RecordFault {
    ghost output = { λ fault. Some (record_fault_text fault) };

    fn fmt<W: fmt::Write>(&self, f: &mut fmt::Formatter<W>) -> fmt::Result {
        match self {
            RecordFault::KindIsNs => f.write_str("the kind is NS"),
            RecordFault::TooLong => f.write_str("too long"),
        }
    }
}

impl Error for RecordFault {}
