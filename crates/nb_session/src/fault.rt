//! Why bytes are no session packet.
ghost use Rattle.std.specs.Prelude.{◌≡◌};
ghost use Rattle.nb_session.specs.FaultTexts.{session_fault_place, session_fault_subject, session_fault_words};

use nb_names::NameFault;
use std::error::Error;
use std::fmt;

/// Why bytes begin with no session packet, nor with the front of one.
///
/// The header is judged first, as soon as its four bytes are there, and a body once it is there
/// whole. Of several faults the first in this order is answered. Offsets count from the packet's
/// first byte.
#[derive(Clone, Copy, Debug, PartialEq, Eq)]
pub enum SessionFault {
    /// No packet has this TYPE.
    UnknownType,
    /// A bit of FLAGS above the lowest one is set: zero in RFC 1002 section 4.3.1 (our choice).
    ReservedFlags,
    /// No packet of this TYPE has a body of this length.
    BadLength,
    /// The called or the calling name of a request can't be read. It is read from the packet alone:
    /// a name that runs past its end is truncated, whatever follows.
    Name(NameFault),
    /// The calling name of a request ends at this offset, before the packet does.
    TrailingBytes(usize),
}

impl SessionFault {
    /// The number with which its text ends, where it ends with one.
    pub fn place(self) -> Option<usize>
        ensures { result ≡ session_fault_place self }
    {
        match self {
            SessionFault::UnknownType | SessionFault::ReservedFlags | SessionFault::BadLength => {
                None
            }
            SessionFault::Name(fault) => Some(fault.place()),
            SessionFault::TrailingBytes(at) => Some(at),
        }
    }

    /// Which name is wrong, where one is, else nothing: the words with which its text begins.
    pub fn subject(self) -> &'static str
        ensures { result.now ≡ session_fault_subject self }
    {
        match self {
            SessionFault::Name(_) => "name: ",
            SessionFault::UnknownType
            | SessionFault::ReservedFlags
            | SessionFault::BadLength
            | SessionFault::TrailingBytes(_) => "",
        }
    }

    /// What is wrong, in words: its text between the subject and the place.
    pub fn words(self) -> &'static str
        ensures { result.now ≡ session_fault_words self }
    {
        match self {
            SessionFault::UnknownType => "unknown type",
            SessionFault::ReservedFlags => "reserved flags",
            SessionFault::BadLength => "bad length",
            SessionFault::Name(fault) => fault.words(),
            SessionFault::TrailingBytes(_) => "trailing bytes",
        }
    }
}

impl fmt::Display for SessionFault {
    ghost use Rattle.std.specs.Prelude.{Some};
    ghost use Rattle.nb_session.specs.FaultTexts.{session_fault_text};

    ghost output = { λ fault. Some (session_fault_text fault) };

    fn fmt<W: fmt::Write>(&self, f: &mut fmt::Formatter<W>) -> fmt::Result {
        f.write_str(self.subject())?;
        f.write_str(self.words())?;
        match self.place() {
            Some(place) => write!(f, " {place}"),
            None => Ok(()),
        }
    }
}

impl Error for SessionFault {}

impl From<NameFault> for SessionFault {
    ghost use Rattle.std.specs.Prelude.{◌≡◌};
    ghost use Rattle.nb_session.specs.declared.fault.SessionFault.TheVariants.{Name};

    ghost from_gives = { λ fault e. e ≡ Name fault };

    fn from(fault: NameFault) -> SessionFault {
        SessionFault::Name(fault)
    }
}
