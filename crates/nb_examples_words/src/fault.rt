//! Why a line has no answer.

use std::alloc::{AllocError, AllocFailed};
use std::{fmt, io};

/// Why a line has no answer.
#[derive(Clone, Copy)]
pub enum ExampleFault {
    /// The line has none of the forms that lines have.
    NoExample,
    /// The call isn't one that examples make.
    NoSuchCall,
    /// A word isn't what the call takes at its place, or there are too many or too few.
    BadWords,
    /// The input could not be read.
    Read,
    /// The output failed.
    Write,
    /// Memory ran out.
    NoMemory,
}

impl fmt::Display for ExampleFault {
    fn fmt<W: fmt::Write>(&self, f: &mut fmt::Formatter<W>) -> fmt::Result {
        f.write_str(match self {
            ExampleFault::NoExample => "no example",
            ExampleFault::NoSuchCall => "no such call",
            ExampleFault::BadWords => "bad words",
            ExampleFault::Read => "read",
            ExampleFault::Write => "write",
            ExampleFault::NoMemory => "memory",
        })
    }
}

impl From<AllocError> for ExampleFault {
    fn from(_fault: AllocError) -> ExampleFault {
        ExampleFault::NoMemory
    }
}

impl<T: Drop> From<AllocFailed<T>> for ExampleFault {
    fn from(_fault: AllocFailed<T>) -> ExampleFault {
        ExampleFault::NoMemory
    }
}

impl From<io::Error> for ExampleFault {
    fn from(_fault: io::Error) -> ExampleFault {
        ExampleFault::Write
    }
}
