//! Why a line of a capture says nothing, why none was read, and why a capture is read or printed no
//! further.
ghost use Rattle.std.specs.Prelude.{◌≡◌, Some};
ghost use Rattle.nb_capture.specs.declared.fault.PrintFault.TheVariants as faults;
ghost use Rattle.nb_capture.specs.FaultTexts.{line_fault_text, print_fault_text};
ghost use Rattle.nb_capture.specs.Code.LineTurns.{line_fault_of};
ghost use Rattle.nb_capture.specs.LinePrinting.{of_capture};

use nb_streams::{DigitsFault, NoMemory};
use std::error::Error;
use std::fmt;

/// Why nothing could be read from a line of a capture.
#[derive(Clone, Copy, Debug, PartialEq, Eq)]
pub enum LineFault {
    /// The line is none of a capture's.
    BadLine,
    /// The line is a packet's, and memory ran out for its payload.
    NoMemory,
}

impl fmt::Display for LineFault {
    ghost output = { λ fault. Some (line_fault_text fault) };

    fn fmt<W: fmt::Write>(&self, f: &mut fmt::Formatter<W>) -> fmt::Result {
        match self {
            LineFault::BadLine => f.write_str("bad line"),
            LineFault::NoMemory => f.write_str("memory"),
        }
    }
}

impl Error for LineFault {}

impl From<DigitsFault> for LineFault {
    ghost from_gives = { λ fault made. made ≡ line_fault_of fault };

    fn from(fault: DigitsFault) -> LineFault {
        match fault {
            DigitsFault::BadDigits => LineFault::BadLine,
            DigitsFault::NoMemory => LineFault::NoMemory,
        }
    }
}

/// Why no line was read: the first that was met.
#[derive(Clone, Copy, Debug, PartialEq, Eq)]
pub enum LineReadFault {
    /// The next line has more bytes than [`MAX_LINE`](crate::limits::MAX_LINE).
    TooLong,
    /// A read failed, reads were interrupted 1,024 times in a row, or the input is too long.
    Read,
    /// Memory ran out.
    NoMemory,
}

/// Why a capture is read no further: the first that was met.
#[derive(Clone, Copy, Debug, PartialEq, Eq)]
pub enum CaptureFault {
    /// The line with this number, the first being 1, is malformed.
    Line(u64),
    /// A read failed, reads were interrupted 1,024 times in a row, or the input is too long.
    Read,
    /// Memory ran out.
    NoMemory,
}

/// Why not all lines of a capture are printed: the first that was met.
#[derive(Clone, Copy, Debug, PartialEq, Eq)]
pub enum PrintFault {
    /// The line with this number, the first being 1, is malformed.
    Line(u64),
    /// A read failed, reads were interrupted 1,024 times in a row, or the input is too long.
    Read,
    /// A write failed or took no byte, or writes were interrupted 1,024 times in a row.
    Write,
    /// Memory ran out.
    NoMemory,
}

impl fmt::Display for PrintFault {
    ghost output = { λ fault. Some (print_fault_text fault) };

    fn fmt<W: fmt::Write>(&self, f: &mut fmt::Formatter<W>) -> fmt::Result {
        match self {
            PrintFault::Line(number) => write!(f, "line {number}"),
            PrintFault::Read => f.write_str("read"),
            PrintFault::Write => f.write_str("write"),
            PrintFault::NoMemory => f.write_str("memory"),
        }
    }
}

impl Error for PrintFault {}

impl From<NoMemory> for PrintFault {
    ghost from_gives = { λ _ made. made ≡ faults.NoMemory };

    fn from(_fault: NoMemory) -> PrintFault {
        PrintFault::NoMemory
    }
}

impl From<CaptureFault> for PrintFault {
    ghost from_gives = { λ fault made. made ≡ of_capture fault };

    fn from(fault: CaptureFault) -> PrintFault {
        match fault {
            CaptureFault::Line(number) => PrintFault::Line(number),
            CaptureFault::Read => PrintFault::Read,
            CaptureFault::NoMemory => PrintFault::NoMemory,
        }
    }
}
