//! What the program reports on standard error, and its exit statuses.
ghost use Rattle.std.specs.Prelude.{◌≡◌, ◌≤◌, Some};
ghost use Rattle.nbt_command.specs.FaultTexts.{status_of, fault_text};
ghost use Rattle.nbt_command.specs.Status.{code_of};
ghost use Rattle.nbt_command.specs.declared.fault.Fault.TheVariants.{Text, Name, Memory};
ghost use Rattle.nbt_command.specs.Reported.{of_building, of_digits, of_capture, of_printing};

use nb_building::BuildFault;
use nb_capture::{CaptureFault, PrintFault};
use nb_entries::LoadFault;
use nb_names::{NameFault, TextFault};
use nb_streams::{DigitsFault, NoMemory};
use std::alloc::{AllocError, AllocFailed};
use std::fmt;

/// Why a command ended before it was done.
#[derive(Clone, Copy)]
pub enum Fault {
    /// The text of a name was refused.
    Text(TextFault),
    /// A name was refused where it was to be read from bytes.
    Name(NameFault),
    /// What was to be hexadecimal isn't: another character, or an odd number of digits.
    BadHex,
    /// Bytes follow the name that should have been alone. The offset is that of the first of them.
    TrailingBytes(usize),
    /// The words of a packet were refused.
    Build(BuildFault),
    /// The words after the subcommand are none that it takes.
    Arguments,
    /// A saved table has a longer datagram than the others may have.
    TooLong,
    /// A line of a capture is malformed. The number is the line's, the first being 1.
    Line(u64),
    /// A capture has fragments of more keys of one address at a time than are held, or tables have
    /// together.
    FullSource,
    /// A capture has fragments of more keys at a time than are held, or tables have together.
    Full,
    /// More different names are given than a station holds.
    TooManyNames,
    /// The bytes of a line aren't a saved table, or one that is over the limits.
    Load(LoadFault),
    /// There is no table to merge.
    NoTables,
    /// There are more or fewer tables than two to compare.
    TwoTablesWanted,
    /// The program's words couldn't be read, or its input not to its end.
    Read,
    /// The output failed.
    Write,
    /// Memory ran out.
    Memory,
}

impl Fault {
    /// The exit status that goes with the fault.
    pub fn status(self) -> Status
        ensures { result ≡ status_of self }
    {
        match self {
            Fault::Build(BuildFault::Memory)
            | Fault::Load(LoadFault::NoMemory)
            | Fault::Read
            | Fault::Write
            | Fault::Memory => Status::Failed,
            _ => Status::Refused,
        }
    }
}

impl fmt::Display for Fault {
    ghost output = { λ fault. Some (fault_text fault) };

    fn fmt<W: fmt::Write>(&self, f: &mut fmt::Formatter<W>) -> fmt::Result {
        match self {
            Fault::Text(fault) => write!(f, "{fault}"),
            Fault::Name(fault) => write!(f, "{fault}"),
            Fault::BadHex => f.write_str("bad hex"),
            Fault::TrailingBytes(at) => write!(f, "trailing bytes {at}"),
            Fault::Build(fault) => write!(f, "{fault}"),
            Fault::Arguments => f.write_str("arguments"),
            Fault::TooLong => f.write_str("too long"),
            Fault::Line(number) => write!(f, "line {number}"),
            Fault::FullSource => f.write_str("full source"),
            Fault::Full => f.write_str("full"),
            Fault::TooManyNames => f.write_str("too many names"),
            Fault::Load(fault) => write!(f, "{fault}"),
            Fault::NoTables => f.write_str("no tables"),
            Fault::TwoTablesWanted => f.write_str("two tables wanted"),
            Fault::Read => f.write_str("read"),
            Fault::Write => f.write_str("write"),
            Fault::Memory => f.write_str("memory"),
        }
    }
}

impl From<TextFault> for Fault {
    ghost from_gives = { λ fault made. made ≡ Text fault };

    fn from(fault: TextFault) -> Fault {
        Fault::Text(fault)
    }
}

impl From<NameFault> for Fault {
    ghost from_gives = { λ fault made. made ≡ Name fault };

    fn from(fault: NameFault) -> Fault {
        Fault::Name(fault)
    }
}

impl From<BuildFault> for Fault {
    ghost from_gives = { λ fault made. made ≡ of_building fault };

    fn from(fault: BuildFault) -> Fault {
        match fault {
            BuildFault::Memory => Fault::Memory,
            _ => Fault::Build(fault),
        }
    }
}

impl From<DigitsFault> for Fault {
    ghost from_gives = { λ fault made. made ≡ of_digits fault };

    fn from(fault: DigitsFault) -> Fault {
        match fault {
            DigitsFault::BadDigits => Fault::BadHex,
            DigitsFault::NoMemory => Fault::Memory,
        }
    }
}

impl From<CaptureFault> for Fault {
    ghost from_gives = { λ fault made. made ≡ of_capture fault };

    fn from(fault: CaptureFault) -> Fault {
        match fault {
            CaptureFault::Line(number) => Fault::Line(number),
            CaptureFault::Read => Fault::Read,
            CaptureFault::NoMemory => Fault::Memory,
        }
    }
}

impl From<PrintFault> for Fault {
    ghost from_gives = { λ fault made. made ≡ of_printing fault };

    fn from(fault: PrintFault) -> Fault {
        match fault {
            PrintFault::Line(number) => Fault::Line(number),
            PrintFault::Read => Fault::Read,
            PrintFault::Write => Fault::Write,
            PrintFault::NoMemory => Fault::Memory,
        }
    }
}

impl From<NoMemory> for Fault {
    ghost from_gives = { λ _ made. made ≡ Memory };

    fn from(_fault: NoMemory) -> Fault {
        Fault::Memory
    }
}

impl From<AllocError> for Fault {
    ghost from_gives = { λ _ made. made ≡ Memory };

    fn from(_fault: AllocError) -> Fault {
        Fault::Memory
    }
}

impl<T: Drop> From<AllocFailed<T>> for Fault {
    ghost from_gives = { λ _ made. made ≡ Memory };

    fn from(_fault: AllocFailed<T>) -> Fault {
        Fault::Memory
    }
}

/// How the program ended.
#[derive(Clone, Copy)]
pub enum Status {
    /// All was done.
    Done,
    /// The input was refused.
    Refused,
    /// The command line was bad.
    BadUsage,
    /// A device or memory failed.
    Failed,
}

impl Status {
    /// The exit status: 0 to 3, in the order above.
    pub fn code(self) -> u8
        ensures value { result ≡ code_of self }
        ensures within { result ≤ 3 }
        ensures usage { result ≡ 2 → self ≡ Status.BadUsage }
    {
        match self {
            Status::Done => 0,
            Status::Refused => 1,
            Status::BadUsage => 2,
            Status::Failed => 3,
        }
    }
}
