//! Why no packet is built.
ghost use Rattle.std.specs.Prelude.{Some, ◌≡◌};
ghost use Rattle.nb_building.specs.FaultTexts.{build_fault_text};
ghost use Rattle.nb_building.specs.declared.build_fault.BuildFault.TheVariants.{Memory};
ghost use Rattle.nb_building.specs.Refusals.{of_cut};

use nb_datagram::CutFault;
use nb_names::TextFault;
use nb_streams::NoMemory;
use std::fmt;

/// Why no packet is built. The place of a word is how many stand before it.
#[derive(Clone, Copy, Debug, PartialEq, Eq)]
pub enum BuildFault {
    /// There is no such packet.
    What,
    /// The packet takes another number of words.
    Count,
    /// The word at this place isn't what the packet takes there.
    Word(usize),
    /// The word at this place is the text of a name, which was refused.
    Text(usize, TextFault),
    /// The packet takes fewer bytes.
    TooLong,
    /// Pieces of no bytes were asked for.
    ZeroPiece,
    /// Memory ran out.
    Memory,
}

impl fmt::Display for BuildFault {
    ghost output = { λ fault. Some (build_fault_text fault) };

    fn fmt<W: fmt::Write>(&self, f: &mut fmt::Formatter<W>) -> fmt::Result {
        match self {
            BuildFault::What | BuildFault::Count | BuildFault::Word(_) => f.write_str("arguments"),
            BuildFault::Text(_, fault) => write!(f, "{fault}"),
            BuildFault::TooLong => f.write_str("too long"),
            BuildFault::ZeroPiece => f.write_str("zero piece"),
            BuildFault::Memory => f.write_str("memory"),
        }
    }
}

impl From<NoMemory> for BuildFault {
    ghost from_gives = { λ _ made. made ≡ Memory };

    fn from(_fault: NoMemory) -> BuildFault {
        BuildFault::Memory
    }
}

impl From<CutFault> for BuildFault {
    ghost from_gives = { λ fault made. made ≡ of_cut fault };

    fn from(fault: CutFault) -> BuildFault {
        match fault {
            CutFault::ZeroPiece => BuildFault::ZeroPiece,
            CutFault::TooLong => BuildFault::TooLong,
            CutFault::NoMemory => BuildFault::Memory,
        }
    }
}
