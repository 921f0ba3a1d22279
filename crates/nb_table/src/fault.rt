//! Why a table refuses.
ghost use Rattle.std.specs.Prelude.{Some, ◌≡◌};
ghost use Rattle.nb_table.specs.FaultTexts.{table_fault_text};
ghost use Rattle.nb_table.specs.declared.fault.TableFault.TheVariants.{NoMemory};

use nb_datagram::Key;
use nb_streams::NoMemory;
use std::error::Error;
use std::fmt;

/// Why a table refuses a fragment or another table. It stays as it was.
#[derive(Clone, Copy, Debug, PartialEq, Eq)]
pub enum TableFault {
    /// The fragment says that it is the first one and isn't at offset 0, or is there and doesn't
    /// say so (our choice).
    MisplacedFirst,
    /// The fragment reaches past the table's limit for one datagram, or an entry of the other table
    /// that isn't spoilt has a byte, an end or a promise past it.
    TooLong,
    /// The key is new, and as many keys of its address are held as the table may hold of one.
    FullSource(Key),
    /// The key is new, and as many keys are held as the table may hold.
    Full(Key),
    /// Memory ran out.
    NoMemory,
}

impl fmt::Display for TableFault {
    ghost output = { λ fault. Some (table_fault_text fault) };

    fn fmt<W: fmt::Write>(&self, f: &mut fmt::Formatter<W>) -> fmt::Result {
        match self {
            TableFault::MisplacedFirst => f.write_str("misplaced first"),
            TableFault::TooLong => f.write_str("too long"),
            TableFault::FullSource(_) => f.write_str("full source"),
            TableFault::Full(_) => f.write_str("full"),
            TableFault::NoMemory => f.write_str("memory"),
        }
    }
}

impl Error for TableFault {}

impl From<NoMemory> for TableFault {
    ghost from_gives = { λ _ fault. fault ≡ NoMemory };

    fn from(_fault: NoMemory) -> TableFault {
        TableFault::NoMemory
    }
}
