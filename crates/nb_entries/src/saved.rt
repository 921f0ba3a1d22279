//! Saved entries: their forms, why they aren't read, and sinks of bytes. Each part is read and put
//! in a file of saved/.
//!
//! An input is judged where it stands, before any memory is taken.
ghost use Rattle.std.specs.Prelude.{ℕ, List, ◌≡◌, ◌++◌, ⊤, Some};
ghost use Rattle.nb_entries.specs.Sinks.{SinkLaws, Puts};
ghost use Rattle.std.proofs.Common.{sym, ap, ◌∙◌};
ghost use Rattle.std.proofs.lemmas.List.{append_assoc, append-nil};
ghost use Rattle.nb_entries.specs.FaultTexts.{load_fault_text};
ghost use Rattle.nb_entries.specs.declared.saved.LoadFault.TheVariants.{NoMemory};

mod facts;
pub(crate) mod fields;
pub(crate) mod runs;

pub use facts::{SavedEntry, SavedFacts, read_entry};
pub use fields::{put_four_bytes, read_count};
use nb_streams::NoMemory;
use std::error::Error;
use std::fmt;

/// A form of saved tables. The second has the promises, the first hasn't.
#[derive(Clone, Copy, Debug, PartialEq, Eq)]
pub enum SavedForm {
    /// It begins with "NBT1".
    First,
    /// It begins with "NBT2".
    Second,
}

/// What bytes are put into, one after the other.
pub trait ByteSink {
    /// Why it takes no more.
    type Fault;

    /// These bytes were put into the old sink, which makes the new one.
    ghost takes: { Self → Self → List ℕ → Type 0 };

    /// The old sink took no more before the last of these bytes, which makes the new one.
    ghost breaks: { Self → Self → List ℕ → Type 0 };

    /// Puts bytes after those that were put before.
    ///
    /// # Errors
    ///
    /// Why the sink takes no more. Some of the bytes may have been put then.
    fn put(&mut self, bytes: &[u8]) -> Result<(), Self::Fault>
        ensures { Puts takes breaks self.old self.new bytes.now result };

    /// Bytes put one after the other.
    ghost laws: { SinkLaws takes breaks };
}

impl ByteSink for Vec<u8> {
    type Fault = NoMemory;

    ghost takes = { λ old new bytes. new.items ≡ old.items ++ bytes };

    ghost breaks = { λ _ _ _. ⊤ };

    ghost laws = { record {
      none = λ a. sym (append-nil a.items);
      more = λ a b c xs ys p q. q ∙ ap (λ r. r ++ ys) p ∙ append_assoc a.items xs ys;
      wider = λ _ _ _ _ _. tt;
      later = λ _ _ _ _ _ _ _. tt;
    } };

    #[inline]
    fn put(&mut self, bytes: &[u8]) -> Result<(), NoMemory> {
        self.extend_from_slice(bytes)?;
        Ok(())
    }
}

/// Why bytes aren't loaded as a table (our choice).
#[derive(Clone, Copy, Debug, PartialEq, Eq)]
pub enum LoadFault {
    /// They begin with neither "NBT2" nor "NBT1".
    BadMagic,
    /// They end before or inside a field that is due.
    Truncated,
    /// At this offset stands what no saved table has there: a key that isn't greater than the one
    /// before; a state, a kind, or a mark of an end or a promise of no listed value; the mark of a
    /// promise that isn't below the end; a name that isn't spelled as a NetBIOS name without
    /// pointers; a run's start that isn't past the end of the run before; a run's length that is 0
    /// or passes 65,535 or the end; a byte after the last entry.
    NotCanonical(usize),
    /// A saved run, end or promise passes the limit for one datagram.
    TooLong,
    /// More keys of one address are saved than the table may hold.
    FullSource,
    /// More keys are saved than the table may hold.
    Full,
    /// Memory ran out.
    NoMemory,
}

impl fmt::Display for LoadFault {
    ghost output = { λ fault. Some (load_fault_text fault) };

    fn fmt<W: fmt::Write>(&self, f: &mut fmt::Formatter<W>) -> fmt::Result {
        match self {
            LoadFault::BadMagic => f.write_str("bad magic"),
            LoadFault::Truncated => f.write_str("truncated"),
            LoadFault::NotCanonical(at) => write!(f, "not canonical {at}"),
            LoadFault::TooLong => f.write_str("too long"),
            LoadFault::FullSource => f.write_str("full source"),
            LoadFault::Full => f.write_str("full"),
            LoadFault::NoMemory => f.write_str("memory"),
        }
    }
}

impl Error for LoadFault {}

impl From<NoMemory> for LoadFault {
    ghost from_gives = { λ _ fault. fault ≡ NoMemory };

    fn from(_fault: NoMemory) -> LoadFault {
        LoadFault::NoMemory
    }
}
