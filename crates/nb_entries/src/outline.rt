//! What is known of a datagram, but for its bytes, and what an insert changed.
ghost use Rattle.std.specs.Prelude.{◌≡◌};
ghost use Rattle.nb_entries.specs.Change.{made_by};

use nb_datagram::{Datagram, Kind, LentFragment, UserData};
use nb_names::Name;

/// What is known of a key's datagram, but for its bytes.
#[derive(Debug, Drop, PartialEq, Eq)]
pub struct Outline {
    /// To whom the datagram goes.
    pub kind: Kind,
    /// The sender's name.
    pub source: Name,
    /// The name that the datagram is for.
    pub destination: Name,
    /// How many bytes of the data are known.
    pub held: u32,
    /// How many maximal runs these make up: 1 where they leave no gap. `Table::ranges` says where
    /// they lie.
    pub runs: u32,
    /// How many bytes the data has, if a fragment said so.
    pub end: Option<u32>,
    /// The greatest place at which, or after which, a fragment promised a byte, if one did.
    pub promise: Option<u32>,
    /// That promise, where it reaches past all that is known: no known byte lies at its place or
    /// after it.
    pub awaited: Option<u32>,
}

/// What is known of a datagram.
#[derive(Clone, Copy, Debug, PartialEq, Eq)]
pub enum State {
    /// Nothing: the key isn't held.
    Absent,
    /// Something, but not all.
    Partial,
    /// All: the end, and each byte before it.
    Whole,
    /// Its fragments contradict each other.
    Spoilt,
}

/// What a fragment changed at its key. `D` is what is handed over of a datagram that becomes whole.
#[derive(Drop)]
pub enum Change<D = Datagram> {
    /// The key became spoilt: the fragment contradicts what was known.
    Spoilt,
    /// The key became whole; this is its datagram, or the data of that.
    Whole(D),
    /// Nothing: all that the fragment says was known, or the key was spoilt before.
    Same,
    /// More is known; the key may have been whole before, and a promise is new.
    Grown,
}

/// What an insert does with the datagram of a key that becomes whole.
#[derive(Clone, Copy, Debug, PartialEq, Eq)]
pub enum Handing {
    /// It is copied, and handed over.
    Over,
    /// It stays in the table alone, and the key is said to grow.
    Kept,
}

impl Change<UserData> {
    /// The change that this fragment made, with the whole datagram in place of its data: the
    /// fragment has the datagram's kind and names. No memory is taken.
    pub fn made_by(self, fragment: &LentFragment<'_>) -> Change
        ensures { result ≡ made_by fragment.now self }
    {
        match self {
            Change::Spoilt => Change::Spoilt,
            Change::Whole(bytes) => Change::Whole(Datagram::of_fragment(fragment, bytes)),
            Change::Same => Change::Same,
            Change::Grown => Change::Grown,
        }
    }
}
