//! What ends the reading of a direction.
ghost use Rattle.std.specs.Prelude.{◌≡◌, ◌+◌, length, IsTrue, false, Some};
ghost use Rattle.nb_connections.specs.Channels.{reason_of};
ghost use Rattle.nb_connections.specs.Rests.{Closes};
ghost use Rattle.nb_connections.specs.declared.closing.Closed.TheVariants.{Gap};

use crate::cutting::Rest;
use crate::piece::Piece;
use crate::taken::Reason;
use nb_session::limits::{HEADER_LENGTH, MAX_PACKET};

/// How many sequence numbers there are.
const SPACE: u64 = 0x1_0000_0000;

/// Why nothing is handed on.
#[derive(Clone, Copy, Debug, PartialEq, Eq)]
pub(crate) enum Closed {
    /// After a gap, with the number at which the packet ends that was awaited, if it is known.
    Gap(Option<u32>),
    /// After a header that no session packet has.
    BadHeader,
}

impl Closed {
    /// Whether the packet that was awaited ends where a segment with this number begins.
    pub(crate) fn ends_at(self, number: u32) -> bool
        ensures ends { IsTrue result → self ≡ Gap (Some number) }
        ensures other { result ≡ false → self ≡ Gap (Some number) → ⊥ }
    {
        match self {
            Closed::Gap(Some(end)) => end == number,
            Closed::Gap(None) | Closed::BadHeader => false,
        }
    }

    /// The same of a segment that is left out.
    pub(crate) fn reason(self) -> Reason
        ensures { result ≡ reason_of self }
    {
        match self {
            Closed::Gap(_) => Reason::Gap,
            Closed::BadHeader => Reason::BadHeader,
        }
    }
}

/// Whether bytes are missing where a direction was handed on: those after the bytes of a segment at
/// a place, which is cut.
pub(crate) fn ends_at(handed: u64, place: u64, piece: &Piece<'_>) -> bool
    ensures yes { IsTrue result →
        IsTrue piece.now.is_cut × (handed ≡ place + length piece.now.bytes.now) }
    ensures no { result ≡ false → IsTrue piece.now.is_cut →
        handed ≡ place + length piece.now.bytes.now → ⊥ }
{
    if !piece.is_cut || handed < place {
        return false;
    }
    handed - place == piece.bytes.len() as u64
}

/// What ends the reading of a direction of which this rest is held, of so many bytes: that bytes
/// are missing after those of this segment, or that no room is left.
pub(crate) fn closed_by(
    rest: Rest,
    held: usize,
    piece: &Piece<'_>,
    is_missing: bool,
    is_full: bool,
) -> Option<Closed>
    ensures { Closes rest held piece.now.number piece.now.bytes.now is_missing is_full result }
{
    match rest {
        Rest::Refused(_) => Some(Closed::BadHeader),
        Rest::Lacks(needed) if is_missing => {
            if held < HEADER_LENGTH || MAX_PACKET < needed {
                return Some(Closed::Gap(None));
            }
            let end = (u64::from(piece.number) + piece.bytes.len() as u64 + needed as u64) % SPACE;
            Some(Closed::Gap(Some(end as u32)))
        }
        Rest::Lacks(_) if is_full => Some(Closed::Gap(None)),
        Rest::Lacks(_) => None,
    }
}
