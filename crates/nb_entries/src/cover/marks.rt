//! Marks: what fragments say of a datagram's data besides its bytes, its end and the greatest
//! promise: those of one, and of two together.
ghost use Rattle.std.specs.Prelude.{◌≡◌, ◌↔◌, IsTrue};
ghost use Rattle.nb_entries.specs.Marks.{greater as the_greater, marks_agree, marks_lie_below, piece_marks, marks_together, ends_by, marks_up_to};
ghost use Rattle.nb_entries.specs.Cover.{bytes_lie_below, is_below_end, piece_cover};

use crate::piece::Piece;

/// The end of a datagram's data, if it is known, and the greatest promise, if there is one.
#[derive(Clone, Copy, Debug, PartialEq, Eq)]
pub struct Marks {
    pub(crate) end: Option<u32>,
    pub(crate) promise: Option<u32>,
}

impl Marks {
    /// What a piece says.
    pub(crate) fn of(piece: &Piece<'_>) -> Marks
        ensures { result ≡ piece_marks piece.now }
    {
        let reach = Some(piece.reach());
        if piece.has_more() {
            Marks {
                end: None,
                promise: reach,
            }
        } else {
            Marks {
                end: reach,
                promise: None,
            }
        }
    }

    /// Whether the two don't contradict each other.
    pub(super) fn agree(self, other: Marks) -> bool
        ensures { result ≡ marks_agree self other }
    {
        match (self.end, other.end) {
            (Some(end), Some(other)) => end == other,
            _ => true,
        }
    }

    /// What two that don't contradict each other say together.
    pub(super) fn together(self, other: Marks) -> Marks
        ensures { result ≡ marks_together self other }
    {
        Marks {
            end: self.end.or(other.end),
            promise: greater(self.promise, other.promise),
        }
    }

    /// Whether the two are the same.
    pub(crate) fn are(self, other: Marks) -> bool
        ensures { IsTrue result ↔ (self ≡ other) }
    {
        self == other
    }

    /// Whether what is marked lies below a place.
    pub(super) fn lie_below(self, place: u32) -> bool
        ensures { result ≡ marks_lie_below place self }
    {
        match self.promise {
            Some(promise) => promise < place,
            None => true,
        }
    }

    /// Whether the end and the promise, if there are any, are at most the limit.
    pub(crate) fn are_up_to(self, limit: u32) -> bool
        ensures { result ≡ marks_up_to limit self }
    {
        is_at_most(limit, self.end) && is_at_most(limit, self.promise)
    }
}

/// Whether each byte of a piece lies below the end.
fn bytes_are_below(piece: &Piece<'_>, end: u32) -> bool
    ensures { result ≡ bytes_lie_below end (piece_cover piece.now).bytes }
{
    piece.bytes().is_empty() || piece.reach() <= end
}

/// Whether each byte of a piece and what it marks lie below the end, if there is one.
pub(super) fn is_below(piece: &Piece<'_>, end: Option<u32>) -> bool
    ensures { result ≡ is_below_end end (piece_cover piece.now) }
{
    match end {
        Some(end) => bytes_are_below(piece, end) && Marks::of(piece).lie_below(end),
        None => true,
    }
}

/// Whether the end or the promise, if there is one, is at most the limit.
fn is_at_most(limit: u32, place: Option<u32>) -> bool
    ensures { result ≡ ends_by limit place }
{
    match place {
        Some(place) => place <= limit,
        None => true,
    }
}

/// The greater of two promises, or the one that there is.
fn greater(promise: Option<u32>, other: Option<u32>) -> Option<u32>
    ensures { result ≡ the_greater promise other }
{
    match (promise, other) {
        (Some(promise), Some(other)) => Some(promise.max(other)),
        (Some(promise), None) => Some(promise),
        (None, other) => other,
    }
}
