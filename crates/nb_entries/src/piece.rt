//! Pieces of data, which borrow their bytes.
ghost use Rattle.std.specs.Prelude.{◌≡◌, ◌≤◌, ◌<◌, ◌+◌, length, MatchOption};
ghost use Rattle.nb_datagram.specs.Fragment.{core_of};
ghost use Rattle.nb_datagram.specs.declared.limits.TheConstants.{MAX_LENGTH};
ghost use Rattle.nb_entries.specs.Piece.{piece_of, piece_reach};

use nb_datagram::LentFragment;
use nb_datagram::limits::MAX_LENGTH;
use std::marker::Model;

/// Bytes at a place of some data, and whether more follow them: all that counts of a fragment when
/// data is put together again.
///
/// The bytes are lent; there are at most 65,535.
#[derive(Drop)]
pub struct Piece<'a> {
    offset: u16,
    more: bool,
    bytes: &'a [u8],
}

impl<'a> Model for Piece<'a> {
    ghost use Rattle.std.specs.Prelude.{◌≤◌, length};
    ghost use Rattle.nb_datagram.specs.declared.limits.TheConstants.{MAX_LENGTH};
    ghost use Rattle.nb_entries.specs.Piece.{PieceParts};

    ghost Value = { PieceParts };

    ghost view = { λ p. record { offset = p.offset; bytes = p.bytes.now; more = p.more } };

    ghost invariant = { λ p. length p.bytes.now ≤ MAX_LENGTH };
}

impl<'a> Piece<'a> {
    /// The piece with these bytes, of which the first has the place `offset`, and after which more
    /// follow or not; none where a place after them would be past 65,535.
    pub fn new(offset: u16, more: bool, bytes: &'a [u8]) -> Option<Piece<'a>>
        ensures { MatchOption result
            (MAX_LENGTH < offset + length bytes.entry.now)
            (λ piece. (piece ≡ record { offset = offset; bytes = bytes.entry.now; more = more })
            × (piece_reach piece ≤ MAX_LENGTH)) }
    {
        if bytes.len() > MAX_LENGTH - usize::from(offset) {
            return None;
        }
        Some(Piece {
            offset,
            more,
            bytes,
        })
    }

    /// The piece of a datagram's data that a fragment has.
    pub fn of(fragment: &LentFragment<'a>) -> Piece<'a>
        ensures { result ≡ piece_of (core_of fragment.now) }
    {
        Piece {
            offset: fragment.offset(),
            more: fragment.has_more(),
            bytes: fragment.bytes(),
        }
    }

    /// The place of the first byte.
    pub(crate) fn start(&self) -> u32
        ensures { result ≡ self.now.offset }
    {
        u32::from(self.offset)
    }

    /// The bytes.
    pub fn bytes(&self) -> &'a [u8]
        ensures { result.now ≡ self.now.bytes }
    {
        self.bytes
    }

    /// Whether more follow.
    pub(crate) fn has_more(&self) -> bool
        ensures { result ≡ self.now.more }
    {
        self.more
    }

    /// The place after the last byte.
    pub(crate) fn reach(&self) -> u32
        ensures { result ≡ piece_reach self.now }
    {
        u32::from(self.offset) + self.bytes.len() as u32
    }
}
