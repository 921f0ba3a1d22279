//! Whole datagrams, their data, and the pieces into which they are cut.
ghost use Rattle.std.specs.Prelude.{◌≡◌, ◌≤◌, ◌<◌, length, MatchResult, ◌↔◌, ◌+◌, min, IfOk, IsErrOf, List, ℕ};
ghost use Rattle.nb_datagram.specs.Fragment.{datagram_by, DatagramParts};
ghost use Rattle.nb_datagram.specs.declared.limits.TheConstants.{MAX_LENGTH};
ghost use Rattle.nb_datagram.specs.Packet.{name_bytes};
ghost use Rattle.nb_datagram.specs.Pieces.{piece_count, piece as piece_of, pieces as pieces_of, AreTooLong};
ghost use Rattle.std.specs.Cmp.{decided, partial_equiv_from_equiv};
ghost use Rattle.nb_datagram.specs.Equality.{datagram_eq};
ghost use Rattle.nb_datagram.specs.EqualityFacts.{datagram_eq_decides};

use crate::fault::{CutFault, TooLong};
use crate::fragment::{Fragment, LentFragment};
use crate::key::{Key, Kind};
use crate::limits::{FIRST, MAX_LENGTH, MORE};
use crate::packet::Pieces;
use nb_names::{LentName, Name, NameForm};
use nb_streams::Bytes;
use std::alloc::Global;
use std::marker::Model;

/// A datagram: its key, whom it is for, both names, and its data of at most 65,535 bytes.
#[derive(Drop)]
pub struct Datagram {
    key: Key,
    kind: Kind,
    source: Name,
    destination: Name,
    bytes: UserData,
}

impl Model for Datagram {
    ghost Value = { DatagramParts };

    ghost view = { λ d. record {
      key = d.key;
      kind = d.kind;
      source = d.source;
      destination = d.destination;
      bytes = d.bytes;
    } };
}

impl Datagram {
    /// A datagram of these parts. No memory is taken.
    ///
    /// # Errors
    ///
    /// `TooLong` where the data has more than 65,535 bytes.
    pub fn new(
        key: Key,
        kind: Kind,
        source: Name,
        destination: Name,
        bytes: Bytes,
    ) -> Result<Datagram, TooLong>
        ensures { MatchResult result
            (λ datagram. (datagram ≡ record {
              key = key;
              kind = kind;
              source = source;
              destination = destination;
              bytes = bytes;
            }) × (length bytes ≤ MAX_LENGTH))
            (λ _. MAX_LENGTH < length bytes) }
    {
        if bytes.as_slice().len() > MAX_LENGTH {
            return Err(TooLong);
        }
        Ok(Datagram {
            key,
            kind,
            source,
            destination,
            bytes: UserData::new(bytes),
        })
    }

    /// A datagram of these parts, whose names are lent. No memory is taken.
    pub fn of_lent(
        key: Key,
        kind: Kind,
        source: &LentName<'_>,
        destination: &LentName<'_>,
        bytes: UserData,
    ) -> Datagram
        ensures { result ≡ record {
          key = key;
          kind = kind;
          source = source.now;
          destination = destination.now;
          bytes = bytes;
        } }
    {
        Datagram {
            key,
            kind,
            source: source.to_name(),
            destination: destination.to_name(),
            bytes,
        }
    }

    /// The datagram that a fragment is of, with this data. No memory is taken.
    pub fn of_fragment(fragment: &LentFragment<'_>, bytes: UserData) -> Datagram
        ensures { result ≡ datagram_by fragment.now bytes }
    {
        let source = fragment.source();
        let destination = fragment.destination();
        Datagram::of_lent(fragment.key(), fragment.kind(), source, destination, bytes)
    }

    /// The sender's address, port and identifier.
    pub fn key(&self) -> Key
        ensures { result ≡ self.now.key }
    {
        self.key
    }

    /// Whom it is for.
    pub fn kind(&self) -> Kind
        ensures { result ≡ self.now.kind }
    {
        self.kind
    }

    /// The sender's name.
    pub fn source(&self) -> &Name
        ensures { result.now ≡ self.now.source }
    {
        &self.source
    }

    /// The name that it is for.
    pub fn destination(&self) -> &Name
        ensures { result.now ≡ self.now.destination }
    {
        &self.destination
    }

    /// The data.
    pub fn bytes(&self) -> &[u8]
        ensures value { result.now ≡ self.now.bytes }
        ensures within { length self.now.bytes ≤ MAX_LENGTH }
    {
        self.bytes.as_slice()
    }
}

impl PartialEq for Datagram {
    ghost eq = { datagram_eq };

    ghost laws = { partial_equiv_from_equiv (decided datagram_eq datagram_eq_decides) };

    fn eq(&self, other: &Self) -> bool
        ensures { result ≡ datagram_eq self.now other.now }
    {
        self.key == other.key
            && self.kind == other.kind
            && self.source == other.source
            && self.destination == other.destination
            && self.bytes() == other.bytes()
    }
}

impl Eq for Datagram {
    ghost laws = { decided datagram_eq datagram_eq_decides };
}

/// The data of a datagram: at most 65,535 bytes.
#[derive(Drop)]
pub struct UserData {
    bytes: Bytes,
}

impl Model for UserData {
    ghost Value = { List ℕ };

    ghost view = { λ d. d.bytes };

    ghost invariant = { λ d. length d.bytes ≤ MAX_LENGTH };
}

impl UserData {
    /// Data of these bytes, which are at most 65,535. No memory is taken.
    pub fn new(bytes: Bytes) -> UserData
        requires { length bytes ≤ MAX_LENGTH }
        ensures { result ≡ bytes }
    {
        UserData { bytes }
    }

    /// The bytes.
    pub fn as_slice(&self) -> &[u8]
        ensures value { result.now ≡ self.now }
        ensures within { length self.now ≤ MAX_LENGTH }
    {
        self.bytes.as_slice()
    }
}

/// Cuts a datagram into pieces of at most `most` bytes of data, in order. They borrow its data.
///
/// Each piece but the last has `most` bytes and M set; the first has F set. FLAGS has no other bit.
/// A datagram without data has one piece.
///
/// # Errors
///
/// The first that applies, in [`CutFault`]'s order; the first two whatever memory there is.
///
/// The form of fragments is our choice, and departs from RFC 1002 section 5.3: each carries both
/// names, and its offset is a place in the data.
pub fn cut(alloc: Global, datagram: &Datagram, most: u16) -> Result<Pieces<'_>, CutFault>
    ensures value { IfOk result (λ list. list ≡ pieces_of datagram.now most) }
    ensures zero { IsErrOf result CutFault.ZeroPiece ↔ (most ≡ 0) }
    ensures too_long { IsErrOf result CutFault.TooLong ↔
        ((1 ≤ most) × AreTooLong datagram.now most) }
{
    if most == 0 {
        return Err(CutFault::ZeroPiece);
    }
    let most = most as usize;
    let size = datagram.bytes().len();
    let names = datagram.source().spelled_len() + datagram.destination().spelled_len();
    if names + size.min(most) > MAX_LENGTH {
        return Err(CutFault::TooLong);
    }
    let count = count_pieces(size, most);
    let mut pieces = Vec::new(alloc);
    for place in 0..count {
        pieces.push(piece(datagram, most, place, count))?;
    }
    Ok(Pieces::from_vec(pieces))
}

/// How many pieces of `most` bytes so many bytes have: at least one.
fn count_pieces(size: usize, most: usize) -> usize
    requires some { 1 ≤ most }
    requires size { size ≤ MAX_LENGTH }
    requires most { most ≤ MAX_LENGTH }
    ensures { result ≡ piece_count size most }
{
    ((size + most - 1) / most).max(1)
}

/// The piece at a place among so many.
fn piece<'a>(datagram: &'a Datagram, most: usize, place: usize, count: usize) -> Fragment<'a>
    requires some { 1 ≤ most }
    requires most { most ≤ MAX_LENGTH }
    requires count { count ≡ piece_count (length datagram.now.bytes) most }
    requires place { place < count }
    requires short { length (name_bytes datagram.now.source)
        + length (name_bytes datagram.now.destination)
        + min (length datagram.now.bytes) most ≤ MAX_LENGTH }
    ensures { result ≡ piece_of datagram.now most place }
{
    let bytes = datagram.bytes();
    let start = place * most;
    let end = bytes.len().min(start + most);
    let first = if place == 0 { FIRST } else { 0 };
    let more = if place + 1 < count { MORE } else { 0 };
    Fragment::with_parts(
        datagram.kind(),
        first + more,
        datagram.key(),
        start as u16,
        datagram.source().copied(),
        datagram.destination().copied(),
        &bytes[start..end],
    )
}
