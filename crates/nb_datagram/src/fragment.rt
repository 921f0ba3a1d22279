//! Fragments of datagrams, which borrow their data.
ghost use Rattle.std.specs.Prelude.{◌≡◌, ◌≤◌, ◌<◌, ◌+◌, length, MatchResult};
ghost use Rattle.nb_datagram.specs.Fragment.{named_length, has_more, is_first};
ghost use Rattle.nb_datagram.specs.declared.limits.TheConstants.{MAX_LENGTH};
ghost use Rattle.std.specs.Cmp.{decided, partial_equiv_from_equiv};
ghost use Rattle.nb_datagram.specs.Equality.{fragment_eq};
ghost use Rattle.nb_datagram.specs.EqualityFacts.{fragment_eq_decides};

use crate::fault::TooLong;
use crate::key::{Key, Kind};
use crate::limits::{FIRST, MAX_LENGTH, MORE};
use nb_names::{LentName, Name, NameForm};
use std::marker::Model;

/// A part of a datagram's data, as one packet carries it, and what says which datagram it is of.
/// Its names stand in the form `N`.
///
/// The data is lent. Both names, spelled plainly, and the data have at most 65,535 bytes together.
/// RFC 1002 section 4.4.2; that each fragment carries both names is our choice.
#[derive(Drop)]
pub struct Fragment<'a, N: NameForm = Name> {
    kind: Kind,
    flags: u8,
    key: Key,
    offset: u16,
    source: N,
    destination: N,
    bytes: &'a [u8],
}

/// A fragment whose names are lent too. It takes a few words, where one whose names stand in place
/// has room for both scopes.
pub type LentFragment<'a> = Fragment<'a, LentName<'a>>;

impl<'a, N: NameForm> Model for Fragment<'a, N> {
    ghost use Rattle.std.specs.Prelude.{◌≤◌};
    ghost use Rattle.nb_datagram.specs.Fragment.{FragmentParts, named_length};
    ghost use Rattle.nb_datagram.specs.declared.limits.TheConstants.{MAX_LENGTH};

    ghost Value = { FragmentParts };

    ghost view = { λ f. record {
      kind = f.kind;
      flags = f.flags;
      key = f.key;
      offset = f.offset;
      source = N.name f.source;
      destination = N.name f.destination;
      bytes = f.bytes.now;
    } };

    ghost invariant = { λ f. named_length (N.name f.source) (N.name f.destination) f.bytes.now
        ≤ MAX_LENGTH };
}

impl<'a, N: NameForm> Fragment<'a, N> {
    /// A fragment of these parts. `flags` is the packet's FLAGS, of which any bits may be set, and
    /// `offset` the place of the first byte of `bytes` in the datagram's data.
    ///
    /// # Errors
    ///
    /// `TooLong` where both names, spelled plainly, and the data pass 65,535 bytes together.
    pub fn new(
        kind: Kind,
        flags: u8,
        key: Key,
        offset: u16,
        source: N,
        destination: N,
        bytes: &'a [u8],
    ) -> Result<Fragment<'a, N>, TooLong>
        ensures { MatchResult result
            (λ fragment. (fragment ≡ record {
              kind = kind;
              flags = flags;
              key = key;
              offset = offset;
              source = N.name source;
              destination = N.name destination;
              bytes = bytes.entry.now;
            }) × (named_length (N.name source) (N.name destination) bytes.entry.now
            ≤ MAX_LENGTH))
            (λ _. MAX_LENGTH
            < named_length (N.name source) (N.name destination) bytes.entry.now) }
    {
        if source.spelled_len() + destination.spelled_len() + bytes.len() > MAX_LENGTH {
            return Err(TooLong);
        }
        Ok(Fragment::with_parts(kind, flags, key, offset, source, destination, bytes))
    }

    /// A fragment of these parts, which are known to fit.
    pub(crate) fn with_parts(
        kind: Kind,
        flags: u8,
        key: Key,
        offset: u16,
        source: N,
        destination: N,
        bytes: &'a [u8],
    ) -> Fragment<'a, N>
        requires { named_length (N.name source) (N.name destination) bytes.now ≤ MAX_LENGTH }
        ensures { result ≡ record {
          kind = kind;
          flags = flags;
          key = key;
          offset = offset;
          source = N.name source;
          destination = N.name destination;
          bytes = bytes.entry.now;
        } }
    {
        Fragment {
            kind,
            flags,
            key,
            offset,
            source,
            destination,
            bytes,
        }
    }

    /// Whom the datagram is for.
    pub fn kind(&self) -> Kind
        ensures { result ≡ self.now.kind }
    {
        self.kind
    }

    /// The packet's FLAGS, all eight bits.
    pub fn flags(&self) -> u8
        ensures { result ≡ self.now.flags }
    {
        self.flags
    }

    /// Which datagram it is of.
    pub fn key(&self) -> Key
        ensures { result ≡ self.now.key }
    {
        self.key
    }

    /// The place of the first data byte in the datagram's data.
    pub fn offset(&self) -> u16
        ensures { result ≡ self.now.offset }
    {
        self.offset
    }

    /// The sender's name.
    pub fn source(&self) -> &N
        ensures { N.name result.now ≡ self.now.source }
    {
        &self.source
    }

    /// The name that the datagram is for.
    pub fn destination(&self) -> &N
        ensures { N.name result.now ≡ self.now.destination }
    {
        &self.destination
    }

    /// The data.
    pub fn bytes(&self) -> &'a [u8]
        ensures value { result.now ≡ self.now.bytes }
        ensures within { named_length self.now.source self.now.destination
            self.now.bytes ≤ MAX_LENGTH }
    {
        self.bytes
    }

    /// How many bytes both names, spelled plainly, and the data have: the packet's DGM_LENGTH.
    pub(crate) fn named_length(&self) -> u16
        ensures { result ≡ named_length self.now.source self.now.destination self.now.bytes }
    {
        let names = self.source.spelled_len() + self.destination.spelled_len();
        (names + self.bytes.len()) as u16
    }

    /// Whether FLAGS says that this is the datagram's first fragment.
    pub fn is_first(&self) -> bool
        ensures { result ≡ is_first self.now.flags }
    {
        self.flags & FIRST != 0
    }

    /// Whether FLAGS says that more fragments follow.
    pub fn has_more(&self) -> bool
        ensures { result ≡ has_more self.now.flags }
    {
        self.flags & MORE != 0
    }

    /// The place after the last data byte: the offset plus how many bytes there are.
    pub fn reach(&self) -> u32
        ensures { result ≡ self.now.offset + length self.now.bytes }
    {
        u32::from(self.offset) + self.bytes.len() as u32
    }

    /// The same fragment, with the same names in another form.
    fn with_names<M: NameForm>(&self, source: M, destination: M) -> Fragment<'a, M>
        requires source { M.name source ≡ self.now.source }
        requires destination { M.name destination ≡ self.now.destination }
        ensures { result ≡ self.now }
    {
        Fragment {
            kind: self.kind,
            flags: self.flags,
            key: self.key,
            offset: self.offset,
            source,
            destination,
            bytes: self.bytes,
        }
    }

    /// The same fragment, with its names in place. No memory is taken.
    pub fn to_fragment(&self) -> Fragment<'a>
        ensures { result ≡ self.now }
    {
        self.with_names(
            self.source.lent().to_name(),
            self.destination.lent().to_name(),
        )
    }

    /// The same fragment, with its names lent. No memory is taken.
    pub fn lent(&self) -> LentFragment<'_>
        ensures { result ≡ self.now }
    {
        self.with_names(self.source.lent(), self.destination.lent())
    }
}

impl<N: NameForm> PartialEq for Fragment<'_, N> {
    ghost eq = { fragment_eq };

    ghost laws = { partial_equiv_from_equiv (decided fragment_eq fragment_eq_decides) };

    fn eq(&self, other: &Self) -> bool
        ensures { result ≡ fragment_eq self.now other.now }
    {
        self.kind == other.kind
            && self.flags == other.flags
            && self.key == other.key
            && self.offset == other.offset
            && self.source.is_same(&other.source)
            && self.destination.is_same(&other.destination)
            && self.bytes == other.bytes
    }
}

impl<N: NameForm> Eq for Fragment<'_, N> {
    ghost laws = { decided fragment_eq fragment_eq_decides };
}
