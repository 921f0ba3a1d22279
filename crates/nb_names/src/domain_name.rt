//! Domain names, held in place or with spellings that are lent.
ghost use Rattle.std.specs.Prelude.{◌≡◌, ◌≤◌, ◌<◌, ◌↔◌, [], ◌∷◌, length, slice_get, option_map, IsTrue, MatchOption, IfOk, ℕ, List};
ghost use Rattle.std.proofs.Common.{rules};
ghost use Rattle.std.specs.Cmp.{partial_order_from_own_ties};
ghost use Rattle.std.specs.Cmp.Rules.{comparing};
ghost use Rattle.std.specs.Ordering.{as_partial_cmp};
ghost use Rattle.nb_names.specs.Code.Kept.{labels_of, IsSpelled, given_back};
ghost use Rattle.nb_names.specs.DomainName.{spelling, domain_eq, domain_cmp, AreByteLabels, IsLabel, IsDomain, Pushes};
ghost use Rattle.nb_streams.specs.Places.{AreBytes};
ghost use Rattle.nb_names.specs.declared.limits.TheConstants.{MAX_SPELLING};

use crate::fault::LabelFault;
use crate::limits::{MAX_LABEL, MAX_SPELLING};
use crate::spellings::{count_labels, each_is_a_byte, label_at, split_label};
use arrayvec::ArrayVec;
use nb_streams::{Bytes, NoMemory};
use std::alloc::Global;
use std::cmp::Ordering;
use std::marker::Model;

/// A domain name: labels of 1 to 63 bytes, whose spelling has at most 255 bytes.
///
/// It is held in place, without memory. Names are equal, and ordered, by the bytes of their
/// spellings, byte for byte. That is our choice, and a departure: RFC 1001 hands domain names over
/// to RFC 883, which ignores the case of letters.
#[derive(Clone, Debug, Drop, Eq)]
pub struct DomainName {
    /// The spelling, its zero byte included.
    bytes: ArrayVec<u8, MAX_SPELLING>,
}

impl Model for DomainName {
    ghost Value = { List (List ℕ) };

    ghost view = { λ name. labels_of name.bytes.items };

    ghost invariant = { λ name. IsSpelled name.bytes.items };

    ghost inverse = { λ labels. record { bytes = record { items = spelling labels } } };

    ghost inverse_ok = { λ name spelled i. record { bytes = given_back name.bytes spelled i } };
}

impl DomainName {
    /// The name without labels.
    pub fn root() -> Self
        ensures { result ≡ [] }
    {
        let mut bytes = ArrayVec::new();
        bytes.push(0);
        DomainName { bytes }
    }

    /// How many labels the name has.
    pub fn len(&self) -> usize
        ensures { result ≡ length self.now }
    {
        count_labels(self.bytes.as_slice())
    }

    /// Whether the name has no label.
    pub fn is_empty(&self) -> bool
        ensures { IsTrue result ↔ (self.now ≡ []) }
    {
        self.bytes.len() == 1
    }

    /// The label at a place, counted from 0.
    pub fn label(&self, place: usize) -> Option<&[u8]>
        ensures { option_map (λ label. label.now) result ≡ slice_get self.now place }
    {
        label_at(self.bytes.as_slice(), place)
    }

    /// The spelling: the labels, each after its length, and a zero byte.
    ///
    /// RFC 1001 section 14.2.
    pub fn spelling(&self) -> &[u8]
        ensures value { result.now ≡ spelling self.now }
        ensures domain { IsDomain self.now }
        ensures bytes { AreBytes result.now }
        ensures labels { AreByteLabels self.now }
    {
        let bytes = self.bytes.as_slice();
        each_is_a_byte(bytes);
        bytes
    }

    /// How many bytes the spelling has, its zero byte included.
    pub fn spelled_len(&self) -> usize
        ensures value { result ≡ length (spelling self.now) }
        ensures domain { IsDomain self.now }
    {
        self.bytes.len()
    }

    /// The same name. No memory is taken.
    pub fn copied(&self) -> DomainName
        ensures { result ≡ self.now }
    {
        let mut bytes = ArrayVec::new();
        bytes.try_extend_from_slice(self.bytes.as_slice()).unwrap();
        DomainName { bytes }
    }

    /// The name of a label before the labels of another name.
    pub(crate) fn with_first(label: &[u8], rest: &DomainName) -> DomainName
        requires label { IsLabel label.now }
        requires short { length (spelling (label.now ∷ rest.now)) ≤ MAX_SPELLING }
        ensures { result ≡ label.now ∷ rest.now }
    {
        let mut bytes = ArrayVec::new();
        bytes.push(label.len() as u8);
        bytes.try_extend_from_slice(label).unwrap();
        bytes.try_extend_from_slice(rest.spelling()).unwrap();
        DomainName { bytes }
    }

    /// The first label, and the spelling of the labels after it.
    pub(crate) fn split_first(&self) -> Option<(&[u8], &[u8])>
        ensures split { MatchOption result (self.now ≡ [])
            (λ split. (self.now ≡ split.0.now ∷ labels_of split.1.now) × IsSpelled split.1.now) }
        ensures domain { IsDomain self.now }
    {
        split_label(self.bytes.as_slice())
    }

    /// The name with this spelling.
    pub(crate) fn of_spelling(spelled: &[u8]) -> DomainName
        requires { IsSpelled spelled.now }
        ensures { result ≡ labels_of spelled.now }
    {
        let mut bytes = ArrayVec::new();
        bytes.try_extend_from_slice(spelled).unwrap();
        DomainName { bytes }
    }

    /// Adds a label after the others.
    ///
    /// # Errors
    ///
    /// The first fault that applies, in [`LabelFault`]'s order. The name is then as it was.
    ///
    /// RFC 1002 section 4.1 has the limits of 63 and 255 bytes.
    pub fn push(&mut self, label: &[u8]) -> Result<(), LabelFault>
        ensures { Pushes MAX_SPELLING self.old self.new label.now result }
    {
        self.push_within(label, MAX_SPELLING)
    }

    /// Adds a label after the others, if the spelling then has at most this many bytes.
    pub(crate) fn push_within(&mut self, label: &[u8], limit: usize) -> Result<(), LabelFault>
        requires { limit ≤ MAX_SPELLING }
        ensures { Pushes limit self.old self.new label.now result }
    {
        if label.is_empty() {
            return Err(LabelFault::EmptyLabel);
        }
        if label.len() > MAX_LABEL {
            return Err(LabelFault::LabelTooLong);
        }
        if self.bytes.len() + 1 + label.len() > limit {
            return Err(LabelFault::TooLong);
        }
        self.bytes.pop();
        self.bytes.push(label.len() as u8);
        self.bytes.try_extend_from_slice(label).unwrap();
        self.bytes.push(0);
        Ok(())
    }
}

impl PartialEq for DomainName {
    ghost eq = { domain_eq };

    ghost laws = { Prim.search (comparing, rules) };

    fn eq(&self, other: &Self) -> bool
        ensures value { result ≡ domain_eq self.now other.now }
        ensures same { IsTrue result ↔ (self.now ≡ other.now) }
    {
        self.bytes == other.bytes
    }
}

impl Ord for DomainName {
    ghost cmp = { domain_cmp };

    ghost total = { Prim.search (comparing, rules) };

    ghost matches_partial_cmp = { Prim.search (comparing, rules) };

    ghost matches_eq = { Prim.search (comparing, rules) };

    fn cmp(&self, other: &Self) -> Ordering {
        self.bytes.cmp(&other.bytes)
    }
}

impl PartialOrd for DomainName {
    ghost partial_cmp = { as_partial_cmp domain_cmp };

    ghost laws = { partial_order_from_own_ties (Prim.search (comparing, rules))
        (Prim.search (comparing, rules)) };

    fn partial_cmp(&self, other: &Self) -> Option<Ordering> {
        Some(self.cmp(other))
    }
}

/// The spelling of a domain name: its labels, each after its length, and a zero byte.
///
/// # Errors
///
/// [`NoMemory`] where memory ran out.
///
/// RFC 1001 section 14.2.
pub fn write_domain(alloc: Global, domain: &DomainName) -> Result<Bytes, NoMemory>
    ensures written { IfOk result (λ bytes. bytes ≡ spelling domain.now) }
    ensures bytes { IfOk result AreBytes }
{
    Bytes::copy(alloc, domain.spelling())
}

/// A domain name whose spelling is lent, from a packet or from a [`DomainName`].
#[derive(Drop)]
pub struct LentDomain<'a> {
    /// The spelling, its zero byte included.
    bytes: &'a [u8],
}

impl<'a> Model for LentDomain<'a> {
    ghost Value = { List (List ℕ) };

    ghost view = { λ name. labels_of name.bytes.now };

    ghost invariant = { λ name. IsSpelled name.bytes.now };
}

impl<'a> LentDomain<'a> {
    /// The name with this spelling.
    pub(crate) fn of_spelling(bytes: &'a [u8]) -> LentDomain<'a>
        requires { IsSpelled bytes.now }
        ensures { result ≡ labels_of bytes.entry.now }
    {
        LentDomain { bytes }
    }

    /// The spelling: the labels, each after its length, and a zero byte.
    ///
    /// RFC 1001 section 14.2.
    pub fn spelling(&self) -> &'a [u8]
        ensures value { result.now ≡ spelling self.now }
        ensures domain { IsDomain self.now }
    {
        self.bytes
    }

    /// The name in place. No memory is taken.
    pub fn to_domain(&self) -> DomainName
        ensures { result ≡ self.now }
    {
        DomainName::of_spelling(self.bytes)
    }

    /// The first label, and the spelling of the labels after it.
    pub(crate) fn split_first(&self) -> Option<(&'a [u8], &'a [u8])>
        ensures split { MatchOption result (self.now ≡ [])
            (λ split. (self.now ≡ split.0.now ∷ labels_of split.1.now) × IsSpelled split.1.now) }
        ensures domain { IsDomain self.now }
    {
        split_label(self.bytes)
    }
}

impl DomainName {
    /// The same name, lent. No memory is taken.
    pub fn lent(&self) -> LentDomain<'_>
        ensures { result ≡ self.now }
    {
        LentDomain::of_spelling(self.spelling())
    }
}
