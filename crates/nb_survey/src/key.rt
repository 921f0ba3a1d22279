//! What rows are of, and their order.
ghost use Rattle.std.specs.Prelude.{◌≡◌, Some};
ghost use Rattle.std.specs.Option.{option_cmp};
ghost use Rattle.std.proofs.Common.{rules};
ghost use Rattle.std.specs.Cmp.{eq_by_cmp_equiv, partial_equiv_from_equiv, partial_order_from_total};
ghost use Rattle.std.specs.Cmp.Rules.{comparing};
ghost use Rattle.std.specs.Ordering.{as_partial_cmp};
ghost use Rattle.nb_survey.specs.KeyFacts.{key_cmp_total};
ghost use Rattle.nb_survey.specs.Keys.{key_cmp, name_key, number_of, rank, reason_cmp, refusal_key, same_key};
ghost use Rattle.nb_survey.specs.Places.{address_cmp, same_address};

use crate::heard::Said;
use crate::word::Word;
use nb_names::DomainName;
use std::cmp::Ordering;
use std::net::IpAddr;

/// The order of addresses: those of IPv4 first.
pub(crate) fn address_order(one: IpAddr, other: IpAddr) -> Ordering
    ensures { result ≡ address_cmp one other }
{
    match (one, other) {
        (IpAddr::V4(one), IpAddr::V4(other)) => one.octets().cmp(&other.octets()),
        (IpAddr::V4(_), IpAddr::V6(_)) => Ordering::Less,
        (IpAddr::V6(_), IpAddr::V4(_)) => Ordering::Greater,
        (IpAddr::V6(one), IpAddr::V6(other)) => one.segments().cmp(&other.segments()),
    }
}

/// Whether two addresses are one.
pub(crate) fn same_address(one: IpAddr, other: IpAddr) -> bool
    ensures { result ≡ same_address one other }
{
    address_order(one, other) == Ordering::Equal
}

/// Of what a row is. Rows stand in the order of names, then of addresses, those of IPv4 first.
#[derive(Debug, Drop)]
pub struct Key {
    /// The name.
    pub name: DomainName,
    /// The address.
    pub address: IpAddr,
    /// Why the name is refused, in the table of refusals; none in that of names.
    pub reason: Option<Reason>,
}

/// Who refuses a name, and with which word.
#[derive(Clone, Copy, Debug, PartialEq, Eq)]
pub struct Reason {
    /// Who refuses it.
    pub by: IpAddr,
    /// The word.
    pub word: Word,
    /// Whether the packet is malformed behind what was read.
    pub is_malformed: bool,
}

impl Word {
    /// The place of a word among reasons.
    fn number(self) -> u16
        ensures { result ≡ number_of self }
    {
        match self {
            Word::ToldOfConflict => 0,
            Word::ListsInConflict => 1,
            Word::Refused(code) => 2 + 2 * u16::from(code),
            Word::NotReleased(code) => 3 + 2 * u16::from(code),
            _ => 1000,
        }
    }
}

impl Reason {
    /// The place of a reason among others.
    fn rank(&self) -> u32
        ensures { result ≡ rank self.now }
    {
        2 * u32::from(self.word.number()) + u32::from(self.is_malformed)
    }
}

/// The order of reasons; no reason is the first.
fn reason_order(one: Option<Reason>, other: Option<Reason>) -> Ordering
    ensures { result ≡ option_cmp reason_cmp one other }
{
    match (one, other) {
        (None, None) => Ordering::Equal,
        (None, Some(_)) => Ordering::Less,
        (Some(_), None) => Ordering::Greater,
        (Some(one), Some(other)) => one
            .rank()
            .cmp(&other.rank())
            .then_with(|| address_order(one.by, other.by)),
    }
}

impl Said {
    /// Its row in the table of names.
    pub(crate) fn name_key(&self) -> Key
        ensures { Some result ≡ name_key self.now }
    {
        Key {
            name: self.place.name.copied(),
            address: self.place.address,
            reason: None,
        }
    }

    /// Its row in the table of refusals; none of a word that refuses nothing.
    pub(crate) fn refusal_key(&self) -> Option<Key>
        ensures { result ≡ refusal_key self.now }
    {
        if !self.word.is_refusal() {
            return None;
        }
        Some(Key {
            name: self.place.name.copied(),
            address: self.place.address,
            reason: Some(Reason {
                by: self.facts.frame.source,
                word: self.word,
                is_malformed: self.facts.is_malformed,
            }),
        })
    }
}

impl PartialEq for Key {
    ghost eq = { same_key };

    ghost laws = { partial_equiv_from_equiv (eq_by_cmp_equiv key_cmp_total) };

    fn eq(&self, other: &Self) -> bool {
        self.cmp(other) == Ordering::Equal
    }
}

impl Eq for Key {
    ghost laws = { eq_by_cmp_equiv key_cmp_total };
}

impl Ord for Key {
    ghost cmp = { key_cmp };

    ghost total = { key_cmp_total };

    ghost matches_partial_cmp = { Prim.search (comparing, rules) };

    ghost matches_eq = { Prim.search (comparing, rules) };

    fn cmp(&self, other: &Self) -> Ordering {
        self.name
            .cmp(&other.name)
            .then_with(|| address_order(self.address, other.address))
            .then_with(|| reason_order(self.reason, other.reason))
    }
}

impl PartialOrd for Key {
    ghost partial_cmp = { as_partial_cmp key_cmp };

    ghost laws = { partial_order_from_total key_cmp_total };

    fn partial_cmp(&self, other: &Self) -> Option<Ordering> {
        Some(self.cmp(other))
    }
}
