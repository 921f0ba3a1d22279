//! A row of the table of names.
ghost use Rattle.std.specs.Prelude.{◌≡◌, [], ◌∷◌, None, count_by, if◌then◌else◌};
ghost use Rattle.nb_survey.specs.Hearing.{first_of};
ghost use Rattle.nb_survey.specs.Rows.{are_several, differ, half_of, is_grant, is_marked, later, macs_differ, may_be_unique, row_from, standing_mac, stands};
ghost use Rattle.nb_survey.specs.Code.Steps.{after, counted};

use crate::heard::Said;
use crate::key::same_address;
use crate::word::{Asking, Word};
use std::net::IpAddr;

/// The latest word of an address itself, or of others.
#[derive(Clone, Copy, Debug, PartialEq, Eq)]
pub struct Half {
    /// The word.
    pub word: Word,
    /// Whether its packet is malformed behind what was read.
    pub is_malformed: bool,
    /// Who said it.
    pub by: IpAddr,
    /// In which frame.
    pub frame: u64,
    /// When, in nanoseconds since 1970.
    pub time: Option<u64>,
}

/// How many packets say something of a name at an address.
#[derive(Clone, Copy, Debug, PartialEq, Eq)]
pub struct Tally {
    /// How many, repeats too.
    pub packets: u64,
    /// The frame of the last one.
    pub last: Option<u64>,
}

/// A name at an address, by all that is said of it.
#[derive(Clone, Copy, Debug, PartialEq, Eq)]
pub struct Row {
    /// The first frame that says something.
    pub first: u64,
    /// Whether the name is a group's, by the latest word that tells.
    pub group: Option<bool>,
    /// The latest word of the address itself.
    pub own: Option<Half>,
    /// The latest word of others.
    pub others: Option<Half>,
    /// Whether the later of both is its own.
    pub is_own_later: bool,
    /// How many packets claim it.
    pub claims: Tally,
    /// How many refuse it, or say that it is in conflict.
    pub refusals: Tally,
    /// The TTL of the latest claim that has one, in seconds.
    pub claimed: Option<u32>,
    /// The TTL of the latest grant that has one, in seconds.
    pub granted: Option<u32>,
    /// The MAC of the latest frame that the address sent itself and that says something here.
    pub mac: Option<[u8; 6]>,
}

impl Tally {
    /// The tally, after one more word, with its frame where that counts.
    fn counted(self, frame: Option<u64>) -> Tally
        ensures { result ≡ counted self frame }
    {
        let Some(frame) = frame else {
            return self;
        };
        let packets = match self.last {
            Some(last) if last == frame => self.packets,
            _ => self.packets.saturating_add(1),
        };
        Tally {
            packets,
            last: Some(frame),
        }
    }
}

/// A value where something is so.
fn only_if<T: Copy>(is_so: bool, value: Option<T>) -> Option<T>
    ensures { result ≡ (if is_so then value else None) }
{
    if is_so {
        return value;
    }
    None
}

/// Whether a word grants a name.
fn is_grant(word: Word) -> bool
    ensures { result ≡ is_grant word }
{
    matches!(word, Word::Granted)
}

impl Said {
    /// Who said the word, in which frame, and when.
    pub(crate) fn half(&self) -> Half
        ensures { result ≡ half_of self.now }
    {
        Half {
            word: self.word,
            is_malformed: self.facts.is_malformed,
            by: self.facts.frame.source,
            frame: self.facts.frame.number,
            time: self.facts.frame.time,
        }
    }
}

impl Row {
    /// The row of a name at an address of which this is said first.
    pub(crate) fn first(said: &Said) -> Row
        ensures { result ≡ row_from said.now.facts.frame.number (said.now ∷ []) }
    {
        let none = Tally {
            packets: 0,
            last: None,
        };
        let row = Row {
            first: said.facts.frame.number,
            group: None,
            own: None,
            others: None,
            is_own_later: false,
            claims: none,
            refusals: none,
            claimed: None,
            granted: None,
            mac: None,
        };
        row.after(said)
    }

    /// The row, after one more word.
    pub(crate) fn after(&self, said: &Said) -> Row
        ensures { result ≡ after self.now said.now }
    {
        let half = Some(said.half());
        let is_own = said.word.is_own();
        let is_claim = matches!(said.word.asking(), Some(Asking::Claim));
        let frame = Some(said.facts.frame.number);
        let is_refusal = said.word.is_refusal();
        let ttl = said.facts.ttl;
        let is_sent = same_address(said.facts.frame.source, said.place.address);
        Row {
            first: self.first,
            group: said.group.or(self.group),
            own: only_if(is_own, half).or(self.own),
            others: only_if(!is_own, half).or(self.others),
            is_own_later: is_own,
            claims: self.claims.counted(only_if(is_claim, frame)),
            refusals: self.refusals.counted(only_if(is_refusal, frame)),
            claimed: only_if(is_claim, ttl).or(self.claimed),
            granted: only_if(is_grant(said.word), ttl).or(self.granted),
            mac: only_if(is_sent, said.facts.frame.mac).or(self.mac),
        }
    }

    /// The later half.
    pub fn later(&self) -> Option<Half>
        ensures { result ≡ later self.now }
    {
        if self.is_own_later {
            return self.own;
        }
        self.others
    }

    /// Whether its later half is standing.
    pub fn is_standing(&self) -> bool
        ensures { result ≡ stands self.now }
    {
        match self.later() {
            Some(half) => half.word.is_standing(),
            None => false,
        }
    }

    /// Whether its later half is neither standing nor said to have it.
    pub fn is_marked(&self) -> bool
        ensures { result ≡ is_marked self.now }
    {
        match self.later() {
            Some(half) => !half.word.is_standing() && !matches!(half.word, Word::SaidToHaveIt),
            None => true,
        }
    }

    /// Whether its later half is standing, and it isn't known to be a group's.
    pub fn may_be_unique(&self) -> bool
        ensures { result ≡ may_be_unique self.now }
    {
        self.is_standing() && !self.group.unwrap_or(false)
    }

    /// Its MAC, where it is standing.
    fn standing_mac(&self) -> Option<[u8; 6]>
        ensures { result ≡ standing_mac self.now }
    {
        only_if(self.is_standing(), self.mac)
    }
}

/// Whether both MACs are known, and differ.
fn differ(one: Option<[u8; 6]>, other: Option<[u8; 6]>) -> bool
    ensures { result ≡ differ one other }
{
    match (one, other) {
        (Some(one), Some(other)) => one.as_slice() != other.as_slice(),
        _ => false,
    }
}

/// The MAC of the first of these rows that is standing and has one.
fn first_mac(rows: &[Row]) -> Option<[u8; 6]>
    ensures { result ≡ first_of standing_mac rows.now }
{
    let mut first = None;
    'rows: for row in rows {
        first = first.or(row.standing_mac());
    }
    first
}

/// Whether rows of a name that are of the table of several have a mark: the MACs of those that are
/// standing differ.
pub fn macs_differ(rows: &[Row]) -> bool
    ensures { result ≡ macs_differ rows.now }
{
    let first = first_mac(rows);
    rows.iter().any(|row| differ(first, row.standing_mac()))
}

/// Whether these rows of a name are of the table of several: at least two are standing, and not all
/// of those are a group's.
pub fn are_several(rows: &[Row]) -> bool
    ensures { result ≡ are_several rows.now }
{
    count_standing(rows) >= 2 && count_unique(rows) >= 1
}

/// How many of these rows are standing.
fn count_standing(rows: &[Row]) -> usize
    ensures { result ≡ count_by stands rows.now }
{
    rows.iter().filter(|row| row.is_standing()).count()
}

/// How many of these rows are standing, and not known to be a group's.
fn count_unique(rows: &[Row]) -> usize
    ensures { result ≡ count_by may_be_unique rows.now }
{
    rows.iter().filter(|row| row.may_be_unique()).count()
}
