//! Queries and node status requests, with their repeats and what came of them.
ghost use Rattle.std.specs.Prelude.{◌≡◌, ◌≤◌, ◌<◌, ◌+◌, IfOk, true, length, map};
ghost use Rattle.std.specs.List.{list_any};
ghost use Rattle.nb_survey.specs.Queries.{begun, changed, ended, fits, fits_kind, is_answer, is_fresh, is_looked_up, is_of, is_waiting, meets, missed, moment, outcome_of, repeated, repeats, replied, step, taken, turn_of};
ghost use Rattle.nb_survey.specs.declared.limits.TheConstants.{MAX_REQUESTS};

use crate::heard::Heard;
use crate::key::same_address;
use crate::limits::{ANSWERING, MAX_FRAMES};
use crate::requests::is_counted;
use nb_service::{opcode, rcode};
use nb_streams::NoMemory;
use std::net::IpAddr;

/// What a response says to a query.
#[derive(Clone, Copy, Debug, PartialEq, Eq)]
pub enum Outcome {
    /// A positive query response, or a node status.
    Answered,
    /// A response of RCODE 0 with another type, which leads elsewhere.
    Redirected,
    /// A negative response, with its RCODE.
    Refused(u8),
    /// A response of another station than the one asked.
    OfAnother,
    /// A response later than 10 s after the latest repeat: how much after it, in nanoseconds.
    Late(u64),
}

/// A response to a query.
#[derive(Clone, Copy, Debug, PartialEq, Eq)]
pub struct Reply {
    /// What it says.
    pub outcome: Outcome,
    /// Who sent it.
    pub by: IpAddr,
    /// Its frame.
    pub frame: u64,
}

/// A query (RFC 1002 section 4.2.12) or a node status request (4.2.17), with its repeats and what
/// came of it.
#[derive(Clone, Copy, Debug, PartialEq, Eq)]
pub struct Query {
    /// Its identifier, NAME_TRN_ID.
    pub id: u16,
    /// Its type; none where it is cut before that.
    pub kind: Option<u16>,
    /// Who sent it.
    pub asker: IpAddr,
    /// Where it went.
    pub station: IpAddr,
    /// Whether it went to a group.
    pub is_to_group: bool,
    /// When the first packet came, in nanoseconds since 1970.
    pub since: Option<u64>,
    /// When the latest one came, in nanoseconds since 1970; 0 where its frame has no time.
    pub latest: u64,
    /// How many packets it is.
    pub packets: u64,
    /// The frames of the first 16 of them, with zeros after these.
    pub frames: [u64; 16],
    /// Whether a later query has its identifier, type and addresses.
    pub is_over: bool,
    /// Whether a response belongs to it.
    pub is_closed: bool,
    /// Whether a positive one does.
    pub is_answered: bool,
    /// The latest response that counts.
    pub reply: Option<Reply>,
}

/// What a packet is to the queries about its name.
#[derive(Clone, Copy, Debug, PartialEq, Eq)]
pub(crate) enum Turn {
    /// A repeat of one.
    Repeats,
    /// Another one.
    Begins,
    /// A response that belongs to those that were sent to its sender.
    OfSender,
    /// One that belongs to those that were sent to a group.
    OfGroup,
    /// One that belongs to none.
    OfNone,
    /// Neither.
    Other,
}

/// The time of a packet; that of one without a time is the start of 1970.
fn moment(heard: &Heard) -> u64
    ensures { result ≡ moment heard.now }
{
    heard.facts.frame.time.unwrap_or(0)
}

/// Whether a type is one that is looked up: NB, or NBSTAT.
fn is_looked_up(kind: u16) -> bool
    ensures { result ≡ is_looked_up kind }
{
    kind == 32 || kind == 33
}

/// Whether a response with the one type may answer a query with the other.
fn fits_kind(told: Option<u16>, asked: Option<u16>) -> bool
    ensures { result ≡ fits_kind told asked }
{
    match (told, asked) {
        (Some(told), Some(asked)) => told == asked || !is_looked_up(told),
        _ => true,
    }
}

/// What a response that belongs to a query says to it.
fn outcome_of(heard: &Heard) -> Outcome
    ensures { result ≡ outcome_of heard.now }
{
    let code = rcode(heard.flags);
    if code != 0 {
        return Outcome::Refused(code);
    }
    match heard.kind {
        Some(kind) if !is_looked_up(kind) => Outcome::Redirected,
        _ => Outcome::Answered,
    }
}

impl Query {
    /// A query of which this is the first packet.
    fn begun(heard: &Heard) -> Query
        ensures { result ≡ begun heard.now }
    {
        let frame = heard.facts.frame;
        let mut frames = [0; MAX_FRAMES];
        frames[0] = frame.number;
        Query {
            id: heard.facts.id,
            kind: heard.kind,
            asker: frame.source,
            station: frame.target,
            is_to_group: frame.is_to_group.unwrap_or(heard.flags & 0x10 != 0),
            since: frame.time,
            latest: moment(heard),
            packets: 1,
            frames,
            is_over: false,
            is_closed: false,
            is_answered: false,
            reply: None,
        }
    }

    /// Whether a packet has its identifier, type and addresses.
    fn is_of(&self, heard: &Heard) -> bool
        ensures { result ≡ is_of heard.now self.now }
    {
        let frame = heard.facts.frame;
        self.id == heard.facts.id
            && self.kind == heard.kind
            && same_address(self.asker, frame.source)
            && same_address(self.station, frame.target)
    }

    /// Whether a packet comes at most 10 s after its latest repeat.
    fn is_fresh(&self, heard: &Heard) -> bool
        ensures { result ≡ is_fresh heard.now self.now }
    {
        moment(heard).saturating_sub(self.latest) <= ANSWERING
    }

    /// Whether a query is a repeat of it.
    fn repeats(&self, heard: &Heard) -> bool
        ensures { result ≡ repeats heard.now self.now }
    {
        self.is_of(heard) && !self.is_over && !self.is_closed && self.is_fresh(heard)
    }

    /// Whether a response has its identifier and type, and goes to who sent it.
    fn fits(&self, heard: &Heard) -> bool
        ensures { result ≡ fits heard.now self.now }
    {
        !self.is_over
            && self.id == heard.facts.id
            && same_address(self.asker, heard.facts.frame.target)
            && fits_kind(heard.kind, self.kind)
    }

    /// Whether it still waits for a response that fits.
    fn is_waiting(&self, heard: &Heard) -> bool
        ensures { result ≡ is_waiting heard.now self.now }
    {
        self.fits(heard) && self.is_fresh(heard)
    }

    /// Whether a packet is so to it.
    fn meets(&self, turn: Turn, heard: &Heard) -> bool
        ensures { result ≡ meets turn heard.now self.now }
    {
        match turn {
            Turn::Repeats => self.repeats(heard),
            Turn::Begins => self.is_of(heard),
            Turn::OfSender => {
                self.is_waiting(heard) && same_address(self.station, heard.facts.frame.source)
            }
            Turn::OfGroup => self.is_waiting(heard) && self.is_to_group,
            Turn::OfNone => self.fits(heard),
            Turn::Other => false,
        }
    }

    /// The query, with one more repeat.
    fn repeated(&self, heard: &Heard) -> Query
        ensures { result ≡ repeated heard.now self.now }
    {
        let mut query = *self;
        if query.packets < 16 {
            query.frames[query.packets as usize] = heard.facts.frame.number;
        }
        query.packets = query.packets.saturating_add(1);
        query.latest = moment(heard);
        query
    }

    /// What a response that belongs to no query says to this one, which it fits.
    fn missed(&self, heard: &Heard) -> Outcome
        ensures { result ≡ missed heard.now self.now }
    {
        if self.is_fresh(heard) {
            return Outcome::OfAnother;
        }
        Outcome::Late(moment(heard).saturating_sub(self.latest))
    }

    /// The query, after a response, which belongs to it or not.
    fn replied(&self, heard: &Heard, outcome: Outcome, belongs: bool) -> Query
        ensures { result ≡ replied heard.now outcome belongs self.now }
    {
        let is_answer = matches!(outcome, Outcome::Answered);
        let mut query = *self;
        if is_answer || !self.is_answered {
            query.reply = Some(Reply {
                outcome,
                by: heard.facts.frame.source,
                frame: heard.facts.frame.number,
            });
        }
        query.is_closed = self.is_closed || belongs;
        query.is_answered = self.is_answered || is_answer;
        query
    }

    /// The query, after another one in its place.
    fn ended(&self) -> Query
        ensures { result ≡ ended self.now }
    {
        let mut query = *self;
        query.is_over = true;
        query
    }

    /// The query, after a packet that is so to it.
    fn changed(&self, turn: Turn, heard: &Heard) -> Query
        ensures { result ≡ changed turn heard.now self.now }
    {
        match turn {
            Turn::Repeats => self.repeated(heard),
            Turn::Begins => self.ended(),
            Turn::OfSender | Turn::OfGroup => self.replied(heard, outcome_of(heard), true),
            Turn::OfNone => self.replied(heard, self.missed(heard), false),
            Turn::Other => *self,
        }
    }

    /// The query, after a packet about its name.
    fn taken(&self, turn: Turn, heard: &Heard) -> Query
        ensures { result ≡ taken turn heard.now self.now }
    {
        if self.meets(turn, heard) {
            return self.changed(turn, heard);
        }
        *self
    }
}

/// Whether a packet is so to any of these queries.
fn any_meets(queries: &[Query], turn: Turn, heard: &Heard) -> bool
    ensures { result ≡ list_any (meets turn heard.now) queries.now }
{
    queries.iter().any(|query| query.meets(turn, heard))
}

/// What a packet is to the queries about its name.
fn turn_of(queries: &[Query], heard: &Heard) -> Turn
    ensures { result ≡ turn_of heard.now queries.now }
{
    if opcode(heard.flags) != 0 {
        return Turn::Other;
    }
    if heard.flags & 0x8000 == 0 {
        if any_meets(queries, Turn::Repeats, heard) {
            return Turn::Repeats;
        }
        return Turn::Begins;
    }
    if heard.facts.is_malformed {
        return Turn::Other;
    }
    if any_meets(queries, Turn::OfSender, heard) {
        return Turn::OfSender;
    }
    if any_meets(queries, Turn::OfGroup, heard) {
        return Turn::OfGroup;
    }
    Turn::OfNone
}

/// Takes a packet to each of the queries about its name.
fn take_each(queries: &mut Vec<Query>, turn: Turn, heard: &Heard)
    ensures { queries.new.items ≡ map (taken turn heard.now) queries.old.items }
{
    'queries: for place in 0..queries.len() {
        queries[place] = queries[place].taken(turn, heard);
    }
}

/// Takes a packet to the queries about its name, where there is room among all requests, of which
/// there are so many; whether there is.
pub(crate) fn take_query(
    queries: &mut Vec<Query>,
    heard: &Heard,
    count: &mut usize,
) -> Result<bool, NoMemory>
    ensures taken { IfOk result (λ has_room. has_room ≡ true →
        queries.new.items ≡ step queries.old.items heard.now) }
    ensures counted { length queries.new.items + count.old
        ≤ length queries.old.items + count.new }
    ensures within { count.old ≤ MAX_REQUESTS → count.new ≤ MAX_REQUESTS }
    ensures grows { count.old ≤ count.new }
    ensures room { IfOk result (λ has_room. count.new < MAX_REQUESTS → has_room ≡ true) }
{
    let turn = turn_of(queries.as_slice(), heard);
    take_each(queries, turn, heard);
    if !matches!(turn, Turn::Begins) {
        return Ok(true);
    }
    if !is_counted(count) {
        return Ok(false);
    }
    queries.push(Query::begun(heard))?;
    Ok(true)
}
