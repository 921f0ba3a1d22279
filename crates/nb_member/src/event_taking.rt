//! Taking events in a row.
ghost use Rattle.std.specs.Prelude.{◌≡◌, ◌<◌, ◌++◌, List, IsTrue, OnErr, vec_len, vec_capacity};
ghost use Rattle.std.specs.Option.{option_to_list};
ghost use Rattle.nb_member.specs.Deliveries.{delivery_in, error_in};
ghost use Rattle.nb_member.specs.Code.Members.{KeepsSetup};
ghost use Rattle.nb_member.specs.Live.{Timed};
ghost use Rattle.nb_member.specs.Member.{StandsOver};
ghost use Rattle.nb_member.specs.EventTaking.{IsPayload, TakesEvents};
ghost use Rattle.nb_member.specs.Code.EventTurns.{noted, TakesEvent};

use crate::laws::{
    a_member_does_what_is_said, a_member_drops_what_the_clock_ends,
    an_answer_shows_what_is_handed_out,
};
use crate::member::Member;
use crate::outcome::{Event, MemberFault, Outcome};
use nb_datagram::{Datagram, Datagrams, ErrorPacket, ErrorPackets, Key};
use nb_table::TableFault;
use std::alloc::Global;

/// Takes these events, one after another, until one meets a limit on keys or memory runs out.
///
/// Room to note an answer is asked for before each payload is taken, not for a look at the clock.
/// A payload that begins with no packet, or with a fragment that has FIRST in the wrong place or
/// reaches too far, is counted and passed over; the error packet that it is answered with stands
/// among the others. An event at which `run` stops has changed nothing, and where its key is full
/// the report says so, whatever memory there is. RFC 1002 section 5.3; the report, and where `run`
/// stops, are our choice.
pub fn run(alloc: Global, member: &mut Member, events: &[Event]) -> RunReport
    ensures { TakesEvents member.old events.now member.new result }
{
    let mut log = Log {
        deliveries: Vec::new(alloc),
        errors: Vec::new(alloc),
    };
    let mut refused = 0;
    for (index, event) in events.iter().enumerate() {
        match log.take(member, event) {
            Ok(was_refused) => {
                if was_refused {
                    refused += 1;
                }
            }
            Err(stop) => return log.into_report(index, refused, Some(stop)),
        }
    }
    log.into_report(events.len(), refused, None)
}

/// What has been handed out of the events so far.
#[derive(Drop)]
struct Log {
    deliveries: Vec<Datagram>,
    errors: Vec<ErrorPacket>,
}

impl Log {
    /// Lets the member take one event: whether that was refused, or why no further one is taken.
    fn take(&mut self, member: &mut Member, event: &Event) -> Result<bool, RunStop>
        ensures step { (L : List Timed) → StandsOver member.old L →
            TakesEvent member.old L event.now member.new
            (record { deliveries = self.old.deliveries.items; errors = self.old.errors.items })
            (record { deliveries = self.new.deliveries.items; errors = self.new.errors.items })
            result }
        ensures payload { OnErr result (IsPayload event.now) }
        ensures kept { KeepsSetup member.old member.new }
    {
        a_member_drops_what_the_clock_ends();
        a_member_does_what_is_said();
        an_answer_shows_what_is_handed_out();
        match event {
            Event::Packet { moment, payload } => {
                let payload = payload.as_slice();
                if !self.has_made_room() {
                    return Err(member.limit_met(payload).unwrap_or(RunStop::NoMemory));
                }
                let answer = member.take(*moment, payload);
                self.note(answer)
            }
            Event::Tick { now } => {
                member.tick(*now);
                Ok(false)
            }
        }
    }

    /// Makes room in which an answer is noted without memory, and says whether there is any.
    fn has_made_room(&mut self) -> bool
        ensures deliveries { self.new.deliveries.items ≡ self.old.deliveries.items }
        ensures errors { self.new.errors.items ≡ self.old.errors.items }
        ensures delivery_room { IsTrue result →
            vec_len self.new.deliveries < vec_capacity self.new.deliveries }
        ensures error_room { IsTrue result →
            vec_len self.new.errors < vec_capacity self.new.errors }
    {
        self.deliveries.reserve(1).is_ok() && self.errors.reserve(1).is_ok()
    }

    /// Notes what a member answered.
    fn note(&mut self, answer: Result<Outcome, MemberFault>) -> Result<bool, RunStop>
        requires delivery_room { vec_len self.old.deliveries < vec_capacity self.old.deliveries }
        requires error_room { vec_len self.old.errors < vec_capacity self.old.errors }
        ensures deliveries { self.new.deliveries.items
            ≡ self.old.deliveries.items ++ delivery_in answer }
        ensures errors { self.new.errors.items ≡ self.old.errors.items ++ error_in answer }
        ensures noted { result ≡ noted answer }
    {
        match answer {
            Ok(Outcome::Delivered(datagram)) => {
                self.deliveries.push(datagram).unwrap();
                Ok(false)
            }
            Ok(Outcome::Unheard(_, error)) => {
                add_if_any(&mut self.errors, error);
                Ok(false)
            }
            Ok(Outcome::Kept(_) | Outcome::Spoilt(_) | Outcome::Other) => Ok(false),
            Err(MemberFault::Packet(_, error)) => {
                add_if_any(&mut self.errors, error);
                Ok(true)
            }
            Err(MemberFault::Table(TableFault::MisplacedFirst | TableFault::TooLong)) => Ok(true),
            Err(MemberFault::Table(TableFault::FullSource(key))) => Err(RunStop::FullSource(key)),
            Err(MemberFault::Table(TableFault::Full(key))) => Err(RunStop::Full(key)),
            Err(MemberFault::Table(TableFault::NoMemory)) => Err(RunStop::NoMemory),
        }
    }

    /// The report, where so many events were taken.
    fn into_report(self, taken: usize, refused: usize, stop: Option<RunStop>) -> RunReport
        ensures { result ≡ record {
          deliveries = self.deliveries.items;
          errors = self.errors.items;
          taken = taken;
          refused = refused;
          stop = stop;
        } }
    {
        RunReport {
            deliveries: Datagrams::from_vec(self.deliveries),
            errors: ErrorPackets::from_vec(self.errors),
            taken,
            refused,
            stop,
        }
    }
}

/// Adds an error packet, if there is one, where there is room for it.
fn add_if_any(errors: &mut Vec<ErrorPacket>, error: Option<ErrorPacket>)
    requires { vec_len errors.old < vec_capacity errors.old }
    ensures { errors.new.items ≡ errors.old.items ++ option_to_list error }
{
    if let Some(error) = error {
        errors.push(error).unwrap();
    }
}

/// Why `run` stopped before an event. That event changed nothing. Our choice.
#[derive(Clone, Copy, Debug, PartialEq, Eq)]
pub enum RunStop {
    /// The event is a fragment of this key, which is new, and as many keys are held as may be, but
    /// not of its address.
    Full(Key),
    /// Memory ran out, for the event or to note its answer, and the event isn't a fragment as at
    /// `Full` or `FullSource`.
    NoMemory,
    /// The event is a fragment of this key, which is new, and as many keys of its address are held
    /// as may be.
    FullSource(Key),
}

/// What came of events in a row. Our choice.
#[derive(Drop)]
pub struct RunReport {
    /// The datagrams that became whole and are heard, in order.
    pub deliveries: Datagrams,
    /// The error packets to answer, in order.
    pub errors: ErrorPackets,
    /// How many events were taken: all of them, or those before the one at which `run` stopped.
    pub taken: usize,
    /// How many of these were refused: payloads that begin with no packet, and fragments that have
    /// FIRST set elsewhere than at offset 0, haven't it set there, or reach past the longest
    /// datagram.
    pub refused: usize,
    /// Why `run` stopped, where it didn't take all events.
    pub stop: Option<RunStop>,
}
