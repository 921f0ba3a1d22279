//! Members.
ghost use Rattle.std.specs.Prelude.{◌≡◌, ◌+◌, Ok, Err, filter, IfOk, OnOk, IfErr, OnErr, MatchOption};
ghost use Rattle.std.specs.FinMap as maps;
ghost use Rattle.nb_entries.specs.Change.{made_by};
ghost use Rattle.nb_table.specs.Merging.{IsRefused};
ghost use Rattle.nb_member.specs.Events.{limits_of};
ghost use Rattle.nb_member.specs.Member.{contents, new_member, with_timed, after_clock};
ghost use Rattle.nb_member.specs.Hearing.{hears};
ghost use Rattle.nb_member.specs.Taking.{Absorbs, Previews, Takes, outcome_of};
ghost use Rattle.nb_member.specs.Code.Members.{BeginsFull, limit_of};
ghost use Rattle.nb_member.specs.Code.Outcomes.{made_of, answer_of};
ghost use Rattle.nb_member.specs.declared.outcome.Outcome.{Outcome};
ghost use Rattle.nb_member.specs.declared.event_taking.RunStop.{RunStop};

use crate::event_taking::RunStop;
use crate::local_names::LocalNames;
use crate::outcome::{Dropped, LentOutcome, MemberFault, Outcome};
use crate::settings::Settings;
use crate::timed_table::TimedTable;
use nb_datagram::error_codes::DESTINATION_NAME_NOT_PRESENT;
use nb_datagram::{Datagrams, LentFragment, LentPacket, UserData, decode_lent};
use nb_table::{Change, Handing, Table, TableFault};
use std::alloc::Global;
use std::marker::Model;

/// A member, which takes payloads as a station of the network takes those of its port 138. What it
/// knows of datagrams stands in a table, which payloads fill and the clock empties; a datagram that
/// becomes whole is handed over if one of the member's names hears it.
#[derive(Drop)]
pub struct Member {
    settings: Settings,
    names: LocalNames,
    timed: TimedTable,
}

impl Model for Member {
    ghost use Rattle.std.specs.Prelude.{◌≡◌};
    ghost use Rattle.nb_member.specs.Events.{limits_of};
    ghost use Rattle.nb_member.specs.Member.{MemberValue};
    ghost use Rattle.nb_member.specs.Code.Members.{member_code};

    ghost Value = { MemberValue };

    ghost coded = { member_code };

    ghost view = { λ m. record { settings = m.settings; names = m.names; timed = m.timed } };

    ghost invariant = { λ m. m.timed.table.limits ≡ limits_of m.settings };
}

impl Member {
    /// A member with these settings and names, and an empty table. No memory is taken.
    pub fn new(alloc: Global, settings: Settings, names: LocalNames) -> Member
        ensures { result ≡ new_member settings names }
    {
        Member {
            settings,
            names,
            timed: TimedTable::new(alloc, settings.keys, settings.per_source, settings.longest),
        }
    }

    /// What the member knows of datagrams.
    pub fn table(&self) -> &Table
        ensures value { result.now ≡ self.now.timed.table }
        ensures limits { self.now.timed.table.limits ≡ limits_of self.now.settings }
    {
        self.timed.table()
    }

    /// What the member was set up with.
    pub fn settings(&self) -> Settings
        ensures { result ≡ self.now.settings }
    {
        self.settings
    }

    /// Takes a payload that came at this moment, in milliseconds, and says what became of it.
    ///
    /// A fragment is joined to the table; a key that is new starts its timer at this moment. Bytes
    /// after the packet are left unread. RFC 1002 section 5.3.
    ///
    /// # Errors
    ///
    /// `Packet` where the payload begins with no packet. Else `Table` where the table refuses the
    /// fragment, as `MisplacedFirst`, `TooLong`, `FullSource`, `Full` or `NoMemory`, judged in this
    /// order; the last comes too where the moment of a new key can't be kept. The member is then
    /// as it was. Memory is taken for a fragment alone.
    pub fn take(&mut self, moment: u64, payload: &[u8]) -> Result<Outcome, MemberFault>
        ensures { Takes self.old moment payload.now self.new result }
    {
        Ok(self.take_lent(moment, payload)?.made())
    }

    /// Takes a payload as [`Member::take`] does, and lends the names of a datagram from it.
    pub(crate) fn take_lent<'a>(
        &mut self,
        moment: u64,
        payload: &'a [u8],
    ) -> Result<LentOutcome<'a>, MemberFault>
        ensures { Takes self.old moment payload.now self.new (answer_of result) }
    {
        match decode_lent(payload) {
            Ok((LentPacket::Direct(fragment), _)) => {
                let change = self.timed.insert(moment, &fragment, Handing::Over)?;
                Ok(outcome_of(&self.settings, &self.names, fragment, change))
            }
            Ok((LentPacket::Error(_), _)) => Ok(LentOutcome::Other),
            Ok((LentPacket::Query(_), _)) => Ok(LentOutcome::Other),
            Err(fault) => Err(MemberFault::Packet(fault, self.settings.error_for(payload, fault))),
        }
    }

    /// Takes a payload that came at this moment as [`Member::take`] does, and says no more than
    /// that: no datagram is made, so memory is taken for what the table holds alone.
    ///
    /// # Errors
    ///
    /// Those of [`Member::take`].
    pub fn hold(&mut self, moment: u64, payload: &[u8]) -> Result<(), MemberFault>
        ensures taken { OnOk result ((outcome : Outcome) ×
            Takes self.old moment payload.now self.new (Ok outcome)) }
        ensures refused { IfErr result (λ fault.
            Takes self.old moment payload.now self.new (Err fault)) }
    {
        match decode_lent(payload) {
            Ok((LentPacket::Direct(fragment), _)) => {
                self.timed.insert(moment, &fragment, Handing::Kept)?;
                Ok(())
            }
            Ok((LentPacket::Error(_), _)) => Ok(()),
            Ok((LentPacket::Query(_), _)) => Ok(()),
            Err(fault) => Err(MemberFault::Packet(fault, self.settings.error_for(payload, fault))),
        }
    }

    /// Which limit on keys a payload's fragment meets, if it is valid. No memory is taken.
    pub(crate) fn limit_met(&self, payload: &[u8]) -> Option<RunStop>
        ensures { MatchOption result ((stop : RunStop) → ¬ BeginsFull self.now payload.now stop)
            (BeginsFull self.now payload.now) }
    {
        match decode_lent(payload) {
            Ok((LentPacket::Direct(fragment), _)) => {
                limit_of(self.timed.table().refusal_of_lent(&fragment))
            }
            Ok((LentPacket::Error(_), _)) => None,
            Ok((LentPacket::Query(_), _)) => None,
            Err(_) => None,
        }
    }

    /// Looks at the clock, which shows `now`: drops each key, whatever is known of it, that came at
    /// least 2,000 milliseconds before. No memory is taken.
    pub fn tick(&mut self, now: u64) -> Dropped
        ensures dropped { self.new ≡ with_timed self.old (after_clock self.old.timed now) }
        ensures count { result.keys + maps.len (contents self.new) ≡ maps.len (contents self.old) }
    {
        let before = self.timed.table().len();
        self.timed.tick(now);
        let after = self.timed.table().len();
        Dropped {
            keys: (before - after) as u32,
        }
    }

    /// Merges another's table at this moment, in milliseconds, and hands over the datagrams that
    /// are heard, of those that become whole by this, in ascending order of their keys. The timers
    /// of the keys that are new start at this moment; the others run on. No error packets are made
    /// (our choice).
    ///
    /// # Errors
    ///
    /// `TooLong`, `FullSource` and `Full` as [`Table::fits`] of the member's table answers, then
    /// `NoMemory` where memory ran out. The member is then as it was.
    pub fn absorb(&mut self, other: &Table, moment: u64) -> Result<Datagrams, TableFault>
        ensures absorbed { IfOk result (λ datagrams.
            Absorbs self.old other.now.contents moment self.new datagrams) }
        ensures fault { IfErr result (IsRefused self.old.timed.table.limits (contents self.old)
            other.now.contents) }
        ensures err { OnErr result (self.new ≡ self.old) }
    {
        let datagrams = self.timed.merge(other, moment)?;
        Ok(heard_of(&self.names, datagrams))
    }

    /// The datagrams that [`Member::absorb`] of the same table would hand over, at any moment. The
    /// member stays as it is; memory is taken as by [`Table::preview`].
    ///
    /// # Errors
    ///
    /// As [`Member::absorb`].
    pub fn preview(&self, other: &Table) -> Result<Datagrams, TableFault>
        ensures previewed { IfOk result (Previews self.now other.now.contents) }
        ensures fault { IfErr result (IsRefused self.now.timed.table.limits (contents self.now)
            other.now.contents) }
    {
        let datagrams = self.timed.table().preview(other)?;
        Ok(heard_of(&self.names, datagrams))
    }
}

/// The limit on keys for which a table refuses a fragment, if it refuses it for one.
fn limit_of(refusal: Option<TableFault>) -> Option<RunStop>
    ensures { result ≡ limit_of refusal }
{
    match refusal {
        Some(TableFault::FullSource(key)) => Some(RunStop::FullSource(key)),
        Some(TableFault::Full(key)) => Some(RunStop::Full(key)),
        Some(TableFault::MisplacedFirst | TableFault::TooLong | TableFault::NoMemory) => None,
        None => None,
    }
}

/// What is answered where a fragment changed this at its key.
fn outcome_of<'a>(
    settings: &Settings,
    names: &LocalNames,
    fragment: LentFragment<'a>,
    change: Change<UserData>,
) -> LentOutcome<'a>
    ensures { made_of result ≡ outcome_of settings.now names.now fragment.entry.key
        (made_by fragment.entry change) }
{
    match change {
        Change::Spoilt => LentOutcome::Spoilt(fragment.key()),
        Change::Whole(bytes) => {
            if names.hears_as(fragment.kind(), fragment.destination()) {
                return LentOutcome::Delivered(fragment, bytes);
            }
            let code = DESTINATION_NAME_NOT_PRESENT;
            let key = fragment.key();
            LentOutcome::Unheard(key, settings.error_about(fragment.kind(), key.id, code))
        }
        Change::Same | Change::Grown => LentOutcome::Kept(fragment.key()),
    }
}

/// Those of the datagrams that a member with these names hears, in order. No memory is taken.
fn heard_of(names: &LocalNames, datagrams: Datagrams) -> Datagrams
    ensures { result ≡ filter (hears names.now) datagrams }
{
    let mut heard = datagrams.into_vec();
    heard.retain(|datagram| names.hears(datagram));
    Datagrams::from_vec(heard)
}
