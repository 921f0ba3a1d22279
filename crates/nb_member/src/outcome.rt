//! What happens to a member, and what it answers.
ghost use Rattle.std.specs.Prelude.{◌≡◌, Some};
ghost use Rattle.nb_member.specs.Code.Outcomes.{made_of};
ghost use Rattle.nb_member.specs.FaultTexts.{member_fault_place, member_fault_text};
ghost use Rattle.nb_member.specs.declared.outcome.MemberFault.TheVariants.{Table};

use nb_datagram::{Datagram, DatagramFault, ErrorPacket, Key, LentFragment, UserData};
use nb_streams::Bytes;
use nb_table::TableFault;
use std::error::Error;
use std::fmt;

/// What became of a payload that a member took.
#[derive(Drop)]
pub enum Outcome {
    /// It was a fragment, and its datagram is neither whole nor spoilt by it.
    Kept(Key),
    /// It was a fragment that contradicts what was known of its datagram.
    Spoilt(Key),
    /// It was a fragment that made its datagram whole, and the member hears that.
    Delivered(Datagram),
    /// It was a fragment that made its datagram whole, and the member doesn't hear that; with the
    /// error packet to answer, if there is one.
    Unheard(Key, Option<ErrorPacket>),
    /// It was an error or a query packet.
    Other,
}

/// An [`Outcome`] in whose datagram the names are lent from the payload, so that it takes a few
/// words: the fragment that made it whole, and its data.
#[derive(Drop)]
pub(crate) enum LentOutcome<'a> {
    Kept(Key),
    Spoilt(Key),
    Delivered(LentFragment<'a>, UserData),
    Unheard(Key, Option<ErrorPacket>),
    Other,
}

impl<'a> LentOutcome<'a> {
    /// The outcome, with the names in place. No memory is taken.
    pub(crate) fn made(self) -> Outcome
        ensures { result ≡ made_of self.entry }
    {
        match self {
            LentOutcome::Kept(key) => Outcome::Kept(key),
            LentOutcome::Spoilt(key) => Outcome::Spoilt(key),
            LentOutcome::Delivered(fragment, bytes) => {
                Outcome::Delivered(Datagram::of_fragment(&fragment, bytes))
            }
            LentOutcome::Unheard(key, error) => Outcome::Unheard(key, error),
            LentOutcome::Other => Outcome::Other,
        }
    }
}

/// What a look at the clock dropped.
#[derive(Clone, Copy, Debug, PartialEq, Eq)]
pub struct Dropped {
    /// How many keys.
    pub keys: u32,
}

/// What happens to a member: a payload comes to its port, or the clock is looked at.
///
/// Moments are in milliseconds, from whatever beginning the events have.
#[derive(Debug, PartialEq, Eq, Drop)]
pub enum Event {
    /// A payload came.
    Packet {
        /// When it came.
        moment: u64,
        /// Its bytes.
        payload: Bytes,
    },
    /// The clock was looked at.
    Tick {
        /// What it showed.
        now: u64,
    },
}

/// Why a member refuses a payload. It stays as it was.
#[derive(Clone, Copy, Debug, PartialEq, Eq)]
pub enum MemberFault {
    /// The payload begins with no packet; with the error packet to answer, if there is one.
    Packet(DatagramFault, Option<ErrorPacket>),
    /// The table refuses the fragment.
    Table(TableFault),
}

impl MemberFault {
    /// The number with which its text ends, where it ends with one.
    pub fn place(self) -> Option<usize>
        ensures { result ≡ member_fault_place self }
    {
        match self {
            MemberFault::Packet(fault, _) => fault.place(),
            MemberFault::Table(_) => None,
        }
    }
}

impl fmt::Display for MemberFault {
    ghost output = { λ fault. Some (member_fault_text fault) };

    fn fmt<W: fmt::Write>(&self, f: &mut fmt::Formatter<W>) -> fmt::Result {
        match self {
            MemberFault::Packet(fault, _) => write!(f, "{fault}"),
            MemberFault::Table(fault) => write!(f, "{fault}"),
        }
    }
}

impl Error for MemberFault {}

impl From<TableFault> for MemberFault {
    ghost from_gives = { λ fault made. made ≡ Table fault };

    fn from(fault: TableFault) -> MemberFault {
        MemberFault::Table(fault)
    }
}
