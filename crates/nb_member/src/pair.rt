//! Two members side by side.
ghost use Rattle.nb_member.specs.Agreement.{valid, AreGivenTheSame, StoppedForMemory, Agree, HandsOverOnce, HandOverTheSame, HandsOverTheSenders};
ghost use Rattle.nb_member.specs.Live.{cores};
ghost use Rattle.nb_member.specs.Member.{new_member};
ghost use Rattle.nb_member.specs.EventTaking.{TakesEvents};

use crate::event_taking::{RunReport, run};
use crate::laws::{
    a_senders_datagram_is_handed_over, an_event_says_one_thing, both_hand_over_the_same,
    the_same_fragments_make_the_same_table,
};
use crate::local_names::LocalNames;
use crate::member::Member;
use crate::outcome::Event;
use crate::settings::Settings;
use std::alloc::Global;

/// Two members, and what came of the events of each. Our choice.
#[derive(Drop)]
pub struct Pair {
    /// The one.
    pub a: Member,
    /// The other.
    pub b: Member,
    /// What came of the events of the one.
    pub report_a: RunReport,
    /// What came of the events of the other.
    pub report_b: RunReport,
}

/// Has two new members with the same settings take events, each its own, and with its own names.
///
/// The events may give both the same valid fragments, in any order and with any repeats, whose keys
/// are at most as many as a table may hold, in all and of each address, while no look at the clock
/// drops a key. Then, unless memory ran out, neither stops, and the one table holds what the
/// other does. Each hands over the datagram of a key that isn't spoilt once, if the key is whole
/// and it hears it, and what both hear is the same. Where all fragments of a key are parts of one
/// datagram, cover it, and one says that no more follows, that datagram is the one that is handed
/// over. Of other events each may stop, at `Full` and `FullSource` too, as [`run`] says. RFC
/// 1002 section 5.3; the limits and the timer's start are our choice.
pub fn two_members(
    alloc: Global,
    settings: Settings,
    names_a: LocalNames,
    names_b: LocalNames,
    events_a: &[Event],
    events_b: &[Event],
) -> Pair
    ensures a { TakesEvents (new_member settings names_a) events_a.now result.a result.report_a }
    ensures b { TakesEvents (new_member settings names_b) events_b.now result.b result.report_b }
    ensures agree { AreGivenTheSame settings events_a.now events_b.now →
        ¬ StoppedForMemory result.report_a → ¬ StoppedForMemory result.report_b →
        Agree events_a.now events_b.now result }
    ensures once { (given : AreGivenTheSame settings events_a.now events_b.now) →
        ¬ StoppedForMemory result.report_a → ¬ StoppedForMemory result.report_b →
        HandsOverOnce names_a (cores (valid given.sayings)) result.report_a.deliveries
        × HandsOverOnce names_b (cores (valid given.sayings)) result.report_b.deliveries }
    ensures same { (given : AreGivenTheSame settings events_a.now events_b.now) →
        ¬ StoppedForMemory result.report_a → ¬ StoppedForMemory result.report_b →
        HandOverTheSame names_a names_b (cores (valid given.sayings)) result.report_a.deliveries
        result.report_b.deliveries }
    ensures senders { (given : AreGivenTheSame settings events_a.now events_b.now) →
        ¬ StoppedForMemory result.report_a → ¬ StoppedForMemory result.report_b →
        HandsOverTheSenders names_a (cores (valid given.sayings)) result.report_a.deliveries
        × HandsOverTheSenders names_b (cores (valid given.sayings)) result.report_b.deliveries }
{
    an_event_says_one_thing();
    the_same_fragments_make_the_same_table();
    both_hand_over_the_same();
    a_senders_datagram_is_handed_over();
    let mut a = Member::new(alloc, settings, names_a);
    let report_a = run(alloc, &mut a, events_a);
    let mut b = Member::new(alloc, settings, names_b);
    let report_b = run(alloc, &mut b, events_b);
    Pair {
        a,
        b,
        report_a,
        report_b,
    }
}
