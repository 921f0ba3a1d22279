//! Runs of events.

use crate::stations::{member_of, names_of, settings_of};
use nb_datagram::Datagrams;
use nb_examples_packets::fragments::say_datagram;
use nb_examples_words::called;
use nb_examples_words::line::Line;
use nb_member::{Event, Member, RunReport, RunStop, run, two_members};
use nb_streams::Bytes;

/// `run STATION EVENT, EVENT ..`: what comes of a run of a new member. An event is
/// `take MOMENT PAYLOAD` or `tick NOW`.
pub fn run_by_one(line: &mut Line<'_>) {
    let (station, events) = (line.word(), line.rest());
    let mut member = member_of(line, station);
    let events = events_of(line, events);
    let events = events.as_slice();
    let report = called!(line, run(line.alloc(), &mut member, events));
    say_run(line, &report, &mut member, events);
}

/// `two STATION NAMES EVENTS | EVENTS`: what comes of the runs of two new members, the second of
/// which has these names, and whether their tables are equal.
pub fn run_by_two(line: &mut Line<'_>) {
    let (station, other) = (line.word(), line.word());
    let (a, b) = line.halves(" | ");
    let (a, b) = (events_of(line, a), events_of(line, b));
    run_pair(line, station, other, a.as_slice(), b.as_slice());
}

/// Runs two new members, and says what comes of it.
fn run_pair<'a>(line: &mut Line<'a>, station: &'a str, other: &str, a: &[Event], b: &[Event]) {
    let settings = settings_of(line, station);
    let (names, others) = (names_of(line, station), names_of(line, other));
    let alloc = line.alloc();
    let mut pair = called!(line, two_members(alloc, settings, names, others, a, b));
    say_run(line, &pair.report_a, &mut pair.a, a);
    say_run(line, &pair.report_b, &mut pair.b, b);
    line.says(&pair.a.table().same(pair.b.table()));
}

/// The events of a text.
fn events_of<'a>(line: &mut Line<'a>, text: &'a str) -> Vec<Event> {
    let mut events = Vec::new(line.alloc());
    for step in text.split(", ") {
        let before = line.enter(step, " ");
        let event = next_event(line);
        line.leave(before);
        line.push(&mut events, event);
    }
    events
}

/// The event that the next words say.
fn next_event(line: &mut Line<'_>) -> Event {
    let (is_packet, moment) = (line.is_word("take", "tick"), line.number());
    match is_packet {
        true => Event::Packet {
            moment,
            payload: Bytes::from_vec(line.bytes()),
        },
        false => Event::Tick { now: moment },
    }
}

/// Says how many events a run took and refused, why it stopped if it did, the datagrams that it
/// handed over, the error packets, and how many keys the table holds. Where memory ran out, another
/// run goes on after the events that were taken.
fn say_run(line: &mut Line<'_>, report: &RunReport, member: &mut Member, events: &[Event]) {
    let mut stop = report.stop;
    let mut rest: &[Event] = &[];
    if let Some(RunStop::NoMemory) = stop {
        line.then("memory, ");
        stop = None;
        rest = events.get(report.taken..).unwrap_or(events);
    }
    let after = run(line.alloc(), member, rest);
    let taken = report.taken.saturating_add(after.taken);
    let refused = report.refused.saturating_add(after.refused);
    line.says(&(taken, refused, stop.or(after.stop)));
    say_handed(line, report);
    say_handed(line, &after);
    line.says(&member.table().len());
}

/// Says the datagrams that a run handed over, and its error packets.
fn say_handed(line: &mut Line<'_>, report: &RunReport) {
    say_all_delivered(line, &report.deliveries);
    for error in report.errors.as_slice() {
        line.says(error);
    }
}

/// Says datagrams that are handed over.
pub fn say_all_delivered(line: &mut Line<'_>, datagrams: &Datagrams) {
    for datagram in datagrams.as_slice() {
        line.then("delivered ");
        say_datagram(line, datagram);
    }
}
