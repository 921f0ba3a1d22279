//! What members answer, step after step.

use crate::events::say_all_delivered;
use crate::stations::member_of;
use crate::steps::{reads, say_fault};
use nb_datagram::{Datagrams, ErrorPacket};
use nb_examples_packets::fragments::{say_datagram, say_key};
use nb_examples_words::line::Line;
use nb_examples_words::{asked, given, said};
use nb_member::{Member, MemberFault, Outcome, list_keys};
use nb_table::{Table, TableFault};

/// `take STATION STEP, STEP ..`: what a new member answers to each step.
///
/// `take MOMENT PAYLOAD` is a payload that comes, `hold MOMENT PAYLOAD` one that hands nothing
/// over, `tick NOW` a look at the clock, `keys` asks how many keys are held, `list` for the lines
/// of the keys, and `settings` what the member was set up with. `took` and `take` are one, but that
/// the call of `took` doesn't stand between marks.
pub fn taken(line: &mut Line<'_>) {
    let (station, steps) = (line.word(), line.rest());
    let mut member = member_of(line, station);
    let none = Table::new(line.alloc(), 0, 0, 0);
    for step in steps.split(", ") {
        say_step(line, step, &mut member, &none);
    }
}

/// `both STATION STATION STEP, STEP ..`: what two new members answer, `a` and `b`.
///
/// A step is `a` or `b` and what that one does, as `take` has it, or `absorb MOMENT`: it takes in
/// the other's table; `preview`: what it would hand over; or `same`: whether the tables are equal.
pub fn taken_by_both(line: &mut Line<'_>) {
    let (one, other, steps) = (line.word(), line.word(), line.rest());
    let (mut a, mut b) = (member_of(line, one), member_of(line, other));
    for step in steps.split(", ") {
        match step.split_once(" ") {
            Some(("a", step)) => say_step(line, step, &mut a, b.table()),
            Some(("b", step)) => say_step(line, step, &mut b, a.table()),
            _ => line.bad_words(),
        }
    }
}

/// Makes a step, and says what is answered.
fn say_step<'a>(line: &mut Line<'a>, step: &'a str, member: &mut Member, other: &Table) {
    let before = line.enter(step, " ");
    match line.word() {
        "take" => take(line, member),
        "took" => take_unmarked(line, member),
        "hold" => hold(line, member),
        "tick" => tick(line, member),
        "absorb" => absorb(line, member, other),
        word => say_of(line, word, member, other),
    }
    line.leave(before);
}

/// Says what a member answers to a word that changes nothing.
fn say_of(line: &mut Line<'_>, word: &str, member: &Member, other: &Table) {
    match word {
        "keys" => said!(line, says, member.table().len()),
        "list" => list(line, member.table()),
        "settings" => said!(line, says, member.settings()),
        "preview" => preview(line, member, other),
        "same" => line.says(&member.table().same(other)),
        _ => line.bad_words(),
    }
}

/// What a member's table answers.
fn held(line: &mut Line<'_>, member: &Member) -> String {
    reads(line, member.table())
}

/// `take MOMENT PAYLOAD`.
fn take(line: &mut Line<'_>, member: &mut Member) {
    let (moment, payload) = (line.number(), line.bytes());
    let payload = payload.as_slice();
    let answer = asked!(line, member.take(moment, payload), held(line, member));
    say_taken(line, answer);
}

/// `took MOMENT PAYLOAD`.
fn take_unmarked(line: &mut Line<'_>, member: &mut Member) {
    let (moment, payload) = (line.number(), line.bytes());
    say_taken(line, member.take(moment, payload.as_slice()));
}

/// Says what became of a payload.
fn say_taken(line: &mut Line<'_>, taken: Result<Outcome, MemberFault>) {
    line.then("");
    match taken {
        Ok(Outcome::Kept(key)) => say_key(line, "kept ", key),
        Ok(Outcome::Spoilt(key)) => say_key(line, "spoilt ", key),
        Ok(Outcome::Delivered(datagram)) => {
            line.say("delivered ");
            say_datagram(line, &datagram);
        }
        Ok(Outcome::Unheard(key, error)) => {
            say_key(line, "unheard ", key);
            say_answer(line, error);
        }
        Ok(Outcome::Other) => line.say("other"),
        Err(fault) => say_refused(line, fault),
    }
}

/// Says why a payload was refused.
fn say_refused(line: &mut Line<'_>, fault: MemberFault) {
    line.then("refused, ");
    match fault {
        MemberFault::Packet(_, error) => {
            line.refuses(&fault);
            say_answer(line, error);
        }
        MemberFault::Table(fault) => say_fault(line, fault),
    }
}

/// Says the error packet that is answered, if there is one.
fn say_answer(line: &mut Line<'_>, error: Option<ErrorPacket>) {
    if let Some(error) = error {
        line.says(&error);
    }
}

/// `hold MOMENT PAYLOAD`.
fn hold(line: &mut Line<'_>, member: &mut Member) {
    let (moment, payload) = (line.number(), line.bytes());
    let payload = payload.as_slice();
    let answer = asked!(line, member.hold(moment, payload), held(line, member));
    match answer {
        Ok(()) => line.then("held"),
        Err(fault) => say_refused(line, fault),
    }
}

/// `tick NOW`.
fn tick(line: &mut Line<'_>, member: &mut Member) {
    let now = line.number();
    said!(line, says, member.tick(now));
}

/// `absorb MOMENT`.
fn absorb(line: &mut Line<'_>, member: &mut Member, other: &Table) {
    let moment = line.number();
    let answer = asked!(line, member.absorb(other, moment), held(line, member));
    say_handed_over(line, answer);
}

/// `preview`.
fn preview(line: &mut Line<'_>, member: &Member, other: &Table) {
    let answer = asked!(line, member.preview(other), held(line, member));
    say_handed_over(line, answer);
}

/// Says what came of taking in a table, or would come of it.
fn say_handed_over(line: &mut Line<'_>, handed: Result<Datagrams, TableFault>) {
    match handed {
        Ok(datagrams) => {
            line.then("taken in");
            say_all_delivered(line, &datagrams);
        }
        Err(fault) => say_refused(line, MemberFault::Table(fault)),
    }
}

/// `list`: the lines of a table's keys.
fn list(line: &mut Line<'_>, table: &Table) {
    let lines = given!(line, list_keys(line.alloc(), table));
    line.then("listed");
    for listed in lines.lines() {
        line.then(listed);
    }
}
