//! `nbt replay`: the report of a capture, in a member with names.
ghost use Rattle.std.specs.Prelude.{map, OnOk, IfOk, IfErr};
ghost use Rattle.nbt_reassembly.specs.Commands.{ReplayCommand};
ghost use Rattle.nbt_command.specs.Streams.{streams};
ghost use Rattle.nbt_reassembly.specs.Replaying.{AddsEach, AddsName, AreTexts, Begins, IsNamesFault, IsRefusedName, IsUnbegun};
ghost use Rattle.nbt_reassembly.specs.Capacity.{IsCapacity};
ghost use Rattle.nb_member.specs.Member.{MemberValue};
ghost use Rattle.nb_member.specs.ReportFields.{OutcomeFields};

use crate::capacity::{capacity_of, settings_with};
use clap::ArgMatches;
use nb_capture::Line;
use nb_member::laws::{a_printed_report_is_a_replay, fields_are_members as outcomes_are_members};
use nb_member::{AddFault, LocalNames, Member, Report, tell_line};
use nb_names::name_from_text;
use nb_streams::{Counted, NoMemory};
use nb_telling::Sink;
use nbt_command::{Fault, LineFields, Objects, is_given, options_of, print_lines};
use std::alloc::Global;
use std::io::{Read, Write};

/// `nbt replay [--keys N] [--per-source N] [--input-limit BYTES] [--comments] [--json] NAME..`:
/// replays the input in a member with these names, and prints the report, with `--comments` the
/// comments of the capture in it, or an object for each line of the report. A name that is repeated
/// is passed over.
///
/// # Errors
///
/// The first that is met: [`Fault::Text`] for a bad name, [`Fault::TooManyNames`] for one
/// different name more than a member holds; nothing is read or printed then. [`Fault::Line`] for a
/// malformed line, [`Fault::Read`] where the input couldn't be read to its end, [`Fault::Memory`]
/// where memory ran out: the report of the lines before it is printed. [`Fault::Write`] where the
/// output failed.
pub fn run_replay<R: Read, W: Write>(
    alloc: Global,
    matches: &ArgMatches<'_>,
    input: &mut Counted<R>,
    output: &mut Counted<W>,
) -> Result<(), Fault>
    ensures { ReplayCommand matches.now (streams R.remaining W.contents
        input.old input.new output.old output.new) result }
{
    let mut member = member_of(alloc, matches)?;
    let options = options_of(matches);
    if is_given(matches, "json") {
        let objects = Objects::new(alloc, Outcomes { alloc, member });
        return print_lines(alloc, objects, options, input, output);
    }
    // The law that what is printed is the report of events; the call does nothing.
    a_printed_report_is_a_replay();
    let mut text = String::new(alloc);
    let report = Report {
        member: &mut member,
        text: &mut text,
    };
    print_lines(alloc, report, options, input, output)
}

/// The member that a replay begins with: new, with the names of the words.
fn member_of(alloc: Global, matches: &ArgMatches<'_>) -> Result<Member, Fault>
    ensures made { IfOk result (Begins (IsCapacity matches.now) (AreTexts matches.now)) }
    ensures fault { IfErr result
        (IsUnbegun (IsCapacity matches.now) (AreTexts matches.now)) }
{
    let capacity = capacity_of(matches)?;
    let Some(words) = matches.get_strs("NAME") else {
        return Err(Fault::Arguments);
    };
    let names = names_of(alloc, words)?;
    Ok(Member::new(alloc, settings_with(capacity), names))
}

/// The names that the words stand for, each once.
fn names_of(alloc: Global, words: &[&str]) -> Result<LocalNames, Fault>
    ensures named { IfOk result (λ names. AddsEach (map (λ w. w.now) words.now) names) }
    ensures fault { IfErr result (IsNamesFault (map (λ w. w.now) words.now)) }
{
    let mut names = LocalNames::new(alloc);
    for word in words {
        add_name(&mut names, word)?;
    }
    Ok(names)
}

/// Adds the name that a word stands for, unless it is held already.
fn add_name(names: &mut LocalNames, word: &str) -> Result<(), Fault>
    ensures added { OnOk result (AddsName names.old word.now names.new) }
    ensures fault { IfErr result (IsRefusedName names.old word.now) }
{
    match names.add(name_from_text(word)?) {
        Ok(()) | Err(AddFault::Present) => Ok(()),
        Err(AddFault::TooMany) => Err(Fault::TooManyNames),
        Err(AddFault::NoMemory) => Err(Fault::Memory),
    }
}

/// What a member makes of the lines of a capture.
#[derive(Drop)]
pub struct Outcomes {
    /// Memory for error packets comes from here.
    pub alloc: Global,
    /// The member.
    pub member: Member,
}

impl LineFields for Outcomes {
    ghost State = { MemberValue };

    ghost state = { λ s. s.member };

    ghost are_fields = { OutcomeFields };

    #[tactic(auto, using(nb_telling::proofs::FoldLemmas::told_both))]
    fn tell<S: Sink>(&mut self, said: &Line, sink: &mut S) -> Result<(), NoMemory> {
        // The law that makes the fields members; the call does nothing.
        outcomes_are_members();
        tell_line(self.alloc, said, &mut self.member, sink)
    }
}
