//! The program over any input and output. Between `run` and `run_counted` lies streams.rt.
ghost use Rattle.std.specs.Prelude.{◌≡◌, ◌≢◌, ◌≤◌, ◌⊎◌, map, string_bytes, true, IfOk, IfErr};
ghost use Rattle.std.specs.Io.KnownBytes.{Keeps};
ghost use Rattle.clap.specs.Words.{kind_of, takes};
ghost use Rattle.nbt_command.specs.FaultTexts.{status_after};
ghost use Rattle.nbt_usage.specs.CommandLine.{AreAlone, nbt_app, AreMisused, Reports, answer_to};
ghost use Rattle.nbt_command.specs.Streams.{streams};
ghost use Rattle.nbt.specs.Commands.{Ended, EndedBy, with_status};
ghost use Rattle.nbt.specs.Ending.{EndedOver, IsMisuse};
ghost use Rattle.nbt_usage.specs.Refusals.{IsPrintFault};
ghost use Rattle.nbt_command.specs.Printing.{ExplainsWrite};

use crate::streams::{Call, run_for};
use clap::{ArgMatches, Error};
use nb_streams::Counted;
use nbt_command::{Fault, Status, print};
use nbt_packets::{run_build, run_name, run_show};
use nbt_reassembly::{run_agree, run_list, run_merge, run_replay, run_save};
use nbt_usage::{
    Audience, ClapAnswer, Errors, REFUSALS, Subcommand, asked, command, print_advice,
    print_dropped, print_hint, print_input, print_unhelped, refusal_lines,
};
use std::alloc::Global;
use std::io::{Read, Write};

/// Runs the program, and answers its exit status, 0 to 3.
///
/// The first of the words is the program's name. What is asked for goes to `output`, a fault to
/// `errors` as one line after `nbt: `; a fault in writing that line changes nothing. The status
/// is 0 where all was done, 1 where input was refused or two tables differ, 2 for a bad command
/// line (with `clap`'s text on `errors`, and a line more after `help`), and 3 where a device failed
/// or memory ran out. `clap`'s help, with what the command may refuse, the line of a refusal after
/// the word `help`, and the version go to `output`, and all is done then.
pub fn run<R: Read, W: Write, E: Write>(
    alloc: Global,
    words: &[String],
    input: &mut R,
    output: &mut W,
    errors: &mut E,
) -> u8
    // Words that are a command with its own options and arguments, as clap takes them.
    ensures ran { takes nbt_app (map string_bytes words.now) ≡ true →
        EndedOver (map string_bytes words.now) (R.remaining input.old) (R.remaining input.new)
        (W.contents output.old) (W.contents output.new) result }
    ensures alone { AreAlone (map string_bytes words.now) → result ≢ 2 }
    ensures usage { result ≡ 2 → Keeps (W.contents output.old) (W.contents output.new) }
    // Words that clap refuses, and that ask for no help and no version.
    ensures misused { AreMisused (map string_bytes words.now) →
        IsMisuse result (R.remaining input.old) (R.remaining input.new)
        (W.contents output.old) (W.contents output.new) }
    ensures within { result ≤ 3 }
    ensures quiet { result ≡ 0 → errors.new ≡ errors.old }
{
    let call = Call {
        alloc,
        words,
        audience: Audience::Programs,
    };
    run_for(call, input, output, errors)
}

/// As [`run`], over streams whose calls are counted, and for those who read standard error: a
/// person gets advice there, in a second line.
pub fn run_counted<R: Read, W: Write, E: Write>(
    alloc: Global,
    words: &[String],
    input: &mut Counted<R>,
    output: &mut Counted<W>,
    errors: &mut Errors<'_, E>,
) -> Status
    ensures ran { takes nbt_app (map string_bytes words.now) ≡ true →
        EndedBy (map string_bytes words.now) (streams R.remaining W.contents
        input.old input.new output.old output.new) result }
    ensures alone { AreAlone (map string_bytes words.now) → result ≢ Status.BadUsage }
    ensures usage { result ≡ Status.BadUsage →
        Keeps (W.contents output.old.inner) (W.contents output.new.inner) }
    ensures misused { AreMisused (map string_bytes words.now) →
        ((result ≡ Status.BadUsage) ⊎ (result ≡ Status.Failed)) × (input.new ≡ input.old)
        × Keeps (W.contents output.old.inner) (W.contents output.new.inner) }
    // Where all was done, standard error is as it was, but for a person.
    ensures quiet { result ≡ Status.Done → errors.old.audience ≡ Audience.Programs →
        errors.new ≡ errors.old }
{
    match asked(alloc, &REFUSALS, words) {
        Ok(Some(refusal)) => {
            let outcome = done(print_advice(alloc, refusal, output));
            return report(alloc, outcome, None, errors);
        }
        Ok(None) => {}
        Err(_) => return report(alloc, Err(Fault::Memory), None, errors),
    }
    match command(alloc) {
        Ok(command) => match command.try_get_matches_from(words) {
            Ok(matches) => {
                let outcome = run_command(alloc, &matches, input, output, errors);
                report(alloc, outcome, Some(&matches), errors)
            }
            Err(error) => report_unmatched(alloc, words, &error, output, errors),
        },
        Err(_) => report(alloc, Err(Fault::Memory), None, errors),
    }
}

/// Runs the subcommand that the words name, and answers the status with which it was done.
fn run_command<R: Read, W: Write, E: Write>(
    alloc: Global,
    matches: &ArgMatches<'_>,
    input: &mut Counted<R>,
    output: &mut Counted<W>,
    errors: &mut Errors<'_, E>,
) -> Result<Status, Fault>
    ensures ran { Ended matches.now (streams R.remaining W.contents
        input.old input.new output.old output.new) result }
    ensures status { IfOk result (λ status. status ≢ Status.BadUsage) }
    ensures why { ExplainsWrite result output.old.counts output.new.counts }
    ensures quiet { errors.old.audience ≡ Audience.Programs → errors.new ≡ errors.old }
{
    let Some((command, matches)) = Subcommand::entered(matches) else {
        return Err(Fault::Arguments);
    };
    match command {
        Subcommand::Name => done(run_name(alloc, matches, output)),
        Subcommand::Show => done(run_show(alloc, matches, input, output)),
        Subcommand::Build => done(run_build(alloc, matches, output)),
        Subcommand::Replay => done(run_replay(alloc, matches, input, output)),
        Subcommand::Save => saved(run_save(alloc, matches, input, output), errors),
        Subcommand::Merge => done(run_merge(alloc, matches, input, output)),
        Subcommand::List => done(run_list(alloc, matches, input, output)),
        Subcommand::Agree => run_agree(alloc, matches, input, output),
    }
}

/// The outcome of a command that is done where it has no fault.
fn done(outcome: Result<(), Fault>) -> Result<Status, Fault>
    ensures { result ≡ with_status outcome }
{
    outcome?;
    Ok(Status::Done)
}

/// The outcome of `save`; a person gets a line on how many keys the ticks of the capture dropped.
fn saved<E: Write>(outcome: Result<u64, Fault>, errors: &mut Errors<'_, E>) -> Result<Status, Fault>
    ensures outcome { result ≡ with_status outcome }
    ensures quiet { errors.old.audience ≡ Audience.Programs → errors.new ≡ errors.old }
{
    print_dropped(outcome?, errors);
    Ok(Status::Done)
}

/// The status with which a command ended. Its fault, if it has one, goes to `errors` as a line; a
/// person gets advice in a second one, which for a packet's words, where they are matched, says
/// what is wrong with them.
pub fn report<E: Write>(
    alloc: Global,
    outcome: Result<Status, Fault>,
    matches: Option<&ArgMatches<'_>>,
    errors: &mut Errors<'_, E>,
) -> Status
    ensures value { result ≡ status_after outcome }
    ensures no_usage { IfOk outcome (λ status. status ≢ Status.BadUsage)
        → result ≢ Status.BadUsage }
    ensures quiet { result ≡ Status.Done → errors.new ≡ errors.old }
{
    match outcome {
        Ok(status) => status,
        Err(fault) => {
            let _ = errors.print_fault(fault);
            print_hint(alloc, fault, matches, errors);
            fault.status()
        }
    }
}

/// The status where clap has no matches of the words, whose text says why, or is what is asked for.
fn report_unmatched<W: Write, E: Write>(
    alloc: Global,
    words: &[String],
    error: &Error,
    output: &mut Counted<W>,
    errors: &mut Errors<'_, E>,
) -> Status
    ensures reports { Reports (answer_to (kind_of error.now)) result
        (W.contents output.old.inner) (W.contents output.new.inner) }
    ensures quiet { result ≡ Status.Done → errors.new ≡ errors.old }
{
    match ClapAnswer::to(error.kind()) {
        ClapAnswer::Asked => {
            let printed = print_help(alloc, words, error, output);
            report(alloc, done(printed), None, errors)
        }
        ClapAnswer::Misused => {
            let _ = write!(errors.output, "{error}");
            let _ = print_unhelped(words, errors);
            print_input(alloc, words, error, errors);
            Status::BadUsage
        }
        ClapAnswer::NoMemory => report(alloc, Err(Fault::Memory), None, errors),
    }
}

/// Prints clap's help or the version, and after the help of a command what it may refuse.
fn print_help<W: Write>(
    alloc: Global,
    words: &[String],
    error: &Error,
    output: &mut Counted<W>,
) -> Result<(), Fault>
    ensures fault { IfErr result IsPrintFault }
    ensures err { IfErr result (λ fault. fault ≢ Fault.Write →
        Keeps (W.contents output.old.inner) (W.contents output.new.inner)) }
{
    let lines = refusal_lines(alloc, &REFUSALS, helped_command(words))?;
    let mut help = String::new(alloc);
    write!(help, "{error}")?;
    help.push_str(lines.as_str())?;
    print(output, help.as_bytes())
}

/// The command whose help the words ask for; another word, where they ask for no command's.
fn helped_command(words: &[String]) -> &str {
    match words {
        [_, help, command, ..] if help.as_str() == "help" => command.as_str(),
        [_, command, ..] => command.as_str(),
        _ => "",
    }
}
