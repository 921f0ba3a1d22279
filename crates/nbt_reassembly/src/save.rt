//! `nbt save`: what a capture says of datagrams, as a saved table.
ghost use Rattle.std.specs.Prelude.{Some, IfOk, IfErr, OnOk};
ghost use Rattle.nbt_reassembly.specs.Commands.{SaveCommand};
ghost use Rattle.nbt_command.specs.Streams.{streams};
ghost use Rattle.nbt_reassembly.specs.SaveFaults.{PayloadStops, SaidStops, StopsSaving, UnsavedLine};
ghost use Rattle.nbt_reassembly.specs.Saving.{TakesInput, TakesPayload, TakesSaid, SavesLine};
ghost use Rattle.nb_member.specs.Member.{MemberValue};

use crate::capacity::{Capacity, PORT, capacity_of, settings_with};
use crate::tables::print_saved;
use clap::ArgMatches;
use nb_capture::{Line, LineTaker, take_lines};
use nb_member::{LocalNames, Member, MemberFault};
use nb_streams::Counted;
use nb_table::TableFault;
use nbt_command::{Fault, input_limit_of};
use std::alloc::Global;
use std::io::{Read, Write};

/// `nbt save [--keys N] [--per-source N] [--input-limit BYTES]`: takes the payloads of port 138 and
/// sets the clock at the ticks, each line of the input as it comes, in a member without names, and
/// prints the member's table in hexadecimal. The answer is the number of keys that ticks dropped.
///
/// # Errors
///
/// The first that is met: [`Fault::Line`] for a malformed line, [`Fault::FullSource`] for a
/// fragment of one key too many of its address, [`Fault::Full`] for one of one key too many at all,
/// [`Fault::Read`] where the input couldn't be read to its end, [`Fault::Memory`] where memory ran
/// out. Nothing is printed then. [`Fault::Write`] where the output failed. Other packets that are
/// refused are passed over.
pub fn run_save<R: Read, W: Write>(
    alloc: Global,
    matches: &ArgMatches<'_>,
    input: &mut Counted<R>,
    output: &mut Counted<W>,
) -> Result<u64, Fault>
    ensures { SaveCommand matches.now (streams R.remaining W.contents
        input.old input.new output.old output.new) result }
{
    let capacity = capacity_of(matches)?;
    let saver = saver_after(alloc, capacity, input_limit_of(matches), input)?;
    print_saved(output, saver.member.table())?;
    Ok(saver.dropped)
}

/// A member without names that may hold so much, after an input of so many bytes at most.
fn saver_after<R: Read>(
    alloc: Global,
    capacity: Capacity,
    most: u64,
    input: &mut Counted<R>,
) -> Result<Saver, Fault>
    ensures took { IfOk result (λ saver. TakesInput capacity most
        (R.remaining input.old.inner) (R.remaining input.new.inner) saver.member) }
    ensures stops { IfErr result (StopsSaving capacity most
        (R.remaining input.old.inner) (R.remaining input.new.inner)
        input.old.counts input.new.counts) }
{
    let mut saver = Saver {
        member: Member::new(alloc, settings_with(capacity), LocalNames::new(alloc)),
        dropped: 0,
    };
    take_lines(alloc, most, input, &mut saver)?;
    Ok(saver)
}

/// A member that takes the payloads of port 138, and sets its clock at the ticks.
#[derive(Drop)]
struct Saver {
    member: Member,
    /// How many keys the ticks dropped.
    dropped: u64,
}

impl LineTaker for Saver {
    type Fault = Fault;

    ghost State = { MemberValue };

    ghost state = { λ s. s.member };

    ghost Beside = { Unit {0} };

    ghost beside = { λ s. tt };

    ghost takes = { λ kept. SavesLine };

    ghost fails = { λ kept. UnsavedLine };

    fn take(&mut self, _number: u64, _line: &[u8], said: &Option<Line>) -> Result<(), Fault> {
        match said {
            Some(said) => take_value(said, &mut self.member, &mut self.dropped),
            None => Ok(()),
        }
    }
}

/// Has the member take a payload of port 138, or set its clock, and counts the keys that it drops.
fn take_value(said: &Line, member: &mut Member, dropped: &mut u64) -> Result<(), Fault>
    ensures took { OnOk result (TakesSaid member.old (Some said.now) member.new) }
    ensures stops { IfErr result (SaidStops member.old (Some said.now)) }
{
    match said {
        Line::Tick { now } => {
            let keys = member.tick(*now).keys;
            *dropped = dropped.saturating_add(u64::from(keys));
            Ok(())
        }
        Line::Packet {
            port,
            moment,
            payload,
        } => {
            if *port == PORT {
                take_payload(*moment, payload.as_slice(), member)?;
            }
            Ok(())
        }
    }
}

/// Has the member take a payload. One that it refuses is passed over, unless its table is full.
fn take_payload(moment: u64, payload: &[u8], member: &mut Member) -> Result<(), Fault>
    ensures took { OnOk result (TakesPayload member.old moment payload.now member.new) }
    ensures stops { IfErr result (PayloadStops member.old moment payload.now) }
{
    match member.hold(moment, payload) {
        Err(MemberFault::Table(TableFault::FullSource(_))) => Err(Fault::FullSource),
        Err(MemberFault::Table(TableFault::Full(_))) => Err(Fault::Full),
        Err(MemberFault::Table(TableFault::NoMemory)) => Err(Fault::Memory),
        _ => Ok(()),
    }
}
