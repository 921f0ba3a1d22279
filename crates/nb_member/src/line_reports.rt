//! What a member does with one line of a capture, and what is reported of it.
ghost use Rattle.std.specs.Prelude.{OnOk, string_bytes};
ghost use Rattle.nb_telling.specs.Telling.{Grows};
ghost use Rattle.nb_member.specs.ReportFields.{MayAct, ReportsOutcome, TellsOutcome};

use crate::member::Member;
use crate::report::{tell_dropped, tell_taken};
use crate::tags::OUTCOME;
use nb_capture::Line;
use nb_streams::{NoMemory, push_decimal};
use nb_telling::Sink;
use std::alloc::Global;

/// The room that a line takes, in bytes, its data and long scopes aside.
const USUAL_ROOM: usize = 160;

/// Has a member act on what a line of a capture says, and reports to a sink what became of it: of a
/// look at the clock what it dropped, of a payload of port 138 what the member made of it, of
/// another that it is passed by.
///
/// # Errors
///
/// [`NoMemory`] where memory ran out, before the member acted or after. What the sink had is still
/// its front.
///
/// The fields are our choice.
pub fn tell_line<S: Sink>(
    alloc: Global,
    said: &Line,
    member: &mut Member,
    sink: &mut S,
) -> Result<(), NoMemory>
    ensures told { OnOk result (TellsOutcome S.after said.now member.old member.new
        (S.seen sink.old) (S.seen sink.new)) }
    ensures acted { MayAct said.now member.old member.new }
    ensures front { Grows S.is_front (S.seen sink.old) (S.seen sink.new) }
{
    match said {
        Line::Tick { now } => tell_dropped(member.tick(*now), sink),
        Line::Packet {
            port,
            moment,
            payload,
        } => {
            if *port != 138 {
                return sink.text(OUTCOME, "passed");
            }
            tell_taken(alloc, member.take_lent(*moment, payload.as_slice()), sink)
        }
    }
}

/// Acts on what a line says, and makes a text the line of the report about it.
pub(crate) fn outcome_line(
    number: u64,
    said: &Line,
    member: &mut Member,
    text: &mut String,
) -> Result<(), NoMemory>
    ensures written { OnOk result
        (ReportsOutcome number said.now member.old member.new (string_bytes text.new)) }
    ensures acted { MayAct said.now member.old member.new }
{
    text.clear();
    text.reserve_exact(USUAL_ROOM)?;
    push_decimal(number, text)?;
    text.push_str(" ")?;
    tell_line(*text.allocator(), said, member, text)?;
    text.push_str("\n")?;
    Ok(())
}
