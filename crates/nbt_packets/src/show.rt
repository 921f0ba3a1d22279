//! `nbt show`: the packets of a capture as text, or as JSON.
ghost use Rattle.std.specs.Prelude.{true, false, codes};
ghost use Rattle.nbt_packets.specs.Commands.{IsUnshown, ShowCommand, ShowsAs};
ghost use Rattle.nbt_command.specs.Streams.{WritesShow, streams};
ghost use Rattle.nbt_packets.specs.ShowingFields.{BriefFields};
ghost use Rattle.nbt_command.specs.Options.{IsGiven};
ghost use Rattle.nbt_packets.specs.Showing.{IsBrief};

use crate::texts::{Fronts, Packets, PayloadText, Phrases, Texts};
use clap::ArgMatches;
use nb_streams::Counted;
use nbt_command::{Fault, LineFields, Objects, is_given, options_of, print_lines};
use std::alloc::Global;
use std::io::{Read, Write};

/// `nbt show [--input-limit BYTES] [--comments] [--brief] [--partial] [--json]`: shows the packets
/// of the input in order, each line as it comes, with `--comments` the comments between them, or
/// prints an object for each; with `--brief` it says what each is in a phrase, with `--partial`
/// also what still stands of those that are refused or cut.
///
/// # Errors
///
/// [`Fault::Arguments`] where both `--brief` and `--partial` are given; nothing is read then. Else
/// the first that is met: [`Fault::Write`] where a line can't be written, [`Fault::Line`] for a
/// malformed line, [`Fault::Read`] where the input couldn't be read to its end, [`Fault::Memory`]
/// where memory ran out. What stands before it is shown.
pub fn run_show<R: Read, W: Write>(
    alloc: Global,
    matches: &ArgMatches<'_>,
    input: &mut Counted<R>,
    output: &mut Counted<W>,
) -> Result<(), Fault>
    ensures { ShowCommand matches.now (streams R.remaining W.contents
        input.old input.new output.old output.new) result }
{
    let brief = is_given(matches, "brief");
    let partial = is_given(matches, "partial");
    match (brief, partial) {
        (true, true) => Err(Fault::Arguments),
        (true, false) => show_as(alloc, Phrases::new(alloc), matches, input, output),
        (false, true) => show_as(alloc, Fronts, matches, input, output),
        (false, false) => show_as(alloc, Packets, matches, input, output),
    }
}

/// Shows the packets of the input in this form.
fn show_as<R: Read, W: Write, P: PayloadText + LineFields + Drop>(
    alloc: Global,
    form: P,
    matches: &ArgMatches<'_>,
    input: &mut Counted<R>,
    output: &mut Counted<W>,
) -> Result<(), Fault>
    ensures { ShowsAs P.is_text P.are_fields (P.state form) matches.now
        (streams R.remaining W.contents input.old input.new output.old output.new) result }
{
    let options = options_of(matches);
    if is_given(matches, "json") {
        return print_lines(alloc, Objects::new(alloc, form), options, input, output);
    }
    print_lines(alloc, Texts::new(alloc, form), options, input, output)
}
