//! `nbt merge`: saved tables, joined.
ghost use Rattle.nbt_reassembly.specs.Commands.{MergeCommand};
ghost use Rattle.nbt_command.specs.Streams.{streams};

use crate::tables::{joined_input, print_saved};
use clap::ArgMatches;
use nb_streams::Counted;
use nbt_command::Fault;
use std::alloc::Global;
use std::io::{Read, Write};

/// `nbt merge [--keys N] [--per-source N]`: reads saved tables in hexadecimal, a line each, and
/// prints their join.
///
/// # Errors
///
/// [`Fault::Read`] where the input couldn't be read to its end; then, line by line, [`Fault::Line`]
/// for one that is empty or no hexadecimal, [`Fault::Load`] for one that is no saved table, or one
/// over the limits; then [`Fault::NoTables`] where there is no line, and, where the tables have
/// more keys together than one may hold, [`Fault::FullSource`] if they are of one address, else
/// [`Fault::Full`]. [`Fault::Memory`] where memory ran out. Nothing is printed then.
/// [`Fault::Write`] where the output failed.
pub fn run_merge<R: Read, W: Write>(
    alloc: Global,
    matches: &ArgMatches<'_>,
    input: &mut Counted<R>,
    output: &mut Counted<W>,
) -> Result<(), Fault>
    ensures { MergeCommand matches.now (streams R.remaining W.contents
        input.old input.new output.old output.new) result }
{
    let table = joined_input(alloc, matches, input)?;
    print_saved(output, &table)
}
