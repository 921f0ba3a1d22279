//! `nbt list`: what saved tables know together of each key.
ghost use Rattle.nbt_reassembly.specs.Commands.{ListCommand};
ghost use Rattle.nbt_command.specs.Streams.{streams};
ghost use Rattle.nbt_reassembly.specs.Commands.{listed_as};
ghost use Rattle.nbt_command.specs.Printing.{ExplainsWrite, PrintsText};

use crate::tables::joined_input;
use clap::ArgMatches;
use nb_member::{list_keys, list_objects};
use nb_streams::Counted;
use nb_table::Table;
use nbt_command::{Fault, is_given, print};
use std::alloc::Global;
use std::io::{Read, Write};

/// `nbt list [--keys N] [--per-source N] [--json]`: reads saved tables in hexadecimal, a line each,
/// and prints a line for each key of their join, ascending: `KEY whole KIND SOURCE DESTINATION
/// DATA`, `KEY partial KIND SOURCE DESTINATION HELD/END RUNS PLACES` (END is `?` where it isn't
/// known), which ends with ` more PLACE` where a promise reaches past what is known, or `KEY
/// spoilt`; or an object for each.
///
/// # Errors
///
/// Those of [`crate::run_merge`].
pub fn run_list<R: Read, W: Write>(
    alloc: Global,
    matches: &ArgMatches<'_>,
    input: &mut Counted<R>,
    output: &mut Counted<W>,
) -> Result<(), Fault>
    ensures { ListCommand matches.now (streams R.remaining W.contents
        input.old input.new output.old output.new) result }
{
    let json = is_given(matches, "json");
    let table = joined_input(alloc, matches, input)?;
    print_keys(alloc, json, &table, output)
}

/// Prints a line for each key of a table, ascending, or an object.
fn print_keys<W: Write>(
    alloc: Global,
    json: bool,
    table: &Table,
    output: &mut Counted<W>,
) -> Result<(), Fault>
    ensures printed { PrintsText (listed_as json table.now.contents)
        (W.contents output.old.inner) (W.contents output.new.inner) result }
    ensures why { ExplainsWrite result output.old.counts output.new.counts }
{
    if json {
        let objects = list_objects(alloc, table)?;
        return print(output, objects.as_slice());
    }
    let lines = list_keys(alloc, table)?;
    print(output, lines.as_bytes())
}
