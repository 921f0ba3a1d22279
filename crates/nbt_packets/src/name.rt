//! `nbt name`: the spelling of a name's text, and the text of a spelling.
ghost use Rattle.std.specs.Prelude.{ℕ, List, true, false, codes, IfOk, IfErr, OnOk, string_bytes};
ghost use Rattle.nbt_packets.specs.Commands.{IsValue, OutcomeOf};
ghost use Rattle.nbt_command.specs.Options.{IsGiven};
ghost use Rattle.nbt_command.specs.Printing.{ExplainsWrite, PrintsText, line};
ghost use Rattle.nbt_packets.specs.Names.{Leaves, PrintsSpelling, PrintsName, IsSpellingOf, IsSpellingFault, IsNameOf, IsNameFault, IsNoWrite};

use clap::ArgMatches;
use nb_names::{Pointers, name_from_text, name_text, read_name, write_domain};
use nb_streams::{Counted, bytes_of_digits, push_digits};
use nbt_command::{Fault, print};
use std::alloc::Global;
use std::io::Write;

/// `nbt name [--bytes] VALUE`.
///
/// # Errors
///
/// [`Fault::Text`] for a bad name; with `--bytes`, in this order, [`Fault::BadHex`],
/// [`Fault::Name`] where no name stands there, pointers refused, and [`Fault::TrailingBytes`] where
/// bytes follow it. [`Fault::Memory`] where memory ran out, [`Fault::Arguments`] where there is no
/// VALUE. Nothing is printed then. [`Fault::Write`] where the output failed.
pub fn run_name<W: Write>(
    alloc: Global,
    matches: &ArgMatches<'_>,
    output: &mut Counted<W>,
) -> Result<(), Fault>
    ensures spelling { (value : List ℕ) → IsValue matches.now value
        → IsGiven matches.now (codes "bytes") false
        → OutcomeOf PrintsSpelling IsSpellingFault IsSpellingOf value result
        (W.contents output.old.inner) (W.contents output.new.inner) }
    ensures name { (value : List ℕ) → IsValue matches.now value
        → IsGiven matches.now (codes "bytes") true
        → OutcomeOf PrintsName IsNameFault IsNameOf value result
        (W.contents output.old.inner) (W.contents output.new.inner) }
    ensures why { ExplainsWrite result output.old.counts output.new.counts }
{
    let Some(value) = matches.get_str("VALUE") else {
        return Err(Fault::Arguments);
    };
    if matches.get_flag("bytes") {
        print_line(name_of(alloc, value)?, output)
    } else {
        print_line(spelling_of(alloc, value)?, output)
    }
}

/// Prints a text as a line.
fn print_line<W: Write>(mut text: String, output: &mut Counted<W>) -> Result<(), Fault>
    ensures prints { PrintsText (line (string_bytes text))
        (W.contents output.old.inner) (W.contents output.new.inner) result }
    ensures why { ExplainsWrite result output.old.counts output.new.counts }
{
    text.push('\n')?;
    print(output, text.as_bytes())
}

/// The spelling, in hexadecimal, of the name that a text stands for.
fn spelling_of(alloc: Global, text: &str) -> Result<String, Fault>
    ensures found { IfOk result (λ digits. IsSpellingOf text.now (string_bytes digits)) }
    ensures fault { IfErr result (λ fault. IsSpellingFault text.now fault × IsNoWrite fault) }
{
    let name = name_from_text(text)?;
    let spelling = write_domain(alloc, &name.to_domain())?;
    let mut digits = String::new(alloc);
    push_digits(spelling.as_slice(), &mut digits)?;
    Ok(digits)
}

/// The text of the name whose spelling the digits are.
fn name_of(alloc: Global, digits: &str) -> Result<String, Fault>
    ensures found { IfOk result (λ text. IsNameOf digits.now (string_bytes text)) }
    ensures fault { IfErr result (λ fault. IsNameFault digits.now fault × IsNoWrite fault) }
{
    let bytes = bytes_of_digits(alloc, digits.as_bytes())?;
    let (name, next) = read_name(bytes.as_slice(), 0, Pointers::Refused)?;
    if next < bytes.as_slice().len() {
        return Err(Fault::TrailingBytes(next));
    }
    Ok(name_text(alloc, &name)?)
}
