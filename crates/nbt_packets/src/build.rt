//! `nbt build`: packets as the lines of a capture.
ghost use Rattle.std.specs.Prelude.{◌≡◌, ◌≢◌, [], map, option_map, unwrap_or, codes, IfOk, IfErr, OnOk, string_bytes};
ghost use Rattle.std.specs.Io.KnownBytes.{Appends, Keeps};
ghost use Rattle.clap.specs.Words.{found_of, matched_of, raw_values};
ghost use Rattle.nb_streams.specs.Devices.{AppendsFront};
ghost use Rattle.nbt_packets.specs.Building.{AreBuilt, AreTooMuch, Builds, NameNone};
ghost use Rattle.nbt_command.specs.Printing.{ExplainsWrite};

use clap::ArgMatches;
use nb_building::{BuildFault, capture_lines};
use nb_streams::Counted;
use nbt_command::{Fault, is_given, print};
use std::alloc::Global;
use std::io::Write;

/// `nbt build [--broadcast] WHAT ARG..`: prints a capture line for each packet that the words name.
///
/// WHAT is judged before the number of arguments, and that before each of them from left to right.
///
/// # Errors
///
/// [`Fault::Build`] where [`capture_lines`] refuses the words, and [`Fault::Memory`]; nothing is
/// printed then. [`Fault::Write`] where the output failed.
pub fn run_build<W: Write>(
    alloc: Global,
    matches: &ArgMatches<'_>,
    output: &mut Counted<W>,
) -> Result<(), Fault>
    ensures printed { OnOk result (Builds matches.now
        (Appends (W.contents output.old.inner) (W.contents output.new.inner))) }
    ensures write { IfErr result (λ fault. fault ≡ Fault.Write → Builds matches.now
        (AppendsFront (W.contents output.old.inner) (W.contents output.new.inner))) }
    ensures err { IfErr result (λ fault. fault ≢ Fault.Write →
        Keeps (W.contents output.old.inner) (W.contents output.new.inner)) }
    ensures why { ExplainsWrite result output.old.counts output.new.counts }
    ensures too_long { IfErr result (λ fault. fault ≡ Fault.Build BuildFault.TooLong →
        AreTooMuch matches.now) }
    ensures refused { IfErr result (λ fault. fault ≢ Fault.Write → fault ≢ Fault.Memory →
        NameNone matches.now) }
{
    let lines = lines_of(alloc, matches)?;
    print(output, lines.as_bytes())
}

/// The lines of the packets that the matches' words name.
fn lines_of(alloc: Global, matches: &ArgMatches<'_>) -> Result<String, BuildFault>
    ensures built { IfOk result (λ lines. AreBuilt matches.now (string_bytes lines)) }
    ensures too_long { IfErr result (λ fault. fault ≡ BuildFault.TooLong → AreTooMuch matches.now) }
    ensures refused { IfErr result (λ fault. fault ≢ BuildFault.Memory → NameNone matches.now) }
{
    let broadcast = is_given(matches, "broadcast");
    match matches.get_str("WHAT") {
        Some(what) => capture_lines(alloc, what, words_of(matches), broadcast),
        None => Err(BuildFault::What),
    }
}

/// The words after WHAT.
fn words_of<'a>(matches: &'a ArgMatches<'_>) -> &'a [&'a str]
    ensures { map (λ w. w.now) result.now ≡
        unwrap_or (option_map raw_values (matched_of (found_of matches.now) (codes "ARG"))) [] }
{
    matches.get_strs("ARG").unwrap_or(&[])
}
