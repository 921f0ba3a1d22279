//! What the options of a command ask.
ghost use Rattle.std.specs.Prelude.{◌≡◌, Bool};
ghost use Rattle.nbt_command.specs.Options.{AreComments, AreOptions, IsGiven, IsInputLimit};

use clap::ArgMatches;
use nb_capture::{CaptureOptions, Comments};
use nb_streams::limits::MAX_INPUT;

/// How many bytes the input may have: as many as `--input-limit` says, or [`MAX_INPUT`] where that
/// isn't given.
pub fn input_limit_of(matches: &ArgMatches<'_>) -> u64
    ensures { IsInputLimit matches.now result }
{
    matches
        .get_one::<u64>("input-limit")
        .unwrap_or(MAX_INPUT as u64)
}

/// Whether an option that has no value is given.
pub fn is_given(matches: &ArgMatches<'_>, option: &str) -> bool
    ensures { (given : Bool) → IsGiven matches.now option.now given → result ≡ given }
{
    matches.get_flag(option)
}

/// Whether comments are printed: where `--comments` is given.
fn comments_of(matches: &ArgMatches<'_>) -> Comments
    ensures { AreComments matches.now result }
{
    if matches.get_flag("comments") {
        Comments::Printed
    } else {
        Comments::LeftOut
    }
}

/// What the options ask of a call that reads a capture.
pub fn options_of(matches: &ArgMatches<'_>) -> CaptureOptions
    ensures { AreOptions matches.now result }
{
    CaptureOptions {
        most: input_limit_of(matches),
        comments: comments_of(matches),
    }
}
