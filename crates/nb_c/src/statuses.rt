//! The numbers that calls answer. Each stands for one thing, in all versions, and has its words.
ghost use Rattle.nb_calls.specs.Outputs.{Answers, lent};
ghost use Rattle.nb_calls.specs.Statuses.{status_answer};

use nb_calls::output::put;
use nb_calls::statuses::{UNKNOWN_STATUS, status_words};

/// Writes the words of a status: plain ASCII, without a line feed.
///
/// A number that is no status is answered by [`UNKNOWN_STATUS`]. The words are our choice.
#[unsafe(no_mangle)]
pub extern "C" fn nbt_status_text(status: u32, into: &mut [u8], used: &mut usize) -> u32
    ensures { Answers (status_answer status) (lent into.old used.old 0)
        (lent into.new used.new 0) result }
{
    match status_words(status) {
        Some(words) => put(words.as_bytes(), into, used),
        None => UNKNOWN_STATUS,
    }
}
