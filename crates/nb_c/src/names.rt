//! Names: as texts, as spellings, and spelled out in place.
#![tactic(auto, using(nb_calls::proofs::AnswerLemmas::answered))]

ghost use Rattle.nb_calls.specs.Names.{Spells, Tells};
ghost use Rattle.nb_calls.specs.Outputs.{Writes, lent};

use nb_calls::names::{name_of_text, spelling_of, text_of};
use nb_calls::output::write_answer;
use std::alloc::Global;

/// Writes the spelling of the name with this text.
///
/// RFC 1001 section 14.1, RFC 1002 section 4.1; the form of texts is our choice.
#[unsafe(no_mangle)]
pub extern "C" fn nbt_name_spell(
    alloc: Global,
    text: &[u8],
    into: &mut [u8],
    used: &mut usize,
    at: &mut usize,
) -> u32
    ensures { Writes (Spells text.now) (lent into.old used.old at.old)
        (lent into.new used.new at.new) result }
{
    write_answer(spelling_of(alloc, name_of_text(text)), into, used, at)
}

/// Writes the text of the name with this spelling, which has no byte after it.
///
/// RFC 1001 section 14.1, RFC 1002 section 4.1; the form of texts is our choice.
#[unsafe(no_mangle)]
pub extern "C" fn nbt_name_text(
    alloc: Global,
    spelling: &[u8],
    into: &mut [u8],
    used: &mut usize,
    at: &mut usize,
) -> u32
    ensures { Writes (Tells spelling.now) (lent into.old used.old at.old)
        (lent into.new used.new at.new) result }
{
    write_answer(text_of(alloc, spelling), into, used, at)
}
