//! The version of the library.
ghost use Rattle.std.specs.Prelude.{Ok, codes};
ghost use Rattle.nb_calls.specs.Outputs.{Answers, lent};

use nb_calls::output::put;

/// The version, that of `nbt --version` and of NBT_VERSION in include/nbt.h.
const VERSION: &str = "0.1.0";

/// Writes the version.
///
/// The form is our choice.
#[unsafe(no_mangle)]
pub extern "C" fn nbt_version(into: &mut [u8], used: &mut usize) -> u32
    ensures { Answers (Ok (codes "0.1.0")) (lent into.old used.old 0)
        (lent into.new used.new 0) result }
{
    put(VERSION.as_bytes(), into, used)
}
