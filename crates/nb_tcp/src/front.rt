//! The front of the runs: what is handed on, and what is forgotten of it.
ghost use Rattle.std.specs.Prelude.{◌≡◌, ◌≤◌, ◌<◌, ◌⊎◌, ℕ, OnOk, None};
ghost use Rattle.nb_tcp.specs.Runs.{in_runs, charge_of, Moves};
ghost use Rattle.nb_tcp.specs.declared.limits.TheConstants.{LAST};

use crate::runs::Runs;
use nb_streams::NoMemory;

/// Appends the bytes from a place on, up to the first one that is missing, and moves the place
/// there.
///
/// # Errors
///
/// Memory ran out. What was appended is passed.
pub(crate) fn hand_on(runs: &Runs, at: &mut u64, to: &mut Vec<u8>) -> Result<(), NoMemory>
    requires { at.old ≤ LAST }
    ensures moves { Moves runs.now at.old to.old.items at.new to.new.items }
    ensures ok { OnOk result (in_runs runs.now at.new ≡ None) }
    ensures last { at.new ≤ LAST }
{
    'parts: while let Some(bytes) = runs.known_at(*at) {
        to.extend_from_slice(bytes)?;
        *at += bytes.len() as u64;
    }
    Ok(())
}

/// Forgets runs from the front on that end at a place or before, while more than a tail is kept.
/// Answers from where on all is known that was known from `known` on.
pub(crate) fn forget(runs: &mut Runs, known: u64, by: u64, tail: usize) -> u64
    requires { known ≤ by }
    ensures from { known ≤ result }
    ensures by { result ≤ by }
    ensures same { (i : ℕ) → result ≤ i → in_runs runs.new i ≡ in_runs runs.old i }
    ensures charge { charge_of runs.new ≤ charge_of runs.old }
    ensures tail { (result ≡ known) ⊎ (tail < charge_of runs.old) }
{
    let mut from = known;
    'runs: while tail < runs.charge() {
        match runs.forget_first(by) {
            Some(end) => from = from.max(end),
            None => return from,
        }
    }
    from
}
