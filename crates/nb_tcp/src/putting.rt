//! The bytes of a segment: put where none came before, and compared with those that did.
ghost use Rattle.std.specs.Prelude.{◌≡◌, ◌≤◌, ◌<◌, ◌+◌, ◌^◌, ◌⊎◌, length, IsTrue, false, IfOk, IfSome, OnErr, Err, Some, None};
ghost use Rattle.nb_tcp.specs.Runs.{charge_of, Contradicts, Puts};
ghost use Rattle.nb_tcp.specs.Takes.{grown};
ghost use Rattle.nb_tcp.specs.declared.limits.TheConstants.{LAST, ROOM};
ghost use Rattle.nb_tcp.specs.declared.taken.Refusal.TheVariants.{Full, NoMemory};

use crate::limits::{LAST, ROOM, RUN_COST};
use crate::runs::Runs;
use crate::taken::Refusal;
use nb_streams::NoMemory;
use std::alloc::Global;

impl From<NoMemory> for Refusal {
    ghost use Rattle.std.specs.Prelude.{◌≡◌};
    ghost use Rattle.nb_tcp.specs.declared.taken.Refusal.TheVariants.{NoMemory};

    ghost from_gives = { λ _ e. e ≡ NoMemory };

    fn from(_e: NoMemory) -> Refusal {
        Refusal::NoMemory
    }
}

/// Puts the bytes that stand from a place on where there are none, in order. Answers how many there
/// are then of those at the front, and why not all.
pub(crate) fn put(
    runs: &mut Runs,
    alloc: Global,
    place: u64,
    bytes: &[u8],
) -> (usize, Option<Refusal>)
    requires last { place + length bytes.now < 2 ^ 64 }
    requires room { charge_of runs.old ≤ ROOM }
    ensures put { Puts runs.old place bytes.now result.0 runs.new }
    ensures within { result.0 ≤ length bytes.now }
    ensures room { charge_of runs.new ≤ ROOM }
    ensures whole { result.1 ≡ None → result.0 ≡ length bytes.now }
    ensures full { result.1 ≡ Some Full → (LAST < place + length bytes.now)
        ⊎ (ROOM < grown (charge_of runs.old) (length bytes.now)) }
    ensures grows { charge_of runs.new ≤ grown (charge_of runs.old) result.0 }
{
    if LAST < place + bytes.len() as u64 {
        return (0, Some(Refusal::Full));
    }
    let mut count = 0;
    'parts: while count < bytes.len() {
        match put_part(runs, alloc, place + count as u64, &bytes[count..]) {
            Ok(more) => count += more,
            Err(refusal) => return (count, Some(refusal)),
        }
    }
    (count, None)
}

/// The same up to where the first byte is that came before, or doesn't follow.
fn put_part(runs: &mut Runs, alloc: Global, at: u64, bytes: &[u8]) -> Result<usize, Refusal>
    requires some { 0 < length bytes.now }
    requires last { at + length bytes.now ≤ LAST }
    requires room { charge_of runs.old ≤ ROOM }
    ensures ok { IfOk result (λ count. Puts runs.old at bytes.now count runs.new) }
    ensures within { IfOk result (λ count. (0 < count) × (count ≤ length bytes.now)) }
    ensures room { charge_of runs.new ≤ ROOM }
    ensures full { result ≡ Err Full → ROOM < grown (charge_of runs.old) (length bytes.now) }
    ensures grows { IfOk result (λ count.
        charge_of runs.new ≤ grown (charge_of runs.old) count) }
    ensures err { OnErr result (runs.new ≡ runs.old) }
{
    if let Some(known) = runs.known_at(at) {
        return Ok(known.len().min(bytes.len()));
    }
    let count = match runs.next_after(at) {
        Some(next) => ((next - at) as usize).min(bytes.len()),
        None => bytes.len(),
    };
    if ROOM < runs.charge() + RUN_COST + count {
        return Err(Refusal::Full);
    }
    runs.insert(alloc, at, &bytes[..count])?;
    Ok(count)
}

/// Whether one of the bytes that stand from a place on contradicts that in the runs.
pub(crate) fn contradicts(runs: &Runs, place: u64, bytes: &[u8]) -> bool
    requires { place + length bytes.now + 1 < 2 ^ 64 }
    ensures yes { IsTrue result → Contradicts runs.now place bytes.now (length bytes.now) }
    ensures no { result ≡ false → Contradicts runs.now place bytes.now (length bytes.now) → ⊥ }
{
    let mut count = 0;
    'parts: while count < bytes.len() {
        match agreeing(runs, place + count as u64, &bytes[count..]) {
            Some(more) => count += more,
            None => return true,
        }
    }
    false
}

/// How many of the bytes that stand from a place on contradict nothing, up to where the runs begin
/// or end; none where the first of these parts contradicts.
fn agreeing(runs: &Runs, at: u64, bytes: &[u8]) -> Option<usize>
    requires some { 0 < length bytes.now }
    requires last { at + length bytes.now + 1 < 2 ^ 64 }
    ensures some { IfSome result (λ count. Contradicts runs.now at bytes.now count → ⊥) }
    ensures within { IfSome result (λ count. (0 < count) × (count ≤ length bytes.now)) }
    ensures none { result ≡ None → Contradicts runs.now at bytes.now (length bytes.now) }
{
    if let Some(known) = runs.known_at(at) {
        let count = known.len().min(bytes.len());
        return if known[..count] == bytes[..count] {
            Some(count)
        } else {
            None
        };
    }
    match runs.next_after(at) {
        Some(next) => Some(((next - at) as usize).min(bytes.len())),
        None => Some(bytes.len()),
    }
}
