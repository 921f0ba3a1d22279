//! Stations: made of names, shown the clock, saved, listed and given back.
ghost use Rattle.std.specs.Prelude.{◌≡◌, ◌+◌, ◌<◌, ◌++◌, ◌∷◌, Contains, MatchOption, length};
ghost use Rattle.nb_calls.specs.Common.{w32, to_be_bytes, new_member};
ghost use Rattle.nb_calls.specs.Stations.{IsCreated, Names, NamesText, texts_in};

use crate::handle::{Kept, Parts, hide, pointer_of};
use crate::names::name_of_text;
use crate::output::Refusal;
use crate::statuses::{BAD_TEXT, DONE, LONG_TEXT, NAME_PRESENT, NO_MEMORY, TOO_MANY_NAMES};
use nb_member::{AddFault, LocalNames, Member, Settings};
use nb_names::TextFault;
use std::alloc::Global;

/// The most bytes of a datagram.
pub const LONGEST: u16 = 65_535;

/// A member with these names and an empty table with these limits, whose error packets have this
/// address and port.
pub fn member_of(
    alloc: Global,
    names: LocalNames,
    address: u32,
    port: u16,
    keys: u32,
    per_source: u32,
) -> Member
    ensures { result ≡ new_member (record {
      ip = to_be_bytes w32 address;
      port = port;
      keys = keys;
      per_source = per_source;
      longest = 65535;
    }) names }
{
    let settings = Settings {
        ip: address.to_be_bytes(),
        port,
        keys,
        per_source,
        longest: LONGEST,
    };
    Member::new(alloc, settings, names)
}

/// Makes the station that this member is, and answers the pointer to it.
pub fn create(alloc: Global, member: Member, station: &mut *mut ()) -> u32
    ensures { IsCreated station.old station.new result }
{
    match Box::new(alloc, Kept { member }) {
        Ok(kept) => {
            *station = pointer_of(hide(Parts::of(kept)));
            DONE
        }
        Err(_) => NO_MEMORY,
    }
}

/// The names whose texts these are, with one space between two; none where there are no bytes.
pub fn names_of(alloc: Global, texts: &[u8]) -> Result<LocalNames, Refusal>
    ensures { Names (texts_in texts.now) result }
{
    let mut names = LocalNames::new(alloc);
    if texts.is_empty() {
        return Ok(names);
    }
    let mut rest = texts;
    let mut place = 0;
    while let Some((text, others)) = at_space(rest) {
        add(text, place, &mut names)?;
        place += text.len() + 1;
        rest = others;
    }
    add(rest, place, &mut names)?;
    Ok(names)
}

/// What stands before the first space, and what after it; `None` where there is none.
fn at_space(texts: &[u8]) -> Option<(&[u8], &[u8])>
    ensures { MatchOption result (¬ Contains texts.now 32)
        (λ parts. (texts.now ≡ parts.0.now ++ 32 ∷ parts.1.now) × (¬ Contains parts.0.now 32)) }
{
    let at = texts.iter().position(|byte| *byte == b' ')?;
    Some((&texts[..at], &texts[at + 1..]))
}

/// Adds the name with this text, which begins at a place.
fn add(text: &[u8], place: usize, names: &mut LocalNames) -> Result<(), Refusal>
    requires { place + length text.now < 18446744073709551616 }
    ensures { NamesText place names.old text.now names.new result }
{
    match name_of_text(text) {
        Ok(name) => match names.add(name) {
            Ok(()) => Ok(()),
            Err(AddFault::Present) => Err(Refusal::FaultAt(NAME_PRESENT, place)),
            Err(AddFault::TooMany) => Err(Refusal::FaultAt(TOO_MANY_NAMES, place)),
            Err(AddFault::NoMemory) => Err(Refusal::Memory),
        },
        Err(TextFault::BadText(at)) => Err(Refusal::FaultAt(BAD_TEXT, place.saturating_add(at))),
        Err(TextFault::TooLong) => Err(Refusal::Fault(LONG_TEXT)),
    }
}
