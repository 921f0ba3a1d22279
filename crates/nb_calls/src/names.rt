//! Names: as texts, as spellings, and spelled out in place.
ghost use Rattle.std.specs.Prelude.{◌≡◌, IfOk, ◌≤◌, ℕ, List, length};
ghost use Rattle.nb_calls.specs.Common.{written, IsBad, MAX_SPELLING, Followed, NameAt, IsSkipped};
ghost use Rattle.std.specs.Str.{IsValidUpTo};
ghost use Rattle.nb_calls.specs.Names.{Tells, spelling_answer, IsRead, in_place, spelled_in_place};
ghost use Rattle.nb_calls.specs.Outputs.{OrMemory};

use crate::output::{Refusal, answer_of, name_refusal, text_refusal};
use crate::statuses::{NAME_TRAILING_BYTES, NO_ROLE};
use nb_names::limits::{LETTERS, MAX_SPELLING};
use nb_names::{
    DomainName, Name, NameReader, Pointers, Skipped, TextFault, name_from_text, name_text,
    read_name, write_domain,
};
use nb_streams::{Bytes, NoMemory};
use std::alloc::Global;

/// The spelling of a name, if one was read.
pub fn spelling_of(alloc: Global, read: Result<Name, TextFault>) -> Result<Bytes, Refusal>
    ensures { OrMemory (spelling_answer read) result }
{
    match read {
        Ok(name) => answer_of(write_domain(alloc, &name.to_domain())),
        Err(fault) => Err(text_refusal(NO_ROLE, fault)),
    }
}

/// The text of the name with this spelling.
pub fn text_of(alloc: Global, spelling: &[u8]) -> Result<Bytes, Refusal>
    ensures { Tells spelling.now result }
{
    match read_name(spelling, 0, Pointers::Refused) {
        Ok((name, next)) => {
            if next < spelling.len() {
                return Err(Refusal::FaultAt(NAME_TRAILING_BYTES, next));
            }
            answer_of(text_bytes(alloc, &name))
        }
        Err(fault) => Err(name_refusal(NO_ROLE, fault)),
    }
}

/// The bytes of a name's text.
fn text_bytes(alloc: Global, name: &Name) -> Result<Bytes, NoMemory>
    ensures { IfOk result (λ bytes. bytes ≡ written name.now) }
{
    Ok(Bytes::from_vec(name_text(alloc, name)?.into_bytes()))
}

/// The name that the bytes of a text stand for.
///
/// # Errors
///
/// As [`name_from_text`]. A byte that isn't ASCII is of no text of the form.
pub fn name_of_text(text: &[u8]) -> Result<Name, TextFault>
    ensures { IsRead text.now result }
{
    match str::from_utf8(text) {
        Ok(whole) => name_from_text(whole),
        Err(fault) => Err(TextFault::BadText(bad_place(text, fault.valid_up_to()))),
    }
}

/// Where a text leaves the form that is UTF-8 up to a place alone.
fn bad_place(text: &[u8], valid: usize) -> usize
    requires { IsValidUpTo text.now valid }
    ensures { IsBad text.now result }
{
    match str::from_utf8(&text[..valid]) {
        Ok(front) => match name_from_text(front) {
            Ok(_) => valid,
            Err(TextFault::BadText(place)) => place,
            Err(TextFault::TooLong) => valid,
        },
        Err(_) => 0,
    }
}

/// The spelling of labels, and bytes of zero after it.
pub(crate) fn spelled_in_place(domain: &DomainName) -> [u8; MAX_SPELLING]
    ensures { result ≡ spelled_in_place domain.now }
{
    let mut bytes = [0; MAX_SPELLING];
    fill_spelling(domain.spelling(), &mut bytes);
    bytes
}

/// Fills in the spelling of the name at an offset, and zeros after it.
pub(crate) fn spell_domain(
    names: &NameReader<'_, '_>,
    at: usize,
    name: &Skipped,
    into: &mut [u8; MAX_SPELLING],
)
    requires { (labels : List (List ℕ)) × IsSkipped names.now Followed at labels name.now }
    ensures { (labels : List (List ℕ)) → IsSkipped names.now Followed at labels name.now →
        into.new ≡ spelled_in_place labels }
{
    match names.lent_at(at, Pointers::Followed, name) {
        Some(lent) => fill_spelling(lent.spelling(), into),
        None => spell_along(names, at, into),
    }
}

/// The same of one in stretches; out of line, so that others don't pay for the room of a name.
#[inline(never)]
fn spell_along(names: &NameReader<'_, '_>, at: usize, into: &mut [u8; MAX_SPELLING])
    requires { (labels : List (List ℕ)) × (next : ℕ) × NameAt names.now Followed at labels next }
    ensures { (labels : List (List ℕ)) (next : ℕ) → NameAt names.now Followed at labels next →
        into.new ≡ spelled_in_place labels }
{
    let (domain, _) = names.read_domain(at, Pointers::Followed).unwrap();
    fill_spelling(domain.spelling(), into);
}

/// How many bytes the spelling of a NetBIOS name has whose scope has no label.
const WITHOUT_SCOPE: usize = 1 + LETTERS + 1;

/// Fills in a spelling, and zeros after it: the usual length without a call of the C library.
#[inline(always)]
fn fill_spelling(spelling: &[u8], into: &mut [u8; MAX_SPELLING])
    requires { length spelling.now ≤ MAX_SPELLING }
    ensures { into.new ≡ in_place spelling.now }
{
    *into = [0; MAX_SPELLING];
    if spelling.len() == WITHOUT_SCOPE {
        let mut front = [0; WITHOUT_SCOPE];
        front.copy_from_slice(spelling);
        into[..WITHOUT_SCOPE].copy_from_slice(&front);
    } else {
        into[..spelling.len()].copy_from_slice(spelling);
    }
}
