//! The fields of saved entries: each read where it stands, and written.
#![tactic(auto, using(crate::proofs::SavedReading::fields))]

ghost use Rattle.std.specs.Prelude.{◌≡◌, ◌↔◌, ℕ, IsTrue, MatchResult, Some};
ghost use Rattle.std.specs.Int.{w16, w32, to_be_bytes};
ghost use Rattle.nb_streams.specs.Places.{NumberAt};
ghost use Rattle.nb_entries.specs.Sinks.{Puts};
ghost use Rattle.nb_entries.specs.Marks.{end_bytes, marks_bytes};
ghost use Rattle.nb_entries.specs.SavedReading.{Field, PromisesBelow, fault_of_name, byte_at as byte_reading, number_at as number_reading, bytes_at as bytes_reading, kind_at as kind_reading, name_at as name_reading, end_at as end_reading, promise_at as promise_reading, marks_at as marks_reading};
ghost use Rattle.nb_entries.specs.declared.saved.SavedForm.TheVariants.{Second};

use super::{ByteSink, LoadFault, SavedForm};
use crate::cover::marks::Marks;
use nb_datagram::Kind;
use nb_names::{LentName, NameFault, read_lent_name};
use nb_streams::numbers::{number_16, number_32};

/// The byte at an offset.
pub(crate) fn read_byte(input: &[u8], at: usize) -> Result<(u8, usize), LoadFault>
    ensures { byte_reading input.now at result }
{
    if input.len().saturating_sub(at) < 1 {
        return Err(LoadFault::Truncated);
    }
    Ok((input[at], at + 1))
}

/// The number in the two bytes at an offset.
pub(crate) fn read_number(input: &[u8], at: usize) -> Result<(u16, usize), LoadFault>
    ensures { number_reading input.now at result }
{
    if input.len().saturating_sub(at) < 2 {
        return Err(LoadFault::Truncated);
    }
    Ok((number_16(input, at), at + 2))
}

/// Puts the two low bytes of a number, the high one of them first.
#[inline]
pub(crate) fn put_two_bytes<S: ByteSink>(sink: &mut S, number: u64) -> Result<(), S::Fault>
    ensures { Puts S.takes S.breaks sink.old sink.new (to_be_bytes w16 number) result }
{
    let bytes = number.to_be_bytes();
    sink.put(&[bytes[6], bytes[7]])
}

/// The number in the four bytes at an offset, and the offset after them.
///
/// # Errors
///
/// `Truncated` where the input ends before them or inside them.
pub fn read_count(input: &[u8], at: usize) -> Result<(u32, usize), LoadFault>
    ensures { Field input.now at 4 (NumberAt input.now at w32) result }
{
    if input.len().saturating_sub(at) < 4 {
        return Err(LoadFault::Truncated);
    }
    Ok((number_32(input, at), at + 4))
}

/// Puts the four low bytes of a number, the high one of them first.
///
/// # Errors
///
/// Why the sink takes no more.
pub fn put_four_bytes<S: ByteSink>(sink: &mut S, count: u64) -> Result<(), S::Fault>
    ensures { Puts S.takes S.breaks sink.old sink.new (to_be_bytes w32 count) result }
{
    let bytes = count.to_be_bytes();
    sink.put(&[bytes[4], bytes[5], bytes[6], bytes[7]])
}

/// This many bytes at an offset.
pub(crate) fn read_bytes<'a>(
    input: &'a [u8],
    at: usize,
    size: u16,
) -> Result<(&'a [u8], usize), LoadFault>
    ensures { MatchResult result
        (λ read. bytes_reading input.now at size (Ok (read.0.now, read.1)))
        (λ fault. bytes_reading input.now at size (Err fault)) }
{
    if at > input.len() {
        return Err(LoadFault::Truncated);
    }
    let size = usize::from(size);
    let left = input.len() - at;
    if left < size {
        return Err(LoadFault::Truncated);
    }
    let after = at + size;
    Ok((&input[at..after], after))
}

/// The kind at an offset.
pub(crate) fn read_kind(input: &[u8], at: usize) -> Result<(Kind, usize), LoadFault>
    ensures { kind_reading input.now at result }
{
    let (number, next) = read_byte(input, at)?;
    match number {
        0x10 => Ok((Kind::Unique, next)),
        0x11 => Ok((Kind::Group, next)),
        0x12 => Ok((Kind::Broadcast, next)),
        _ => Err(LoadFault::NotCanonical(at)),
    }
}

/// What the fault of a name at an offset comes to.
fn name_fault(at: usize, fault: NameFault) -> LoadFault
    ensures { result ≡ fault_of_name at fault }
{
    match fault {
        NameFault::Truncated(_) => LoadFault::Truncated,
        _ => LoadFault::NotCanonical(at),
    }
}

/// The name that is spelled at an offset, with no pointer.
pub(crate) fn read_plain_name<'a>(
    input: &'a [u8],
    at: usize,
) -> Result<(LentName<'a>, usize), LoadFault>
    ensures { name_reading input.now at result }
{
    match read_lent_name(input, at) {
        Ok(read) => Ok(read),
        Err(fault) => Err(name_fault(at, fault)),
    }
}

/// The end at an offset, if there is one.
fn read_end(input: &[u8], at: usize) -> Result<(Option<u32>, usize), LoadFault>
    ensures { end_reading input.now at result }
{
    let (mark, next) = read_byte(input, at)?;
    match mark {
        0 => Ok((None, next)),
        1 => {
            let (end, after) = read_number(input, next)?;
            Ok((Some(u32::from(end)), after))
        }
        _ => Err(LoadFault::NotCanonical(at)),
    }
}

/// Whether the promise lies below the end, where there are both.
fn is_below_end(promise: Option<u32>, end: Option<u32>) -> bool
    ensures { IsTrue result ↔ ((r : ℕ) → promise ≡ Some r → PromisesBelow end r) }
{
    match (promise, end) {
        (Some(promise), Some(end)) => promise < end,
        _ => true,
    }
}

/// The promise at an offset, if there is one, which has to lie below the end. The first form has no
/// such field.
fn read_promise(
    form: SavedForm,
    input: &[u8],
    end: Option<u32>,
    at: usize,
) -> Result<(Option<u32>, usize), LoadFault>
    ensures { promise_reading form input.now end at result }
{
    match form {
        SavedForm::First => return Ok((None, at)),
        SavedForm::Second => {}
    }
    let (promise, next) = read_end(input, at)?;
    if !is_below_end(promise, end) {
        return Err(LoadFault::NotCanonical(at));
    }
    Ok((promise, next))
}

/// The end and the promise at an offset.
pub(crate) fn read_marks(
    form: SavedForm,
    input: &[u8],
    at: usize,
) -> Result<(Marks, usize), LoadFault>
    ensures { marks_reading form input.now at result }
{
    let (end, after) = read_end(input, at)?;
    let (promise, next) = read_promise(form, input, end, after)?;
    Ok((Marks { end, promise }, next))
}

/// Puts an end or a promise, or that there is none.
fn put_end<S: ByteSink>(sink: &mut S, end: Option<u32>) -> Result<(), S::Fault>
    ensures { Puts S.takes S.breaks sink.old sink.new (end_bytes end) result }
{
    match end {
        Some(end) => {
            let bytes = end.to_be_bytes();
            sink.put(&[1, bytes[2], bytes[3]])
        }
        None => sink.put(&[0]),
    }
}

/// Puts the end and the promise, in the second form.
pub(crate) fn put_marks<S: ByteSink>(sink: &mut S, marks: Marks) -> Result<(), S::Fault>
    ensures { Puts S.takes S.breaks sink.old sink.new (marks_bytes Second marks) result }
{
    put_end(sink, marks.end)?;
    put_end(sink, marks.promise)
}
