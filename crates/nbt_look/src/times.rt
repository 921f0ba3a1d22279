//! The times of frames.
ghost use Rattle.std.specs.Prelude.{◌≡◌, ◌++◌, ◌∷◌, [], ℕ, List, OnOk, string_bytes};
ghost use Rattle.nbt_look.specs.Times.{IsTime, IsUtc, digit, seconds_text, six_digits, time_text};

use crate::asked::Times;
use jiff_core::Timestamp;
use jiff_fmt::temporal::DateTimePrinter;
use nb_streams::{NoMemory, push_decimal};

/// Nanoseconds of a second, and of a millionth of one.
const SECOND: u64 = 1_000_000_000;

const MICROSECOND: u64 = 1_000;

/// Adds the last digit of a number.
fn push_digit(number: u64, text: &mut String) -> Result<(), NoMemory>
    ensures { OnOk result (string_bytes text.new ≡ string_bytes text.old ++ digit number ∷ []) }
{
    text.push(char::from(b'0' + (number % 10) as u8))?;
    Ok(())
}

/// Adds the six digits of a number below a million.
fn push_six_digits(number: u64, text: &mut String) -> Result<(), NoMemory>
    ensures { OnOk result (string_bytes text.new ≡ string_bytes text.old ++ six_digits number) }
{
    push_digit(number / 100_000, text)?;
    push_digit(number / 10_000, text)?;
    push_digit(number / 1_000, text)?;
    push_digit(number / 100, text)?;
    push_digit(number / 10, text)?;
    push_digit(number, text)
}

/// Adds so many nanoseconds, in seconds with six decimals.
fn push_seconds(nanoseconds: u64, text: &mut String) -> Result<(), NoMemory>
    ensures { OnOk result
        (string_bytes text.new ≡ string_bytes text.old ++ seconds_text nanoseconds) }
{
    push_decimal(nanoseconds / SECOND, text)?;
    text.push_str(".")?;
    push_six_digits(nanoseconds % SECOND / MICROSECOND, text)
}

/// Adds the time of a frame since the first one that has one, or `-`.
fn push_since(first: Option<u64>, at: Option<u64>, text: &mut String) -> Result<(), NoMemory>
    ensures { OnOk result (string_bytes text.new ≡ string_bytes text.old ++ time_text first at) }
{
    match (first, at) {
        (Some(first), Some(at)) if at < first => {
            text.push_str("-")?;
            push_seconds(first - at, text)
        }
        (Some(first), Some(at)) => push_seconds(at - first, text),
        _ => {
            text.push_str("-")?;
            Ok(())
        }
    }
}

/// Adds the date and time of day at this time.
fn push_utc(at: u64, text: &mut String) -> Result<(), NoMemory>
    ensures { OnOk result ((said : List ℕ) × IsUtc at said
        × (string_bytes text.new ≡ string_bytes text.old ++ said)) }
{
    let instant = Timestamp::from_nanosecond(i128::from(at)).unwrap();
    let printer = DateTimePrinter::new().precision(Some(6));
    text.push_str(printer.timestamp_text(instant).as_str())?;
    Ok(())
}

/// Adds the time of a frame, where this is that of the first one that has one.
pub fn push_time(
    times: Times,
    first: Option<u64>,
    at: Option<u64>,
    text: &mut String,
) -> Result<(), NoMemory>
    ensures { OnOk result ((said : List ℕ) × IsTime times first at said
        × (string_bytes text.new ≡ string_bytes text.old ++ said)) }
{
    match (times, at) {
        (Times::Since, _) => push_since(first, at, text),
        (Times::Utc, Some(at)) => push_utc(at, text),
        (Times::Utc, None) => {
            text.push_str("-")?;
            Ok(())
        }
    }
}
