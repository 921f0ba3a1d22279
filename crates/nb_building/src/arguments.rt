//! Words as the parts of packets. Decimal numbers have no leading zeros; hexadecimal digits are
//! read in either case. `place` is that of the word, for its fault.
ghost use Rattle.std.specs.Prelude.{◌≡◌, ◌≢◌, ◌<◌, ◌^◌, ◌++◌, [], ◌∷◌, ℕ, List, IsTrue, IfErr, IfOk, IsOkAnd, MatchResult, true, length, slice_index};
ghost use Rattle.std.specs.List.{list_all};
ghost use Rattle.std.specs.Char.{is_ascii_digit};
ghost use Rattle.std.specs.Int.{w16, to_be_bytes};
ghost use Rattle.std.specs.Fmt.{decimal};
ghost use Rattle.nb_streams.specs.Hexadecimal.{DataText, HexText};
ghost use Rattle.nb_names.specs.Name.{NetbiosName};
ghost use Rattle.nb_names.specs.NameText.{IsText};
ghost use Rattle.nb_building.specs.Built.{AddressText, CodeText, KeyText, NumberText, WordText};
ghost use Rattle.nb_building.specs.Refusals.{Finds, IsTextRefused, NamesNone, Reads, SplitsAt, of_digits};

use crate::build_fault::BuildFault;
use nb_datagram::Key;
use nb_names::{Name, name_from_text};
use nb_streams::{Bytes, DigitsFault, bytes_of_digits, data_of_text};
use std::alloc::Global;

/// A word of a packet, as an identifier or flags: four hexadecimal digits.
pub fn word(alloc: Global, text: &str, place: usize) -> Result<u16, BuildFault>
    ensures { Reads place (λ number. WordText number text.now) result }
{
    let digits = digits(alloc, text, place)?;
    word_of(digits.as_slice(), place)
}

/// The number of sixteen bits that two bytes are.
fn word_of(bytes: &[u8], place: usize) -> Result<u16, BuildFault>
    ensures { MatchResult result (λ number. (number < 2 ^ 16)
        × (bytes.now ≡ to_be_bytes w16 number))
        (λ fault. (fault ≡ BuildFault.Word place) × (length bytes.now ≢ 2)) }
{
    match bytes {
        [high, low] => Ok(u16::from_be_bytes([*high, *low])),
        _ => Err(BuildFault::Word(place)),
    }
}

/// A name, by its text.
pub fn named(text: &str, place: usize) -> Result<Name, BuildFault>
    ensures found { IfOk result (λ name. IsText name text.now) }
    ensures only { (name : NetbiosName) → IsText name text.now →
        IsOkAnd result (λ read. read ≡ name) }
    ensures refused { IfErr result (IsTextRefused place text.now) }
{
    match name_from_text(text) {
        Ok(name) => Ok(name),
        Err(fault) => Err(BuildFault::Text(place, fault)),
    }
}

/// A code: two hexadecimal digits.
pub fn code(alloc: Global, text: &str, place: usize) -> Result<u8, BuildFault>
    ensures { Reads place (λ code. CodeText code text.now) result }
{
    let digits = digits(alloc, text, place)?;
    code_of(digits.as_slice(), place)
}

/// The number that one byte is.
fn code_of(bytes: &[u8], place: usize) -> Result<u8, BuildFault>
    ensures { MatchResult result (λ code. bytes.now ≡ code ∷ [])
        (λ fault. (fault ≡ BuildFault.Word place) × (length bytes.now ≢ 1)) }
{
    match bytes {
        [code] => Ok(*code),
        _ => Err(BuildFault::Word(place)),
    }
}

/// A decimal number to 4,294,967,295.
pub fn long_number(text: &str, place: usize) -> Result<u32, BuildFault>
    ensures { Finds place (λ number. NumberText 4294967295 number text.now) result }
{
    if !is_decimal(text) {
        return Err(BuildFault::Word(place));
    }
    text.parse::<u32>().or(Err(BuildFault::Word(place)))
}

/// A decimal number to 65,535.
pub fn number(text: &str, place: usize) -> Result<u16, BuildFault>
    ensures { Finds place (λ number. NumberText 65535 number text.now) result }
{
    u16::try_from(long_number(text, place)?).or(Err(BuildFault::Word(place)))
}

/// An IPv4 address: four decimal numbers to 255, with dots between them.
pub fn address(text: &str, place: usize) -> Result<[u8; 4], BuildFault>
    ensures { Finds place (λ address. AddressText address text.now) result }
{
    let (first, rest) = before_dot(text, place)?;
    let (second, rest) = before_dot(rest, place)?;
    let (third, rest) = before_dot(rest, place)?;
    Ok([first, second, third, small_number(rest, place)?])
}

/// A datagram's key: its sender's address and port, and the identifier, as `10.0.0.5:138/0001`.
pub fn key(alloc: Global, text: &str, place: usize) -> Result<Key, BuildFault>
    ensures { Reads place (λ key. KeyText key text.now) result }
{
    let (sender, id) = parts(text, '/', place)?;
    let (ip, port) = parts(sender, ':', place)?;
    Ok(Key {
        ip: address(ip, place)?,
        port: number(port, place)?,
        id: word(alloc, id, place)?,
    })
}

/// Data: hexadecimal digits, two a byte and at least two, or `empty`.
pub fn data(alloc: Global, text: &str, place: usize) -> Result<Bytes, BuildFault>
    ensures { Reads place (λ bytes. DataText bytes text.now) result }
{
    data_of_text(alloc, text.as_bytes()).map_err(|fault| digits_fault(fault, place))
}

/// The bytes of hexadecimal digits, two a byte.
fn digits(alloc: Global, text: &str, place: usize) -> Result<Bytes, BuildFault>
    ensures { Reads place (λ bytes. HexText bytes text.now) result }
{
    bytes_of_digits(alloc, text.as_bytes()).map_err(|fault| digits_fault(fault, place))
}

/// The fault of the word at a place, whose digits were refused.
fn digits_fault(fault: DigitsFault, place: usize) -> BuildFault
    ensures { result ≡ of_digits place fault }
{
    match fault {
        DigitsFault::BadDigits => BuildFault::Word(place),
        DigitsFault::NoMemory => BuildFault::Memory,
    }
}

/// What stands before the first of these marks, which is ASCII, and what stands behind it.
fn parts(text: &str, mark: char, place: usize) -> Result<(&str, &str), BuildFault>
    requires { mark < 128 }
    ensures { MatchResult result (λ parts. SplitsAt mark text.now parts.0.now parts.1.now)
        (NamesNone place (λ (parts : List ℕ × List ℕ). text.now ≡ parts.0 ++ mark ∷ parts.1)) }
{
    text.split_once(mark).ok_or(BuildFault::Word(place))
}

/// The decimal number to 255 before the first dot, and what stands behind it.
fn before_dot(text: &str, place: usize) -> Result<(u8, &str), BuildFault>
    ensures { MatchResult result
        (λ parts. (parts.0 < 256) × (text.now ≡ decimal parts.0 ++ 46 ∷ parts.1.now))
        (NamesNone place (λ (parts : ℕ × List ℕ). (parts.0 < 256)
        × (text.now ≡ decimal parts.0 ++ 46 ∷ parts.1))) }
{
    let (number, rest) = parts(text, '.', place)?;
    Ok((small_number(number, place)?, rest))
}

/// A decimal number to 255.
fn small_number(text: &str, place: usize) -> Result<u8, BuildFault>
    ensures { Finds place (λ number. NumberText 255 number text.now) result }
{
    u8::try_from(long_number(text, place)?).or(Err(BuildFault::Word(place)))
}

/// Whether a text is decimal digits, none of them a leading zero.
fn is_decimal(text: &str) -> bool
    ensures leading { IsTrue result → slice_index text.now 0 ≡ 48 → length text.now < 2 }
    ensures digits { IsTrue result → list_all is_ascii_digit text.now ≡ true }
    ensures only { (slice_index text.now 0 ≡ 48 → length text.now < 2)
        → list_all is_ascii_digit text.now ≡ true → IsTrue result }
{
    let digits = text.as_bytes();
    let has_leading_zero = digits.len() > 1 && digits[0] == b'0';
    !has_leading_zero && are_digits(digits)
}

/// Whether each byte is a decimal digit.
fn are_digits(text: &[u8]) -> bool
    ensures { result ≡ list_all is_ascii_digit text.now }
{
    text.iter().all(|digit| digit.is_ascii_digit())
}
