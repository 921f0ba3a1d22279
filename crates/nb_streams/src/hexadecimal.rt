//! Bytes in hexadecimal.
ghost use Rattle.std.specs.Prelude.{◌≡◌, ◌%◌, ◌<◌, length, Err, Some};
ghost use Rattle.std.specs.List.{list_all};
ghost use Rattle.std.specs.Char.{is_ascii_hexdigit};
ghost use Rattle.nb_streams.specs.Hexadecimal.{ReadsData, ReadsDigits, pair_byte, digits_fault_text};

use crate::bytes::Bytes;
use std::alloc::Global;
use std::error::Error;
use std::fmt;

/// Why a text of hexadecimal digits gives no bytes.
#[derive(Clone, Copy, Debug, PartialEq, Eq)]
pub enum DigitsFault {
    /// The text isn't two hexadecimal digits for each byte.
    BadDigits,
    /// Memory ran out.
    NoMemory,
}

/// The bytes that a text's hexadecimal digits stand for, two digits of either case for each byte.
///
/// # Errors
///
/// [`DigitsFault::BadDigits`] for any other text, whatever memory there is;
/// [`DigitsFault::NoMemory`] only for the digits of a byte or more.
///
/// The form is our choice.
pub fn bytes_of_digits(alloc: Global, text: &[u8]) -> Result<Bytes, DigitsFault>
    ensures { ReadsDigits text.now result }
{
    digits_in(Vec::new(alloc), text)
}

/// The bytes that a text's digits stand for, in this room, whose own bytes are let go.
fn digits_in(mut room: Vec<u8>, text: &[u8]) -> Result<Bytes, DigitsFault>
    ensures { ReadsDigits text.now result }
{
    if text.len() % 2 != 0 {
        return Err(DigitsFault::BadDigits);
    }
    let count = text.len() / 2;
    if room.resize(count, 0).is_err() {
        return Err(fault_without_room(text));
    }
    match hex::decode_to_slice(text, room.as_mut_slice()) {
        Ok(()) => Ok(Bytes::from_vec(room)),
        Err(_) => Err(DigitsFault::BadDigits),
    }
}

/// The bytes that a text of data stands for: hexadecimal digits as [`bytes_of_digits`] reads them,
/// of a byte or more, or the word `empty`.
///
/// # Errors
///
/// [`DigitsFault::BadDigits`] for any other text, whatever memory there is;
/// [`DigitsFault::NoMemory`] only for the digits of a byte or more.
///
/// The form is our choice.
pub fn data_of_text(alloc: Global, text: &[u8]) -> Result<Bytes, DigitsFault>
    ensures { ReadsData text.now result }
{
    data_in(Vec::new(alloc), text)
}

/// The bytes that a text of data stands for, as [`data_of_text`] reads it, in this room, whose own
/// bytes are let go: no memory is taken where the room has enough.
///
/// # Errors
///
/// Those of [`data_of_text`].
pub fn data_in(mut room: Vec<u8>, text: &[u8]) -> Result<Bytes, DigitsFault>
    ensures { ReadsData text.now result }
{
    if text == b"empty".as_slice() {
        room.clear();
        return Ok(Bytes::from_vec(room));
    }
    if text.is_empty() {
        return Err(DigitsFault::BadDigits);
    }
    digits_in(room, text)
}

/// What is answered of a text for whose bytes there is no room.
fn fault_without_room(text: &[u8]) -> DigitsFault
    requires some { 0 < length text.now }
    requires even { length text.now % 2 ≡ 0 }
    ensures { ReadsDigits text.now (Err result) }
{
    if are_digits(text) {
        DigitsFault::NoMemory
    } else {
        DigitsFault::BadDigits
    }
}

/// Whether each byte is a hexadecimal digit, in either case.
fn are_digits(text: &[u8]) -> bool
    ensures { result ≡ list_all is_ascii_hexdigit text.now }
{
    text.iter().all(|digit| digit.is_ascii_hexdigit())
}

/// The byte that two hexadecimal digits of either case give, the high half first; nothing where one
/// of them is none.
pub fn byte_of_pair(high: u8, low: u8) -> Option<u8>
    ensures { result ≡ pair_byte high low }
{
    let mut byte = [0];
    match hex::decode_to_slice(&[high, low], &mut byte) {
        Ok(()) => Some(byte[0]),
        Err(_) => None,
    }
}

impl fmt::Display for DigitsFault {
    ghost output = { λ fault. Some (digits_fault_text fault) };

    fn fmt<W: fmt::Write>(&self, f: &mut fmt::Formatter<W>) -> fmt::Result {
        match self {
            DigitsFault::BadDigits => f.write_str("bad digits"),
            DigitsFault::NoMemory => f.write_str("memory"),
        }
    }
}

impl Error for DigitsFault {}
