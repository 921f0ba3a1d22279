//! What is added to a text: ASCII, numbers, digits, addresses, and what has a text of its own.
#![tactic(auto, using(crate::specs::Growth::front_stays))]

ghost use Rattle.std.specs.Prelude.{◌≡◌, ◌++◌, OnOk, string_bytes, ◌*◌, ◌≤◌, length, ◌+◌, ◌<◌, codes, drop, IfSome};
ghost use Rattle.std.specs.Str.{IsAscii};
ghost use Rattle.nb_streams.specs.Growth.{OnlyAdds};
ghost use Rattle.std.specs.Fmt.{decimal};
ghost use Rattle.nb_streams.specs.Hexadecimal.{data_text, digits_text, word_text};
ghost use Rattle.nb_streams.specs.Hexadecimal.{digits_of};
ghost use Rattle.nb_streams.specs.Addresses.{address_text};

use crate::bytes::NoMemory;
use arrayvec::ArrayString;
use itoa::{Buffer, write_digits};
use std::fmt::{self, Display, Write};

/// ASCII bytes as a text, without a look at them.
#[inline]
pub fn ascii_str(bytes: &[u8]) -> &str
    requires { IsAscii bytes.now }
    ensures { result.now ≡ bytes.now }
{
    unsafe { str::from_utf8_unchecked(bytes) }
}

/// Adds ASCII bytes, all at once and without a look at them.
#[inline]
pub fn push_ascii(bytes: &[u8], text: &mut String) -> Result<(), NoMemory>
    requires { IsAscii bytes.now }
    ensures added { OnOk result (string_bytes text.new ≡ string_bytes text.old ++ bytes.now) }
    ensures front { OnlyAdds (string_bytes text.old) (string_bytes text.new) }
{
    text.push_str(ascii_str(bytes))?;
    Ok(())
}

/// Adds a number in decimal, without leading zeros; zero is `0`.
///
/// # Errors
///
/// [`NoMemory`] where memory ran out; some of the digits may then be added.
pub fn push_decimal(number: u64, text: &mut String) -> Result<(), NoMemory>
    ensures added { OnOk result (string_bytes text.new ≡ string_bytes text.old ++ decimal number) }
    ensures front { OnlyAdds (string_bytes text.old) (string_bytes text.new) }
{
    if number < 10 {
        text.push(char::from(b'0' + number as u8))?;
        return Ok(());
    }
    let mut digits = Buffer::new();
    text.push_str(digits.format(number))?;
    Ok(())
}

/// How many bytes' digits are added at a time.
const PART: usize = 64;

/// Adds the hexadecimal digits of bytes, two for each, in lower case.
///
/// # Errors
///
/// [`NoMemory`] where memory ran out; some of the digits may then be added.
pub fn push_digits(bytes: &[u8], text: &mut String) -> Result<(), NoMemory>
    ensures added { OnOk result
        (string_bytes text.new ≡ string_bytes text.old ++ digits_text bytes.now) }
    ensures front { OnlyAdds (string_bytes text.old) (string_bytes text.new) }
{
    let mut rest = bytes;
    'parts: while rest.len() > PART {
        let (part, behind) = rest.split_at(PART);
        push_part(part, text)?;
        rest = behind;
    }
    push_part(rest, text)
}

/// Adds data: its digits as [`push_digits`] does, or `empty` where it has no byte.
///
/// # Errors
///
/// [`NoMemory`] where memory ran out; some of the text may then be added.
///
/// The form is our choice.
pub fn push_data(bytes: &[u8], text: &mut String) -> Result<(), NoMemory>
    ensures added { OnOk result
        (string_bytes text.new ≡ string_bytes text.old ++ data_text bytes.now) }
    ensures front { OnlyAdds (string_bytes text.old) (string_bytes text.new) }
{
    if bytes.is_empty() {
        return push_ascii(b"empty", text);
    }
    push_digits(bytes, text)
}

/// Adds the four digits of a number of sixteen bits.
///
/// # Errors
///
/// [`NoMemory`] where memory ran out; some of the digits may then be added.
pub fn push_word_digits(number: u16, text: &mut String) -> Result<(), NoMemory>
    ensures added { OnOk result
        (string_bytes text.new ≡ string_bytes text.old ++ word_text number) }
    ensures front { OnlyAdds (string_bytes text.old) (string_bytes text.new) }
{
    push_part(&number.to_be_bytes(), text)
}

/// Adds the digits of a few bytes.
fn push_part(part: &[u8], text: &mut String) -> Result<(), NoMemory>
    requires { length part.now ≤ 64 }
    ensures added { OnOk result
        (string_bytes text.new ≡ string_bytes text.old ++ digits_text part.now) }
    ensures front { OnlyAdds (string_bytes text.old) (string_bytes text.new) }
{
    let mut room = [0; 2 * PART];
    let digits = &mut room[..2 * part.len()];
    put_digits(part, digits);
    push_ascii(digits, text)
}

/// Puts the digits of a few bytes into the room, which they fill.
pub(crate) fn put_digits(part: &[u8], room: &mut [u8])
    requires { length room.old ≡ 2 * length part.now }
    ensures { room.new ≡ digits_text part.now }
{
    let _ = hex::encode_to_slice(part, room);
}

/// The two digits of a byte.
pub fn pair_of(byte: u8) -> [u8; 2]
    ensures { result ≡ digits_of byte }
{
    let mut pair = [0; 2];
    put_digits(&[byte], &mut pair);
    pair
}

/// How many bytes the longest text of an address has.
const LONGEST: usize = 15;

/// Adds an IPv4 address: its four numbers in decimal, with dots between them.
///
/// # Errors
///
/// [`NoMemory`] where memory ran out; some of the text may then be added.
pub fn push_address(address: [u8; 4], text: &mut String) -> Result<(), NoMemory>
    ensures added { OnOk result
        (string_bytes text.new ≡ string_bytes text.old ++ address_text address) }
    ensures front { OnlyAdds (string_bytes text.old) (string_bytes text.new) }
{
    let [a, b, c, d] = address;
    let mut room = [0; LONGEST];
    let third = put_dotted(d, &mut room, LONGEST);
    let second = put_dotted(c, &mut room, third);
    let first = put_dotted(b, &mut room, second);
    let start = write_digits(u64::from(a), &mut room, first);
    push_ascii(&room[start..], text)
}

/// Puts a dot and a number in front of this end of what is put, and says where the dot stands.
#[inline]
fn put_dotted(number: u8, room: &mut [u8], end: usize) -> usize
    requires wide { 4 ≤ end }
    requires within { end ≤ length room.old }
    ensures put { drop result room.new ≡ codes "." ++ (decimal number ++ drop end room.old) }
    ensures start { end ≤ result + 4 }
    ensures before { result < end }
    ensures same { length room.new ≡ length room.old }
{
    let start = write_digits(u64::from(number), room, end) - 1;
    room[start] = b'.';
    start
}

/// How many bytes of a text there is room for. The longest text of a fault has some 60.
const ROOM: usize = 128;

/// Adds a value's text, such as a fault's, all at once. It is made in room of its own, since
/// `write!` says nothing of what a text holds where memory ran out.
///
/// # Errors
///
/// [`NoMemory`] where memory ran out, or the text has more than 128 bytes. The text is then as it
/// was.
pub fn push_shown<D: Display + Drop>(value: D, text: &mut String) -> Result<(), NoMemory>
    ensures added { OnOk result (IfSome (D.output value)
        (λ shown. string_bytes text.new ≡ string_bytes text.old ++ shown)) }
    ensures front { OnlyAdds (string_bytes text.old) (string_bytes text.new) }
{
    let mut room = ArrayString::<ROOM>::new();
    match show(value, &mut room) {
        Ok(()) => {
            text.push_str(room.as_str())?;
            Ok(())
        }
        Err(_) => Err(NoMemory),
    }
}

/// Adds a value's text to room.
#[inline]
fn show<D: Display + Drop>(value: D, room: &mut ArrayString<ROOM>) -> fmt::Result
    ensures { OnOk result (IfSome (D.output value)
        (λ shown. room.new.bytes ≡ room.old.bytes ++ shown)) }
{
    write!(room, "{value}")
}
