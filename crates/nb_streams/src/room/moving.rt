//! Room in a vector, after the bytes that are held in it.
ghost use Rattle.std.specs.Prelude.{◌≡◌, ◌≤◌, ◌<◌, ◌+◌, ◌-◌, take, drop, length, vec_len, IfOk, OnOk};
ghost use Rattle.nb_streams.specs.declared.limits.TheConstants.{MAX_READ};
ghost use Rattle.nb_streams.specs.Code.RoomSteps.{ReadsBehind, ReadsInto};

use crate::bytes::NoMemory;
use crate::counted::Counted;
use crate::fault::{DeviceFault, RoomFault};
use crate::input::read_some;
use crate::limits::MAX_READ;
use std::io::Read;

/// Moves the bytes from one place up to another to the front. What stands after them then is of no
/// account.
fn move_to_front(bytes: &mut Vec<u8>, start: usize, end: usize)
    requires order { start ≤ end }
    requires within { end ≤ vec_len bytes.old }
    ensures front { take (end - start) bytes.new.items ≡ drop start (take end bytes.old.items) }
    ensures len { vec_len bytes.new ≡ vec_len bytes.old }
{
    if 0 < start {
        bytes.copy_within(start..end, 0);
    }
}

/// Makes room for a read after so many first bytes.
///
/// # Errors
///
/// [`NoMemory`] where memory ran out. The vector is then as it was.
fn make_room<const OPEN: usize>(bytes: &mut Vec<u8>, held: usize) -> Result<(), NoMemory>
    requires few { held ≤ OPEN }
    requires within { held ≤ vec_len bytes.old }
    requires most { vec_len bytes.old ≤ OPEN + MAX_READ }
    ensures front { take held bytes.new.items ≡ take held bytes.old.items }
    ensures ok { OnOk result (held + MAX_READ ≤ vec_len bytes.new) }
    ensures kept { vec_len bytes.old ≤ vec_len bytes.new }
    ensures most { vec_len bytes.new ≤ OPEN + MAX_READ }
{
    if held + MAX_READ <= bytes.len() {
        return Ok(());
    }
    match bytes.resize(held + MAX_READ, 0) {
        Ok(()) => Ok(()),
        Err(_) => Err(NoMemory),
    }
}

/// Reads once into a part of a buffer.
fn read_into<R: Read>(
    reader: &mut Counted<R>,
    buffer: &mut [u8],
    held: usize,
    most: usize,
) -> Result<usize, DeviceFault>
    requires some { 0 < most }
    requires within { held + most ≤ length buffer.old }
    ensures { ReadsInto (R.remaining reader.old.inner) (R.remaining reader.new.inner)
        reader.old.counts reader.new.counts buffer.old buffer.new held most result }
{
    match read_some(reader, &mut buffer[held..held + most]) {
        Ok(count) => Ok(count),
        Err(fault) => Err(fault),
    }
}

/// Reads once after so many first bytes of a vector.
fn read_after<R: Read>(
    reader: &mut Counted<R>,
    bytes: &mut Vec<u8>,
    held: usize,
    most: usize,
) -> Result<usize, DeviceFault>
    requires some { 0 < most }
    requires within { held + most ≤ vec_len bytes.old }
    ensures reads { ReadsInto (R.remaining reader.old.inner) (R.remaining reader.new.inner)
        reader.old.counts reader.new.counts bytes.old.items bytes.new.items held most result }
    ensures len { vec_len bytes.new ≡ vec_len bytes.old }
{
    read_into(reader, bytes.as_mut_slice(), held, most)
}

/// Reads once after so many first bytes of a vector, as many bytes as a read asks for where the
/// input may have so many more.
///
/// # Errors
///
/// [`RoomFault::Read`] where the read failed, or gave a byte and the input may have none.
fn read_within<R: Read>(
    reader: &mut Counted<R>,
    bytes: &mut Vec<u8>,
    held: usize,
    left: u64,
) -> Result<usize, RoomFault>
    requires { held + MAX_READ ≤ vec_len bytes.old }
    ensures reads { ReadsBehind (R.remaining reader.old.inner) (R.remaining reader.new.inner)
        reader.old.counts reader.new.counts (take held bytes.old.items) bytes.new.items held left
        result }
    ensures room { IfOk result (λ count. held + count ≤ vec_len bytes.new) }
    ensures len { vec_len bytes.new ≡ vec_len bytes.old }
{
    match read_after(reader, bytes, held, wanted_of(left)) {
        Ok(count) => {
            if count != 0 && left == 0 {
                return Err(RoomFault::Read);
            }
            Ok(count)
        }
        Err(_) => Err(RoomFault::Read),
    }
}

/// Moves the bytes from one place up to another to the front, and reads once after them, where the
/// input may have so many bytes more. Answers how many came.
///
/// # Errors
///
/// [`RoomFault::NoMemory`] where memory ran out, and [`RoomFault::Read`] where the read
/// failed, or gave a byte and the input may have none. The bytes are at the front then too.
pub fn read_behind<R: Read, const OPEN: usize>(
    reader: &mut Counted<R>,
    bytes: &mut Vec<u8>,
    start: usize,
    end: usize,
    left: u64,
) -> Result<usize, RoomFault>
    requires order { start ≤ end }
    requires within { end ≤ vec_len bytes.old }
    requires few { end - start ≤ OPEN }
    requires most { vec_len bytes.old ≤ OPEN + MAX_READ }
    ensures reads { ReadsBehind (R.remaining reader.old.inner) (R.remaining reader.new.inner)
        reader.old.counts reader.new.counts (drop start (take end bytes.old.items))
        bytes.new.items (end - start) left result }
    ensures room { IfOk result (λ count. end - start + count ≤ vec_len bytes.new) }
    ensures held { end - start ≤ vec_len bytes.new }
    ensures most { vec_len bytes.new ≤ OPEN + MAX_READ }
{
    let held = end - start;
    move_to_front(bytes, start, end);
    match make_room::<OPEN>(bytes, held) {
        Ok(()) => read_within(reader, bytes, held, left),
        Err(NoMemory) => Err(RoomFault::NoMemory),
    }
}

/// How many bytes a read asks for where the input may have so many more: one, which shows that it
/// is too long, where it may have none.
fn wanted_of(left: u64) -> usize
    ensures some { 0 < result }
    ensures few { result ≤ MAX_READ }
    ensures none { left ≡ 0 → result ≡ 1 }
    ensures within { 0 < left → result ≤ left }
    ensures rest { 0 < left → left < MAX_READ → result ≡ left }
    ensures many { MAX_READ ≤ left → result ≡ MAX_READ }
{
    if left == 0 {
        1
    } else {
        left.min(MAX_READ as u64) as usize
    }
}
