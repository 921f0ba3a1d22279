//! Reading from a reader whose calls are counted, and reading an input whole.
ghost use Rattle.std.specs.Prelude.{◌≡◌, ◌<◌, ◌≤◌, [], ℕ, List, length, take, true, false, OnErr, IfOk};
ghost use Rattle.std.specs.Io.KnownBytes.{Consumes, IsAtEnd, Keeps};
ghost use Rattle.nb_streams.specs.Devices.{GrowTo, ShowsReadFault, ShowsUnread};
ghost use Rattle.nb_streams.specs.declared.limits.TheConstants.{MAX_INPUT};

use crate::bytes::NoMemory;
use crate::counted::{Counted, Told};
use crate::fault::DeviceFault;
use crate::limits::{MAX_INPUT, MAX_INTERRUPTS};
use std::alloc::{AllocError, Global};
use std::io::Read;

/// The bytes read at a time.
const CHUNK: usize = 8192;

/// What was read of an input.
#[derive(Drop)]
pub struct Input {
    /// The bytes, as far as they came.
    pub bytes: Vec<u8>,
    /// The reader was at its end after them. Else a read failed, or more than [`MAX_INPUT`] came.
    pub is_whole: bool,
}

impl Input {
    /// The bytes that are looked at: [`MAX_INPUT`] at most.
    pub fn front(&self) -> &[u8]
        ensures value { result.now ≡ take MAX_INPUT self.now.bytes.items }
        ensures within { length result.now ≤ MAX_INPUT }
    {
        let bytes = self.bytes.as_slice();
        if bytes.len() <= MAX_INPUT {
            bytes
        } else {
            &bytes[..MAX_INPUT]
        }
    }
}

/// Reads to the end, to a read that fails, or past [`MAX_INPUT`] bytes.
///
/// A read fails here too where it is interrupted 1,024 times in a row.
///
/// # Errors
///
/// [`NoMemory`] where memory ran out. The bytes that were read are lost then.
pub fn read_input<R: Read>(alloc: Global, reader: &mut Counted<R>) -> Result<Input, NoMemory>
    ensures found { IfOk result (λ input. Consumes (R.remaining reader.old.inner)
        (R.remaining reader.new.inner) input.bytes.items) }
    ensures whole { IfOk result (λ input. input.is_whole ≡ true →
        IsAtEnd (R.remaining reader.new.inner) × (length input.bytes.items ≤ MAX_INPUT)) }
    ensures cut { IfOk result (λ input. input.is_whole ≡ false →
        ShowsUnread MAX_INPUT input.bytes.items reader.old.counts reader.new.counts) }
    ensures lost { OnErr result ((bytes : List ℕ) × Consumes (R.remaining reader.old.inner)
        (R.remaining reader.new.inner) bytes) }
{
    let mut bytes = Vec::new(alloc);
    let is_whole = read_all(reader, &mut bytes)?;
    Ok(Input { bytes, is_whole })
}

/// Reads into a list without bytes, as [`read_input`] does, and answers whether the input is whole.
fn read_all<R: Read>(reader: &mut Counted<R>, bytes: &mut Vec<u8>) -> Result<bool, NoMemory>
    requires { bytes.old.items ≡ [] }
    ensures found { IfOk result (λ whole. Consumes (R.remaining reader.old.inner)
        (R.remaining reader.new.inner) bytes.new.items) }
    ensures whole { IfOk result (λ whole. whole ≡ true →
        IsAtEnd (R.remaining reader.new.inner) × (length bytes.new.items ≤ MAX_INPUT)) }
    ensures cut { IfOk result (λ whole. whole ≡ false →
        ShowsUnread MAX_INPUT bytes.new.items reader.old.counts reader.new.counts) }
    ensures lost { OnErr result ((taken : List ℕ) × Consumes (R.remaining reader.old.inner)
        (R.remaining reader.new.inner) taken) }
{
    let mut chunk = [0; CHUNK];
    while bytes.len() <= MAX_INPUT {
        match read_some(reader, &mut chunk) {
            Ok(0) => return Ok(true),
            Ok(count) => {
                if let Err(AllocError) = bytes.extend_from_slice(&chunk[..count]) {
                    return Err(NoMemory);
                }
            }
            Err(_) => return Ok(false),
        }
    }
    Ok(false)
}

/// Reads some bytes to the front of a buffer that isn't empty, and answers how many; none at the
/// end. A read that is interrupted is made again.
///
/// # Errors
///
/// [`DeviceFault`] where the read failed, or was interrupted 1,024 times. No byte is read then.
pub fn read_some<R: Read>(reader: &mut Counted<R>, buffer: &mut [u8]) -> Result<usize, DeviceFault>
    requires { 0 < length buffer.old }
    ensures some { IfOk result (λ count. count ≤ length buffer.new) }
    ensures read { IfOk result (λ count. Consumes (R.remaining reader.old.inner)
        (R.remaining reader.new.inner) (take count buffer.new)) }
    ensures end { IfOk result (λ count. count ≡ 0 → IsAtEnd (R.remaining reader.new.inner)) }
    ensures grow { GrowTo reader.old.counts reader.new.counts }
    ensures err { OnErr result (Keeps (R.remaining reader.old.inner)
        (R.remaining reader.new.inner)) }
    ensures why { OnErr result (ShowsReadFault reader.old.counts reader.new.counts) }
{
    let mut interrupts = 0;
    while interrupts < MAX_INTERRUPTS {
        match reader.read(buffer) {
            Told::Bytes(count) => return Ok(count),
            Told::Interrupted => interrupts += 1,
            Told::Failed => return Err(DeviceFault),
        }
    }
    Err(DeviceFault)
}
