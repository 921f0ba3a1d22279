//! Writing to a writer whose calls are counted, however few bytes it takes at a time.
ghost use Rattle.std.specs.Prelude.{◌≡◌, ◌*◌, ◌<◌, ◌≤◌, length, take, OnOk, OnErr, IfOk};
ghost use Rattle.std.specs.Io.KnownBytes.{Appends, Keeps};
ghost use Rattle.nb_streams.specs.Devices.{AppendsFront, GrowTo, ShowsWriteFault};
ghost use Rattle.nb_streams.specs.Hexadecimal.{digits_text};

use crate::counted::{Counted, Told};
use crate::fault::DeviceFault;
use crate::limits::MAX_INTERRUPTS;
use crate::parts_writing::put_digits;
use std::io::Write;

/// How many bytes' digits are written at a time.
const PART: usize = 256;

/// Writes all the bytes.
///
/// # Errors
///
/// [`DeviceFault`] where a write failed, took no byte, or was interrupted 1,024 times in a row. A
/// front of the bytes is written then.
pub fn write_whole<W: Write>(writer: &mut Counted<W>, bytes: &[u8]) -> Result<(), DeviceFault>
    ensures written { OnOk result
        (Appends (W.contents writer.old.inner) (W.contents writer.new.inner) bytes.now) }
    ensures grow { GrowTo writer.old.counts writer.new.counts }
    ensures err { OnErr result (AppendsFront (W.contents writer.old.inner)
        (W.contents writer.new.inner) bytes.now) }
    ensures why { OnErr result (ShowsWriteFault writer.old.counts writer.new.counts) }
{
    let mut written = 0;
    while written < bytes.len() {
        match write_some(writer, &bytes[written..]) {
            Ok(count) => written += count,
            Err(fault) => return Err(fault),
        }
    }
    Ok(())
}

/// Writes the hexadecimal digits of bytes, two for each, in lower case. No memory is taken.
///
/// # Errors
///
/// [`DeviceFault`] where [`write_whole`] has it. A front of the digits is written then.
pub fn write_digits<W: Write>(writer: &mut Counted<W>, bytes: &[u8]) -> Result<(), DeviceFault>
    ensures written { OnOk result (Appends (W.contents writer.old.inner)
        (W.contents writer.new.inner) (digits_text bytes.now)) }
    ensures grow { GrowTo writer.old.counts writer.new.counts }
    ensures err { OnErr result (AppendsFront (W.contents writer.old.inner)
        (W.contents writer.new.inner) (digits_text bytes.now)) }
    ensures why { OnErr result (ShowsWriteFault writer.old.counts writer.new.counts) }
{
    let mut rest = bytes;
    'parts: while rest.len() > PART {
        let (part, behind) = rest.split_at(PART);
        write_part(writer, part)?;
        rest = behind;
    }
    write_part(writer, rest)
}

/// Writes the digits of a few bytes.
fn write_part<W: Write>(writer: &mut Counted<W>, part: &[u8]) -> Result<(), DeviceFault>
    requires { length part.now ≤ PART }
    ensures written { OnOk result (Appends (W.contents writer.old.inner)
        (W.contents writer.new.inner) (digits_text part.now)) }
    ensures grow { GrowTo writer.old.counts writer.new.counts }
    ensures err { OnErr result (AppendsFront (W.contents writer.old.inner)
        (W.contents writer.new.inner) (digits_text part.now)) }
    ensures why { OnErr result (ShowsWriteFault writer.old.counts writer.new.counts) }
{
    let mut room = [0; 2 * PART];
    let digits = &mut room[..2 * part.len()];
    put_digits(part, digits);
    write_whole(writer, digits)
}

/// Writes some of the bytes, of which there is one at least, from their front on, and answers how
/// many. A write that is interrupted is made again.
///
/// # Errors
///
/// [`DeviceFault`] where the write failed, took no byte, or was interrupted 1,024 times. No byte is
/// written then.
pub fn write_some<W: Write>(writer: &mut Counted<W>, bytes: &[u8]) -> Result<usize, DeviceFault>
    requires { 0 < length bytes.now }
    ensures some { IfOk result (λ count. (0 < count) × (count ≤ length bytes.now)) }
    ensures written { IfOk result (λ count. Appends (W.contents writer.old.inner)
        (W.contents writer.new.inner) (take count bytes.now)) }
    ensures grow { GrowTo writer.old.counts writer.new.counts }
    ensures err { OnErr result (Keeps (W.contents writer.old.inner) (W.contents writer.new.inner)) }
    ensures why { OnErr result (ShowsWriteFault writer.old.counts writer.new.counts) }
{
    let mut interrupts = 0;
    while interrupts < MAX_INTERRUPTS {
        match writer.write(bytes) {
            Told::Bytes(0) => return Err(DeviceFault),
            Told::Bytes(count) => return Ok(count),
            Told::Interrupted => interrupts += 1,
            Told::Failed => return Err(DeviceFault),
        }
    }
    Err(DeviceFault)
}
