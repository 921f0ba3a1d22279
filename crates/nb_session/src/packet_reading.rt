//! One packet, read from a reader.
ghost use Rattle.std.specs.Prelude.{◌≡◌, ◌<◌, ◌≤◌, ℕ, List, length, [], take, OnOk};
ghost use Rattle.std.specs.Io.KnownBytes.{Consumes};
ghost use Rattle.nb_streams.specs.Counted.{between};
ghost use Rattle.nb_session.specs.PacketReading.{Reads, Tells};
ghost use Rattle.nb_session.specs.Code.{Fills, Shows};
ghost use Rattle.nb_session.specs.declared.limits.TheConstants.{HEADER_LENGTH, MAX_PACKET};

use crate::fault::SessionFault;
use crate::limits::{HEADER_LENGTH, MAX_INTERRUPTS};
use crate::packet::{LentPacket, Packet};
use crate::parsing::{read_header, read_packet_of};
use nb_streams::{Counted, Told};
use std::alloc::{AllocError, Global};
use std::io::Read;
use std::marker::Model;
use thiserror::Error;

/// Why no packet was read.
///
/// The first that is met is answered. The reader stands where it was read to.
#[derive(Clone, Copy, Debug, PartialEq, Eq, Error)]
pub enum ReadFault {
    /// The bytes read are no packet, nor begin one.
    #[error("{0}")]
    Refused(SessionFault),
    /// The reader came to its end inside a packet, of which it gave this many bytes, one at least.
    #[error("the end after {0} bytes of a packet")]
    EndInside(usize),
    /// A read failed otherwise than by an interrupt.
    #[error("read")]
    Device,
    /// A read was interrupted, the 1,024th one of this call (our choice).
    #[error("interrupted too often")]
    TooManyInterrupts,
    /// Memory ran out after the header.
    #[error("memory")]
    NoMemory,
}

/// Reads one packet, and no byte after it, as [`read_packet`] does. The names of a request are lent
/// from the room, too.
///
/// # Errors
///
/// Those of [`read_packet`].
///
/// RFC 1002 section 4.3.
pub fn read_lent_packet<'a, R: Read>(
    reader: &mut Counted<R>,
    room: &'a mut Room,
) -> Result<Option<LentPacket<'a>>, ReadFault>
    // The bytes that this call took from the reader, and what they are.
    ensures reads { (bytes : List ℕ) ×
        Consumes (R.remaining reader.old.inner) (R.remaining reader.new.inner) bytes ×
        Reads bytes (R.remaining reader.new.inner) result }

    // How many calls of the reader it made, and how many of them were answered in which way.
    ensures tells { Tells (between reader.old.counts reader.new.counts) result }
{
    let mut header = [0; HEADER_LENGTH];
    let mut interrupts = 0;
    match read_full(reader, &mut header, &mut interrupts) {
        Fill::Whole => {}
        Fill::End(0) => return Ok(None),
        Fill::End(count) => return Err(ReadFault::EndInside(count)),
        Fill::Device => return Err(ReadFault::Device),
        Fill::TooManyInterrupts => return Err(ReadFault::TooManyInterrupts),
    }
    let judged = read_header(&header);
    let kind = match judged.judge() {
        Ok(kind) => kind,
        Err(fault) => return Err(ReadFault::Refused(fault)),
    };
    match room.begin(&header, judged.packet_length()) {
        Ok(()) => {}
        Err(_) => return Err(ReadFault::NoMemory),
    }
    match read_full(reader, &mut room.bytes[HEADER_LENGTH..], &mut interrupts) {
        Fill::Whole => {}
        Fill::End(count) => return Err(ReadFault::EndInside(HEADER_LENGTH + count)),
        Fill::Device => return Err(ReadFault::Device),
        Fill::TooManyInterrupts => return Err(ReadFault::TooManyInterrupts),
    }
    match read_packet_of(kind, judged, room.as_slice()) {
        Ok(packet) => Ok(Some(packet)),
        Err(fault) => Err(ReadFault::Refused(fault)),
    }
}

/// Reads one packet, and no byte after it, or answers `None` at the end before its first byte.
///
/// The header is read and judged, then room is made for the whole packet, then its body is read.
/// A read that is interrupted is made again. A message is lent from the room.
///
/// # Errors
///
/// The first that is met. The room may be used again.
///
/// RFC 1002 section 4.3.
pub fn read_packet<'a, R: Read>(
    reader: &mut Counted<R>,
    room: &'a mut Room,
) -> Result<Option<Packet<'a>>, ReadFault>
    // The bytes that this call took from the reader, and what they are.
    ensures reads { (bytes : List ℕ) ×
        Consumes (R.remaining reader.old.inner) (R.remaining reader.new.inner) bytes ×
        Reads bytes (R.remaining reader.new.inner) result }

    // How many calls of the reader it made, and how many of them were answered in which way.
    ensures tells { Tells (between reader.old.counts reader.new.counts) result }
{
    match read_lent_packet(reader, room) {
        Ok(Some(packet)) => Ok(Some(packet.to_packet())),
        Ok(None) => Ok(None),
        Err(fault) => Err(fault),
    }
}

/// How filling a buffer ended.
#[derive(Clone, Copy, Debug)]
pub enum Fill {
    /// The buffer is full.
    Whole,
    /// The reader was at its end after this many bytes.
    End(usize),
    /// A read failed.
    Device,
    /// A read was interrupted once too often.
    TooManyInterrupts,
}

/// Reads until a buffer is full, counting the interrupts on.
pub fn read_full<R: Read>(reader: &mut Counted<R>, buf: &mut [u8], interrupts: &mut u32) -> Fill
    requires { interrupts.old < MAX_INTERRUPTS }
    ensures takes { Fills (R.remaining reader.old.inner) (R.remaining reader.new.inner)
        result buf.new }
    ensures shows { Shows reader.old.counts reader.new.counts result
        (length buf.new) interrupts.old interrupts.new }
{
    let mut filled = 0;
    while filled < buf.len() {
        match reader.read(&mut buf[filled..]) {
            Told::Bytes(0) => return Fill::End(filled),
            Told::Bytes(count) => filled += count,
            Told::Interrupted => {
                *interrupts += 1;
                if *interrupts == MAX_INTERRUPTS {
                    return Fill::TooManyInterrupts;
                }
            }
            Told::Failed => return Fill::Device,
        }
    }
    Fill::Whole
}

/// Room for the packets that [`read_packet`](crate::read_packet) reads, one at a time. It holds at
/// most 131,075 bytes, those of one packet, and its memory is used again for the next.
#[derive(Debug, Drop)]
pub struct Room {
    pub(crate) bytes: Vec<u8>,
}

impl Model for Room {
    ghost use Rattle.std.specs.Prelude.{ℕ, List, ◌≤◌, length};
    ghost use Rattle.nb_session.specs.declared.limits.TheConstants.{MAX_PACKET};

    ghost Value = { List ℕ };

    ghost view = { λ room. room.bytes.items };

    ghost invariant = { λ room. length room.bytes.items ≤ MAX_PACKET };
}

impl Room {
    /// No room yet. No memory is taken.
    pub fn new(alloc: Global) -> Self
        ensures { result ≡ [] }
    {
        Room {
            bytes: Vec::new(alloc),
        }
    }

    /// The bytes that are held, of the packet that was read last or of a part of it.
    pub fn as_slice(&self) -> &[u8]
        ensures value { result.now ≡ self.now }
        ensures within { length self.now ≤ MAX_PACKET }
    {
        self.bytes.as_slice()
    }

    /// Makes room for a packet of this size, and puts its header to the front.
    pub(crate) fn begin(
        &mut self,
        header: &[u8; HEADER_LENGTH],
        size: usize,
    ) -> Result<(), AllocError>
        requires holds { HEADER_LENGTH ≤ size }
        requires fits { size ≤ MAX_PACKET }
        ensures len { OnOk result (length self.new ≡ size) }
        ensures header { OnOk result (take HEADER_LENGTH self.new ≡ header.now) }
    {
        self.bytes.clear();
        self.bytes.reserve_exact(size)?;
        self.bytes.extend_from_slice(header)?;
        self.bytes.resize(size, 0)
    }
}
