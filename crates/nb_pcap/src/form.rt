//! The header of a classic file, and its records.
ghost use Rattle.std.specs.Prelude.{◌≡◌, ◌≤◌, length};
ghost use Rattle.nb_pcap.specs.declared.limits.TheConstants.{MAGIC_LENGTH, HEADER_LENGTH, RECORD_LENGTH};
ghost use Rattle.nb_pcap.specs.Classic.{marks_in, form_of, record_head, record_size};

use crate::fault::FileFault;
use crate::frame::Head;
use crate::limits::{MAX_CAPTURED, RECORD_LENGTH, SECOND};
use crate::numbers::{Order, number_32};

/// The unit of the fraction of a time.
#[derive(Clone, Copy)]
pub enum Unit {
    /// A millionth of a second.
    Micro,
    /// A billionth.
    Nano,
}

/// What the header of a classic file says.
#[derive(Clone, Copy)]
pub struct Form {
    /// The order of the bytes of its numbers.
    pub order: Order,
    /// The unit of the fractions of its times.
    pub unit: Unit,
    /// What its frames are (LINKTYPE).
    pub link: u16,
}

/// What the magic number of a classic file says, where bytes begin with one.
pub fn marks_in(bytes: &[u8]) -> Option<(Order, Unit)>
    requires { MAGIC_LENGTH ≤ length bytes.now }
    ensures { result ≡ marks_in bytes.now }
{
    match number_32(Order::Little, bytes, 0) {
        0xa1b2_c3d4 => Some((Order::Little, Unit::Micro)),
        0xa1b2_3c4d => Some((Order::Little, Unit::Nano)),
        0xd4c3_b2a1 => Some((Order::Big, Unit::Micro)),
        0x4d3c_b2a1 => Some((Order::Big, Unit::Nano)),
        _ => None,
    }
}

/// What the header of a classic file says, where bytes begin with one.
pub fn form_of(bytes: &[u8]) -> Option<Form>
    requires { HEADER_LENGTH ≤ length bytes.now }
    ensures { result ≡ form_of bytes.now }
{
    let (order, unit) = marks_in(bytes)?;
    let link = (number_32(order, bytes, 20) % 0x1_0000) as u16;
    Some(Form { order, unit, link })
}

/// Where the frame of a record stands, and what the record says of it.
pub fn record_head(form: Form, bytes: &[u8]) -> Head
    requires { RECORD_LENGTH ≤ length bytes.now }
    ensures { result ≡ record_head form bytes.now }
{
    let fraction = number_32(form.order, bytes, 4) as u64;
    let nanoseconds = match form.unit {
        Unit::Micro => fraction * 1_000,
        Unit::Nano => fraction,
    };
    Head {
        interface: 0,
        link: form.link,
        time: Some(number_32(form.order, bytes, 0) as u64 * SECOND + nanoseconds),
        start: RECORD_LENGTH,
        captured: number_32(form.order, bytes, 8) as usize,
        original: number_32(form.order, bytes, 12),
    }
}

/// How many bytes the record has at least that these bytes begin, as far as they say.
pub fn record_size(form: Form, bytes: &[u8]) -> Result<usize, FileFault>
    ensures { result ≡ record_size form bytes.now }
{
    if bytes.len() < RECORD_LENGTH {
        return Ok(RECORD_LENGTH);
    }
    let captured = number_32(form.order, bytes, 8) as usize;
    if MAX_CAPTURED < captured {
        return Err(FileFault::TooLong);
    }
    Ok(RECORD_LENGTH + captured)
}
