//! What a call answers: what it writes for its caller, and why it does nothing.
ghost use Rattle.std.specs.Prelude.{◌≡◌, length, ◌≤◌};
ghost use Rattle.nb_calls.specs.Outputs.{put_into, put_status, at_refused, refused_status, of_memory, Answers, Ends, Filled, lent};
ghost use Rattle.nb_calls.specs.Statuses.{text_refusal, name_refusal, load_refusal, datagram_refusal, service_refusal, session_refusal, line_refusal};
ghost use Rattle.nb_calls.specs.Stations.{table_refusal};

use crate::statuses::*;
use nb_capture::LineFault;
use nb_datagram::DatagramFault;
use nb_names::{NameFault, TextFault};
use nb_service::ServiceFault;
use nb_session::SessionFault;
use nb_streams::{Bytes, NoMemory};
use nb_table::{LoadFault, TableFault};

/// Copies the bytes to the front of a buffer, where they fit.
pub fn put(bytes: &[u8], into: &mut [u8], used: &mut usize) -> u32
    ensures into { into.new ≡ put_into bytes.now into.old }
    ensures used { used.new ≡ length bytes.now }
    ensures status { result ≡ put_status bytes.now into.old }
{
    *used = bytes.len();
    if into.len() < bytes.len() {
        return NO_ROOM;
    }
    into[..bytes.len()].copy_from_slice(bytes);
    DONE
}

/// The status of a refusal, whose place is kept.
pub fn refuse(refusal: Refusal, at: &mut usize) -> u32
    ensures at { at.new ≡ at_refused refusal at.old }
    ensures status { result ≡ refused_status refusal }
{
    if let Refusal::FaultAt(_, place) = refusal {
        *at = place;
    }
    status_of(refusal)
}

/// Writes what a call answers: the bytes, or where the fault stands.
pub fn write_answer(
    answer: Result<Bytes, Refusal>,
    into: &mut [u8],
    used: &mut usize,
    at: &mut usize,
) -> u32
    ensures { Answers answer (lent into.old used.old at.old)
        (lent into.new used.new at.new) result }
{
    match answer {
        Ok(bytes) => put(bytes.as_slice(), into, used),
        Err(refusal) => refuse(refusal, at),
    }
}

/// Writes the bytes, unless memory ran out.
pub fn write_bytes(bytes: Result<Bytes, NoMemory>, into: &mut [u8], used: &mut usize) -> u32
    ensures { Answers (of_memory bytes) (lent into.old used.old 0)
        (lent into.new used.new 0) result }
{
    match bytes {
        Ok(bytes) => put(bytes.as_slice(), into, used),
        Err(_) => NO_MEMORY,
    }
}

/// What a call answers with these bytes, unless memory ran out.
pub(crate) fn answer_of(bytes: Result<Bytes, NoMemory>) -> Result<Bytes, Refusal>
    ensures { result ≡ of_memory bytes }
{
    match bytes {
        Ok(bytes) => Ok(bytes),
        Err(_) => Err(Refusal::Memory),
    }
}

/// Fills in what a call answers, or where the fault stands.
pub fn fill<T: Copy>(answer: Result<T, Refusal>, into: &mut T, at: &mut usize) -> u32
    ensures { Filled answer into.old into.new at.old at.new result }
{
    match answer {
        Ok(value) => {
            *into = value;
            DONE
        }
        Err(refusal) => refuse(refusal, at),
    }
}

/// Ends a call that has filled in what it reads, or says where the fault stands.
pub fn finish(answer: Result<(), Refusal>, at: &mut usize) -> u32
    ensures { Ends answer at.old at.new result }
{
    match answer {
        Ok(()) => DONE,
        Err(refusal) => refuse(refusal, at),
    }
}

/// Why a call does nothing: a status, and where the fault stands, if it has a place.
#[derive(Clone, Copy)]
pub enum Refusal {
    /// Memory ran out.
    Memory,
    /// A fault without a place.
    Fault(u32),
    /// A fault, and its place in bytes.
    FaultAt(u32, usize),
}

/// Why a text is of no name, in this role.
pub(crate) fn text_refusal(role: u32, fault: TextFault) -> Refusal
    requires { role ≤ DESTINATION_TEXT }
    ensures { result ≡ text_refusal role fault }
{
    match fault {
        TextFault::BadText(place) => Refusal::FaultAt(role + BAD_TEXT, place),
        TextFault::TooLong => Refusal::Fault(role + LONG_TEXT),
    }
}

/// Why no name stands where one is read, in this role.
pub(crate) fn name_refusal(role: u32, fault: NameFault) -> Refusal
    requires { role ≤ DESTINATION }
    ensures { result ≡ name_refusal role fault }
{
    match fault {
        NameFault::Truncated(place) => Refusal::FaultAt(role + NAME_TRUNCATED, place),
        NameFault::ReservedLabel(place) => Refusal::FaultAt(role + NAME_RESERVED_LABEL, place),
        NameFault::PointerNotAllowed(place) => Refusal::FaultAt(role + NAME_POINTER, place),
        NameFault::BadPointer(place) => Refusal::FaultAt(role + NAME_BAD_POINTER, place),
        NameFault::TooLong(place) => Refusal::FaultAt(role + NAME_LONG, place),
        NameFault::NotNetbios(place) => Refusal::FaultAt(role + NAME_NOT_NETBIOS, place),
    }
}

/// Why a saved table isn't read, in this role.
pub(crate) fn load_refusal(role: u32, fault: LoadFault) -> Refusal
    requires { role ≤ SECOND }
    ensures { result ≡ load_refusal role fault }
{
    match fault {
        LoadFault::BadMagic => Refusal::Fault(role + TABLE_BAD_MAGIC),
        LoadFault::Truncated => Refusal::Fault(role + TABLE_TRUNCATED),
        LoadFault::NotCanonical(at) => Refusal::FaultAt(role + TABLE_NOT_CANONICAL, at),
        LoadFault::TooLong => Refusal::Fault(role + TABLE_LONG),
        LoadFault::FullSource => Refusal::Fault(role + TABLE_FULL_SOURCE),
        LoadFault::Full => Refusal::Fault(role + TABLE_FULL),
        LoadFault::NoMemory => Refusal::Memory,
    }
}

/// Why a payload begins with no packet of port 138.
pub(crate) fn datagram_refusal(fault: DatagramFault) -> Refusal
    ensures { result ≡ datagram_refusal fault }
{
    match fault {
        DatagramFault::Truncated(place) => Refusal::FaultAt(TRUNCATED, place),
        DatagramFault::UnknownType => Refusal::Fault(UNKNOWN_TYPE),
        DatagramFault::SourceName(fault) => name_refusal(SOURCE, fault),
        DatagramFault::DestinationName(fault) => name_refusal(DESTINATION, fault),
    }
}

/// Why bytes begin with no packet of port 139.
pub(crate) fn session_refusal(fault: SessionFault) -> Refusal
    ensures { result ≡ session_refusal fault }
{
    match fault {
        SessionFault::UnknownType => Refusal::Fault(UNKNOWN_TYPE),
        SessionFault::ReservedFlags => Refusal::Fault(RESERVED_FLAGS),
        SessionFault::BadLength => Refusal::Fault(BAD_LENGTH),
        SessionFault::Name(fault) => name_refusal(NO_ROLE, fault),
        SessionFault::TrailingBytes(place) => Refusal::FaultAt(TRAILING_BYTES, place),
    }
}

/// Why a payload begins with no packet of port 137, or why an item of one doesn't stand whole.
pub(crate) fn service_refusal(fault: ServiceFault) -> Refusal
    ensures { result ≡ service_refusal fault }
{
    match fault {
        ServiceFault::Truncated(place) => Refusal::FaultAt(TRUNCATED, place),
        ServiceFault::Name(fault) => name_refusal(NO_ROLE, fault),
        ServiceFault::NameRdata(place) => Refusal::FaultAt(NAME_RDATA, place),
        ServiceFault::NoMemory => Refusal::Memory,
    }
}

/// Why a table doesn't take in a fragment, or another table.
pub(crate) fn table_refusal(fault: TableFault) -> Refusal
    ensures { result ≡ table_refusal fault }
{
    match fault {
        TableFault::MisplacedFirst => Refusal::Fault(MISPLACED_FIRST),
        TableFault::TooLong => Refusal::Fault(LONG),
        TableFault::FullSource(_) => Refusal::Fault(FULL_SOURCE),
        TableFault::Full(_) => Refusal::Fault(FULL),
        TableFault::NoMemory => Refusal::Memory,
    }
}

/// Why nothing is read of a line of a capture.
pub(crate) fn line_refusal(fault: LineFault) -> Refusal
    ensures { result ≡ line_refusal fault }
{
    match fault {
        LineFault::BadLine => Refusal::Fault(BAD_LINE),
        LineFault::NoMemory => Refusal::Memory,
    }
}

/// The status of a refusal.
pub(crate) fn status_of(refusal: Refusal) -> u32
    ensures { result ≡ refused_status refusal }
{
    match refusal {
        Refusal::Memory => NO_MEMORY,
        Refusal::Fault(status) => status,
        Refusal::FaultAt(status, _) => status,
    }
}
