//! Packets, decoded.
ghost use Rattle.std.specs.Prelude.{◌≡◌, ◌≤◌, ℕ, length, IfOk, IfErr, IsOkAnd, MatchOption};
ghost use Rattle.nb_names.specs.Name.{NetbiosName};
ghost use Rattle.nb_datagram.specs.DatagramFaults.{DirectFails, PacketFails};
ghost use Rattle.nb_datagram.specs.Header.{error_type, query_type, IsUnknownType};
ghost use Rattle.nb_datagram.specs.Packet.{type_of, IsPacket};
ghost use Rattle.nb_datagram.specs.Code.Reading.{HasHeader, number_of};

use crate::fault::DatagramFault;
use crate::fragment::LentFragment;
use crate::front::{Header, read_header};
use crate::key::Kind;
use crate::limits::{
    BROADCAST, DIRECT_GROUP, DIRECT_HEADER_LENGTH, DIRECT_UNIQUE, ERROR_LENGTH, ERROR_TYPE,
    HEADER_LENGTH, NEGATIVE_RESPONSE, POSITIVE_RESPONSE, QUERY_REQUEST,
};
use crate::packet::{ErrorPacket, LentPacket, LentQuery, Packet, QueryKind};
use nb_names::read_lent_name;
use nb_streams::numbers::number_16;

/// Decodes the packet at the front of bytes, and how many of them it takes up.
///
/// Offsets in faults count from the first byte, but for `NotNetbios`, whose place is one in the
/// spelling. Bytes after the packet are left unread, and all bits of FLAGS are kept (our choice). A
/// fragment's data is lent from the input. No memory is taken.
///
/// # Errors
///
/// The first step that fails, in [`DatagramFault`]'s order: the ten bytes of the header, its type,
/// the bytes before the names, all bytes that DGM_LENGTH counts, then the names. These are read
/// inside those bytes, a query packet's over all of the input, and pointers are refused.
///
/// RFC 1002 sections 4.4.1 to 4.4.4. That DGM_LENGTH counts one packet's names and data alone, and
/// that each fragment carries both names, is our choice.
pub fn decode<'a>(bytes: &'a [u8]) -> Result<(Packet<'a>, usize), DatagramFault>
    // What is answered stands there, and what stands there is answered, whatever follows.
    ensures found { IfOk result (λ read. IsPacket bytes.now read.0 read.1) }
    ensures only { (packet : Packet NetbiosName) (used : ℕ) → IsPacket bytes.now packet used →
        IsOkAnd result (λ read. (read.0 ≡ packet) × (read.1 ≡ used)) }
    ensures within { IfOk result (λ read. read.1 ≤ length bytes.now) }

    // Which fault it is, and where.
    ensures fault { IfErr result (PacketFails bytes.now) }
{
    match decode_lent(bytes) {
        Ok((packet, used)) => Ok((packet.to_packet(), used)),
        Err(fault) => Err(fault),
    }
}

/// Decodes the packet at the front of bytes, and how many of them it takes up, as [`decode`] does.
/// The names are lent from the input, too. No memory is taken.
///
/// # Errors
///
/// Those of [`decode`].
///
/// RFC 1002 sections 4.4.1 to 4.4.4.
pub fn decode_lent<'a>(bytes: &'a [u8]) -> Result<(LentPacket<'a>, usize), DatagramFault>
    // What is answered stands there, and what stands there is answered, whatever follows.
    ensures found { IfOk result (λ read. IsPacket bytes.now read.0 read.1) }
    ensures only { (packet : Packet NetbiosName) (used : ℕ) → IsPacket bytes.now packet used →
        IsOkAnd result (λ read. (read.0 ≡ packet) × (read.1 ≡ used)) }
    ensures within { IfOk result (λ read. read.1 ≤ length bytes.now) }

    // Which fault it is, and where.
    ensures fault { IfErr result (PacketFails bytes.now) }
{
    read_packet(bytes)
}

/// The fragment after a header, and its packet's length.
fn read_direct<'a>(
    bytes: &'a [u8],
    header: &Header,
    kind: Kind,
) -> Result<(LentPacket<'a>, usize), DatagramFault>
    requires header { HasHeader bytes.now header.now }
    requires form { header.now.message_type ≡ type_of kind }
    ensures found { IfOk result (λ read. IsPacket bytes.now read.0 read.1) }
    ensures fault { IfErr result (DirectFails bytes.now) }
{
    if bytes.len() < DIRECT_HEADER_LENGTH {
        return Err(DatagramFault::Truncated(bytes.len()));
    }
    let end = DIRECT_HEADER_LENGTH + number_16(bytes, HEADER_LENGTH) as usize;
    if bytes.len() < end {
        return Err(DatagramFault::Truncated(bytes.len()));
    }
    let packet = &bytes[..end];
    let (source, behind) = match read_lent_name(packet, DIRECT_HEADER_LENGTH) {
        Ok(read) => read,
        Err(fault) => return Err(DatagramFault::SourceName(fault)),
    };
    let (destination, start) = match read_lent_name(packet, behind) {
        Ok(read) => read,
        Err(fault) => return Err(DatagramFault::DestinationName(fault)),
    };
    let fragment = LentFragment::with_parts(
        kind,
        header.flags,
        header.key,
        number_16(bytes, HEADER_LENGTH + 2),
        source,
        destination,
        &packet[start..],
    );
    Ok((LentPacket::Direct(fragment), end))
}

/// The error packet after a header, and its length.
fn read_error<'a>(
    bytes: &'a [u8],
    header: &Header,
) -> Result<(LentPacket<'a>, usize), DatagramFault>
    requires header { HasHeader bytes.now header.now }
    requires form { header.now.message_type ≡ error_type }
    ensures found { IfOk result (λ read. IsPacket bytes.now read.0 read.1) }
    ensures fault { IfErr result (PacketFails bytes.now) }
{
    if bytes.len() < ERROR_LENGTH {
        return Err(DatagramFault::Truncated(bytes.len()));
    }
    let error = ErrorPacket {
        flags: header.flags,
        key: header.key,
        code: bytes[HEADER_LENGTH],
    };
    Ok((LentPacket::Error(error), ERROR_LENGTH))
}

/// The query packet after a header, and its length.
fn read_query<'a>(
    bytes: &'a [u8],
    header: &Header,
    kind: QueryKind,
) -> Result<(LentPacket<'a>, usize), DatagramFault>
    requires header { HasHeader bytes.now header.now }
    requires form { header.now.message_type ≡ query_type kind }
    ensures found { IfOk result (λ read. IsPacket bytes.now read.0 read.1) }
    ensures fault { IfErr result (PacketFails bytes.now) }
{
    match read_lent_name(bytes, HEADER_LENGTH) {
        Ok((destination, used)) => {
            let query = LentQuery {
                kind,
                flags: header.flags,
                key: header.key,
                destination,
            };
            Ok((LentPacket::Query(query), used))
        }
        Err(fault) => Err(DatagramFault::DestinationName(fault)),
    }
}

/// The packet at the front of bytes, and its length.
fn read_packet<'a>(bytes: &'a [u8]) -> Result<(LentPacket<'a>, usize), DatagramFault>
    ensures found { IfOk result (λ read. IsPacket bytes.now read.0 read.1) }
    ensures fault { IfErr result (PacketFails bytes.now) }
{
    let Some(header) = read_header(bytes) else {
        return Err(DatagramFault::Truncated(bytes.len()));
    };
    match form_of(header.message_type) {
        Some(Form::Direct(kind)) => read_direct(bytes, &header, kind),
        Some(Form::Error) => read_error(bytes, &header),
        Some(Form::Query(kind)) => read_query(bytes, &header, kind),
        None => Err(DatagramFault::UnknownType),
    }
}

/// What a packet is (RFC 1002 section 4.4.1, MSG_TYPE).
#[derive(Clone, Copy, Debug, PartialEq, Eq)]
pub(crate) enum Form {
    /// A datagram, or a part of one.
    Direct(Kind),
    /// An error packet.
    Error,
    /// A query packet.
    Query(QueryKind),
}

/// What packets of a MSG_TYPE are, if there are any.
pub(crate) fn form_of(message_type: u8) -> Option<Form>
    ensures { MatchOption result (IsUnknownType message_type)
        (λ form. number_of form ≡ message_type) }
{
    match message_type {
        DIRECT_UNIQUE => Some(Form::Direct(Kind::Unique)),
        DIRECT_GROUP => Some(Form::Direct(Kind::Group)),
        BROADCAST => Some(Form::Direct(Kind::Broadcast)),
        ERROR_TYPE => Some(Form::Error),
        QUERY_REQUEST => Some(Form::Query(QueryKind::Request)),
        POSITIVE_RESPONSE => Some(Form::Query(QueryKind::Positive)),
        NEGATIVE_RESPONSE => Some(Form::Query(QueryKind::Negative)),
        _ => None,
    }
}
