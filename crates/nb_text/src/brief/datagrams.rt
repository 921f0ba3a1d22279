//! The phrases of payloads of port 138.

ghost use Rattle.std.specs.Prelude.{◌≡◌};
ghost use Rattle.nb_datagram.specs.Fragment.{has_more};
ghost use Rattle.nb_text.specs.Said.{Adds, datagram_refused_said, datagram_said, error_words, fragment_said, kind_words, offset_said, query_words};
ghost use Rattle.nb_text.specs.SaysPacket.{AddsPhrase};

use crate::brief::pieces::{
    counts_in, push_bytes, push_coded, push_count, push_follow, push_refused, push_text,
};
use nb_datagram::error_codes::{
    DESTINATION_NAME_NOT_PRESENT, INVALID_DESTINATION_NAME_FORMAT, INVALID_SOURCE_NAME_FORMAT,
};
use nb_datagram::{DatagramFault, Kind, LentFragment, LentPacket, QueryKind, decode_lent};
use nb_names::push_lent_name;
use nb_streams::NoMemory;

/// Adds the phrase of a payload of port 138.
pub fn push_datagram(payload: &[u8], text: &mut String) -> Result<(), NoMemory>
    ensures { AddsPhrase result payload.now 138 text.old text.new }
{
    match decode_lent(payload) {
        Ok((packet, used)) => {
            push_packet(&packet, text)?;
            push_follow(used, payload.len(), text)
        }
        Err(fault) => push_fault(fault, text),
    }
}

/// Adds what a packet is.
fn push_packet(packet: &LentPacket<'_>, text: &mut String) -> Result<(), NoMemory>
    ensures { Adds result text.old text.new (datagram_said packet.now) }
{
    match packet {
        LentPacket::Direct(fragment) => push_fragment(fragment, text),
        LentPacket::Error(error) => {
            push_coded("error: ", error_words(error.code), error.code, text)
        }
        LentPacket::Query(query) => {
            push_text(query_words(query.kind), text)?;
            push_lent_name(text, &query.destination)
        }
    }
}

/// Adds a datagram, or a part of one.
fn push_fragment(fragment: &LentFragment<'_>, text: &mut String) -> Result<(), NoMemory>
    ensures { Adds result text.old text.new (fragment_said fragment.now) }
{
    let (source, destination) = (fragment.source(), fragment.destination());
    push_text(kind_words(fragment.kind()), text)?;
    push_lent_name(text, source)?;
    push_text(" to ", text)?;
    push_lent_name(text, destination)?;
    push_bytes(", ", fragment.bytes().len() as u64, text)?;
    push_offset(fragment.has_more(), u64::from(fragment.offset()), text)
}

/// What a datagram of a kind is called (RFC 1002 section 4.4.1).
fn kind_words(kind: Kind) -> &'static str
    ensures { result.now ≡ kind_words kind }
{
    match kind {
        Kind::Unique => "datagram from ",
        Kind::Group => "group datagram from ",
        Kind::Broadcast => "broadcast datagram from ",
    }
}

/// Adds which bytes of a datagram there are, where they aren't all.
fn push_offset(more: bool, offset: u64, text: &mut String) -> Result<(), NoMemory>
    ensures { Adds result text.old text.new (offset_said more offset) }
{
    match (more, offset) {
        (true, _) => push_count(" at offset ", offset, " of one that goes on", text),
        (false, 0) => Ok(()),
        (false, _) => push_count(" at offset ", offset, ", the last", text),
    }
}

/// What a query says (RFC 1002 section 4.4.4).
fn query_words(kind: QueryKind) -> &'static str
    ensures { result.now ≡ query_words kind }
{
    match kind {
        QueryKind::Request => "asks whether datagrams are relayed to ",
        QueryKind::Positive => "answers: datagrams are relayed to ",
        QueryKind::Negative => "answers: no datagrams are relayed to ",
    }
}

/// What an error says (RFC 1002 section 4.4.3).
fn error_words(code: u8) -> &'static str
    ensures { result.now ≡ error_words code }
{
    match code {
        DESTINATION_NAME_NOT_PRESENT => "no such destination name",
        INVALID_SOURCE_NAME_FORMAT => "source name of a wrong form",
        INVALID_DESTINATION_NAME_FORMAT => "destination name of a wrong form",
        _ => "unknown code",
    }
}

/// Adds why there is no packet.
fn push_fault(fault: DatagramFault, text: &mut String) -> Result<(), NoMemory>
    ensures { Adds result text.old text.new (datagram_refused_said fault) }
{
    let counted = match fault {
        DatagramFault::SourceName(fault) | DatagramFault::DestinationName(fault) => {
            counts_in(fault)
        }
        _ => "",
    };
    push_refused(fault.subject(), fault.words(), fault.place(), counted, text)
}
