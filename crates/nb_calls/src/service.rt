//! Requests and responses of the name service, written.
ghost use Rattle.std.specs.Prelude.{◌≡◌, IfOk, MatchResult, Result, Ok, Err};
ghost use Rattle.nb_calls.specs.Common.{entry_bytes, ResourceData};
ghost use Rattle.nb_service.specs.Encoding.{packet_bytes};
ghost use Rattle.nb_calls.specs.Outputs.{OrMemory};
ghost use Rattle.nb_calls.specs.Responses.{entry_of, request_answer, requested, IsDomain, IsRdata, Responds, answer_of, response_answer, response_of};

use crate::names::name_of_text;
use crate::output::{Refusal, answer_of, name_refusal, text_refusal};
use crate::statuses::{LONG_DATA, NAME_TRAILING_BYTES, NO_ROLE, UNKNOWN_REQUEST};
use nb_names::{DomainName, Name, Pointers, TextFault, read_domain};
use nb_service::classes::IN;
use nb_service::limits::ENTRY_LENGTH;
use nb_service::{
    AddressEntry, Packet, Record, RecordFault, encode, node_status_request, query, refresh,
    registration, release, response,
};
use nb_streams::{Bytes, NoMemory};
use std::alloc::Global;

/// The number of the last request.
const RELEASE: u32 = 4;

/// What is asked for, but for the name.
#[derive(Clone, Copy)]
pub struct Asked {
    /// Which request: 0 a query, 1 a node status request, 2 a registration, 3 a refresh, 4 a
    /// release.
    pub request: u32,
    /// NAME_TRN_ID.
    pub identifier: u16,
    /// Whether B is set.
    pub broadcast: bool,
    /// TTL, in seconds.
    pub time_to_live: u32,
    /// NB_FLAGS.
    pub nb_flags: u16,
    /// The address of the name.
    pub address: u32,
}

/// The request about a name, if one was read.
pub fn request_of(
    alloc: Global,
    asked: Asked,
    read: Result<Name, TextFault>,
) -> Result<Bytes, Refusal>
    ensures { OrMemory (request_answer asked read) result }
{
    if asked.request > RELEASE {
        return Err(Refusal::Fault(UNKNOWN_REQUEST));
    }
    match read {
        Ok(name) => answer_of(request_bytes(alloc, asked, &name)),
        Err(fault) => Err(text_refusal(NO_ROLE, fault)),
    }
}

/// The bytes of a request about a name.
fn request_bytes(alloc: Global, asked: Asked, name: &Name) -> Result<Bytes, NoMemory>
    ensures { IfOk result (λ bytes.
        bytes ≡ packet_bytes (requested asked name.now (entry_bytes (entry_of asked)))) }
{
    let entry = AddressEntry {
        flags: asked.nb_flags,
        address: asked.address.to_be_bytes(),
    };
    let entry = entry.to_bytes();
    let packet = packet_of(alloc, asked, name, &entry)?;
    encode(alloc, &packet)
}

/// A request about a name.
fn packet_of<'a>(
    alloc: Global,
    asked: Asked,
    name: &Name,
    entry: &'a [u8; ENTRY_LENGTH],
) -> Result<Packet<'a>, NoMemory>
    ensures { IfOk result (λ packet. packet ≡ requested asked name.now entry.entry.now) }
{
    let id = asked.identifier;
    let broadcast = asked.broadcast;
    match asked.request {
        0 => query(alloc, id, name, broadcast),
        1 => node_status_request(alloc, id, name, broadcast),
        2 => registration(alloc, id, name, broadcast, asked.time_to_live, entry),
        3 => refresh(alloc, id, name, broadcast, asked.time_to_live, entry),
        _ => release(alloc, id, name, broadcast, entry),
    }
}

/// What a response says, but for the name and RDATA.
#[derive(Clone, Copy)]
pub struct Answered {
    /// NAME_TRN_ID.
    pub identifier: u16,
    /// R, OPCODE, NM_FLAGS and RCODE.
    pub word: u16,
    /// RR_TYPE.
    pub kind: u16,
    /// TTL, in seconds.
    pub time_to_live: u32,
}

/// The response about the name with this text.
#[tactic(auto, using(crate::proofs::ResponseLemmas::responses))]
pub fn answer(
    alloc: Global,
    answered: Answered,
    text: &[u8],
    contents: &[u8],
) -> Result<Bytes, Refusal>
    ensures { Responds answered text.now contents.now result }
{
    match name_of_text(text) {
        Ok(name) => named_response(alloc, answered, &name, contents),
        Err(fault) => Err(text_refusal(NO_ROLE, fault)),
    }
}

/// The response about a name.
fn named_response(
    alloc: Global,
    answered: Answered,
    name: &Name,
    contents: &[u8],
) -> Result<Bytes, Refusal>
    ensures { (rdata : Result ResourceData Refusal) × IsRdata answered.kind contents.now rdata
        × OrMemory (response_answer answered name.now rdata) result }
{
    let record = record_of(answered, name, contents)?;
    answer_of(response_bytes(alloc, answered, record))
}

/// The answer about a name.
fn record_of<'a>(answered: Answered, name: &Name, contents: &'a [u8]) -> Result<Record<'a>, Refusal>
    ensures { MatchResult result (λ made. (rdata : ResourceData)
        × IsRdata answered.kind contents.entry.now (Ok rdata)
        × (made ≡ answer_of answered name.now rdata))
        (λ refusal. IsRdata answered.kind contents.entry.now (Err refusal)) }
{
    let ttl = answered.time_to_live;
    match Record::bytes(name.to_domain(), answered.kind, IN, ttl, contents) {
        Ok(record) => Ok(record),
        Err(RecordFault::TooLong) => Err(Refusal::Fault(LONG_DATA)),
        Err(RecordFault::KindIsNs) => match domain_of(contents) {
            Ok(domain) => Ok(Record::ns(name.to_domain(), IN, ttl, domain)),
            Err(refusal) => Err(refusal),
        },
    }
}

/// The domain name whose spelling the bytes are.
fn domain_of(bytes: &[u8]) -> Result<DomainName, Refusal>
    ensures { IsDomain bytes.now result }
{
    match read_domain(bytes, 0, Pointers::Refused) {
        Ok((domain, next)) => {
            if next < bytes.len() {
                return Err(Refusal::FaultAt(NAME_TRAILING_BYTES, next));
            }
            Ok(domain)
        }
        Err(fault) => Err(name_refusal(NO_ROLE, fault)),
    }
}

/// The bytes of the response with this answer.
fn response_bytes(alloc: Global, answered: Answered, made: Record<'_>) -> Result<Bytes, NoMemory>
    ensures { IfOk result (λ bytes. bytes ≡ response_of answered made.entry) }
{
    let packet = response(alloc, answered.identifier, answered.word, made)?;
    encode(alloc, &packet)
}
