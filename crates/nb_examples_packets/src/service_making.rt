//! Packets of port 137 that are made: requests, responses, records and lists.

use crate::service::{copy_of_question, copy_of_record, front, say_encoded};
use crate::values::relisted;
use nb_examples_words::line::Line;
use nb_examples_words::{called, given, said};
use nb_names::Name;
use nb_service::{
    AddressEntry, Packet, Record, node_status_request, query, refresh, registration, release,
    response,
};
use nb_streams::NoMemory;
use std::alloc::Global;

/// What a request says besides its name: whether it is broadcast, for how long, and the entry.
#[derive(Drop)]
struct Details {
    is_broadcast: bool,
    ttl: u32,
    entry: [u8; 6],
}

/// `query ID NAME MODE` and `node_status_request` with the same words, `registration ID NAME MODE
/// TTL FLAGS ADDRESS` and `refresh` with the same words, and `release ID NAME MODE FLAGS ADDRESS`:
/// the bytes of the request. MODE is `broadcast` or `alone`.
pub fn requested(line: &mut Line<'_>, call: &str) {
    let (id, name) = (line.hex_16(), line.name());
    let details = details_of(line, call);
    let packet = given!(line, request(line.alloc(), call, id, &name, &details));
    say_encoded(line, &packet);
}

/// The next words, as what such a request says besides its name.
fn details_of(line: &mut Line<'_>, call: &str) -> Details {
    let is_broadcast = line.is_word("broadcast", "alone");
    let ttl = match call {
        "registration" | "refresh" => line.number(),
        _ => 0,
    };
    let (flags, address) = match line.is_empty() {
        true => (0, [0; 4]),
        false => (line.hex_16(), line.address()),
    };
    Details {
        is_broadcast,
        ttl,
        entry: AddressEntry { flags, address }.to_bytes(),
    }
}

/// The request that a call makes.
fn request<'a>(
    alloc: Global,
    call: &str,
    id: u16,
    name: &Name,
    details: &'a Details,
) -> Result<Packet<'a>, NoMemory> {
    let (is_broadcast, ttl, entry) = (details.is_broadcast, details.ttl, &details.entry);
    match call {
        "query" => query(alloc, id, name, is_broadcast),
        "node_status_request" => node_status_request(alloc, id, name, is_broadcast),
        "registration" => registration(alloc, id, name, is_broadcast, ttl, entry),
        "refresh" => refresh(alloc, id, name, is_broadcast, ttl, entry),
        _ => release(alloc, id, name, is_broadcast, entry),
    }
}

/// `record NAME TYPE CLASS TTL RDATA`: the parts of the record of these, or why there is none. The
/// name is the bytes of its spelling.
pub fn record(line: &mut Line<'_>) {
    let (name, kind, class) = (line.domain(), line.hex_16(), line.hex_16());
    let (ttl, rdata) = (line.number(), line.bytes());
    let rdata = rdata.as_slice();
    let record = given!(line, Record::bytes(name, kind, class, ttl, rdata));
    say_parts(line, &record);
}

/// `ns NAME CLASS TTL NAME`: the parts of the record whose RDATA is the second name.
pub fn name_server(line: &mut Line<'_>) {
    let (name, class) = (line.domain(), line.hex_16());
    let (ttl, target) = (line.number(), line.domain());
    let record = called!(line, Record::ns(name, class, ttl, target));
    say_parts(line, &record);
}

/// Says the parts of a record: name, type, class, time to live, and RDATA.
fn say_parts(line: &mut Line<'_>, record: &Record<'_>) {
    let front = called!(line, (record.name(), record.kind(), record.class()));
    line.says(&front);
    said!(line, says, (record.ttl(), record.rdata()));
}

/// `response ID WORD NAME TYPE CLASS TTL RDATA`: the bytes of the packet with this answer alone.
pub fn responded(line: &mut Line<'_>) {
    let (id, word) = (line.hex_16(), line.hex_16());
    let (name, kind, class) = (line.domain(), line.hex_16(), line.hex_16());
    let (ttl, rdata) = (line.number(), line.bytes());
    let Ok(record) = Record::bytes(name, kind, class, ttl, rdata.as_slice()) else {
        return line.bad_words();
    };
    let packet = given!(line, response(line.alloc(), id, word, record));
    say_encoded(line, &packet);
}

/// `lists BYTES`: how many items a list of a packet's questions has, and what it gives back; then
/// the same of its answers.
pub fn lists(line: &mut Line<'_>) {
    let bytes = line.bytes();
    let packet = front(line, bytes.as_slice());
    let mut questions = Vec::new(line.alloc());
    for question in packet.questions().as_slice() {
        line.push(&mut questions, copy_of_question(question));
    }
    let questions = relisted(line, questions);
    line.says(&questions);
    let mut records = Vec::new(line.alloc());
    for record in packet.answers().as_slice() {
        line.push(&mut records, copy_of_record(record));
    }
    let records = relisted(line, records);
    line.says(&records);
}
