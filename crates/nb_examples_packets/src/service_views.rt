//! What packets of port 137 and their records say, without a packet that is made.

use crate::service::front;
use nb_examples_words::line::Line;
use nb_examples_words::{called, given, said};
use nb_names::NameReader;
use nb_service::{
    AddressEntries, NodeStatus, Record, ont, opcode, outline, rcode, see_question, see_record,
};

/// `view BYTES`: what the RDATA of a packet's first answer says: its address entries, or its node
/// status, or `none`. Of entries and names their number, each by its place, and what stands after
/// the last.
pub fn view(line: &mut Line<'_>) {
    let bytes = line.bytes();
    let packet = front(line, bytes.as_slice());
    match packet.answers().as_slice().first() {
        Some(record) => say_view(line, record),
        None => line.bad_words(),
    }
}

/// Says what the RDATA of a record says.
fn say_view(line: &mut Line<'_>, record: &Record<'_>) {
    match called!(line, (record.address_entries(), record.node_status())) {
        (Some(entries), None) => say_entries(line, &entries),
        (None, Some(status)) => say_status(line, &status),
        _ => line.say("none"),
    }
}

/// Says address entries, each with its ONT and its bytes.
fn say_entries(line: &mut Line<'_>, entries: &AddressEntries<'_>) {
    let count = called!(line, entries.len());
    line.says(&count);
    for place in 0..=count {
        let entry = called!(line, entries.get(place));
        line.says(&entry);
        if let Some(entry) = entry {
            said!(line, says, (ont(entry.flags), entry.to_bytes()));
        }
    }
}

/// Says a node's status: each name with its flag word, ONT and flags; the statistics, and the
/// unit's identifier.
fn say_status(line: &mut Line<'_>, status: &NodeStatus<'_>) {
    let count = called!(line, status.len());
    line.says(&count);
    for place in 0..=count {
        let name = called!(line, status.get(place));
        line.says(&name);
        if let Some(name) = name {
            said!(line, says, (ont(name.flags), name.node_flags()));
        }
    }
    said!(line, says, (status.statistics(), status.unit_id()));
}

/// `outline BYTES`: the header of the packet at the front and how many bytes the packet takes up,
/// and the opcode and the result code of its flag word.
pub fn outlined(line: &mut Line<'_>) {
    let bytes = line.bytes();
    let names = NameReader::of(bytes.as_slice(), &mut []);
    let (header, used) = given!(line, outline(&names));
    line.says(&(header, used));
    line.says(&(opcode(header.word), rcode(header.word)));
}

/// `question_at AT BYTES`: the question at an offset, and the offset after it.
pub fn question_at(line: &mut Line<'_>) {
    let (at, bytes) = (line.number(), line.bytes());
    let names = NameReader::of(bytes.as_slice(), &mut []);
    let seen = given!(line, see_question(&names, at));
    let question = called!(line, seen.question(&names));
    line.says(&(question, seen.fields.extent.next));
}

/// `record_at AT BYTES`: the record at an offset, and the offset after it.
pub fn record_at(line: &mut Line<'_>) {
    let (at, bytes) = (line.number(), line.bytes());
    let names = NameReader::of(bytes.as_slice(), &mut []);
    let seen = given!(line, see_record(&names, at));
    let record = called!(line, seen.record(&names));
    line.says(&(record, seen.fields.extent.next));
}
