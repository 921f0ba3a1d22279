//! Faults, in the parts that their texts are made of: which name is wrong, what is wrong, and the
//! place.

use crate::names::pointers;
use nb_datagram::decode_lent;
use nb_examples_words::line::Line;
use nb_names::read_name;
use nb_service::decode;
use nb_session::{Parsed, parse_lent};

/// `fault POINTERS AT BYTES` of nb_names: why no NetBIOS name stands at an offset.
pub fn of_name(line: &mut Line<'_>) {
    let pointers = pointers(line);
    let (at, packet) = (line.number(), line.bytes());
    if let Err(fault) = read_name(packet.as_slice(), at, pointers) {
        line.says(&("", fault.words(), Some(fault.place())));
    }
}

/// `fault BYTES` of nb_service: why no packet stands at the front.
pub fn of_service(line: &mut Line<'_>) {
    let bytes = line.bytes();
    if let Err(fault) = decode(line.alloc(), bytes.as_slice()) {
        line.says(&(fault.subject(), fault.words(), fault.place()));
    }
}

/// `fault BYTES` of nb_session: likewise.
pub fn of_session(line: &mut Line<'_>) {
    let bytes = line.bytes();
    if let Parsed::Refused(fault) = parse_lent(bytes.as_slice()) {
        line.says(&(fault.subject(), fault.words(), fault.place()));
    }
}

/// `fault BYTES` of nb_datagram: likewise.
pub fn of_datagram(line: &mut Line<'_>) {
    let bytes = line.bytes();
    if let Err(fault) = decode_lent(bytes.as_slice()) {
        line.says(&(fault.subject(), fault.words(), fault.place()));
    }
}
