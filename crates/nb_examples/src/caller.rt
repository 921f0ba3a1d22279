//! A program that calls the crates, as the README at the top has it: payloads of port 138 in, a
//! datagram out.

use crate::steps::say_found;
use nb_datagram::{Datagram, Packet, decode};
use nb_examples_words::line::Line;
use nb_streams::Bytes;
use nb_table::{Change, Table};
use std::alloc::Global;

/// The first datagram that these payloads of port 138 come to, in whatever order they came.
fn reassembled(alloc: Global, payloads: &[Bytes]) -> Option<Datagram> {
    let mut table = Table::new(alloc, 1_024, u32::MAX, 65_535);
    for payload in payloads {
        let Ok((packet, _used)) = decode(payload.as_slice()) else {
            continue;
        };
        let Packet::Direct(fragment) = packet else {
            continue;
        };
        if let Ok(Change::Whole(datagram)) = table.insert(&fragment) {
            return Some(datagram);
        }
    }
    None
}

/// `reassembled BYTES ..`: the first datagram that the payloads come to, or `none`.
pub fn first_datagram(line: &mut Line<'_>) {
    let mut payloads = Vec::new(line.alloc());
    for word in line.rest().split_whitespace() {
        let payload = Bytes::from_vec(line.bytes_of(word));
        line.push(&mut payloads, payload);
    }
    let found = reassembled(line.alloc(), payloads.as_slice());
    say_found(line, &found);
}
