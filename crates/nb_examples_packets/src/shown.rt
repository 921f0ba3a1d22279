//! Payloads of any port, as texts, as JSON objects, and told to a sink.

use crate::counting_sink::CountingSink;
use nb_examples_words::given;
use nb_examples_words::line::Line;
use nb_telling::JsonRoom;
use nb_text::{packet_object, push_packet, tell_packet};

/// `object PORT BYTES`: the JSON object of a payload that came to the port.
pub fn object(line: &mut Line<'_>) {
    let (port, payload) = (line.number(), line.bytes());
    let room = JsonRoom::new(line.alloc());
    let room = given!(line, packet_object(port, payload.as_slice(), room));
    line.say_lines(room.as_slice());
}

/// `packet PORT BYTES`: the text of a payload that came to the port, whose lines end with `;` here.
pub fn text(line: &mut Line<'_>) {
    let (port, payload) = (line.number(), line.bytes());
    let mut text = String::new(line.alloc());
    given!(line, push_packet(port, payload.as_slice(), &mut text));
    line.say_lines(text.as_bytes());
}

/// `count PORT BYTES`: how many fields are reported of a payload that came to the port.
pub fn count(line: &mut Line<'_>) {
    let (port, payload) = (line.number(), line.bytes());
    let mut sink = CountingSink { count: 0 };
    given!(line, tell_packet(port, payload.as_slice(), &mut sink));
    line.says(&sink.count);
}
