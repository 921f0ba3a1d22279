//! Replays of captures, and a report's text of a datagram.

use crate::stations::member_of;
use nb_capture::{CaptureOptions, Comments, push_comment, push_packet, push_tick};
use nb_datagram::Datagram;
use nb_examples_packets::datagrams::datagram_of;
use nb_examples_words::devices::{Conduct, Sink, Source, WILLING};
use nb_examples_words::line::Line;
use nb_examples_words::{called, given, said};
use nb_member::{Member, ReplayFault, push_parts, replay, replay_with};
use nb_streams::{Counted, NoMemory};
use std::alloc::Global;

/// Comments are in the report.
const WITH_COMMENTS: CaptureOptions = CaptureOptions {
    most: 16_777_216,
    comments: Comments::Printed,
};

/// How a capture is replayed.
#[derive(Clone, Copy)]
struct Way {
    /// What is asked of the call, if that is said.
    options: Option<CaptureOptions>,
    reading: Conduct,
    writing: Conduct,
    /// Whether what was written is said as bytes.
    is_bytes: bool,
}

/// `replay STATION CAPTURE`: how many lines a new member replays, or the fault, and the report,
/// whose lines end with `;` here. `within STATION MOST CAPTURE`: the same of an input that may have
/// MOST bytes. `commented STATION CAPTURE`: the same with the capture's comments in the report.
/// `over STATION READER WRITER CAPTURE`: the same over two devices, each three words, `MOST
/// INTERRUPTS FAILING`; what was written is said as bytes.
///
/// Where memory runs out, another new member replays the capture, and what was written before has
/// to be a front of its report.
pub fn replayed(line: &mut Line<'_>, call: &str) {
    let station = line.word();
    let way = way_of(line, call);
    let (capture, mut sink) = (line.bytes(), line.sink(way.writing));
    replay_into(line, station, way, capture.as_slice(), &mut sink);
}

/// How a call replays.
fn way_of(line: &mut Line<'_>, call: &str) -> Way {
    let mut way = Way {
        options: None,
        reading: WILLING,
        writing: WILLING,
        is_bytes: false,
    };
    match call {
        "within" => {
            way.options = Some(CaptureOptions {
                most: line.number(),
                comments: Comments::LeftOut,
            });
        }
        "commented" => way.options = Some(WITH_COMMENTS),
        "over" => {
            way.reading = line.conduct();
            way.writing = line.conduct();
            way.is_bytes = true;
        }
        _ => {}
    }
    way
}

/// Replays a capture by a new member, and by another one where memory ran out.
fn replay_into<'a>(
    line: &mut Line<'a>,
    station: &'a str,
    way: Way,
    capture: &[u8],
    sink: &mut Sink,
) {
    let mut member = member_of(line, station);
    let alloc = line.alloc();
    let answer = called!(line, replay_by(alloc, way, capture, sink, &mut member));
    match answer {
        Err(ReplayFault::NoMemory) => replay_again(line, station, way, capture, sink.taken()),
        answer => say_replayed(line, way, answer, sink.taken()),
    }
}

/// What a replay answers, by one of the calls.
fn replay_by(
    alloc: Global,
    way: Way,
    capture: &[u8],
    sink: &mut Sink,
    member: &mut Member,
) -> Result<u64, ReplayFault> {
    let reader = &mut Counted::new(Source::new(capture, way.reading));
    let writer = &mut Counted::new(sink);
    match way.options {
        Some(options) => replay_with(alloc, options, reader, writer, member),
        None => replay(alloc, reader, writer, member),
    }
}

/// Replays a capture by a new member, and says what was answered, and whether what was written
/// before is a front of the report.
fn replay_again<'a>(
    line: &mut Line<'a>,
    station: &'a str,
    way: Way,
    capture: &[u8],
    before: &[u8],
) {
    let (mut member, mut sink) = (member_of(line, station), line.sink(way.writing));
    let answer = replay_by(line.alloc(), way, capture, &mut sink, &mut member);
    line.again(sink.taken().starts_with(before));
    say_replayed(line, way, answer, sink.taken());
}

/// Says what a replay answered, and what was written.
fn say_replayed(line: &mut Line<'_>, way: Way, answer: Result<u64, ReplayFault>, written: &[u8]) {
    line.answers(&answer);
    if way.is_bytes {
        line.says(&written);
    } else if !written.is_empty() {
        line.then("");
        line.say_lines(written);
    }
}

/// `datagram DATAGRAM`: all parts of a datagram as a report has them, after `parts`.
pub fn parts(line: &mut Line<'_>) {
    if let Some(datagram) = datagram_of(line) {
        said!(line, tells, parts_text(line.alloc(), &datagram));
    }
}

/// The text of a datagram's parts.
fn parts_text(alloc: Global, datagram: &Datagram) -> Result<String, NoMemory> {
    let mut text = String::from_str(alloc, "parts")?;
    push_parts(datagram, &mut text)?;
    Ok(text)
}

/// `comment printed LINE`, `comment left LINE`: what is printed of a comment or an empty line, as
/// bytes, where comments are printed and where they are left out.
pub fn comment(line: &mut Line<'_>) {
    let comments = match line.is_word("printed", "left") {
        true => Comments::Printed,
        false => Comments::LeftOut,
    };
    let comment = line.bytes();
    let mut text = String::new(line.alloc());
    given!(line, push_comment(comments, comment.as_slice(), &mut text));
    line.say_bytes(text.as_bytes());
}

/// `written packet PORT MOMENT BYTES`, `written tick MOMENT`: the line that is written of a
/// payload, and of what the clock shows, as bytes.
pub fn written(line: &mut Line<'_>) {
    let mut text = String::new(line.alloc());
    if line.is_word("packet", "tick") {
        let (port, moment, payload) = (line.number(), line.number(), line.bytes());
        given!(
            line,
            push_packet(port, moment, payload.as_slice(), &mut text)
        );
    } else {
        let moment = line.number();
        given!(line, push_tick(moment, &mut text));
    }
    line.say_bytes(text.as_bytes());
}
