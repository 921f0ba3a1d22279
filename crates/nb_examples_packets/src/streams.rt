//! Streams of packets of port 139, fed in pieces.

use nb_examples_words::asked;
use nb_examples_words::line::Line;
use nb_session::limits::HEADER_LENGTH;
use nb_session::{Next, SessionFault, Stream};

/// `stream PIECE ..`: what a stream answers after each piece that it is fed, up to what it needs or
/// to its fault; the first piece alone isn't fed between marks.
pub fn streamed(line: &mut Line<'_>) {
    let mut stream = Stream::new(line.alloc());
    for word in line.rest().split_whitespace() {
        let piece = line.bytes_of(word);
        match line.is_silent() {
            true => line.is_done(&stream.feed(piece.as_slice())),
            false => is_fed(line, &mut stream, piece.as_slice()),
        };
        say_packets(line, &mut stream, piece.len(), true);
        line.says(&stream.next());
    }
}

/// `pieces PIECE ..`: the bytes of each packet that a stream hands out, and what it needs in the
/// end.
pub fn cut(line: &mut Line<'_>) {
    let mut stream = Stream::new(line.alloc());
    for word in line.rest().split_whitespace() {
        let piece = line.bytes_of(word);
        is_fed(line, &mut stream, piece.as_slice());
        say_packets(line, &mut stream, piece.len(), false);
    }
    line.says(&stream.next());
}

/// `kept TIMES PIECE ..`: feeds these pieces so often, and takes each packet off as it comes: how
/// many bytes the stream has in memory at most, and what it needs in the end.
pub fn kept(line: &mut Line<'_>) {
    let times: u32 = line.number();
    let pieces = line.rest();
    let mut stream = Stream::new(line.alloc());
    let mut most = 0;
    for _ in 0..times {
        most = most_kept(line, &mut stream, pieces).max(most);
    }
    line.says(&most);
    line.says(&stream.next());
}

/// How many bytes a stream has in memory at most that is fed these pieces.
fn most_kept(line: &mut Line<'_>, stream: &mut Stream, pieces: &str) -> usize {
    let mut most = 0;
    for word in pieces.split_whitespace() {
        let piece = line.bytes_of(word);
        line.is_done(&stream.feed(piece.as_slice()));
        most = stream.kept().max(most);
        drain(stream, piece.len());
    }
    most
}

/// Takes the packets off a stream that it has after a piece of so many bytes.
fn drain(stream: &mut Stream, count: usize) {
    for _ in 0..=count {
        if !matches!(stream.next(), Next::Packet(_)) {
            return;
        }
    }
}

/// `bytewise BYTES`: what a new stream answers that is fed the bytes one by one: its packets, and
/// what it needs, where that isn't one byte less than before.
pub fn streamed_bytewise(line: &mut Line<'_>) {
    let bytes = line.bytes();
    let mut stream = Stream::new(line.alloc());
    let mut before = HEADER_LENGTH;
    for byte in bytes.as_slice() {
        is_fed(line, &mut stream, &[*byte]);
        say_packets(line, &mut stream, 1, true);
        let needed = lacks(&mut stream).unwrap_or(usize::MAX);
        if needed.saturating_add(1) != before {
            line.says(&stream.next());
        }
        before = needed;
    }
}

/// Feeds a piece to a stream that has no whole packet, between marks, and once more where memory
/// ran out: what comes next in the stream has to be the same then.
fn is_fed(line: &mut Line<'_>, stream: &mut Stream, piece: &[u8]) -> bool {
    let answer = asked!(line, stream.feed(piece), lacks(stream));
    line.is_done(&answer)
}

/// How many bytes a stream lacks that has no whole packet, or how it failed.
pub fn lacks(stream: &mut Stream) -> Result<usize, SessionFault> {
    match stream.next() {
        Next::Packet(_) => Ok(0),
        Next::More(needed) => Ok(needed),
        Next::Failed(fault) => Err(fault),
    }
}

/// Says the packets that a stream has after a piece of so many bytes, or their bytes.
fn say_packets(line: &mut Line<'_>, stream: &mut Stream, count: usize, has_parts: bool) {
    for _ in 0..=count {
        let Next::Packet(taken) = stream.next() else {
            return;
        };
        match has_parts {
            true => line.says(&taken.packet()),
            false => line.says(&taken.as_slice()),
        }
    }
}
