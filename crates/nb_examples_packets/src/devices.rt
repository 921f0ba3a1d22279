//! What is read from devices and written to them.

use nb_examples_words::devices::{Sink, Source};
use nb_examples_words::line::Line;
use nb_examples_words::{called, said};
use nb_streams::Counted;
use nb_streams::input::{read_input, read_some};
use nb_streams::output::{write_digits, write_some, write_whole};

/// `read_input BYTES`: what is read of an input, whether that is all of it, and how many bytes are
/// looked at.
pub fn input(line: &mut Line<'_>) {
    let bytes = line.bytes();
    match read_input(line.alloc(), &mut Counted::new(bytes.as_slice())) {
        Ok(input) => line.says(&(input.bytes.as_slice(), input.is_whole, input.front().len())),
        Err(_) => line.no_memory(),
    }
}

/// `read_some BYTES DEVICE BYTES`: how many bytes are read from a device to the front of the first
/// ones, or the fault, what stands there then, and what the device has left.
pub fn read(line: &mut Line<'_>) {
    let (mut buffer, conduct, bytes) = (line.bytes(), line.conduct(), line.bytes());
    let mut source = Source::new(bytes.as_slice(), conduct);
    read_front(line, &mut source, buffer.as_mut_slice());
    line.says(&(buffer.as_slice(), source.left()));
}

/// Reads some bytes to the front of others, of which there are some.
fn read_front(line: &mut Line<'_>, source: &mut Source<'_>, buffer: &mut [u8]) {
    if buffer.is_empty() {
        return line.bad_words();
    }
    said!(line, answers, read_some(&mut Counted::new(source), buffer));
}

/// `write some DEVICE BYTES`, `write whole DEVICE BYTES`, `write digits DEVICE BYTES`: how many of
/// the bytes are written to a device, or that all are, or their digits, or the fault; and what the
/// device has taken.
pub fn written(line: &mut Line<'_>) {
    let (what, conduct, bytes) = (line.word(), line.conduct(), line.bytes());
    let mut sink = line.sink(conduct);
    match what {
        "some" => say_some(line, &mut sink, bytes.as_slice()),
        _ => say_whole(line, what == "digits", &mut sink, bytes.as_slice()),
    }
    line.says(&sink.taken());
}

/// Writes some of the bytes, and says what was answered.
fn say_some(line: &mut Line<'_>, sink: &mut Sink, bytes: &[u8]) {
    if bytes.is_empty() {
        return line.bad_words();
    }
    said!(line, answers, write_some(&mut Counted::new(sink), bytes));
}

/// Writes all the bytes, or their digits, and says what was answered.
fn say_whole(line: &mut Line<'_>, is_digits: bool, sink: &mut Sink, bytes: &[u8]) {
    let writer = &mut Counted::new(sink);
    let answer = match is_digits {
        true => called!(line, write_digits(writer, bytes)),
        false => called!(line, write_whole(writer, bytes)),
    };
    line.answers(&answer);
}
