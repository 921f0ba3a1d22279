//! Lines of captures: what one says, and the lines of an input, read one after another.

use nb_capture::{LineReadFault, LineRoom, capture_line, next_from, next_line};
use nb_examples_words::devices::Source;
use nb_examples_words::line::Line;
use nb_examples_words::{called, said};
use nb_streams::Counted;

/// `line BYTES`: what a line of a capture says, if it says anything.
pub fn read(line: &mut Line<'_>) {
    let bytes = line.bytes();
    said!(line, answers, capture_line(line.alloc(), bytes.as_slice()));
}

/// `next CALLS DEVICE BYTES`: how many bytes a new room has, what each of so many calls for the
/// next line answers, over a device, and how many bytes the room has after it. `next_within MOST
/// CALLS DEVICE BYTES`: the same of a room whose input may have MOST bytes, by the call that has
/// the room first.
pub fn each_line(line: &mut Line<'_>, is_within: bool) {
    let mut room = room_for(line, is_within);
    let calls: u64 = line.number();
    let (conduct, capture) = (line.conduct(), line.bytes());
    let mut source = Source::new(capture.as_slice(), conduct);
    let mut reader = Counted::new(&mut source);
    said!(line, says, room.held());
    for _ in 0..calls {
        say_next(line, &mut reader, &mut room, is_within);
    }
}

/// A room for the lines of an input that may have as many bytes as the next word says, or any
/// number, made between marks.
fn room_for(line: &mut Line<'_>, is_within: bool) -> LineRoom {
    if !is_within {
        return called!(line, LineRoom::new(line.alloc()));
    }
    let most = line.number();
    called!(line, LineRoom::within(line.alloc(), most))
}

/// Says what one call answers, and what the room then has. Where memory runs out, the next call
/// goes on.
fn say_next(
    line: &mut Line<'_>,
    reader: &mut Counted<&mut Source<'_>>,
    room: &mut LineRoom,
    is_within: bool,
) {
    let answer = called!(line, next_of(reader, room, is_within));
    match answer {
        Err(LineReadFault::NoMemory) => {
            line.then("memory, ");
            line.says(&next_of(reader, room, is_within));
        }
        answer => line.says(&answer),
    }
    line.says(&room.held());
}

/// The next line, by one of both calls.
fn next_of<'a>(
    reader: &mut Counted<&mut Source<'_>>,
    room: &'a mut LineRoom,
    is_within: bool,
) -> Result<Option<&'a [u8]>, LineReadFault> {
    match is_within {
        true => next_from(room, reader),
        false => next_line(reader, room),
    }
}
