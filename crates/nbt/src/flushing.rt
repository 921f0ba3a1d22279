//! What shows the output before more of the input is waited for.

use std::cell::RefCell;
use std::io::{self, ErrorKind, Read, Write};

/// An output that is shared with an input, which flushes it.
#[derive(Drop)]
pub struct SharedOutput<'a, W> {
    output: &'a RefCell<W>,
}

impl<'a, W> SharedOutput<'a, W> {
    /// The output in this cell.
    pub fn new(output: &'a RefCell<W>) -> SharedOutput<'a, W> {
        SharedOutput { output }
    }
}

impl<'a, W: Write> Write for SharedOutput<'a, W> {
    fn write(&mut self, buf: &[u8]) -> io::Result<usize> {
        match self.output.try_borrow_mut() {
            Ok(mut output) => output.write(buf),
            Err(_) => Err(io::Error::from(ErrorKind::Other)),
        }
    }

    fn flush(&mut self) -> io::Result<()> {
        match self.output.try_borrow_mut() {
            Ok(mut output) => output.flush(),
            Err(_) => Err(io::Error::from(ErrorKind::Other)),
        }
    }
}

/// An input before each of whose reads an output is flushed. Where that fails, so does the read,
/// and nothing is read.
#[derive(Drop)]
pub struct FlushingInput<'a, R, W> {
    input: R,
    output: SharedOutput<'a, W>,
    flush_failed: bool,
}

impl<'a, R, W> FlushingInput<'a, R, W> {
    /// This input, with the output in this cell.
    pub fn new(input: R, output: &'a RefCell<W>) -> FlushingInput<'a, R, W> {
        FlushingInput {
            input,
            output: SharedOutput::new(output),
            flush_failed: false,
        }
    }

    /// Whether a flush failed.
    pub fn flush_failed(&self) -> bool {
        self.flush_failed
    }
}

impl<'a, R: Read, W: Write> Read for FlushingInput<'a, R, W> {
    ghost remaining = { λ r. R.remaining r.input };

    fn read(&mut self, buf: &mut [u8]) -> io::Result<usize> {
        if self.output.flush().is_err() {
            self.flush_failed = true;
            return Err(io::Error::from(ErrorKind::Other));
        }
        self.input.read(buf)
    }
}
