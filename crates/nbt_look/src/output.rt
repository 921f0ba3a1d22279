//! An output that is shown before more of an input is waited for.
ghost use Rattle.std.specs.Prelude.{◌≡◌, false};

use crate::signature::Signature;
use std::cell::{Cell, RefCell};
use std::io;
use std::io::{ErrorKind, Read, Write};

/// An output, and whether it couldn't be flushed.
#[derive(Drop)]
pub struct Output<W> {
    /// The output itself.
    pub writer: W,
    /// Whether a flush failed.
    pub flush_failed: bool,
}

impl<W> Output<W> {
    /// This output, of which no flush failed yet.
    pub fn new(writer: W) -> Output<W>
        ensures { result.flush_failed ≡ false }
    {
        Output {
            writer,
            flush_failed: false,
        }
    }
}

/// An output that is shared with inputs, which flush it.
#[derive(Drop)]
pub struct SharedOutput<'a, W> {
    /// The output.
    pub output: &'a RefCell<Output<W>>,
}

impl<'a, W: Write> Write for SharedOutput<'a, W> {
    fn write(&mut self, buf: &[u8]) -> io::Result<usize> {
        match self.output.try_borrow_mut() {
            Ok(mut output) => output.writer.write(buf),
            Err(_) => Err(io::Error::from(ErrorKind::Other)),
        }
    }

    fn flush(&mut self) -> io::Result<()> {
        match self.output.try_borrow_mut() {
            Ok(mut output) => {
                let flushed = output.writer.flush();
                if flushed.is_err() {
                    output.flush_failed = true;
                }
                flushed
            }
            Err(_) => Err(io::Error::from(ErrorKind::Other)),
        }
    }
}

/// An input before each of whose reads an output is flushed. Where that fails, so does the read,
/// and nothing is read. What the input begins with is kept in a cell.
#[derive(Drop)]
pub struct LiveInput<'a, R, W> {
    /// The input.
    pub input: R,
    /// The output.
    pub output: SharedOutput<'a, W>,
    /// What the input begins with.
    pub signature: &'a Cell<Signature>,
}

impl<'a, R: Read, W: Write> Read for LiveInput<'a, R, W> {
    ghost remaining = { λ r. R.remaining r.input };

    fn read(&mut self, buf: &mut [u8]) -> io::Result<usize> {
        self.output.flush()?;
        let count = self.input.read(buf)?;
        self.signature.set(self.signature.get().with(&buf[..count]));
        Ok(count)
    }
}
