//! A device to write to, and whether a write to it came to nothing.
ghost use Rattle.std.specs.Prelude.{◌≡◌};

use nb_streams::Counted;
use nb_streams::output::write_some;
use std::io::{self, ErrorKind, Write};

/// A device to write to, whose calls are counted for contracts.
#[derive(Drop)]
pub struct Output<W> {
    /// The device.
    pub device: Counted<W>,
}

impl<W> Output<W> {
    /// This device, with no call counted.
    pub fn new(device: W) -> Output<W>
        ensures { result.device.inner ≡ device }
    {
        Output {
            device: Counted::new(device),
        }
    }
}

impl<W: Write> Write for Output<W> {
    ghost contents = { λ o. W.contents o.device.inner };

    fn write(&mut self, buf: &[u8]) -> io::Result<usize> {
        if buf.is_empty() {
            return Ok(0);
        }
        write_some(&mut self.device, buf).map_err(|_| io::Error::from(ErrorKind::Other))
    }

    fn flush(&mut self) -> io::Result<()> {
        Ok(())
    }
}
