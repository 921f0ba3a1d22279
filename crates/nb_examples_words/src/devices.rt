//! Devices that do as an example says, slow, interrupted, failing: a reader of some bytes, and a
//! writer that keeps what it took.

use std::io;
use std::io::{ErrorKind, Read, Write};

/// What a device does besides giving or taking bytes. Calls that are interrupted don't count.
#[derive(Clone, Copy)]
pub struct Conduct {
    /// The most bytes of a call.
    pub most: usize,
    /// How many interrupts come before the first call, and again after every so many calls.
    pub interrupts: u32,
    /// After how many calls interrupts come again.
    pub every: u64,
    /// Which call fails, the first being 1; none where this is 0.
    pub failing: u64,
}

/// A device that does all that it is asked for.
pub const WILLING: Conduct = Conduct {
    most: usize::MAX,
    interrupts: 0,
    every: 1,
    failing: 0,
};

/// A device over bytes that it gives, or over those that it took.
#[derive(Drop)]
pub struct Device<B> {
    bytes: B,
    conduct: Conduct,
    waiting: u32,
    calls: u64,
}

/// A reader of some bytes.
pub type Source<'a> = Device<&'a [u8]>;

/// A writer that keeps what it took.
pub type Sink = Device<Vec<u8>>;

impl<B> Device<B> {
    /// A device that wasn't called so far.
    pub fn new(bytes: B, conduct: Conduct) -> Device<B> {
        let waiting = conduct.interrupts;
        Device {
            bytes,
            conduct,
            waiting,
            calls: 0,
        }
    }

    /// Counts a call, which is interrupted or fails where it has to.
    fn turn(&mut self) -> io::Result<()> {
        if self.waiting > 0 {
            self.waiting -= 1;
            return Err(io::Error::from(ErrorKind::Interrupted));
        }
        self.calls = self.calls.saturating_add(1);
        if self.calls.is_multiple_of(self.conduct.every) {
            self.waiting = self.conduct.interrupts;
        }
        if self.calls == self.conduct.failing {
            return Err(io::Error::from(ErrorKind::ConnectionReset));
        }
        Ok(())
    }
}

impl<'a> Device<&'a [u8]> {
    /// The bytes that haven't been read.
    pub fn left(&self) -> &'a [u8] {
        self.bytes
    }
}

impl Device<Vec<u8>> {
    /// What was written.
    pub fn taken(&self) -> &[u8] {
        self.bytes.as_slice()
    }
}

impl Read for Device<&[u8]> {
    fn read(&mut self, buf: &mut [u8]) -> io::Result<usize> {
        self.turn()?;
        let count = self.conduct.most.min(self.bytes.len()).min(buf.len());
        buf[..count].copy_from_slice(&self.bytes[..count]);
        self.bytes = &self.bytes[count..];
        Ok(count)
    }
}

impl Write for Device<Vec<u8>> {
    fn write(&mut self, buf: &[u8]) -> io::Result<usize> {
        self.turn()?;
        let count = self.conduct.most.min(buf.len());
        match self.bytes.extend_from_slice(&buf[..count]) {
            Ok(()) => Ok(count),
            Err(_) => Err(io::Error::from(ErrorKind::OutOfMemory)),
        }
    }

    fn flush(&mut self) -> io::Result<()> {
        Ok(())
    }
}
