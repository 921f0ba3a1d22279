//! What an input begins with.

use std::cell::Cell;
use std::io::{self, Read};

/// How many bytes a format is known by.
const WIDTH: usize = 4;

/// What a pcap file begins with, of microseconds and of nanoseconds and in either byte order, and
/// what a pcapng file does.
const PCAP: [[u8; WIDTH]; 5] = [
    [0xa1, 0xb2, 0xc3, 0xd4],
    [0xd4, 0xc3, 0xb2, 0xa1],
    [0xa1, 0xb2, 0x3c, 0x4d],
    [0x4d, 0x3c, 0xb2, 0xa1],
    [0x0a, 0x0d, 0x0d, 0x0a],
];

/// The first four bytes of an input, as far as it was read.
#[derive(Clone, Copy)]
pub struct Signature {
    bytes: [u8; WIDTH],
    held: usize,
}

/// The signature of an input of which nothing was read.
pub const UNREAD: Signature = Signature {
    bytes: [0; WIDTH],
    held: 0,
};

impl Signature {
    /// Whether a pcap or a pcapng file begins so.
    pub(crate) fn is_pcap(&self) -> bool {
        self.held == WIDTH && PCAP.contains(&self.bytes)
    }

    /// The signature once these bytes were read too.
    fn with(self, read: &[u8]) -> Signature {
        let mut signature = self;
        for byte in read.iter().take(WIDTH) {
            if signature.held < WIDTH {
                signature.bytes[signature.held] = *byte;
                signature.held += 1;
            }
        }
        signature
    }
}

/// An input whose signature is kept in a cell.
#[derive(Drop)]
pub struct SignatureInput<'a, R> {
    input: R,
    signature: &'a Cell<Signature>,
}

impl<'a, R> SignatureInput<'a, R> {
    /// This input, of which nothing was read yet, with this cell.
    pub fn new(input: R, signature: &'a Cell<Signature>) -> SignatureInput<'a, R> {
        SignatureInput { input, signature }
    }
}

impl<'a, R: Read> Read for SignatureInput<'a, R> {
    ghost remaining = { λ r. R.remaining r.input };

    fn read(&mut self, buf: &mut [u8]) -> io::Result<usize> {
        let count = self.input.read(buf)?;
        self.signature.set(self.signature.get().with(&buf[..count]));
        Ok(count)
    }
}
