//! Payloads, as far as they are captured.
ghost use Rattle.std.specs.Prelude.{◌≡◌, ◌≤◌, ◌<◌, ◌↔◌, length, IsTrue};
ghost use Rattle.nb_frames.specs.Payload.{rest_after, whole, PayloadValue};

use crate::fields::behind;
use std::marker::Model;

/// What follows a header, lent from the frame: the bytes that are captured, and how many there were
/// on the wire.
#[derive(Drop)]
pub struct Payload<'a> {
    captured: &'a [u8],
    on_wire: usize,
}

impl<'a> Model for Payload<'a> {
    ghost Value = { PayloadValue };

    ghost view = { λ p. record { bytes = p.captured.now; wire_length = p.on_wire } };

    ghost invariant = { λ p. length p.captured.now ≤ p.on_wire };
}

impl<'a> Payload<'a> {
    /// What follows a header of so many bytes, in a packet that had `wire` bytes on the wire.
    pub(crate) fn after(captured: &'a [u8], wire: usize, header: usize) -> Payload<'a>
        requires { header ≤ wire }
        ensures { result ≡ rest_after captured.now wire header }
    {
        let packet = &captured[..wire.min(captured.len())];
        Payload {
            captured: behind(packet, header),
            on_wire: wire - header,
        }
    }

    /// Bytes of which none is missing.
    pub fn whole(bytes: &'a [u8]) -> Payload<'a>
        ensures { result ≡ whole bytes.now }
    {
        Payload {
            captured: bytes,
            on_wire: bytes.len(),
        }
    }

    /// The bytes that are captured.
    pub fn bytes(&self) -> &'a [u8]
        ensures value { result.now ≡ self.now.bytes }
        ensures within { length self.now.bytes ≤ self.now.wire_length }
    {
        self.captured
    }

    /// How many bytes there were on the wire.
    pub fn wire_len(&self) -> usize
        ensures { result ≡ self.now.wire_length }
    {
        self.on_wire
    }

    /// Whether some of the bytes aren't captured.
    pub fn is_cut(&self) -> bool
        ensures { IsTrue result ↔ (length self.now.bytes < self.now.wire_length) }
    {
        self.captured.len() < self.on_wire
    }
}
