//! Parts of one length, as they stand in RDATA.
ghost use Rattle.std.specs.Prelude.{◌≡◌, ◌*◌, ◌/◌, ◌%◌, ◌<◌, ℕ, List, length, slice_get};
ghost use Rattle.std.specs.List.{flat_map};
ghost use Rattle.nb_service.specs.Parts.{AreSmall, parts};

use std::marker::{Model, PhantomData};

/// What stands in a part, all of which have one length.
pub trait Part {
    ghost LENGTH: { ℕ };

    /// How many bytes a part has.
    const LENGTH: usize;

    ghost read: { List ℕ → Self };

    ghost written: { Self → List ℕ };

    /// What stands in a part.
    fn of_bytes(bytes: &[u8]) -> Self
        requires { length bytes.now ≡ LENGTH }
        ensures { result ≡ read bytes.now };

    ghost some: { 0 < LENGTH };

    ghost given_back: { (part : List ℕ) → length part ≡ LENGTH → AreSmall part
        → written (read part) ≡ part };
}

/// Parts that stand one after the other, and are read where they stand.
#[derive(Debug, Drop)]
pub struct Parts<'a, P: Part> {
    bytes: &'a [u8],
    part: PhantomData<P>,
}

impl<'a, P: Part> Model for Parts<'a, P> {
    ghost Value = { List P };

    ghost view = { λ p. parts P.LENGTH P.read (length p.bytes.now / P.LENGTH) p.bytes.now };
}

impl<'a, P: Part> Parts<'a, P> {
    /// The parts that these bytes are.
    pub(crate) fn of(bytes: &'a [u8]) -> Self
        requires { length bytes.now % P.LENGTH ≡ 0 }
        ensures value { result
            ≡ parts P.LENGTH P.read (length bytes.entry.now / P.LENGTH) bytes.entry.now }
        ensures bytes { flat_map P.written result ≡ bytes.entry.now }
        ensures count { P.LENGTH * length result ≡ length bytes.entry.now }
    {
        Parts {
            bytes,
            part: PhantomData,
        }
    }

    /// How many there are.
    pub fn len(&self) -> usize
        ensures { result ≡ length self.now }
    {
        self.bytes.len() / P::LENGTH
    }

    /// The one at a place, counted from 0.
    pub fn get(&self, place: usize) -> Option<P>
        ensures { result ≡ slice_get self.now place }
    {
        let size = P::LENGTH;
        if place >= self.bytes.len() / size {
            return None;
        }
        let at = size * place;
        Some(P::of_bytes(&self.bytes[at..at + size]))
    }
}
