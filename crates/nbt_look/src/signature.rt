//! What an input begins with.
ghost use Rattle.std.specs.Prelude.{◌≡◌};
ghost use Rattle.nbt_look.specs.Beginning.{sort_of};

/// What gzip's files begin with (RFC 1952 section 2.3.1).
const GZIP: (u8, u8) = (0x1f, 0x8b);

/// What an input is that is no capture file, by its first bytes.
#[derive(Clone, Copy)]
pub enum Sort {
    /// It has no byte.
    Empty,
    /// It is compressed by gzip.
    Gzip,
    /// Anything else.
    Other,
}

/// The first two bytes of an input, as far as it was read.
#[derive(Clone, Copy)]
pub struct Signature {
    /// The first one.
    pub first: Option<u8>,
    /// The second one.
    pub second: Option<u8>,
}

/// The signature of an input of which nothing was read.
pub const UNREAD: Signature = Signature {
    first: None,
    second: None,
};

impl Signature {
    /// What the input is.
    pub fn sort(&self) -> Sort
        ensures { result ≡ sort_of self.now.first self.now.second }
    {
        match self.first {
            None => Sort::Empty,
            Some(first) => match self.second {
                Some(second) if first == GZIP.0 && second == GZIP.1 => Sort::Gzip,
                _ => Sort::Other,
            },
        }
    }

    /// The signature once these bytes were read too.
    pub fn with(self, read: &[u8]) -> Signature {
        let mut signature = self;
        for byte in read {
            if signature.first.is_none() {
                signature.first = Some(*byte);
            } else if signature.second.is_none() {
                signature.second = Some(*byte);
            } else {
                break;
            }
        }
        signature
    }
}
