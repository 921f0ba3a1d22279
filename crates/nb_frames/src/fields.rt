//! Fields of headers, and what follows them.
ghost use Rattle.std.specs.Prelude.{◌≡◌, ◌+◌, ◌≤◌, length, drop};
ghost use Rattle.nb_frames.specs.Fields.{word_at, long_at, bytes_at};

/// The number in the two bytes at a place.
pub(crate) fn word(bytes: &[u8], at: usize) -> u16
    requires { at + 2 ≤ length bytes.now }
    ensures { result ≡ word_at bytes.now at }
{
    u16::from_be_bytes(octets(bytes, at))
}

/// The number in the four bytes at a place.
pub(crate) fn long(bytes: &[u8], at: usize) -> u32
    requires { at + 4 ≤ length bytes.now }
    ensures { result ≡ long_at bytes.now at }
{
    u32::from_be_bytes(octets(bytes, at))
}

/// So many bytes at a place.
pub(crate) fn octets<const N: usize>(bytes: &[u8], at: usize) -> [u8; N]
    requires { at + N ≤ length bytes.now }
    ensures { result ≡ bytes_at N bytes.now at }
{
    let mut octets = [0; N];
    octets.copy_from_slice(&bytes[at..at + N]);
    octets
}

/// The bytes from a place on: none where it isn't there.
pub(crate) fn behind(bytes: &[u8], at: usize) -> &[u8]
    ensures { result.now ≡ drop at bytes.now }
{
    &bytes[at.min(bytes.len())..]
}
