//! Frames, and where they stand.
ghost use Rattle.std.specs.Prelude.{◌≡◌, ℕ, List, drop, take, option_map};
ghost use Rattle.std.specs.Borrow.{Bor};
ghost use Rattle.nb_pcap.specs.Frame.{interface_in_file, name_in};

use crate::context::Context;

/// A frame of a file.
#[derive(Clone, Copy)]
pub struct Frame<'a> {
    /// Its number in the file, the first being 1.
    pub number: u64,
    /// The number of its interface in the file, the first being 0; that of a classic file's frames
    /// is 0.
    pub interface: u64,
    /// The name of that interface, where it has one of at most
    /// [`MAX_NAME`](crate::limits::MAX_NAME) bytes.
    pub name: Option<&'a [u8]>,
    /// What its bytes begin with (LINKTYPE).
    pub link: u16,
    /// When it came, in nanoseconds since 1970, UTC; none where the file doesn't say it, or where
    /// that is no number of 64 bits.
    pub time: Option<u64>,
    /// The bytes that were captured.
    pub bytes: &'a [u8],
    /// How many bytes it had on the wire, as the file says.
    pub original: u32,
}

/// Where a frame stands in a record or a block, and what that says of it.
#[derive(Clone, Copy)]
pub struct Head {
    /// The number of its interface in its section, the first being 0.
    pub interface: usize,
    /// What its bytes begin with (LINKTYPE).
    pub link: u16,
    /// When it came, in nanoseconds since 1970.
    pub time: Option<u64>,
    /// The place of its captured bytes in the record or block.
    pub start: usize,
    /// How many there are.
    pub captured: usize,
    /// How many bytes it had.
    pub original: u32,
}

/// The number in the file of an interface that has this one in its section.
pub(crate) fn interface_in_file(context: &Context, which: usize) -> u64
    ensures { result ≡ interface_in_file context.now which }
{
    match context {
        Context::Beginning | Context::Records(_) => which as u64,
        Context::Blocks(section) => section.earlier.saturating_add(which as u64),
    }
}

/// The name of an interface of a section.
pub(crate) fn name_in(context: &Context, which: usize) -> Option<&[u8]>
    ensures { option_map (λ (n : Bor (List ℕ)). n.now) result ≡ name_in context.now which }
{
    match context {
        Context::Beginning | Context::Records(_) => None,
        Context::Blocks(section) => match &section.interfaces.as_slice().get(which)?.name {
            Some(name) => Some(name.as_slice()),
            None => None,
        },
    }
}

/// So many bytes of a part, from a place on, as far as there are.
pub(crate) fn captured_in(part: &[u8], start: usize, count: usize) -> &[u8]
    ensures { result.now ≡ take count (drop start part.now) }
{
    let bytes = &part[start.min(part.len())..];
    &bytes[..count.min(bytes.len())]
}
