//! Link layers.
ghost use Rattle.std.specs.Prelude.{◌≡◌, ◌≤◌, []};
ghost use Rattle.nb_frames.specs.Link.{link_of, is_family, after_family, network_of, mac_at, sender_of, receiver_of, vlans_of};

use crate::contents::Mac;
use crate::fields::{long, octets, word};
use crate::reason::Reason;
use crate::tags::{Layer, TypePlace, layer_after};
use arrayvec::ArrayVec;

/// A link layer that is read.
#[derive(Clone, Copy)]
pub(crate) enum Link {
    /// Ethernet.
    Ethernet,
    /// Linux cooked capture.
    Cooked,
    /// Linux cooked capture, version 2.
    CookedV2,
    /// A packet of IP, and nothing before it.
    Raw,
    /// The loopback of BSD.
    Loopback,
    /// Another one.
    Unknown,
}

impl Link {
    /// The link layer of a link type, a LINKTYPE of tcpdump.org.
    pub(crate) fn of(link_type: u16) -> Link
        ensures { result ≡ link_of link_type }
    {
        match link_type {
            1 => Link::Ethernet,
            113 => Link::Cooked,
            276 => Link::CookedV2,
            12 | 14 | 101 | 228 | 229 => Link::Raw,
            0 | 108 => Link::Loopback,
            _ => Link::Unknown,
        }
    }

    /// What stands before a packet of IP in the frame.
    pub(crate) fn layer(self, frame: &[u8]) -> Layer
        ensures vlans { result.vlans.items ≡ vlans_of self frame.now }
        ensures network { result.network ≡ network_of self frame.now }
    {
        match self {
            Link::Ethernet => layer_after(frame, TypePlace { at: 12, next: 14 }),
            Link::Cooked => layer_after(frame, TypePlace { at: 14, next: 16 }),
            Link::CookedV2 => layer_after(frame, TypePlace { at: 0, next: 20 }),
            Link::Raw => untagged(Ok(0)),
            Link::Loopback => untagged(after_family(frame)),
            Link::Unknown => untagged(Err(Reason::UnknownLink)),
        }
    }

    /// The address of who sent the frame.
    pub(crate) fn sender(self, frame: &[u8]) -> Option<Mac>
        ensures { result ≡ sender_of self frame.now }
    {
        match self {
            Link::Ethernet => mac_at(frame, 6),
            Link::Cooked if 6 <= frame.len() && word(frame, 4) == 6 => mac_at(frame, 6),
            Link::CookedV2 if 12 <= frame.len() && frame[11] == 6 => mac_at(frame, 12),
            _ => None,
        }
    }

    /// The address to which the frame is sent.
    pub(crate) fn receiver(self, frame: &[u8]) -> Option<Mac>
        ensures { result ≡ receiver_of self frame.now }
    {
        match self {
            Link::Ethernet => mac_at(frame, 0),
            _ => None,
        }
    }
}

/// What stands before a packet of IP where there are no tags.
fn untagged(network: Result<usize, Reason>) -> Layer
    ensures { (result.vlans.items ≡ []) × (result.network ≡ network) }
{
    Layer {
        vlans: ArrayVec::new(),
        network,
    }
}

/// The address at a place, where its six bytes are there.
fn mac_at(frame: &[u8], at: usize) -> Option<Mac>
    requires { at ≤ 12 }
    ensures { result ≡ mac_at frame.now at }
{
    if frame.len() < at + 6 {
        return None;
    }
    Some(Mac {
        octets: octets(frame, at),
    })
}

/// Whether a number is a family of addresses that IP has.
fn is_family(number: u32) -> bool
    ensures { result ≡ is_family number }
{
    matches!(number, 2 | 10 | 24 | 28 | 30)
}

/// Where a packet of IP begins after a family of addresses, which has either byte order.
fn after_family(frame: &[u8]) -> Result<usize, Reason>
    ensures { result ≡ after_family frame.now }
{
    if frame.len() < 4 {
        return Err(Reason::Cut);
    }
    if is_family(long(frame, 0)) || is_family(u32::from_le_bytes(octets(frame, 0))) {
        Ok(4)
    } else {
        Err(Reason::NoIp)
    }
}
