//! Types of what follows a link layer, and tags of VLANs before it.
ghost use Rattle.std.specs.Prelude.{◌≡◌, ◌+◌, ◌^◌, ◌<◌, ◌≤◌, length};
ghost use Rattle.nb_frames.specs.declared.limits.TheConstants.{MAX_TAGS};
ghost use Rattle.nb_frames.specs.Tags.{is_tag, is_ip, is_llc_with_ip, follows, network_at, vlans_at};

use crate::fields::word;
use crate::limits::MAX_TAGS;
use crate::reason::Reason;
use arrayvec::ArrayVec;

/// Where a type stands in a frame, and where what it is of begins.
#[derive(Clone, Copy)]
pub(crate) struct TypePlace {
    /// Where its two bytes stand.
    pub(crate) at: usize,
    /// Where what follows begins.
    pub(crate) next: usize,
}

impl TypePlace {
    /// The place of the type that a tag has whose own type stands here: after the tag's two bytes
    /// of control information.
    fn in_tag(self) -> TypePlace
        requires { self.next < 2 ^ 63 }
        ensures { (result.at ≡ self.next + 2) × (result.next ≡ self.next + 4) }
    {
        TypePlace {
            at: self.next + 2,
            next: self.next + 4,
        }
    }
}

/// Whether a type is that of a tag (IEEE 802.1Q, 802.1ad).
fn is_tag(kind: u16) -> bool
    ensures { result ≡ is_tag kind }
{
    kind == 0x8100 || kind == 0x88a8 || kind == 0x9100
}

/// Whether a type is that of IP.
fn is_ip(kind: u16) -> bool
    ensures { result ≡ is_ip kind }
{
    kind == 0x0800 || kind == 0x86dd
}

/// Whether LLC begins at this place, and says that IP or a tag follows.
fn is_llc_with_ip(frame: &[u8], at: usize) -> bool
    requires { at ≤ length frame.now }
    ensures { result ≡ is_llc_with_ip frame.now at }
{
    if frame.len() - at < 8 {
        return false;
    }
    let points = word(frame, at);
    let kind = word(frame, at + 6);
    points == 0x0606 || (points == 0xaaaa && (is_ip(kind) || is_tag(kind)))
}

/// What follows a type that is no tag's, at `next`.
fn follows(frame: &[u8], kind: u16, next: usize) -> Result<usize, Reason>
    requires { next ≤ length frame.now }
    ensures { result ≡ follows frame.now kind next }
{
    if is_ip(kind) {
        return Ok(next);
    }
    if kind == 0x8864 {
        return Err(Reason::PppOverEthernet);
    }
    if kind == 0x8847 || kind == 0x8848 {
        return Err(Reason::Mpls);
    }
    if kind < 0x0600 && is_llc_with_ip(frame, next) {
        return Err(Reason::Llc);
    }
    Err(Reason::NoIp)
}

/// What stands before a packet of IP.
#[derive(Drop)]
pub(crate) struct Layer {
    /// The identifiers of VLANs in the tags, the outermost first.
    pub(crate) vlans: ArrayVec<u16, MAX_TAGS>,
    /// Where the packet begins in the frame, or why none is read.
    pub(crate) network: Result<usize, Reason>,
}

/// The tags from the type at a place on, and what follows them.
pub(crate) fn layer_after(frame: &[u8], mut place: TypePlace) -> Layer
    requires { (place.at + 2 ≤ place.next) × (place.next ≤ 20) }
    ensures vlans { result.vlans.items ≡ vlans_at MAX_TAGS frame.now place.at place.next }
    ensures network { result.network ≡ network_at MAX_TAGS frame.now place.at place.next }
{
    let mut vlans = ArrayVec::new();
    let mut most = MAX_TAGS;
    'tags: while place.next <= frame.len() {
        let kind = word(frame, place.at);
        if !is_tag(kind) {
            let network = follows(frame, kind, place.next);
            return Layer { vlans, network };
        }
        if most == 0 {
            let network = Err(Reason::TooManyTags);
            return Layer { vlans, network };
        }
        if frame.len() < place.next + 2 {
            let network = Err(Reason::Cut);
            return Layer { vlans, network };
        }
        vlans.push(word(frame, place.next) % 0x1000);
        most -= 1;
        place = place.in_tag();
    }
    let network = Err(Reason::Cut);
    Layer { vlans, network }
}
