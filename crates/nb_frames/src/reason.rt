//! Why nothing of a frame is read.

/// Why nothing of a frame is read further.
#[derive(Clone, Copy, Debug, PartialEq, Eq)]
pub enum Reason {
    /// The link type is none of those that are read.
    UnknownLink,
    /// Something else than IP follows the link layer.
    NoIp,
    /// A session of PPP over Ethernet follows (RFC 2516), which may have a packet of IP.
    PppOverEthernet,
    /// Labels of MPLS follow (RFC 3032), after which a packet of IP may stand.
    Mpls,
    /// A header of LLC follows, which says that IP or a tag stands after it (RFC 1042).
    Llc,
    /// The frame has more than four tags of VLANs.
    TooManyTags,
    /// The packet of IP has another protocol than UDP and TCP: the one of this number.
    Protocol(u8),
    /// The frame ends before a header does.
    Cut,
    /// A header says what can't be: another version than 4 or 6, or a length that its own fields or
    /// what is left of the packet don't fit.
    Bad,
}
