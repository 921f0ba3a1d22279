//! The header that all packets begin with, and what still stands at the front of bytes that begin
//! with no packet.
ghost use Rattle.std.specs.Prelude.{◌≡◌, ◌<◌, ◌↔◌, IsTrue, length, take, IsSomeAnd, MatchOption};
ghost use Rattle.nb_datagram.specs.declared.front.Front.{Front as FrontValue};
ghost use Rattle.nb_datagram.specs.declared.limits.TheConstants.{DIRECT_HEADER_LENGTH, HEADER_LENGTH};
ghost use Rattle.nb_datagram.specs.Fronts.{FragmentStands, HasFront, LacksHeader, NamesStand};
ghost use Rattle.nb_datagram.specs.Header.{IsDirectType};
ghost use Rattle.nb_datagram.specs.Code.Reading.{HasHeader};

use crate::key::Key;
use crate::limits::{BROADCAST, DIRECT_HEADER_LENGTH, DIRECT_UNIQUE, HEADER_LENGTH};
use nb_names::{LentName, read_lent_name};
use nb_streams::numbers::number_16;

/// What stands at the front of bytes, whether or not they begin with a packet.
#[derive(Drop)]
pub struct Front<'a> {
    /// MSG_TYPE, also one that no packet has.
    pub message_type: u8,
    /// FLAGS, all eight bits.
    pub flags: u8,
    /// The sender's address and port, and the identifier.
    pub key: Key,
    /// What stands after these ten bytes, where MSG_TYPE is a fragment's.
    pub fragment: Option<FragmentFront<'a>>,
}

/// What stands at the front of a fragment's packet after its first ten bytes.
#[derive(Drop)]
pub struct FragmentFront<'a> {
    /// PACKET_OFFSET: the place of the fragment's first byte in the datagram.
    pub offset: u16,
    /// The name of the sender, where it stands whole.
    pub source: Option<LentName<'a>>,
    /// The name that the datagram is for, where both names stand whole.
    pub destination: Option<LentName<'a>>,
}

/// What stands at the front of bytes, whether or not they begin with a packet: its header, and
/// after that of a fragment the names that stand whole, one or both. There is nothing where the
/// header isn't whole: of a fragment that is fourteen bytes, of any other packet ten.
///
/// Names are read as by [`decode`](crate::decode), inside the bytes that DGM_LENGTH counts, as many
/// of them as are there. No memory is taken.
///
/// RFC 1002 sections 4.4.1 and 4.4.2.
pub fn read_front<'a>(bytes: &'a [u8]) -> Option<Front<'a>>
    // What is answered stands there, and what stands there is answered.
    ensures found { MatchOption result (LacksHeader bytes.now) (HasFront bytes.now) }
    ensures only { (front : FrontValue) → HasFront bytes.now front →
        IsSomeAnd result (λ read. read ≡ front) }
{
    let header = read_header(bytes)?;
    let fragment = if is_fragment(header.message_type) {
        Some(read_fragment(bytes)?)
    } else {
        None
    };
    Some(Front {
        message_type: header.message_type,
        flags: header.flags,
        key: header.key,
        fragment,
    })
}

/// Whether packets of a MSG_TYPE are fragments.
fn is_fragment(message_type: u8) -> bool
    ensures { IsTrue result ↔ IsDirectType message_type }
{
    DIRECT_UNIQUE <= message_type && message_type <= BROADCAST
}

/// What stands after the first ten bytes of a fragment's packet, where its header is whole.
fn read_fragment<'a>(bytes: &'a [u8]) -> Option<FragmentFront<'a>>
    ensures { MatchOption result (length bytes.now < DIRECT_HEADER_LENGTH)
        (FragmentStands bytes.now) }
{
    if bytes.len() < DIRECT_HEADER_LENGTH {
        return None;
    }
    let size = number_16(bytes, HEADER_LENGTH) as usize;
    let (source, destination) = read_names(front_of(bytes, DIRECT_HEADER_LENGTH + size));
    Some(FragmentFront {
        offset: number_16(bytes, HEADER_LENGTH + 2),
        source,
        destination,
    })
}

/// So many bytes of some, or all where there are fewer.
fn front_of<'a>(bytes: &'a [u8], count: usize) -> &'a [u8]
    ensures { result.now ≡ take count bytes.now }
{
    &bytes[..count.min(bytes.len())]
}

/// The names that stand whole after the header of a fragment's packet.
fn read_names<'a>(packet: &'a [u8]) -> (Option<LentName<'a>>, Option<LentName<'a>>)
    ensures { NamesStand packet.now result.0 result.1 }
{
    let Ok((source, next)) = read_lent_name(packet, DIRECT_HEADER_LENGTH) else {
        return (None, None);
    };
    match read_lent_name(packet, next) {
        Ok((destination, _)) => (Some(source), Some(destination)),
        Err(_) => (Some(source), None),
    }
}

/// The fields of a header (RFC 1002 section 4.4.1).
#[derive(Clone, Copy, Debug, PartialEq, Eq)]
pub(crate) struct Header {
    /// MSG_TYPE, also one that no packet has.
    pub(crate) message_type: u8,
    /// FLAGS, all eight bits.
    pub(crate) flags: u8,
    /// The sender's address and port, and the identifier.
    pub(crate) key: Key,
}

/// The header at the front of bytes, where it is whole.
pub(crate) fn read_header(bytes: &[u8]) -> Option<Header>
    ensures { MatchOption result (length bytes.now < HEADER_LENGTH) (HasHeader bytes.now) }
{
    if bytes.len() < HEADER_LENGTH {
        return None;
    }
    let key = Key {
        ip: [bytes[4], bytes[5], bytes[6], bytes[7]],
        port: number_16(bytes, 8),
        id: number_16(bytes, 2),
    };
    Some(Header {
        message_type: bytes[0],
        flags: bytes[1],
        key,
    })
}
