//! What the header of a packet says.
ghost use Rattle.std.specs.Prelude.{◌≡◌};
ghost use Rattle.nbt_look.specs.Heading.{IsHeading, is_piece};

use nb_datagram::{Front, read_front};
use nb_service::read_header;
use nb_session::front_header;

/// What the header of a packet says of its kinds.
#[derive(Clone, Copy)]
pub enum Heading {
    /// Of port 137: the flag word (RFC 1002 section 4.2.1.1).
    Names(u16),
    /// Of port 138: MSG_TYPE (section 4.4.1), and whether it has a piece of a datagram.
    Datagram(u8, bool),
    /// Of port 139: TYPE (section 4.3.1).
    Session(u8),
    /// It isn't whole.
    Nothing,
}

/// What the header of a payload that came to this port says, where it is whole. Any other port is
/// taken for port 139.
pub fn heading_of(port: u16, payload: &[u8]) -> Heading
    ensures { IsHeading payload.now port result }
{
    if port == 137 {
        return match read_header(payload) {
            Ok(header) => Heading::Names(header.word),
            Err(_) => Heading::Nothing,
        };
    }
    if port == 138 {
        return match read_front(payload) {
            Some(front) => Heading::Datagram(front.message_type, is_piece(&front)),
            None => Heading::Nothing,
        };
    }
    match front_header(payload) {
        Some(header) => Heading::Session(header.packet_type),
        None => Heading::Nothing,
    }
}

/// Whether a packet of port 138 that begins so has a piece of a datagram.
fn is_piece(front: &Front<'_>) -> bool
    ensures { result ≡ is_piece front.now }
{
    let offset = match &front.fragment {
        Some(fragment) => fragment.offset,
        None => 0,
    };
    front.flags % 2 == 1 || offset != 0
}
