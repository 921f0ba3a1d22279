//! What a member is set up with, and the error packets that it answers with.
ghost use Rattle.std.specs.Prelude.{◌≡◌};
ghost use Rattle.nb_member.specs.Hearing.{error_about, refusal};

use nb_datagram::limits::HEADER_LENGTH;
use nb_datagram::{DatagramFault, ErrorPacket, Key, Kind, error_codes};

/// What a member is set up with.
#[derive(Clone, Copy, Debug, PartialEq, Eq)]
pub struct Settings {
    /// The member's own address.
    pub ip: [u8; 4],
    /// The member's own port.
    pub port: u16,
    /// How many keys its table may hold.
    pub keys: u32,
    /// How many keys of one address its table may hold.
    pub per_source: u32,
    /// How many bytes of data a datagram may have.
    pub longest: u16,
}

impl Settings {
    /// The error packet of this code about a datagram of this kind and identifier, which is sent
    /// only about direct unique ones.
    ///
    /// RFC 1002 sections 4.4.3 and 5.3; its address and port, the member's, and its flags, 02, are
    /// our choice.
    pub(crate) fn error_about(&self, kind: Kind, id: u16, code: u8) -> Option<ErrorPacket>
        ensures { result ≡ error_about self.now kind id code }
    {
        match kind {
            Kind::Unique => Some(ErrorPacket {
                flags: 0x02,
                key: Key {
                    ip: self.ip,
                    port: self.port,
                    id,
                },
                code,
            }),
            Kind::Group | Kind::Broadcast => None,
        }
    }

    /// The error packet about a payload that is refused with this fault, which is sent where a name
    /// of a direct unique datagram is bad.
    pub(crate) fn error_for(&self, payload: &[u8], fault: DatagramFault) -> Option<ErrorPacket>
        ensures { result ≡ refusal self.now payload.now fault }
    {
        let code = match fault {
            DatagramFault::Truncated(_) | DatagramFault::UnknownType => return None,
            DatagramFault::SourceName(_) => error_codes::INVALID_SOURCE_NAME_FORMAT,
            DatagramFault::DestinationName(_) => error_codes::INVALID_DESTINATION_NAME_FORMAT,
        };
        if payload.len() < HEADER_LENGTH || payload[0] != Kind::Unique.message_type() {
            return None;
        }
        let id = u16::from_be_bytes([payload[2], payload[3]]);
        self.error_about(Kind::Unique, id, code)
    }
}
