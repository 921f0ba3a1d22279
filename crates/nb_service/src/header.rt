//! The header of a packet.
ghost use Rattle.std.specs.Prelude.{◌≡◌, ◌<◌, length, IfOk, IfErr, IsOkAnd};
ghost use Rattle.nb_service.specs.declared.fault.ServiceFault.TheVariants.{Truncated};
ghost use Rattle.nb_service.specs.declared.limits.TheConstants.{HEADER_LENGTH};
ghost use Rattle.nb_service.specs.Header.{HasHeader, PacketHeader, header_value};

use crate::fault::ServiceFault;
use crate::laws::one_header;
use crate::limits::HEADER_LENGTH;
use nb_streams::numbers::number_16;

/// The fields of a header (RFC 1002 section 4.2.1.1).
#[derive(Clone, Copy, Debug, PartialEq, Eq)]
pub struct Header {
    /// The identifier, NAME_TRN_ID.
    pub id: u16,
    /// The flag word: R, OPCODE, NM_FLAGS and RCODE.
    pub word: u16,
    /// How many questions there are.
    pub questions: u16,
    /// How many answers there are.
    pub answers: u16,
    /// How many authorities there are.
    pub authorities: u16,
    /// How many additional records there are.
    pub additional: u16,
}

/// The header at the front of a packet, its first twelve bytes. What follows isn't looked at. No
/// memory is taken.
///
/// # Errors
///
/// `Truncated` where there are fewer bytes.
///
/// RFC 1002 section 4.2.1.1.
pub fn read_header(packet: &[u8]) -> Result<Header, ServiceFault>
    // What is answered stands there, and what stands there is answered.
    ensures found { IfOk result (λ header. HasHeader packet.now (header_value header)) }
    ensures only { (header : PacketHeader) → HasHeader packet.now header →
        IsOkAnd result (λ read. header_value read ≡ header) }

    // Why there is none.
    ensures fault { IfErr result (λ fault.
        (fault ≡ Truncated (length packet.now)) × (length packet.now < HEADER_LENGTH)) }
{
    // The law on which the clause `only` stands; the call does nothing.
    one_header();
    if packet.len() < HEADER_LENGTH {
        return Err(ServiceFault::Truncated(packet.len()));
    }
    Ok(Header {
        id: number_16(packet, 0),
        word: number_16(packet, 2),
        questions: number_16(packet, 4),
        answers: number_16(packet, 6),
        authorities: number_16(packet, 8),
        additional: number_16(packet, 10),
    })
}
