//! Packets, encoded.
ghost use Rattle.std.specs.Prelude.{◌≡◌, ◌++◌, ℕ, List, length, IfOk, OnOk};
ghost use Rattle.nb_datagram.specs.declared.packet.Packet.TheVariants.{Direct};
ghost use Rattle.nb_datagram.specs.Header.{header_bytes, IsKey};
ghost use Rattle.nb_names.specs.Name.{IsName};
ghost use Rattle.nb_datagram.specs.Packet.{name_bytes, packet_bytes, IsPacket, Fits, FitsDirect};

use crate::fragment::Fragment;
use crate::key::Key;
use crate::limits::ERROR_TYPE;
use crate::packet::Packet;
use nb_names::Name;
use nb_streams::{Bytes, NoMemory};
use std::alloc::Global;

/// Encodes a packet: the bytes that are decoded as it.
///
/// FLAGS are written as they are, names with no pointer.
///
/// # Errors
///
/// [`NoMemory`] where memory ran out.
///
/// RFC 1002 sections 4.4.1 to 4.4.4. That DGM_LENGTH counts one packet's names and data alone, and
/// that each fragment carries both names, is our choice.
pub fn encode(alloc: Global, packet: &Packet<'_>) -> Result<Bytes, NoMemory>
    ensures written { IfOk result (λ bytes. bytes ≡ packet_bytes packet.now) }
    // Whatever follows, the bytes are decoded as this packet.
    ensures read_again { IfOk result (λ bytes. (rest : List ℕ) →
        IsPacket (bytes ++ rest) packet.now (length bytes)) }
{
    Ok(Bytes::from_vec(write_packet(alloc, packet)?))
}

/// Adds a header after the bytes.
fn push_header(bytes: &mut Vec<u8>, message_type: u8, flags: u8, key: Key) -> Result<(), NoMemory>
    ensures added { OnOk result (bytes.new.items ≡
        bytes.old.items ++ header_bytes message_type flags key) }
    ensures fits { IsKey key }
{
    bytes.push(message_type)?;
    bytes.push(flags)?;
    bytes.extend_from_slice(&key.id.to_be_bytes())?;
    bytes.extend_from_slice(&key.ip)?;
    bytes.extend_from_slice(&key.port.to_be_bytes())?;
    Ok(())
}

/// Adds a name after the bytes, as it is spelled.
fn push_name(bytes: &mut Vec<u8>, name: &Name) -> Result<(), NoMemory>
    ensures added { OnOk result (bytes.new.items ≡ bytes.old.items ++ name_bytes name.now) }
    ensures fits { IsName name.now }
{
    // For the clause `fits`; the call does nothing.
    let _ = name.bytes();
    bytes.extend_from_slice(name.to_domain().spelling())?;
    Ok(())
}

/// Adds a fragment's packet after the bytes.
fn push_direct(bytes: &mut Vec<u8>, fragment: &Fragment<'_>) -> Result<(), NoMemory>
    ensures added { OnOk result (bytes.new.items ≡
        bytes.old.items ++ packet_bytes (Direct fragment.now)) }
    ensures fits { OnOk result (FitsDirect fragment.now) }
{
    let message_type = fragment.kind().message_type();
    push_header(bytes, message_type, fragment.flags(), fragment.key())?;
    bytes.extend_from_slice(&fragment.named_length().to_be_bytes())?;
    bytes.extend_from_slice(&fragment.offset().to_be_bytes())?;
    push_name(bytes, fragment.source())?;
    push_name(bytes, fragment.destination())?;
    bytes.extend_from_slice(fragment.bytes())?;
    Ok(())
}

/// The bytes of a packet, in a vector. The packet's fields have room for it.
fn write_packet(alloc: Global, packet: &Packet<'_>) -> Result<Vec<u8>, NoMemory>
    ensures written { IfOk result (λ bytes. bytes.items ≡ packet_bytes packet.now) }
    ensures fits { OnOk result (Fits packet.now) }
{
    let mut bytes = Vec::new(alloc);
    match packet {
        Packet::Direct(fragment) => push_direct(&mut bytes, fragment)?,
        Packet::Error(error) => {
            push_header(&mut bytes, ERROR_TYPE, error.flags, error.key)?;
            bytes.push(error.code)?;
        }
        Packet::Query(query) => {
            let message_type = query.kind.message_type();
            push_header(&mut bytes, message_type, query.flags, query.key)?;
            push_name(&mut bytes, &query.destination)?;
        }
    }
    Ok(bytes)
}
