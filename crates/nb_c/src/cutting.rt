//! Packets of the datagram service, written: datagrams cut into pieces, and packets without data.
ghost use Rattle.std.specs.Prelude.{Ok};
ghost use Rattle.nb_calls.specs.Cutting.{Cuts, key_from, Queries, error_packet};
ghost use Rattle.nb_calls.specs.Outputs.{OrMemory, Writes, lent};

use nb_calls::cutting::{Sent, error_packet, key_from, packets, query_of};
use nb_calls::names::name_of_text;
use nb_calls::output::{write_answer, write_bytes};
use std::alloc::Global;

/// Writes the packets of a datagram, each after its length in two bytes.
///
/// RFC 1002 section 4.4.2; that each fragment carries both names is our choice.
#[unsafe(no_mangle)]
pub extern "C" fn nbt_datagram_write(
    alloc: Global,
    packet_type: u8,
    identifier: u16,
    address: u32,
    port: u16,
    source: &[u8],
    destination: &[u8],
    contents: &[u8],
    most: u16,
    into: &mut [u8],
    used: &mut usize,
    at: &mut usize,
) -> u32
    ensures { Writes (Cuts (record {
      packet_type = packet_type;
      identifier = identifier;
      address = address;
      port = port;
      most = most;
    }) source.now destination.now contents.now) (lent into.old used.old at.old)
        (lent into.new used.new at.new) result }
{
    let sent = Sent {
        packet_type,
        identifier,
        address,
        port,
        most,
    };
    let source = name_of_text(source);
    let destination = name_of_text(destination);
    let answer = packets(alloc, sent, source, destination, contents);
    write_answer(answer, into, used, at)
}

/// Writes an error packet with this key and this code.
///
/// RFC 1002 section 4.4.3.
#[unsafe(no_mangle)]
pub extern "C" fn nbt_datagram_error(
    alloc: Global,
    identifier: u16,
    address: u32,
    port: u16,
    code: u8,
    into: &mut [u8],
    used: &mut usize,
) -> u32
    ensures { Writes (OrMemory (Ok (error_packet (key_from identifier address port) code)))
        (lent into.old used.old 0) (lent into.new used.new 0) result }
{
    let key = key_from(identifier, address, port);
    write_bytes(error_packet(alloc, key, code), into, used)
}

/// Writes a query packet with this type and this key about the name with this text.
///
/// RFC 1002 section 4.4.4.
#[unsafe(no_mangle)]
pub extern "C" fn nbt_datagram_query(
    alloc: Global,
    packet_type: u8,
    identifier: u16,
    address: u32,
    port: u16,
    name: &[u8],
    into: &mut [u8],
    used: &mut usize,
    at: &mut usize,
) -> u32
    ensures { Writes (Queries packet_type (key_from identifier address port) name.now)
        (lent into.old used.old at.old) (lent into.new used.new at.new) result }
{
    let key = key_from(identifier, address, port);
    let answer = query_of(alloc, packet_type, key, name_of_text(name));
    write_answer(answer, into, used, at)
}
