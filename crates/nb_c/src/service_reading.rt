//! Payloads of the name service, read.
#![tactic(auto, using(nb_calls::proofs::AnswerLemmas::answered))]

ghost use Rattle.nb_calls.specs.Outputs.{Fills};
ghost use Rattle.nb_calls.specs.Services.{ReadsHeader, ReadsItem, ReadsPacket};

use nb_calls::output::{fill, finish};
use nb_calls::service_reading::{
    NbtServiceHeader, NbtServiceItem, fill_item, fill_packet, front, read_long,
};
use nb_names::NameReader;
use nb_service::limits::SHORT_PACKET;

/// Reads the header at the front of a payload of port 137. No memory is taken.
///
/// RFC 1002 section 4.2.1.1.
#[unsafe(no_mangle)]
pub extern "C" fn nbt_service_header(
    payload: &[u8],
    header: &mut NbtServiceHeader,
    at: &mut usize,
) -> u32
    ensures { Fills (ReadsHeader payload.now) header.old header.new at.old at.new result }
{
    fill(front(payload), header, at)
}

/// Reads the header of the packet at the front of a payload of port 137, and how many bytes the
/// packet has. No memory is taken.
///
/// RFC 1002 section 4.2.1.
#[unsafe(no_mangle)]
pub extern "C" fn nbt_service_read(
    payload: &[u8],
    header: &mut NbtServiceHeader,
    at: &mut usize,
) -> u32
    ensures { Fills (ReadsPacket payload.now) header.old header.new at.old at.new result }
{
    if payload.len() <= SHORT_PACKET {
        return fill_packet(&NameReader::of(payload, &mut []), header, at);
    }
    read_long(payload, header, at)
}

/// Reads the item of a number, counted from 0, that stands at an offset of a payload of port 137.
/// No memory is taken.
///
/// RFC 1002 sections 4.2.1.2 and 4.2.1.3.
#[unsafe(no_mangle)]
pub extern "C" fn nbt_service_item(
    payload: &[u8],
    number: u32,
    place: usize,
    item: &mut NbtServiceItem,
    at: &mut usize,
) -> u32
    ensures { Fills (ReadsItem payload.now number place) item.old item.new at.old at.new result }
{
    finish(fill_item(payload, number as usize, place, item), at)
}
