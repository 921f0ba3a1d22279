//! Packets that are built: requests, and responses to one.
ghost use Rattle.std.specs.Prelude.{◌≡◌, IfOk};
ghost use Rattle.nb_service.specs.Requests.{inquiry, claim, query_packet, status_packet, registration_packet, refresh_packet, release_packet, one_answer};

use crate::classes::IN;
use crate::kinds::{NB, NBSTAT};
use crate::limits::ENTRY_LENGTH;
use crate::packet::{Packet, one_item};
use crate::record::{Question, Rdata, Record};
use nb_names::Name;
use nb_streams::NoMemory;
use std::alloc::Global;

/// A query for a name's addresses. `broadcast` sets B.
///
/// # Errors
///
/// [`NoMemory`] where memory ran out.
///
/// RFC 1002 section 4.2.12.
pub fn query<'a>(
    alloc: Global,
    id: u16,
    name: &Name,
    broadcast: bool,
) -> Result<Packet<'a>, NoMemory>
    ensures { IfOk result (λ packet. packet ≡ query_packet id name.now broadcast) }
{
    let word = if broadcast { 0x0110 } else { 0x0100 };
    build_inquiry(alloc, id, word, NB, name)
}

/// A request for the names and the statistics of a node that has a name. `broadcast` sets B.
///
/// # Errors
///
/// [`NoMemory`] where memory ran out.
///
/// RFC 1002 section 4.2.17.
pub fn node_status_request<'a>(
    alloc: Global,
    id: u16,
    name: &Name,
    broadcast: bool,
) -> Result<Packet<'a>, NoMemory>
    ensures { IfOk result (λ packet. packet ≡ status_packet id name.now broadcast) }
{
    let word = if broadcast { 0x0010 } else { 0x0000 };
    build_inquiry(alloc, id, word, NBSTAT, name)
}

/// A registration of a name, which stands for `ttl` seconds. `entry` is the six bytes of an
/// [`crate::AddressEntry`]: NB_FLAGS and an address. `broadcast` sets B.
///
/// # Errors
///
/// [`NoMemory`] where memory ran out.
///
/// RFC 1002 section 4.2.2.
pub fn registration<'a>(
    alloc: Global,
    id: u16,
    name: &Name,
    broadcast: bool,
    ttl: u32,
    entry: &'a [u8; ENTRY_LENGTH],
) -> Result<Packet<'a>, NoMemory>
    ensures { IfOk result (λ packet.
        packet ≡ registration_packet id name.now broadcast ttl entry.entry.now) }
{
    let word = if broadcast { 0x2910 } else { 0x2900 };
    build_claim(alloc, id, word, name, ttl, entry)
}

/// A refresh of a registration, which then stands for `ttl` seconds more. The arguments are those
/// of [`registration`].
///
/// # Errors
///
/// [`NoMemory`] where memory ran out.
///
/// RFC 1002 section 4.2.4. Our choice: the opcode is 8, and RD is clear.
pub fn refresh<'a>(
    alloc: Global,
    id: u16,
    name: &Name,
    broadcast: bool,
    ttl: u32,
    entry: &'a [u8; ENTRY_LENGTH],
) -> Result<Packet<'a>, NoMemory>
    ensures { IfOk result (λ packet.
        packet ≡ refresh_packet id name.now broadcast ttl entry.entry.now) }
{
    let word = if broadcast { 0x4010 } else { 0x4000 };
    build_claim(alloc, id, word, name, ttl, entry)
}

/// A release of a name. Its time to live is 0; the other arguments are those of [`registration`].
///
/// # Errors
///
/// [`NoMemory`] where memory ran out.
///
/// RFC 1002 section 4.2.9.
pub fn release<'a>(
    alloc: Global,
    id: u16,
    name: &Name,
    broadcast: bool,
    entry: &'a [u8; ENTRY_LENGTH],
) -> Result<Packet<'a>, NoMemory>
    ensures { IfOk result (λ packet.
        packet ≡ release_packet id name.now broadcast entry.entry.now) }
{
    let word = if broadcast { 0x3010 } else { 0x3000 };
    build_claim(alloc, id, word, name, 0, entry)
}

/// A packet with one answer, and nothing else: any response that has one record.
///
/// # Errors
///
/// [`NoMemory`] where memory ran out.
///
/// RFC 1002 sections 4.2.5 to 4.2.18, all but 4.2.8 and 4.2.15.
pub fn response<'a>(
    alloc: Global,
    id: u16,
    word: u16,
    answer: Record<'a>,
) -> Result<Packet<'a>, NoMemory>
    ensures { IfOk result (λ packet. packet ≡ one_answer id word answer.entry) }
{
    Ok(Packet {
        answers: one_item(alloc, answer)?,
        ..Packet::new(alloc, id, word)
    })
}

/// A packet with one question, about a name.
fn build_inquiry<'a>(
    alloc: Global,
    id: u16,
    word: u16,
    kind: u16,
    name: &Name,
) -> Result<Packet<'a>, NoMemory>
    ensures { IfOk result (λ packet. packet ≡ inquiry id word kind name.now) }
{
    let question = Question {
        name: name.to_domain(),
        kind,
        class: IN,
    };
    Ok(Packet {
        questions: one_item(alloc, question)?,
        ..Packet::new(alloc, id, word)
    })
}

/// A packet with one question, about a name, and one additional record, the name's.
fn build_claim<'a>(
    alloc: Global,
    id: u16,
    word: u16,
    name: &Name,
    ttl: u32,
    entry: &'a [u8; ENTRY_LENGTH],
) -> Result<Packet<'a>, NoMemory>
    ensures { IfOk result (λ packet. packet ≡ claim id word name.now ttl entry.entry.now) }
{
    let record = Record::new(name.to_domain(), NB, IN, ttl, Rdata::Bytes(entry));
    Ok(Packet {
        additional: one_item(alloc, record)?,
        ..build_inquiry(alloc, id, word, NB, name)?
    })
}
