//! Payloads of the name service, read.
ghost use Rattle.std.specs.Prelude.{◌≡◌, ◌≤◌, ◌++◌, ℕ, List};
ghost use Rattle.nb_calls.specs.Common.{Followed, spelling, are_letters, IsSkipped, HasHeader, header_value};
ghost use Rattle.nb_calls.specs.Outputs.{FilledIn, Fills};
ghost use Rattle.nb_calls.specs.Services.{ReadsHeader, ReadsItem, ReadsPacket, header_numbers, netbios_number, numbers, section_number};

use crate::names::spell_domain;
use crate::output::{Refusal, refuse, service_refusal};
use crate::statuses::{DONE, NO_ITEM};
use nb_names::NameReader;
use nb_names::laws::one_reading;
use nb_names::limits::{LETTERS, MAX_SPELLING, POINTED_OFFSETS};
use nb_service::limits::HEADER_LENGTH;
use nb_service::{Header, Section, Seen, outline, read_header, see_item};

/// The header of a packet of the name service, and how many bytes there are of what was read.
#[repr(C)]
#[derive(Clone, Copy)]
pub struct NbtServiceHeader {
    /// NAME_TRN_ID.
    pub identifier: u16,
    /// R, OPCODE, NM_FLAGS and RCODE.
    pub word: u16,
    /// QDCOUNT.
    pub questions: u16,
    /// ANCOUNT.
    pub answers: u16,
    /// NSCOUNT.
    pub authorities: u16,
    /// ARCOUNT.
    pub additional: u16,
    /// How many bytes the packet has, or the header.
    pub used: usize,
}

/// A question or a record of the name service: its numbers, its name, and where its parts stand.
#[repr(C)]
#[derive(Clone, Copy)]
pub struct NbtServiceItem {
    /// 0 a question, 1 an answer, 2 an authority, 3 an additional record.
    pub section: u32,
    /// TTL, in seconds; 0 of a question.
    pub time_to_live: u32,
    /// QUESTION_TYPE or RR_TYPE.
    pub kind: u16,
    /// QUESTION_CLASS or RR_CLASS.
    pub class: u16,
    /// Where RDATA stands; of a question, where it ends.
    pub contents: usize,
    /// How many bytes it has.
    pub contents_length: usize,
    /// Where the next one stands.
    pub next: usize,
    /// 1 where the name is a NetBIOS name, else 0.
    pub netbios: u8,
    /// How many bytes the spelling of the name has.
    pub name_length: u8,
    /// The spelling of the name, and bytes of zero after it.
    pub name: [u8; MAX_SPELLING],
}

/// The header at the front of a payload.
pub fn front(payload: &[u8]) -> Result<NbtServiceHeader, Refusal>
    ensures { ReadsHeader payload.now result }
{
    match read_header(payload) {
        Ok(header) => Ok(header_numbers(&header, HEADER_LENGTH)),
        Err(fault) => Err(service_refusal(fault)),
    }
}

/// The fields of a header, and how many bytes there are of what was read.
fn header_numbers(header: &Header, used: usize) -> NbtServiceHeader
    ensures { result ≡ header_numbers (header_value header.now) used }
{
    NbtServiceHeader {
        identifier: header.id,
        word: header.word,
        questions: header.questions,
        answers: header.answers,
        authorities: header.authorities,
        additional: header.additional,
        used,
    }
}

/// The same of a payload that may have many names. It is out of line, so that others don't pay for
/// its stack.
#[inline(never)]
pub fn read_long(payload: &[u8], header: &mut NbtServiceHeader, at: &mut usize) -> u32
    ensures { Fills (ReadsPacket payload.now) header.old header.new at.old at.new result }
{
    let mut ends = [0; POINTED_OFFSETS];
    fill_packet(&NameReader::of(payload, &mut ends), header, at)
}

/// Fills in the header and the length of the packet whose names are read so. Nothing of the header
/// is kept while the items are judged.
#[inline(always)]
pub fn fill_packet(names: &NameReader<'_, '_>, header: &mut NbtServiceHeader, at: &mut usize) -> u32
    ensures { Fills (ReadsPacket names.now) header.old header.new at.old at.new result }
{
    match outline(names) {
        Ok((_, used)) => {
            *header = header_numbers(&read_header(names.packet()).unwrap(), used);
            DONE
        }
        Err(fault) => refuse(service_refusal(fault), at),
    }
}

/// Fills in the item of a number that stands at an offset of a payload.
pub fn fill_item(
    payload: &[u8],
    number: usize,
    place: usize,
    into: &mut NbtServiceItem,
) -> Result<(), Refusal>
    ensures { FilledIn (ReadsItem payload.now number place) into.old into.new result }
{
    match read_header(payload) {
        Ok(header) => {
            let names = NameReader::of(payload, &mut []);
            fill_item_of(&names, &header, number, place, into)
        }
        Err(fault) => Err(service_refusal(fault)),
    }
}

/// The same of a packet of this header; in line, so that what was seen is nowhere else.
#[inline(always)]
pub(crate) fn fill_item_of(
    names: &NameReader<'_, '_>,
    header: &Header,
    number: usize,
    place: usize,
    into: &mut NbtServiceItem,
) -> Result<(), Refusal>
    requires { HasHeader names.now (header_value header.now) }
    ensures { FilledIn (ReadsItem names.now number place) into.old into.new result }
{
    match see_item(names, header, number, place) {
        Ok(Some((section, seen))) => {
            fill_numbers(section_number(section), &seen, names, into);
            Ok(())
        }
        Ok(None) => Err(Refusal::Fault(NO_ITEM)),
        Err(fault) => Err(service_refusal(fault)),
    }
}

/// The number of a section; that of questions, which are in none, is 0.
fn section_number(section: Option<Section>) -> u32
    ensures { result ≡ section_number section }
{
    match section {
        None => 0,
        Some(Section::Answer) => 1,
        Some(Section::Authority) => 2,
        Some(Section::Additional) => 3,
    }
}

/// Fills in what was seen of an item of a packet, and its name.
#[inline(always)]
fn fill_numbers(section: u32, seen: &Seen, names: &NameReader<'_, '_>, into: &mut NbtServiceItem)
    requires named { (labels : List (List ℕ)) × IsSkipped names.now Followed seen.now.at labels
        seen.now.name }
    requires fits { seen.now.fields.extent.rdata ≤ seen.now.fields.extent.next }
    ensures { (labels : List (List ℕ)) →
        IsSkipped names.now Followed seen.now.at labels seen.now.name →
        into.new ≡ numbers section seen.now.fields labels }
{
    let fields = &seen.fields;
    // For the clause: labels make a name, which is short. The call does nothing.
    one_reading();
    into.section = section;
    into.time_to_live = fields.ttl;
    into.kind = fields.kind;
    into.class = fields.class;
    into.contents = fields.extent.rdata;
    into.contents_length = fields.extent.next - fields.extent.rdata;
    into.next = fields.extent.next;
    into.name_length = seen.name.spelled_len as u8;
    spell_domain(names, seen.at, &seen.name, &mut into.name);
    into.netbios = netbios_number(&into.name);
}

/// 1 where the bytes begin with the spelling of a NetBIOS name, 0 where with that of others.
#[inline(always)]
fn netbios_number(bytes: &[u8; MAX_SPELLING]) -> u8
    ensures { (labels : List (List ℕ)) (rest : List ℕ) → bytes.now ≡ spelling labels ++ rest →
        result ≡ netbios_number labels }
{
    if bytes[0] as usize == LETTERS && are_letters(&bytes[1..LETTERS + 1]) {
        1
    } else {
        0
    }
}

/// Whether a label is the letters of a name's sixteen bytes. All are looked at, many at a time.
#[inline(always)]
fn are_letters(label: &[u8]) -> bool
    ensures { result ≡ are_letters label.now }
{
    if label.len() != LETTERS {
        return false;
    }
    let mut greatest: u8 = 0;
    'letters: for letter in label {
        greatest = greatest.max(letter.wrapping_sub(b'A'));
    }
    greatest < 16
}
