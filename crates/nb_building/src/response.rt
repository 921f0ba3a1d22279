//! A response of the name service from arguments.
ghost use Rattle.std.specs.Prelude.{◌≡◌, ◌⊎◌, ℕ, [], ◌∷◌, codes, Err, IfErr, IfOk, MatchResult, Ok, length};
ghost use Rattle.nb_names.specs.declared.reading.Pointers.TheVariants.{Refused};
ghost use Rattle.nb_names.specs.Labels.{NameAt};
ghost use Rattle.nb_names.specs.Name.{labels_of_name};
ghost use Rattle.nb_service.specs.declared.classes.TheConstants.{IN};
ghost use Rattle.nb_service.specs.declared.kinds.TheConstants.{NS};
ghost use Rattle.nb_service.specs.Requests.{packet_of};
ghost use Rattle.nb_service.specs.Encoding.{packet_bytes};
ghost use Rattle.nb_service.specs.Record.{ResourceData, ResourceRecord, record_of};
ghost use Rattle.nb_building.specs.Built.{IsServiceBuilt, WordText, HasRdata, texts, with_flag};
ghost use Rattle.nb_building.specs.Refusals.{ExplainsService, IsRefused, Finds, IsUnanswered};

use crate::arguments::{data, long_number, named, word};
use crate::build_fault::BuildFault;
use bitflags::Flags;
use nb_names::{DomainName, Name, Pointers, read_domain};
use nb_service::classes::IN;
use nb_service::{NmFlags, Record, RecordFault, encode, response};
use nb_streams::Bytes;
use std::alloc::Global;

/// The bytes of the response that ID WORD NAME TYPE TTL HEX give: a packet with one answer, of
/// class IN (RFC 1002 section 4.2.1.3). `broadcast` sets B in WORD.
pub fn build(alloc: Global, words: &[&str], broadcast: bool) -> Result<Bytes, BuildFault>
    ensures built { IfOk result (IsServiceBuilt broadcast (codes "response") (texts words.now)) }
    ensures refused { IfErr result
        (ExplainsService broadcast (codes "response") (texts words.now)) }
{
    let [id, flags, name, kind, ttl, digits] = words else {
        return Err(BuildFault::Count);
    };
    let id = word(alloc, id, 0)?;
    let flags = flag_word(alloc, flags, 1, broadcast)?;
    let name = named(name, 2)?;
    let kind = word(alloc, kind, 3)?;
    let ttl = long_number(ttl, 4)?;
    let rdata = data(alloc, digits, 5)?;
    answered(
        alloc,
        id,
        flags,
        answer(&name, kind, ttl, rdata.as_slice(), 5),
    )
}

/// The flag word of these digits, with B set where the packet is broadcast.
fn flag_word(alloc: Global, digits: &str, place: usize, broadcast: bool) -> Result<u16, BuildFault>
    ensures { MatchResult result (λ made. (number : ℕ) × WordText number digits.now
        × (made ≡ with_flag number broadcast))
        (IsRefused place (λ number. WordText number digits.now)) }
{
    let flags = word(alloc, digits, place)?;
    Ok(if broadcast {
        flags | NmFlags::B.bits()
    } else {
        flags
    })
}

/// The record of a name, with these bytes as RDATA, of the word at a place.
fn answer<'a>(
    name: &Name,
    kind: u16,
    ttl: u32,
    bytes: &'a [u8],
    place: usize,
) -> Result<Record<'a>, BuildFault>
    ensures made { IfOk result (λ made. (rdata : ResourceData) × HasRdata kind bytes.entry.now rdata
        × (made ≡ record_of (labels_of_name name.now) kind IN ttl rdata)) }
    ensures refused { IfErr result (IsUnanswered place kind bytes.entry.now) }
{
    match Record::bytes(name.to_domain(), kind, IN, ttl, bytes) {
        Ok(answer) => Ok(answer),
        Err(RecordFault::KindIsNs) => {
            let domain = domain_of(bytes, place)?;
            Ok(Record::ns(name.to_domain(), IN, ttl, domain))
        }
        Err(RecordFault::TooLong) => Err(BuildFault::TooLong),
    }
}

/// The domain name whose spelling the bytes are.
fn domain_of(bytes: &[u8], place: usize) -> Result<DomainName, BuildFault>
    ensures { Finds place (λ labels. NameAt bytes.now Refused 0 labels (length bytes.now)) result }
{
    match read_domain(bytes, 0, Pointers::Refused) {
        Ok((domain, next)) if next == bytes.len() => Ok(domain),
        _ => Err(BuildFault::Word(place)),
    }
}

/// The bytes of a packet with this answer, where it could be made, and nothing else.
fn answered(
    alloc: Global,
    id: u16,
    word: u16,
    answer: Result<Record<'_>, BuildFault>,
) -> Result<Bytes, BuildFault>
    ensures built { IfOk result (λ bytes. (made : ResourceRecord) × (answer.entry ≡ Ok made)
        × (bytes ≡ packet_bytes (packet_of id word [] (made ∷ []) [] []))) }
    ensures refused { IfErr result (λ fault. (fault ≡ BuildFault.Memory)
        ⊎ (answer.entry ≡ Err fault)) }
{
    match answer {
        Ok(answer) => Ok(encode(alloc, &response(alloc, id, word, answer)?)?),
        Err(fault) => Err(fault),
    }
}
