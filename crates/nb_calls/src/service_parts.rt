//! Parts of RDATA of the name service: those that have numbers, and a domain name.
ghost use Rattle.nb_calls.specs.Outputs.{Answers, lent};
ghost use Rattle.nb_calls.specs.ServiceParts.{ReadsAddress, ReadsDomain, ReadsNode, ReadsUnit, spelled_answer};

use crate::output::{Refusal, name_refusal, put, refuse};
use crate::statuses::{NAME_RDATA, NO_PART, NO_ROLE, OTHER_RDATA, TRUNCATED};
use nb_names::limits::NAME_LENGTH;
use nb_names::{DomainName, NameReader, Pointers};
use nb_service::limits::UNIT_ID_LENGTH;
use nb_service::{AddressEntries, NodeStatus};

/// An address of a NetBIOS name, and the flags that go with it.
#[repr(C)]
#[derive(Clone, Copy)]
pub struct NbtServiceAddress {
    /// NB_ADDRESS.
    pub address: u32,
    /// NB_FLAGS.
    pub flags: u16,
}

/// One of a node's names, and the flags that go with it.
#[repr(C)]
#[derive(Clone, Copy)]
pub struct NbtServiceNode {
    /// NAME_FLAGS.
    pub flags: u16,
    /// The sixteen bytes.
    pub name: [u8; NAME_LENGTH],
}

/// The unit identifier of a node.
#[repr(C)]
#[derive(Clone, Copy)]
pub struct NbtServiceUnit {
    /// UNIT_ID.
    pub bytes: [u8; UNIT_ID_LENGTH],
}

/// The entry of a number of RDATA of a type.
pub fn address_at(kind: u16, contents: &[u8], number: usize) -> Result<NbtServiceAddress, Refusal>
    ensures { ReadsAddress kind contents.now number result }
{
    let Some(entries) = AddressEntries::of_rdata(kind, contents) else {
        return Err(Refusal::Fault(OTHER_RDATA));
    };
    match entries.get(number) {
        Some(entry) => Ok(NbtServiceAddress {
            address: u32::from_be_bytes(entry.address),
            flags: entry.flags,
        }),
        None => Err(Refusal::FaultAt(NO_PART, entries.len())),
    }
}

/// A node's name of a number of RDATA of a type.
pub fn node_at(kind: u16, contents: &[u8], number: usize) -> Result<NbtServiceNode, Refusal>
    ensures { ReadsNode kind contents.now number result }
{
    let Some(status) = NodeStatus::of_rdata(kind, contents) else {
        return Err(Refusal::Fault(OTHER_RDATA));
    };
    match status.get(number) {
        Some(node) => {
            let name = node.bytes;
            Ok(NbtServiceNode {
                flags: node.flags,
                name,
            })
        }
        None => Err(Refusal::FaultAt(NO_PART, status.len())),
    }
}

/// The unit identifier of RDATA of a type.
pub fn unit_at(kind: u16, contents: &[u8]) -> Result<NbtServiceUnit, Refusal>
    ensures { ReadsUnit kind contents.now result }
{
    let Some(status) = NodeStatus::of_rdata(kind, contents) else {
        return Err(Refusal::Fault(OTHER_RDATA));
    };
    match status.unit_id() {
        Some(bytes) => Ok(NbtServiceUnit { bytes }),
        None => Err(Refusal::FaultAt(TRUNCATED, contents.len())),
    }
}

/// The domain name that so many bytes are, from a place on of a payload whose names are read so.
pub fn domain_by(
    names: &NameReader<'_, '_>,
    place: usize,
    length: usize,
) -> Result<DomainName, Refusal>
    ensures { ReadsDomain names.now place length (spelled_answer result) }
{
    match names.read_domain(place, Pointers::Followed) {
        Ok((domain, next)) => {
            if next.checked_sub(place) != Some(length) {
                return Err(Refusal::FaultAt(NAME_RDATA, place));
            }
            Ok(domain)
        }
        Err(fault) => Err(name_refusal(NO_ROLE, fault)),
    }
}

/// Writes the spelling of a name that was read, or where the fault stands.
pub fn write_spelling(
    read: Result<DomainName, Refusal>,
    into: &mut [u8],
    used: &mut usize,
    at: &mut usize,
) -> u32
    ensures { Answers (spelled_answer read) (lent into.old used.old at.old)
        (lent into.new used.new at.new) result }
{
    match read {
        Ok(domain) => put(domain.spelling(), into, used),
        Err(refusal) => refuse(refusal, at),
    }
}
