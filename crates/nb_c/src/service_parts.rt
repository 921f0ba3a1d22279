//! Parts of RDATA of the name service: those that have numbers, and a domain name.
#![tactic(auto, using(nb_calls::proofs::AnswerLemmas::answered))]

ghost use Rattle.nb_calls.specs.Outputs.{Fills, Writes, lent};
ghost use Rattle.nb_calls.specs.ServiceParts.{ReadsAddress, ReadsDomain, ReadsNode, ReadsUnit};

use nb_calls::output::fill;
use nb_calls::service_parts::{
    NbtServiceAddress, NbtServiceNode, NbtServiceUnit, address_at, domain_by, node_at, unit_at,
    write_spelling,
};
use nb_names::NameReader;

/// Reads the entry of a number, counted from 0, of RDATA of a type. No memory is taken.
///
/// RFC 1002 section 4.2.13.
#[unsafe(no_mangle)]
pub extern "C" fn nbt_service_address(
    kind: u16,
    contents: &[u8],
    number: usize,
    address: &mut NbtServiceAddress,
    at: &mut usize,
) -> u32
    ensures { Fills (ReadsAddress kind contents.now number)
        address.old address.new at.old at.new result }
{
    fill(address_at(kind, contents, number), address, at)
}

/// Reads a node's name of a number, counted from 0, of RDATA of a type. No memory is taken.
///
/// RFC 1002 section 4.2.18.
#[unsafe(no_mangle)]
pub extern "C" fn nbt_service_node(
    kind: u16,
    contents: &[u8],
    number: usize,
    node: &mut NbtServiceNode,
    at: &mut usize,
) -> u32
    ensures { Fills (ReadsNode kind contents.now number) node.old node.new at.old at.new result }
{
    fill(node_at(kind, contents, number), node, at)
}

/// Reads the unit identifier of a node of RDATA of a type. No memory is taken.
///
/// RFC 1002 section 4.2.18.
#[unsafe(no_mangle)]
pub extern "C" fn nbt_service_unit(
    kind: u16,
    contents: &[u8],
    unit: &mut NbtServiceUnit,
    at: &mut usize,
) -> u32
    ensures { Fills (ReadsUnit kind contents.now) unit.old unit.new at.old at.new result }
{
    fill(unit_at(kind, contents), unit, at)
}

/// Writes the spelling of the domain name that is RDATA of type NS: so many bytes of a payload,
/// from a place on. Pointers in it are followed. No memory is taken.
///
/// RFC 1002 sections 4.1 and 4.2.1.3; that the name ends where RDATA does is our choice.
#[unsafe(no_mangle)]
pub extern "C" fn nbt_service_domain(
    payload: &[u8],
    place: usize,
    length: usize,
    into: &mut [u8],
    used: &mut usize,
    at: &mut usize,
) -> u32
    ensures { Writes (ReadsDomain payload.now place length) (lent into.old used.old at.old)
        (lent into.new used.new at.new) result }
{
    let names = NameReader::of(payload, &mut []);
    write_spelling(domain_by(&names, place, length), into, used, at)
}
