//! Tables of other stations, taken in by a station.
ghost use Rattle.std.specs.Prelude.{◌≡◌, ◌++◌, IfOk, OnOk};
ghost use Rattle.nb_calls.specs.Absorbing.{Absorbed, Hears, all_heard, heard_bytes};

use crate::output::{Refusal, answer_of, table_refusal};
use crate::statuses::NO_ROLE;
use crate::tables::loaded;
use nb_datagram::{Datagram, Datagrams};
use nb_member::Member;
use nb_member::laws::a_preview_is_what_is_handed_over;
use nb_streams::{Bytes, NoMemory};
use nb_table::Table;
use std::alloc::Global;

/// Joins a saved table to a member's, where there is room for the bytes of what it hands over.
pub fn absorb_saved(
    alloc: Global,
    member: &mut Member,
    moment: u64,
    table: &[u8],
    room: usize,
) -> Result<Bytes, Refusal>
    ensures { Absorbed member.old moment table.now room member.new result }
{
    let its = member.settings();
    let other = loaded(alloc, NO_ROLE, table, its.keys, its.per_source, its.longest)?;
    let bytes = heard(alloc, member, &other)?;
    if room < bytes.as_slice().len() {
        return Ok(bytes);
    }
    // For the clause; the call does nothing.
    a_preview_is_what_is_handed_over();
    match member.absorb(&other, moment) {
        Err(fault) => Err(table_refusal(fault)),
        Ok(_) => Ok(bytes),
    }
}

/// The bytes of the datagrams that a member would hand over.
fn heard(alloc: Global, member: &Member, other: &Table) -> Result<Bytes, Refusal>
    ensures { Hears member.now other.now.contents result }
{
    match member.preview(other) {
        Err(fault) => Err(table_refusal(fault)),
        Ok(datagrams) => answer_of(bytes_of(alloc, datagrams)),
    }
}

/// The bytes of datagrams, in order.
fn bytes_of(alloc: Global, datagrams: Datagrams) -> Result<Bytes, NoMemory>
    ensures { IfOk result (λ bytes. bytes ≡ all_heard datagrams) }
{
    let mut bytes = Vec::new(alloc);
    for datagram in datagrams.into_vec() {
        push_datagram(&datagram, &mut bytes)?;
    }
    Ok(Bytes::from_vec(bytes))
}

/// Adds the bytes of a datagram.
fn push_datagram(datagram: &Datagram, bytes: &mut Vec<u8>) -> Result<(), NoMemory>
    ensures { OnOk result (bytes.new.items ≡ bytes.old.items ++ heard_bytes datagram.now) }
{
    let key = datagram.key();
    bytes.extend_from_slice(&key.ip)?;
    bytes.extend_from_slice(&key.port.to_be_bytes())?;
    bytes.extend_from_slice(&key.id.to_be_bytes())?;
    bytes.push(datagram.kind().message_type())?;
    bytes.extend_from_slice(datagram.source().to_domain().spelling())?;
    bytes.extend_from_slice(datagram.destination().to_domain().spelling())?;
    let length = datagram.bytes().len() as u16;
    bytes.extend_from_slice(&length.to_be_bytes())?;
    bytes.extend_from_slice(datagram.bytes())?;
    Ok(())
}
