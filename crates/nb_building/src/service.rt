//! Name service packets from arguments.
ghost use Rattle.std.specs.Prelude.{◌≡◌, ◌⊎◌, codes, IfErr, IfOk, Ok};
ghost use Rattle.nb_service.specs.Packet.{ServicePacket};
ghost use Rattle.nb_service.specs.Encoding.{packet_bytes};
ghost use Rattle.nb_building.specs.Built.{IsServiceBuilt, texts};
ghost use Rattle.nb_building.specs.Refusals.{ExplainsService};
ghost use Rattle.nb_building.specs.Words.{IsServiceWord};

use crate::arguments::{address, long_number, named, word};
use crate::build_fault::BuildFault;
use crate::response;
use nb_service::{
    AddressEntry, Packet, encode, node_status_request, query, refresh, registration, release,
};
use nb_streams::{Bytes, NoMemory};
use std::alloc::Global;

/// The bytes of the packet that WHAT and its arguments give.
pub fn build(
    alloc: Global,
    what: &str,
    words: &[&str],
    broadcast: bool,
) -> Result<Bytes, BuildFault>
    requires { IsServiceWord what.now }
    ensures built { IfOk result (IsServiceBuilt broadcast what.now (texts words.now)) }
    ensures refused { IfErr result (ExplainsService broadcast what.now (texts words.now)) }
{
    match what {
        "query" => question(alloc, what, words, broadcast),
        "status" => question(alloc, what, words, broadcast),
        "registration" => claim(alloc, what, words, broadcast),
        "refresh" => claim(alloc, what, words, broadcast),
        "release" => withdrawal(alloc, words, broadcast),
        "response" => response::build(alloc, words, broadcast),
        _ => Err(BuildFault::What),
    }
}

/// A packet that asks for a name, or for a node's status, from ID NAME.
fn question(alloc: Global, what: &str, words: &[&str], broadcast: bool) -> Result<Bytes, BuildFault>
    requires { (what.now ≡ codes "query") ⊎ (what.now ≡ codes "status") }
    ensures built { IfOk result (IsServiceBuilt broadcast what.now (texts words.now)) }
    ensures refused { IfErr result (ExplainsService broadcast what.now (texts words.now)) }
{
    let [id, name] = words else {
        return Err(BuildFault::Count);
    };
    let id = word(alloc, id, 0)?;
    let name = named(name, 1)?;
    match what {
        "query" => encoded(alloc, query(alloc, id, &name, broadcast)),
        "status" => encoded(alloc, node_status_request(alloc, id, &name, broadcast)),
        _ => Err(BuildFault::What),
    }
}

/// A packet that registers a name, or refreshes it, from ID NAME TTL FLAGS ADDRESS.
fn claim(alloc: Global, what: &str, words: &[&str], broadcast: bool) -> Result<Bytes, BuildFault>
    requires { (what.now ≡ codes "registration") ⊎ (what.now ≡ codes "refresh") }
    ensures built { IfOk result (IsServiceBuilt broadcast what.now (texts words.now)) }
    ensures refused { IfErr result (ExplainsService broadcast what.now (texts words.now)) }
{
    let [id, name, ttl, flags, place] = words else {
        return Err(BuildFault::Count);
    };
    let id = word(alloc, id, 0)?;
    let name = named(name, 1)?;
    let ttl = long_number(ttl, 2)?;
    let flags = word(alloc, flags, 3)?;
    let address = address(place, 4)?;
    let entry = AddressEntry { flags, address }.to_bytes();
    match what {
        "registration" => {
            encoded(
                alloc,
                registration(alloc, id, &name, broadcast, ttl, &entry),
            )
        }
        "refresh" => encoded(alloc, refresh(alloc, id, &name, broadcast, ttl, &entry)),
        _ => Err(BuildFault::What),
    }
}

/// A packet that gives a name up, from ID NAME FLAGS ADDRESS.
fn withdrawal(alloc: Global, words: &[&str], broadcast: bool) -> Result<Bytes, BuildFault>
    ensures built { IfOk result (IsServiceBuilt broadcast (codes "release") (texts words.now)) }
    ensures refused { IfErr result (ExplainsService broadcast (codes "release") (texts words.now)) }
{
    let [id, name, flags, place] = words else {
        return Err(BuildFault::Count);
    };
    let id = word(alloc, id, 0)?;
    let name = named(name, 1)?;
    let flags = word(alloc, flags, 2)?;
    let address = address(place, 3)?;
    let entry = AddressEntry { flags, address }.to_bytes();
    encoded(alloc, release(alloc, id, &name, broadcast, &entry))
}

/// The bytes of a packet, where there was memory to make it.
fn encoded(alloc: Global, made: Result<Packet<'_>, NoMemory>) -> Result<Bytes, BuildFault>
    ensures built { IfOk result (λ bytes. (packet : ServicePacket) × (made.entry ≡ Ok packet)
        × (bytes ≡ packet_bytes packet)) }
    ensures memory { IfErr result (λ fault. fault ≡ BuildFault.Memory) }
{
    match made {
        Ok(packet) => Ok(encode(alloc, &packet)?),
        Err(NoMemory) => Err(BuildFault::Memory),
    }
}
