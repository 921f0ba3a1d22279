//! Datagram service packets from arguments.
ghost use Rattle.std.specs.Prelude.{◌≡◌, ◌⊎◌, ◌≤◌, ◌++◌, [], ◌∷◌, map, codes, IfErr, IfOk, OnOk};
ghost use Rattle.nb_datagram.specs.Packet.{packet_bytes};
ghost use Rattle.nb_datagram.specs.Pieces.{AreTooLong, pieces};
ghost use Rattle.nb_datagram.specs.FaultTexts.{kind_text};
ghost use Rattle.nb_text.specs.Words.{query_word};
ghost use Rattle.nb_building.specs.Built.{NamesDatagrams, texts};
ghost use Rattle.nb_building.specs.Refusals.{ExplainsDatagrams};
ghost use Rattle.nb_building.specs.Words.{IsDatagramWord};

use crate::arguments::{code, data, key, named, number};
use crate::build_fault::BuildFault;
use nb_datagram::limits::FIRST;
use nb_datagram::{
    Datagram, ErrorPacket, Kind, Packet, Pieces, QueryKind, QueryPacket, cut, encode,
};
use nb_streams::{Bytes, Items, NoMemory};
use std::alloc::Global;

/// The bytes of the packets that WHAT and its arguments give: of a datagram one for each piece.
pub fn build(alloc: Global, what: &str, words: &[&str]) -> Result<Items<Bytes>, BuildFault>
    requires { IsDatagramWord what.now }
    ensures built { IfOk result (NamesDatagrams what.now (texts words.now)) }
    ensures refused { IfErr result (ExplainsDatagrams what.now (texts words.now)) }
{
    match what {
        "unique" => fragments(alloc, Kind::Unique, words),
        "group" => fragments(alloc, Kind::Group, words),
        "broadcast" => fragments(alloc, Kind::Broadcast, words),
        "error" => error(alloc, words),
        "find" => query(alloc, QueryKind::Request, words),
        "found" => query(alloc, QueryKind::Positive, words),
        "missing" => query(alloc, QueryKind::Negative, words),
        _ => Err(BuildFault::What),
    }
}

/// The packets of the pieces of a datagram, from KEY SOURCE DESTINATION HEX MOST.
fn fragments(alloc: Global, kind: Kind, words: &[&str]) -> Result<Items<Bytes>, BuildFault>
    ensures built { IfOk result (NamesDatagrams (kind_text kind) (texts words.now)) }
    ensures refused { IfErr result (ExplainsDatagrams (kind_text kind) (texts words.now)) }
{
    let [place, source, destination, digits, most] = words else {
        return Err(BuildFault::Count);
    };
    let key = key(alloc, place, 0)?;
    let source = named(source, 1)?;
    let destination = named(destination, 2)?;
    let data = data(alloc, digits, 3)?;
    let most = number(most, 4)?;
    match Datagram::new(key, kind, source, destination, data) {
        Ok(datagram) => fragments_of(alloc, &datagram, most),
        Err(_) => Err(BuildFault::TooLong),
    }
}

/// The packets of the pieces of a datagram, of so many bytes of data at most.
fn fragments_of(alloc: Global, datagram: &Datagram, most: u16) -> Result<Items<Bytes>, BuildFault>
    ensures built { IfOk result (λ packets. ((1 ≤ most) × ¬ AreTooLong datagram.now most)
        × (packets ≡
        map (λ piece. packet_bytes (Packet.Direct piece)) (pieces datagram.now most))) }
    ensures too_long { IfErr result (λ fault. fault ≡ BuildFault.TooLong →
        (1 ≤ most) × AreTooLong datagram.now most) }
    ensures refused { IfErr result (λ fault. (fault ≡ BuildFault.Memory)
        ⊎ (((fault ≡ BuildFault.TooLong) ⊎ (fault ≡ BuildFault.ZeroPiece))
        × (1 ≤ most → AreTooLong datagram.now most))) }
{
    let pieces = cut(alloc, datagram, most)?;
    Ok(encoded_pieces(alloc, pieces)?)
}

/// The packets of these pieces.
fn encoded_pieces(alloc: Global, pieces: Pieces<'_>) -> Result<Items<Bytes>, NoMemory>
    ensures { IfOk result (λ packets. packets ≡
        map (λ piece. packet_bytes (Packet.Direct piece)) pieces.entry) }
{
    let mut packets = Items::from_vec(Vec::new(alloc));
    for piece in pieces.into_vec() {
        push(alloc, Packet::Direct(piece), &mut packets)?;
    }
    Ok(packets)
}

/// An error packet, from KEY CODE.
fn error(alloc: Global, words: &[&str]) -> Result<Items<Bytes>, BuildFault>
    ensures built { IfOk result (NamesDatagrams (codes "error") (texts words.now)) }
    ensures refused { IfErr result (ExplainsDatagrams (codes "error") (texts words.now)) }
{
    let [place, digits] = words else {
        return Err(BuildFault::Count);
    };
    let key = key(alloc, place, 0)?;
    let code = code(alloc, digits, 1)?;
    let flags = FIRST;
    let packet = Packet::Error(ErrorPacket { flags, key, code });
    Ok(alone(alloc, packet)?)
}

/// A query packet, from KEY NAME.
fn query(alloc: Global, kind: QueryKind, words: &[&str]) -> Result<Items<Bytes>, BuildFault>
    ensures built { IfOk result (NamesDatagrams (query_word kind) (texts words.now)) }
    ensures refused { IfErr result (ExplainsDatagrams (query_word kind) (texts words.now)) }
{
    let [place, name] = words else {
        return Err(BuildFault::Count);
    };
    let key = key(alloc, place, 0)?;
    let destination = named(name, 1)?;
    let flags = FIRST;
    let packet = Packet::Query(QueryPacket {
        kind,
        flags,
        key,
        destination,
    });
    Ok(alone(alloc, packet)?)
}

/// The bytes of one packet.
fn alone(alloc: Global, packet: Packet<'_>) -> Result<Items<Bytes>, NoMemory>
    ensures { IfOk result (λ packets. packets ≡ packet_bytes packet.entry ∷ []) }
{
    let mut packets = Items::from_vec(Vec::new(alloc));
    push(alloc, packet, &mut packets)?;
    Ok(packets)
}

/// Adds the bytes of a packet after those of the others.
fn push(alloc: Global, packet: Packet<'_>, packets: &mut Items<Bytes>) -> Result<(), NoMemory>
    ensures { OnOk result (packets.new ≡ packets.old ++ packet_bytes packet.entry ∷ []) }
{
    packets.push(encode(alloc, &packet)?)?;
    Ok(())
}
