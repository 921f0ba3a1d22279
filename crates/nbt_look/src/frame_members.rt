//! Frames as members of JSON objects.
#![tactic(auto, using(nb_telling::proofs::FoldLemmas::told_both))]

ghost use Rattle.std.specs.Prelude.{◌≡◌, ◌++◌, ℕ, List, OnOk, fold, flat_map, option_map, string_bytes};
ghost use Rattle.std.specs.Borrow.{Bor};
ghost use Rattle.std.specs.Net.Text.{ip_text};
ghost use Rattle.nb_pcap.specs.Frame.{value_of};
ghost use Rattle.nb_telling.specs.Telling.{Text};
ghost use Rattle.nb_traffic.specs.Brought.{packet_value};
ghost use Rattle.nbt_look.specs.Bare.{bare_tag};
ghost use Rattle.nbt_look.specs.Objects.{colon_byte, column_fields, end_fields, frame_fields, interface_field, link_fields, mac_field, mac_text, size_fields, time_field, vlan_fields, vlans_fields};

use crate::ends::{is_no_name, push_ip, push_name};
use crate::objects::{bare, known_port};
use nb_frames::{Mac, contents_of};
use nb_pcap::Frame;
use nb_streams::{NoMemory, push_digits};
use nb_telling::Sink;
use nb_traffic::Packet;
use std::net::IpAddr;

/// Tells the time of a frame, which is shown so, where it has one.
fn tell_time<S: Sink>(at: Option<u64>, shown: &str, sink: &mut S) -> Result<(), NoMemory>
    ensures { OnOk result
        (S.seen sink.new ≡ S.after (S.seen sink.old) (time_field at shown.now)) }
{
    match at {
        Some(_) => sink.text(bare("time"), shown),
        None => sink.known(bare("time"), None),
    }
}

/// Tells an address.
fn tell_address<S: Sink>(
    name: &'static str,
    address: IpAddr,
    scratch: &mut String,
    sink: &mut S,
) -> Result<(), NoMemory>
    ensures { OnOk result (S.seen sink.new
        ≡ S.after (S.seen sink.old) (Text (bare_tag name.now) (ip_text address))) }
{
    scratch.clear();
    push_ip(address, scratch)?;
    sink.text(bare(name), scratch.as_str())
}

/// Tells from where and to where a packet goes.
fn tell_ends<S: Sink>(
    packet: &Packet<'_>,
    scratch: &mut String,
    sink: &mut S,
) -> Result<(), NoMemory>
    ensures { OnOk result
        (S.seen sink.new ≡ fold S.after (S.seen sink.old) (end_fields (packet_value packet.now))) }
{
    tell_address("from", packet.hosts.source, scratch, sink)?;
    tell_address("to", packet.hosts.destination, scratch, sink)?;
    sink.known(bare("source_port"), known_port(packet.ports.source))?;
    sink.known(bare("target_port"), known_port(packet.ports.destination))
}

/// Tells the name of an interface, where it has one.
fn tell_interface<S: Sink>(
    name: Option<&[u8]>,
    scratch: &mut String,
    sink: &mut S,
) -> Result<(), NoMemory>
    ensures { OnOk result (S.seen sink.new ≡ S.after (S.seen sink.old)
        (interface_field (option_map (λ (n : Bor (List ℕ)). n.now) name.entry))) }
{
    match name {
        Some(name) if !is_no_name(name) => {
            scratch.clear();
            push_name(name, scratch)?;
            sink.text(bare("interface"), scratch.as_str())
        }
        _ => sink.known(bare("interface"), None),
    }
}

/// Adds bytes of a hardware address after another one: the digits of each after a colon.
fn push_colon_bytes(octets: &[u8], text: &mut String) -> Result<(), NoMemory>
    ensures { OnOk result
        (string_bytes text.new ≡ string_bytes text.old ++ flat_map colon_byte octets.now) }
{
    for byte in octets {
        text.push_str(":")?;
        push_digits(&[*byte], text)?;
    }
    Ok(())
}

/// Adds a hardware address: the digits of its bytes, with colons between them.
fn push_mac(mac: Mac, text: &mut String) -> Result<(), NoMemory>
    ensures { OnOk result (string_bytes text.new ≡ string_bytes text.old ++ mac_text mac.octets) }
{
    push_digits(&mac.octets[..1], text)?;
    push_colon_bytes(&mac.octets[1..], text)
}

/// Tells a hardware address, where there is one.
fn tell_mac<S: Sink>(
    name: &'static str,
    mac: Option<Mac>,
    scratch: &mut String,
    sink: &mut S,
) -> Result<(), NoMemory>
    ensures { OnOk result
        (S.seen sink.new ≡ S.after (S.seen sink.old) (mac_field name.now mac)) }
{
    let Some(mac) = mac else {
        return sink.known(bare(name), None);
    };
    scratch.clear();
    push_mac(mac, scratch)?;
    sink.text(bare(name), scratch.as_str())
}

/// Tells the identifiers of VLANs, each as a part of a list.
fn tell_each_vlan<S: Sink>(ids: &[u16], sink: &mut S) -> Result<(), NoMemory>
    ensures { OnOk result
        (S.seen sink.new ≡ fold S.after (S.seen sink.old) (flat_map vlan_fields ids.now)) }
{
    for id in ids {
        sink.part("")?;
        sink.number(bare("id"), u64::from(*id))?;
        sink.part_ends()?;
    }
    Ok(())
}

/// Tells the list of VLANs.
fn tell_vlans<S: Sink>(ids: &[u16], sink: &mut S) -> Result<(), NoMemory>
    ensures { OnOk result
        (S.seen sink.new ≡ fold S.after (S.seen sink.old) (vlans_fields ids.now)) }
{
    sink.begins("vlans")?;
    tell_each_vlan(ids, sink)?;
    sink.ends()
}

/// Tells what the link layer of a frame says: in which VLANs it is, who sent it, and to whom.
fn tell_link<S: Sink>(frame: &Frame<'_>, scratch: &mut String, sink: &mut S) -> Result<(), NoMemory>
    ensures { OnOk result (S.seen sink.new
        ≡ fold S.after (S.seen sink.old) (link_fields (value_of frame.now))) }
{
    let contents = contents_of(frame.link, frame.bytes);
    tell_vlans(contents.vlans.as_slice(), sink)?;
    tell_mac("from_mac", contents.sender, scratch, sink)?;
    tell_mac("to_mac", contents.receiver, scratch, sink)
}

/// Tells what a line has in its columns: the number of a frame, its time, which is shown so, its
/// ends and its interface.
fn tell_columns<S: Sink>(
    frame: &Frame<'_>,
    shown: &str,
    packet: &Packet<'_>,
    scratch: &mut String,
    sink: &mut S,
) -> Result<(), NoMemory>
    ensures { OnOk result (S.seen sink.new ≡ fold S.after (S.seen sink.old)
        (column_fields frame.now.number (value_of frame.now) shown.now (packet_value packet.now))) }
{
    sink.number(bare("frame"), frame.number)?;
    tell_time(frame.time, shown, sink)?;
    tell_ends(packet, scratch, sink)?;
    tell_interface(frame.name, scratch, sink)
}

/// Tells how long a frame was, and how many bytes of it are captured.
fn tell_size<S: Sink>(frame: &Frame<'_>, sink: &mut S) -> Result<(), NoMemory>
    ensures { OnOk result (S.seen sink.new
        ≡ fold S.after (S.seen sink.old) (size_fields (value_of frame.now))) }
{
    sink.number(bare("size"), u64::from(frame.original))?;
    sink.number(bare("captured"), frame.bytes.len() as u64)
}

/// Tells a frame, whose time is shown so: what a line has in its columns, what its link layer says,
/// and its size.
pub fn tell_frame<S: Sink>(
    frame: &Frame<'_>,
    shown: &str,
    packet: &Packet<'_>,
    scratch: &mut String,
    sink: &mut S,
) -> Result<(), NoMemory>
    ensures { OnOk result (S.seen sink.new ≡ fold S.after (S.seen sink.old)
        (frame_fields frame.now.number (value_of frame.now) shown.now (packet_value packet.now))) }
{
    tell_columns(frame, shown, packet, scratch, sink)?;
    tell_link(frame, scratch, sink)?;
    tell_size(frame, sink)
}
