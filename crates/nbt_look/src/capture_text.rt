//! The list as the text of a capture, which `nbt` reads.
ghost use Rattle.std.specs.Prelude.{◌≡◌, ◌<◌, ◌*◌, ◌^◌, ◌++◌, OnOk, string_bytes};
ghost use Rattle.nb_traffic.specs.Brought.{packet_value};
ghost use Rattle.nbt_look.specs.CaptureText.{capture_text, frame_comment, item_text, passes, payload_text, phrase_comment, tick_in, ticks_text};

use crate::asked::Layout;
use crate::counting::{LeftOut, Outcome};
use crate::ends::push_with_port;
use crate::widths::Cells;
use nb_capture::{Comments, push_comment, push_packet, push_tick};
use nb_streams::NoMemory;
use nb_traffic::Packet;

/// Milliseconds of a second.
const SECOND: u64 = 1_000;

/// Adds the tick of the second that begins so many after the last one, where it begins before this
/// one.
fn push_tick_in(last: u64, more: u64, second: u64, text: &mut String) -> Result<(), NoMemory>
    requires { second * 1000 < 2 ^ 64 }
    ensures { OnOk result
        (string_bytes text.new ≡ string_bytes text.old ++ tick_in last more second) }
{
    if more < second.saturating_sub(last) {
        return push_tick((last + more) * SECOND, text);
    }
    Ok(())
}

/// Adds the ticks after the last second and until this one.
fn push_ticks(last: u64, second: u64, text: &mut String) -> Result<(), NoMemory>
    requires { second * 1000 < 2 ^ 64 }
    ensures { OnOk result
        (string_bytes text.new ≡ string_bytes text.old ++ ticks_text last second) }
{
    push_tick_in(last, 1, second, text)?;
    push_tick_in(last, 2, second, text)?;
    push_tick_in(last, 3, second, text)?;
    if last < second {
        return push_tick(second * SECOND, text);
    }
    Ok(())
}

/// Adds the comment on the frame of a packet.
fn push_frame_comment(
    cells: &Cells,
    packet: &Packet<'_>,
    scratch: &mut String,
    text: &mut String,
) -> Result<(), NoMemory>
    ensures { OnOk result (string_bytes text.new
        ≡ string_bytes text.old ++ frame_comment cells.now (packet_value packet.now)) }
{
    let (hosts, ports) = (packet.hosts, packet.ports);
    scratch.clear();
    scratch.push_str("# frame ")?;
    scratch.push_str(cells.number.as_str())?;
    scratch.push_str(" ")?;
    scratch.push_str(cells.time.as_str())?;
    scratch.push_str(" ")?;
    push_with_port(hosts.source, ports.source, scratch)?;
    scratch.push_str(" > ")?;
    push_with_port(hosts.destination, ports.destination, scratch)?;
    push_comment(Comments::Printed, scratch.as_bytes(), text)
}

/// Adds the comment on a frame of which something is left out, and this is said.
fn push_phrase_comment(
    cells: &Cells,
    phrase: &str,
    scratch: &mut String,
    text: &mut String,
) -> Result<(), NoMemory>
    ensures { OnOk result (string_bytes text.new
        ≡ string_bytes text.old ++ phrase_comment cells.now phrase.now) }
{
    scratch.clear();
    scratch.push_str("# frame ")?;
    scratch.push_str(cells.number.as_str())?;
    scratch.push_str(" ")?;
    scratch.push_str(phrase)?;
    push_comment(Comments::Printed, scratch.as_bytes(), text)
}

/// Adds the line of a packet's payload, after the comment on its frame, where that is wanted.
fn push_payload(
    layout: Layout,
    moment: u64,
    cells: &Cells,
    packet: &Packet<'_>,
    scratch: &mut String,
    text: &mut String,
) -> Result<(), NoMemory>
    ensures { OnOk result (string_bytes text.new ≡ string_bytes text.old
        ++ payload_text layout moment cells.now (packet_value packet.now)) }
{
    if !layout.is_bare {
        push_frame_comment(cells, packet, scratch, text)?;
    }
    push_packet(packet.service, moment, packet.bytes, text)
}

/// Whether these bytes of a payload come too that is left out for this reason.
fn passes(layout: Layout, reason: LeftOut, bytes: &[u8]) -> bool
    ensures { result ≡ passes layout reason bytes.now }
{
    matches!(reason, LeftOut::Cut) && layout.has_cut && !bytes.is_empty()
}

/// Adds what stands of a packet that counts so, and of which this is said.
fn push_item(
    layout: Layout,
    moment: u64,
    cells: &Cells,
    packet: &Packet<'_>,
    outcome: Outcome,
    phrase: &str,
    scratch: &mut String,
    text: &mut String,
) -> Result<(), NoMemory>
    ensures { OnOk result (string_bytes text.new ≡ string_bytes text.old
        ++ item_text layout moment cells.now (packet_value packet.now) outcome phrase.now) }
{
    match outcome {
        Outcome::Packet | Outcome::Malformed => {
            push_payload(layout, moment, cells, packet, scratch, text)
        }
        Outcome::LeftOut(reason) => {
            push_phrase_comment(cells, phrase, scratch, text)?;
            if passes(layout, reason, packet.bytes) {
                return push_payload(layout, moment, cells, packet, scratch, text);
            }
            Ok(())
        }
        Outcome::Without(_) => Ok(()),
    }
}

/// Adds what the text of a capture has of a packet that counts so, and of which this is said: the
/// ticks since the last moment, where they are wanted, comments, and its line.
pub fn push_capture(
    layout: Layout,
    last: u64,
    moment: u64,
    cells: &Cells,
    packet: &Packet<'_>,
    outcome: Outcome,
    phrase: &str,
    scratch: &mut String,
    text: &mut String,
) -> Result<(), NoMemory>
    ensures { OnOk result (string_bytes text.new ≡ string_bytes text.old ++ capture_text
        layout last moment cells.now (packet_value packet.now) outcome phrase.now) }
{
    if layout.has_ticks {
        push_ticks(last / SECOND, moment / SECOND, text)?;
    }
    push_item(
        layout, moment, cells, packet, outcome, phrase, scratch, text,
    )
}
