//! The last lines, which say how many frames there are, and what they have.
ghost use Rattle.std.specs.Prelude.{◌≡◌, ◌++◌, ◌||◌, false, not, nat_eq, IfOk, OnOk, string_bytes};
ghost use Rattle.nbt_look.specs.Counting.{count_of};
ghost use Rattle.nbt_look.specs.Totals.{counts_line, lack_text, lacking_text, lacks_text, last_lines, left_out_text, packets_text, plural_text, reasons_text, said_text, shown_text, without_text};

use crate::counting::{ALL, Counts, LACKS, Lack, LeftOut};
use crate::listing::Listing;
use nb_streams::{NoMemory, push_decimal};

/// Adds so many of something, whose plural has an s.
pub fn push_plural(count: u64, what: &str, text: &mut String) -> Result<(), NoMemory>
    ensures { OnOk result
        (string_bytes text.new ≡ string_bytes text.old ++ plural_text count what.now) }
{
    push_decimal(count, text)?;
    text.push_str(" ")?;
    text.push_str(what)?;
    if count != 1 {
        text.push_str("s")?;
    }
    Ok(())
}

/// Adds how often a reason left something out, where it did, and others stand before it or none;
/// and answers whether some stand there now.
fn push_reason(
    counts: &Counts,
    begun: bool,
    reason: LeftOut,
    text: &mut String,
) -> Result<bool, NoMemory>
    ensures added { OnOk result (string_bytes text.new
        ≡ string_bytes text.old ++ said_text counts.now begun reason) }
    ensures some { IfOk result (λ some.
        some ≡ (not (nat_eq (count_of reason counts.now) 0) || begun)) }
{
    let count = counts.of(reason);
    if count == 0 {
        return Ok(begun);
    }
    text.push_str(if begun { ", " } else { ": " })?;
    push_decimal(count, text)?;
    text.push_str(" ")?;
    text.push_str(reason.words())?;
    Ok(true)
}

/// Adds how often each of these reasons did, where it did.
fn push_reasons(counts: &Counts, reasons: &[LeftOut], text: &mut String) -> Result<(), NoMemory>
    ensures { OnOk result (string_bytes text.new
        ≡ string_bytes text.old ++ reasons_text counts.now false reasons.now) }
{
    let mut begun = false;
    for reason in reasons {
        begun = push_reason(counts, begun, *reason, text)?;
    }
    Ok(())
}

/// Adds how many frames and packets there are.
fn push_packets(counts: &Counts, text: &mut String) -> Result<(), NoMemory>
    ensures { OnOk result
        (string_bytes text.new ≡ string_bytes text.old ++ packets_text counts.now) }
{
    push_plural(counts.frames, "frame", text)?;
    text.push_str(", ")?;
    push_plural(counts.packets, "packet", text)?;
    text.push_str(", ")?;
    push_decimal(counts.malformed, text)?;
    text.push_str(" malformed, ")?;
    Ok(())
}

/// Adds how many are left out, and why.
fn push_left_out(counts: &Counts, text: &mut String) -> Result<(), NoMemory>
    ensures { OnOk result
        (string_bytes text.new ≡ string_bytes text.old ++ left_out_text counts.now) }
{
    push_decimal(counts.left_out, text)?;
    text.push_str(" left out")?;
    push_reasons(counts, &ALL, text)
}

/// Adds the end of the line of counts: how many packets have a line, where not all are wanted.
fn push_shown_count(all: bool, shown: u64, text: &mut String) -> Result<(), NoMemory>
    ensures { OnOk result
        (string_bytes text.new ≡ string_bytes text.old ++ shown_text all shown) }
{
    if !all {
        text.push_str("; ")?;
        push_decimal(shown, text)?;
        text.push_str(" shown")?;
    }
    text.push_str("\n")?;
    Ok(())
}

/// Adds how many frames without a packet have this, where others stand before it or none.
fn push_lack(begun: bool, count: u64, lack: Lack, text: &mut String) -> Result<(), NoMemory>
    ensures { OnOk result (string_bytes text.new
        ≡ string_bytes text.old ++ lack_text begun count lack) }
{
    text.push_str(if begun { ", " } else { ": " })?;
    push_plural(count, lack.noun(), text)?;
    text.push_str(lack.rest())?;
    Ok(())
}

/// Adds how many have each of these, where some have.
fn push_lacks(counts: &Counts, lacks: &[Lack], text: &mut String) -> Result<(), NoMemory>
    ensures { OnOk result (string_bytes text.new
        ≡ string_bytes text.old ++ lacks_text counts.now false lacks.now) }
{
    let mut begun = false;
    for lack in lacks {
        let count = counts.lacking(*lack);
        if count != 0 {
            push_lack(begun, count, *lack, text)?;
            begun = true;
        }
    }
    Ok(())
}

/// Adds how many frames have neither a packet nor something that is left out, and what they have.
fn push_lacking(counts: &Counts, text: &mut String) -> Result<(), NoMemory>
    ensures { OnOk result
        (string_bytes text.new ≡ string_bytes text.old ++ lacking_text counts.now) }
{
    push_plural(counts.without, "frame", text)?;
    text.push_str(" without a packet")?;
    push_lacks(counts, &LACKS, text)?;
    text.push_str("\n")?;
    Ok(())
}

/// Adds that no frame is of the ports; else how many have no packet, where all packets are wanted.
fn push_without(all: bool, counts: &Counts, text: &mut String) -> Result<(), NoMemory>
    ensures { OnOk result
        (string_bytes text.new ≡ string_bytes text.old ++ without_text all counts.now) }
{
    if counts.of_ports == 0 {
        text.push_str("no frame has UDP of port 137 or 138, or TCP of port 139\n")?;
        return Ok(());
    }
    if all && counts.without != 0 {
        return push_lacking(counts, text);
    }
    Ok(())
}

/// Adds the line of counts.
pub fn push_counts(listing: &Listing, text: &mut String) -> Result<(), NoMemory>
    ensures { OnOk result
        (string_bytes text.new ≡ string_bytes text.old ++ counts_line listing.now) }
{
    push_packets(&listing.counts, text)?;
    push_left_out(&listing.counts, text)?;
    push_shown_count(listing.asked.wanted.wants_all(), listing.shown, text)
}

/// Adds the last lines.
pub fn push_last(listing: &Listing, text: &mut String) -> Result<(), NoMemory>
    ensures { OnOk result
        (string_bytes text.new ≡ string_bytes text.old ++ last_lines listing.now) }
{
    push_counts(listing, text)?;
    push_without(listing.asked.wanted.wants_all(), &listing.counts, text)
}
