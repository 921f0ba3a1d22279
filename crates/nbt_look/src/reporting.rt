//! What the program says of a fault, and the exit status of one.
ghost use Rattle.std.specs.Prelude.{◌≡◌, ◌++◌, OnOk, string_bytes};
ghost use Rattle.nbt_look.specs.FaultTexts.{fault_line, fault_words, placed_text, print_text, status_in, stopped_text};

use crate::printing::PrintFault;
use crate::signature::Sort;
use crate::sources::{Ending, Waiting};
use nb_pcap::FileFault;
use nb_streams::{NoMemory, push_decimal};

/// What a file of another form is, and what to give.
const OTHER_FORM: &str = "neither pcap nor pcapng: give what tcpdump -w or Wireshark wrote; \
nbt show reads captures as text";

/// What a fault of a file is.
fn fault_words(fault: FileFault) -> &'static str
    ensures { result.now ≡ fault_words fault }
{
    match fault {
        FileFault::UnknownForm => "neither pcap nor pcapng",
        FileFault::Cut => "cut",
        FileFault::TooLong => "too long a frame or block",
        FileFault::BadBlock => "bad block",
        FileFault::NoInterface => "packet of an unknown interface",
        FileFault::TooManyInterfaces => "too many interfaces",
        FileFault::Read => "can't be read",
        FileFault::NoMemory => "memory ran out",
    }
}

/// Adds a fault with its place.
fn push_placed(fault: FileFault, frames: u64, place: u64, text: &mut String) -> Result<(), NoMemory>
    ensures { OnOk result
        (string_bytes text.new ≡ string_bytes text.old ++ placed_text fault frames place) }
{
    text.push_str(fault_words(fault))?;
    text.push_str(" at byte ")?;
    push_decimal(place, text)?;
    text.push_str(", after frame ")?;
    push_decimal(frames, text)
}

/// Adds why a file isn't read further: the fault with its place, or what the input is of which
/// nothing is read, by its first bytes.
fn push_stopped(
    sort: Sort,
    fault: FileFault,
    frames: u64,
    place: u64,
    text: &mut String,
) -> Result<(), NoMemory>
    ensures { OnOk result
        (string_bytes text.new ≡ string_bytes text.old ++ stopped_text sort fault frames place) }
{
    match (sort, fault) {
        (Sort::Empty, FileFault::UnknownForm | FileFault::Cut) => {
            text.push_str("it is empty, and a capture file has a header: capture anew")?
        }
        (Sort::Gzip, FileFault::UnknownForm | FileFault::Cut) => {
            text.push_str("it is compressed by gzip: zcat FILE | nbt-look - reads it")?
        }
        (Sort::Other, FileFault::UnknownForm) if place == 0 => text.push_str(OTHER_FORM)?,
        _ => return push_placed(fault, frames, place, text),
    }
    Ok(())
}

/// Adds the line about a file of this title and sort, which has this to give, where it isn't read
/// to its end.
pub fn push_fault(
    title: &str,
    sort: Sort,
    waiting: Waiting,
    text: &mut String,
) -> Result<(), NoMemory>
    ensures { OnOk result
        (string_bytes text.new ≡ string_bytes text.old ++ fault_line title.now sort waiting) }
{
    if let Waiting::Ended(Ending::Stopped(fault, frames, place)) = waiting {
        text.push_str("nbt-look: ")?;
        text.push_str(title)?;
        text.push_str(": ")?;
        push_stopped(sort, fault, frames, place, text)?;
        text.push_str("\n")?;
    }
    Ok(())
}

/// Why what was read isn't printed.
pub fn print_text(fault: PrintFault) -> &'static str
    ensures { result.now ≡ print_text fault }
{
    match fault {
        PrintFault::Write => "standard output can't be written",
        PrintFault::NoMemory => "memory ran out",
    }
}

/// The exit status of a file that has this to give.
pub fn status_in(waiting: Waiting) -> u8
    ensures { result ≡ status_in waiting }
{
    match waiting {
        Waiting::Ended(Ending::Stopped(FileFault::Read | FileFault::NoMemory, _, _)) => 3,
        Waiting::Ended(Ending::Stopped(..)) => 1,
        _ => 0,
    }
}
