//! Printing the list of capture files.
ghost use Rattle.nbt_look.specs.Listing.{IsBeginning, so_far};
ghost use Rattle.nbt_look.specs.Printing.{AreUnread, Prints, PrintsLast, PrintsList};

use crate::asked::Asked;
use crate::last::last_of;
use crate::listing::Listing;
use crate::progress::Progress;
use crate::sources::{Source, fill_all, first_of};
use nb_streams::output::write_whole;
use nb_streams::{Counted, NoMemory};
use std::alloc::Global;
use std::io::{Read, Write};

/// Why what was read isn't printed.
#[derive(Clone, Copy)]
pub enum PrintFault {
    /// The writer failed.
    Write,
    /// Memory ran out.
    NoMemory,
}

impl From<NoMemory> for PrintFault {
    ghost use Rattle.std.specs.Prelude.{◌≡◌};
    ghost use Rattle.nbt_look.specs.declared.printing.PrintFault.TheVariants.{NoMemory};

    ghost from_gives = { λ _ made. made ≡ NoMemory };

    fn from(_fault: NoMemory) -> PrintFault {
        PrintFault::NoMemory
    }
}

/// Prints the list of files, as far as it is wanted, each line before the next frame is read.
fn print_list<R: Read, W: Write>(
    sources: &mut [Source<R>],
    writer: &mut Counted<W>,
    progress: &mut Progress,
) -> Result<(), PrintFault>
    requires begins { IsBeginning progress.old.lister.listing.asked (so_far progress.old) }
    requires unread { AreUnread sources.old }
    ensures { PrintsList progress.old.lister.listing.asked sources.old sources.new
        (W.contents writer.old.inner) (W.contents writer.new.inner)
        writer.old.counts writer.new.counts (so_far progress.new) result }
{
    let mut number: u64 = 0;
    'frames: loop {
        let listing = &progress.lister.listing;
        if listing.asked.wanted.is_enough(listing.shown) || number == u64::MAX {
            return Ok(());
        }
        fill_all(sources);
        let Some(at) = first_of(sources) else {
            return Ok(());
        };
        number += 1;
        let source = &mut sources[at];
        match source.print(number, progress, writer) {
            Ok(()) => {}
            Err(fault) => return Err(fault),
        }
    }
}

/// Prints the last lines, with the counts.
fn print_last<W: Write>(
    alloc: Global,
    listing: &Listing,
    writer: &mut Counted<W>,
) -> Result<(), PrintFault>
    ensures { PrintsLast listing.now (W.contents writer.old.inner) (W.contents writer.new.inner)
        writer.old.counts writer.new.counts result }
{
    let last = last_of(alloc, listing)?;
    match write_whole(writer, last.as_slice()) {
        Ok(()) => Ok(()),
        Err(_) => Err(PrintFault::Write),
    }
}

/// Prints the list of capture files, pcap or pcapng, as one, and then the counts: a line for each
/// packet of ports 137 and 138 of UDP, and of port 139 of TCP, that is wanted, and for what is left
/// out in its place. A packet of several segments or fragments stands where the last of them came.
///
/// Frames stand in the order of their times. One without a time comes first; of two with the same
/// time that of the file which was given later, as mergecap has them. Each file keeps its own
/// order. Of each file one frame is read ahead. Once there are as many lines as are wanted, no
/// further frame is read. Each line is written before the next frame is read. The writer isn't
/// flushed. What is held at once doesn't depend on how long the files are.
///
/// A file that can't be read further ends there, and its source says why; the others go on. The
/// frames before it are listed and counted.
///
/// # Errors
///
/// - [`PrintFault::Write`] where the writer failed, took nothing, or was interrupted 1,024 times in
///   a row.
/// - [`PrintFault::NoMemory`] where there was none for a text.
pub fn print_files<R: Read, W: Write>(
    alloc: Global,
    asked: Asked,
    sources: &mut [Source<R>],
    writer: &mut Counted<W>,
) -> Result<(), PrintFault>
    requires { AreUnread sources.old }
    ensures { Prints asked sources.old sources.new
        (W.contents writer.old.inner) (W.contents writer.new.inner)
        writer.old.counts writer.new.counts result }
{
    let mut progress = Progress::new(alloc, asked);
    match print_list(sources, writer, &mut progress) {
        Ok(()) => {}
        Err(fault) => return Err(fault),
    }
    progress.lister.listing.end(progress.traffic.unfinished());
    print_last(alloc, &progress.lister.listing, writer)
}
