//! The files that are read, each as far as its next frame.
ghost use Rattle.std.specs.Prelude.{◌≡◌, ◌<◌, IfSome, MatchOption, length};
ghost use Rattle.nb_pcap.specs.Reading.{Numbered, last_of};
ghost use Rattle.nbt_look.specs.Listing.{so_far};
ghost use Rattle.nbt_look.specs.Merging.{comes_first};
ghost use Rattle.nbt_look.specs.Printing.{GivenAt, PrintsFrame};
ghost use Rattle.nbt_look.specs.Sources.{Fills, FillsAll, IsFirst, NoneFirst, earlier_of, time_in, unread};

use crate::printing::PrintFault;
use crate::progress::Progress;
use nb_pcap::{FileFault, FileRoom, Frame, next_frame};
use nb_streams::Counted;
use nb_streams::output::write_whole;
use std::alloc::Global;
use std::io::{Read, Write};
use std::marker::Model;

/// How the reading of a file ended.
#[derive(Clone, Copy)]
pub enum Ending {
    /// All of it was read.
    Whole,
    /// It can't be read further, for this fault, after so many frames, from this byte on.
    Stopped(FileFault, u64, u64),
}

/// What a file has to give next.
#[derive(Clone, Copy)]
pub enum Waiting {
    /// It isn't known.
    Unread,
    /// The frame that its room gave last, of this time.
    Frame(Option<u64>),
    /// Nothing: so its reading ended.
    Ended(Ending),
}

/// A file that is read, as one of several.
#[derive(Drop)]
pub struct Source<R: Read> {
    reader: Counted<R>,
    file: FileRoom,
    waiting: Waiting,
}

impl<R: Read> Model for Source<R> {
    ghost use Rattle.nbt_look.specs.Sources.{SourceValue};

    ghost Value = { SourceValue };

    ghost view = { λ s. record {
      known = R.remaining s.reader.inner;
      calls = s.reader.counts;
      file = s.file;
      waiting = s.waiting;
    } };
}

impl<R: Read> Source<R> {
    /// This input, of which nothing was read. No memory is taken.
    pub fn new(alloc: Global, input: R) -> Self
        ensures { result ≡ unread (R.remaining input) }
    {
        Source {
            reader: Counted::new(input),
            file: FileRoom::new(alloc),
            waiting: Waiting::Unread,
        }
    }

    /// Reads the next frame, where it isn't known what the file has to give.
    fn fill(&mut self)
        ensures { Fills self.old self.new }
    {
        match self.waiting {
            Waiting::Unread => {}
            Waiting::Frame(_) | Waiting::Ended(_) => return,
        }
        self.waiting = match next_frame(&mut self.file, &mut self.reader) {
            Ok(Some(frame)) => Waiting::Frame(frame.time),
            Ok(None) => Waiting::Ended(Ending::Whole),
            Err(fault) => {
                Waiting::Ended(Ending::Stopped(fault, self.file.frames(), self.file.place()))
            }
        };
    }

    /// Prints the text of the frame that the file has to give, as frame `number` of all.
    pub fn print<W: Write>(
        &mut self,
        number: u64,
        progress: &mut Progress,
        writer: &mut Counted<W>,
    ) -> Result<(), PrintFault>
        ensures given { GivenAt result self.old self.new }
        ensures prints { (found : Numbered) → last_of self.old.file ≡ Some found
            → PrintsFrame number found.frame (so_far progress.old) (so_far progress.new)
            (W.contents writer.old.inner) (W.contents writer.new.inner)
            writer.old.counts writer.new.counts result }
    {
        if let Some(frame) = self.file.last_frame() {
            progress.take(&Frame { number, ..frame })?;
        }
        self.waiting = Waiting::Unread;
        match write_whole(writer, progress.lister.printed()) {
            Ok(()) => Ok(()),
            Err(_) => Err(PrintFault::Write),
        }
    }

    /// What the file has to give next.
    pub fn waiting(&self) -> Waiting
        ensures { result ≡ self.now.waiting }
    {
        self.waiting
    }
}

/// Whether a frame of this time comes before one of the other time, which is of a file that was
/// given later.
fn comes_first(time: Option<u64>, other: Option<u64>) -> bool
    ensures { result ≡ comes_first time other }
{
    match (time, other) {
        (None, _) => true,
        (Some(_), None) => false,
        (Some(time), Some(other)) => time < other,
    }
}

/// The place and the time of the frame that comes first, where this one did so far, and a file that
/// was given later, at this place, has this to give.
fn earlier_of(
    first: Option<(usize, Option<u64>)>,
    at: usize,
    waiting: Waiting,
) -> Option<(usize, Option<u64>)>
    ensures { result ≡ earlier_of first at (time_in waiting) }
{
    let Waiting::Frame(time) = waiting else {
        return first;
    };
    match first {
        Some(best) if comes_first(best.1, time) => Some(best),
        _ => Some((at, time)),
    }
}

/// Reads the next frame of each file, where it isn't known what it has to give.
pub fn fill_all<R: Read>(sources: &mut [Source<R>])
    ensures { FillsAll sources.old sources.new }
{
    for source in sources.iter_mut() {
        source.fill();
    }
}

/// The place of the file whose frame comes first, where one has a frame to give.
pub fn first_of<R: Read>(sources: &[Source<R>]) -> Option<usize>
    ensures first { MatchOption result (NoneFirst sources.now) (IsFirst sources.now) }
    ensures within { IfSome result (λ at. at < length sources.now) }
{
    let mut first: Option<(usize, Option<u64>)> = None;
    for (at, source) in sources.iter().enumerate() {
        first = earlier_of(first, at, source.waiting());
    }
    match first {
        Some((at, _)) => Some(at),
        None => None,
    }
}
