//! What the lines of the list leave to those that follow.
ghost use Rattle.std.specs.Prelude.{◌≡◌, ℕ, List, OnOk};
ghost use Rattle.nb_traffic.specs.Brought.{brought_value, packet_value};
ghost use Rattle.nbt_look.specs.Listing.{begun, cells_of, ended, listed, moment_at, nothing_listed};
ghost use Rattle.nbt_look.specs.Times.{IsTime};

use crate::asked::Asked;
use crate::counting::{Counts, Outcome};
use crate::ends::{keep_first, push_end, push_mark};
use crate::entries::{is_of_ports, lack_of};
use crate::objects::moment_of;
use crate::times::push_time;
use crate::widths::{Cells, Widths};
use nb_pcap::Frame;
use nb_streams::{Bytes, NoMemory, push_decimal};
use nb_traffic::{Brought, Packet, Unfinished};
use std::alloc::Global;

/// What the lines of the list leave to those that follow.
#[derive(Drop)]
pub struct Listing {
    /// What is asked of it.
    pub asked: Asked,
    /// The time of the first frame that has one, in nanoseconds since 1970.
    pub first: Option<u64>,
    /// The latest moment of a line, in milliseconds since that time.
    pub moment: u64,
    /// What the interface of the first line is called.
    pub interface: Option<Bytes>,
    /// The widths of the columns.
    pub widths: Widths,
    /// How many frames and lines there are, and what they have.
    pub counts: Counts,
    /// How many lines there are. The count stays at the greatest number.
    pub shown: u64,
}

impl Listing {
    /// Before the first frame, where this is asked. No memory is taken.
    pub fn new(asked: Asked) -> Listing
        ensures { result ≡ nothing_listed asked }
    {
        Listing {
            asked,
            first: None,
            moment: 0,
            interface: None,
            widths: Widths {
                number: 5,
                time: 9,
                source: 15,
                target: 15,
            },
            counts: Counts::new(),
            shown: 0,
        }
    }

    /// Takes the next frame, of this time, which brings this.
    pub fn begin(&mut self, time: Option<u64>, brought: &Brought<'_>)
        ensures { self.new ≡ begun self.old time (brought_value brought.now) }
    {
        self.first = self.first.or(time);
        self.counts
            .count_frame(is_of_ports(brought), lack_of(brought));
    }

    /// Takes the end of the capture, where these are unfinished; it isn't reached where there are
    /// as many lines as are wanted.
    pub fn end(&mut self, unfinished: Unfinished)
        ensures { self.new ≡ ended unfinished self.old }
    {
        if !self.asked.wanted.is_enough(self.shown) {
            self.counts.finish(unfinished);
        }
    }

    /// The moment of a frame of this time; of one without a time the latest moment of a line.
    pub fn moment_at(&self, time: Option<u64>) -> u64
        ensures { result ≡ moment_at self.now time }
    {
        moment_of(self.first, time).unwrap_or(self.moment)
    }

    /// Takes a line of this interface, at this time, with these cells, which counts so.
    pub fn list(
        &mut self,
        alloc: Global,
        label: &str,
        time: Option<u64>,
        cells: &Cells,
        outcome: Outcome,
    ) -> Result<(), NoMemory>
        ensures { OnOk result (self.new ≡ listed self.old label.now time cells.now outcome) }
    {
        keep_first(alloc, &mut self.interface, label)?;
        self.moment = self.moment.max(self.moment_at(time));
        self.widths = self.widths.widened(cells);
        self.counts.count(outcome);
        self.shown = self.shown.saturating_add(1);
        Ok(())
    }
}

/// Makes the cells those of a line of this frame about this packet.
pub fn set_cells(
    listing: &Listing,
    frame: &Frame<'_>,
    label: &str,
    packet: &Packet<'_>,
    cells: &mut Cells,
) -> Result<(), NoMemory>
    ensures { OnOk result ((at : List ℕ)
        × IsTime listing.now.asked.times listing.now.first frame.now.time at
        × (cells.new ≡ cells_of listing.now frame.now.number at label.now
        (packet_value packet.now))) }
{
    let (hosts, ports, service) = (packet.hosts, packet.ports, packet.service);
    cells.number.clear();
    push_decimal(frame.number, &mut cells.number)?;
    cells.time.clear();
    push_time(
        listing.asked.times,
        listing.first,
        frame.time,
        &mut cells.time,
    )?;
    cells.source.clear();
    push_end(hosts.source, ports.source, service, &mut cells.source)?;
    push_mark(&listing.interface, label, &mut cells.source)?;
    cells.target.clear();
    push_end(
        hosts.destination,
        ports.destination,
        service,
        &mut cells.target,
    )
}
