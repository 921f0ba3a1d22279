//! The lines of the list, one after another.
ghost use Rattle.std.specs.Prelude.{◌≡◌, ◌++◌, ℕ, List, OnOk, option_map, string_bytes};
ghost use Rattle.nb_pcap.specs.Frame.{value_of};
ghost use Rattle.nb_traffic.specs.Brought.{brought_value, packet_value, segment_value};
ghost use Rattle.nbt_look.specs.CaptureText.{capture_text};
ghost use Rattle.nbt_look.specs.Columns.{line_text, widened};
ghost use Rattle.nbt_look.specs.Entries.{AreSession, EntryValue, as_list, differing_in, entry_value, lost_of};
ghost use Rattle.nbt_look.specs.Listing.{Adds, AddsLine, HasLine, Keeps, ListsBrought, Shows, moment_at, nothing_listed, text_in};
ghost use Rattle.nbt_look.specs.Objects.{IsPacketObject};
ghost use Rattle.nbt_look.specs.Times.{IsTime};

use crate::asked::{Asked, Form, Layout};
use crate::capture_text::push_capture;
use crate::choosing::is_wanted;
use crate::colours::colour_of_packet;
use crate::counting::Outcome;
use crate::ends::push_label;
use crate::entries::{Entry, differing_in, fragment_entry, lost_in, packet_entry, session_entry};
use crate::listing::{Listing, set_cells};
use crate::objects::{Shown, packet_object};
use crate::standing::{outcome_in, push_said};
use crate::widths::{Cells, push_line};
use nb_pcap::Frame;
use nb_session::{Parsed, parse_lent};
use nb_streams::NoMemory;
use nb_telling::JsonRoom;
use nb_traffic::{Brought, Packet, Segment};
use std::alloc::Global;
use std::mem;

/// The lines of a frame, and what the lines before leave to it. The memory of texts is used again.
#[derive(Drop)]
pub struct Lister {
    alloc: Global,
    /// What the lines so far leave.
    pub listing: Listing,
    cells: Cells,
    label: String,
    phrase: String,
    scratch: String,
    line: String,
    room: JsonRoom,
    /// What is printed of the frame that came last.
    text: Vec<u8>,
}

impl Lister {
    /// Before the first frame, where this is asked. No memory is taken.
    pub fn new(alloc: Global, asked: Asked) -> Lister
        ensures { result.listing ≡ nothing_listed asked }
    {
        Lister {
            alloc,
            listing: Listing::new(asked),
            cells: Cells {
                number: String::new(alloc),
                time: String::new(alloc),
                source: String::new(alloc),
                target: String::new(alloc),
            },
            label: String::new(alloc),
            phrase: String::new(alloc),
            scratch: String::new(alloc),
            line: String::new(alloc),
            room: JsonRoom::new(alloc),
            text: Vec::new(alloc),
        }
    }

    /// What is printed of the frame that came last.
    pub fn printed(&self) -> &[u8]
        ensures { result.now ≡ text_in self.now }
    {
        self.text.as_slice()
    }

    /// Makes the text of the next frame, which brings this: a line for each packet of the services
    /// that it completes, and one where something is left out, as far as they are wanted.
    ///
    /// # Errors
    ///
    /// [`NoMemory`] where memory ran out.
    pub fn make(&mut self, frame: &Frame<'_>, brought: &Brought<'_>) -> Result<(), NoMemory>
        ensures { OnOk result (ListsBrought frame.now.number (value_of frame.now)
            (brought_value brought.now) self.old.listing self.new.listing (text_in self.new)) }
    {
        self.text.clear();
        self.listing.begin(frame.time, brought);
        match brought {
            Brought::Datagram(packet) => self.add(frame, &packet_entry(frame, packet)),
            Brought::Segment(segment) => self.add_segment(frame, segment),
            Brought::NoFragment(hosts, fault) => self.add(frame, &fragment_entry(*hosts, *fault)),
            Brought::Fragment => Ok(()),
            Brought::OtherPorts => Ok(()),
            Brought::Unread(_) => Ok(()),
        }
    }

    /// Adds the lines of a segment: of the packets that it completes, and of what is left out.
    fn add_segment(&mut self, frame: &Frame<'_>, segment: &Segment<'_>) -> Result<(), NoMemory>
        ensures { OnOk result ((packets : List EntryValue)
            × AreSession (segment_value segment.now) packets
            × Adds frame.now.number (value_of frame.now)
            (packets ++ (as_list (lost_of (segment_value segment.now) segment.now.left_out)
            ++ as_list (differing_in (segment_value segment.now)))) self.old.listing
            self.new.listing (text_in self.old) (text_in self.new)) }
    {
        self.add_packets(frame, segment)?;
        self.add_some(frame, lost_in(segment))?;
        self.add_some(frame, differing_in(segment))
    }

    /// Adds the line about this, where there is something.
    fn add_some(&mut self, frame: &Frame<'_>, about: Option<Entry<'_>>) -> Result<(), NoMemory>
        ensures { OnOk result (Adds frame.now.number (value_of frame.now)
            (as_list (option_map entry_value about.entry)) self.old.listing self.new.listing
            (text_in self.old) (text_in self.new)) }
    {
        match about {
            Some(entry) => self.add(frame, &entry),
            None => Ok(()),
        }
    }

    /// Adds the lines of the session packets that a segment completes.
    fn add_packets(&mut self, frame: &Frame<'_>, segment: &Segment<'_>) -> Result<(), NoMemory>
        ensures { OnOk result ((packets : List EntryValue)
            × AreSession (segment_value segment.now) packets
            × Adds frame.now.number (value_of frame.now) packets self.old.listing
            self.new.listing (text_in self.old) (text_in self.new)) }
    {
        let mut rest = segment.packets;
        'packets: loop {
            match parse_lent(rest) {
                Parsed::Whole(_, used) => {
                    self.add(frame, &session_entry(segment, &rest[..used]))?;
                    rest = &rest[used..];
                }
                Parsed::More(_) => return Ok(()),
                Parsed::Refused(_) => return Ok(()),
            }
        }
    }

    /// Adds the line about this, where it is wanted.
    fn add(&mut self, frame: &Frame<'_>, entry: &Entry<'_>) -> Result<(), NoMemory>
        ensures { OnOk result (AddsLine frame.now.number (value_of frame.now)
            (entry_value entry.now) self.old.listing self.new.listing (text_in self.old)
            (text_in self.new)) }
    {
        self.phrase.clear();
        push_said(entry.standing, frame, &entry.packet, &mut self.phrase)?;
        let outcome = outcome_in(entry.standing, self.phrase.as_str());
        let (filter, shown) = (&self.listing.asked.wanted, self.listing.shown);
        if is_wanted(self.alloc, filter, shown, &entry.packet, outcome)? {
            return self.add_line(frame, entry, outcome);
        }
        self.listing.counts.count(outcome);
        Ok(())
    }

    /// Adds the line about this, of which the phrase is made, and which counts so.
    fn add_line(
        &mut self,
        frame: &Frame<'_>,
        entry: &Entry<'_>,
        outcome: Outcome,
    ) -> Result<(), NoMemory>
        ensures { OnOk result ((at : List ℕ) × (text : List ℕ)
            × IsTime self.old.listing.asked.times self.old.listing.first frame.now.time at
            × HasLine self.old.listing at frame.now.number (value_of frame.now)
            (entry_value entry.now) outcome (string_bytes self.old.phrase) self.new.listing text
            × (text_in self.new ≡ text_in self.old ++ text)) }
    {
        self.label.clear();
        push_label(frame.interface, frame.name, &mut self.label)?;
        set_cells(
            &self.listing,
            frame,
            self.label.as_str(),
            &entry.packet,
            &mut self.cells,
        )?;
        self.show(frame, entry, outcome)?;
        self.listing.list(
            self.alloc,
            self.label.as_str(),
            frame.time,
            &self.cells,
            outcome,
        )
    }

    /// Adds the text of the line about this, which counts so, and of which the cells and the phrase
    /// are made.
    fn show(
        &mut self,
        frame: &Frame<'_>,
        entry: &Entry<'_>,
        outcome: Outcome,
    ) -> Result<(), NoMemory>
        ensures kept { Keeps self.old self.new }
        ensures shown { OnOk result ((text : List ℕ)
            × Shows self.old.listing.asked.form self.old.listing self.old.cells frame.now.number
            (value_of frame.now) (entry_value entry.now) outcome (string_bytes self.old.phrase) text
            × (text_in self.new ≡ text_in self.old ++ text)) }
    {
        match self.listing.asked.form {
            Form::Lines => self.show_line(""),
            Form::Colours => {
                let (bytes, service) = (entry.packet.bytes, entry.packet.service);
                self.show_line(colour_of_packet(outcome, service, bytes))
            }
            Form::Objects => self.show_object(frame, entry),
            Form::Capture(layout) => self.show_capture(layout, frame.time, &entry.packet, outcome),
        }
    }

    /// Adds what the text of a capture has of this packet, which counts so.
    fn show_capture(
        &mut self,
        layout: Layout,
        time: Option<u64>,
        packet: &Packet<'_>,
        outcome: Outcome,
    ) -> Result<(), NoMemory>
        ensures kept { Keeps self.old self.new }
        ensures shown { OnOk result (text_in self.new ≡ text_in self.old ++ capture_text layout
            self.old.listing.moment (moment_at self.old.listing time) self.old.cells
            (packet_value packet.now) outcome (string_bytes self.old.phrase)) }
    {
        let (last, moment) = (self.listing.moment, self.listing.moment_at(time));
        self.line.clear();
        push_capture(
            layout,
            last,
            moment,
            &self.cells,
            packet,
            outcome,
            self.phrase.as_str(),
            &mut self.scratch,
            &mut self.line,
        )?;
        self.text.extend_from_slice(self.line.as_bytes())?;
        Ok(())
    }

    /// Adds a line in this colour.
    fn show_line(&mut self, colour: &str) -> Result<(), NoMemory>
        ensures kept { Keeps self.old self.new }
        ensures shown { OnOk result (text_in self.new ≡ text_in self.old ++ line_text colour.now
            (widened self.old.listing.widths self.old.cells) self.old.cells
            (string_bytes self.old.phrase)) }
    {
        let widths = self.listing.widths.widened(&self.cells);
        let phrase = self.phrase.as_str();
        self.line.clear();
        push_line(colour, widths, &self.cells, phrase, &mut self.line)?;
        self.text.extend_from_slice(self.line.as_bytes())?;
        Ok(())
    }

    /// Adds an object.
    fn show_object(&mut self, frame: &Frame<'_>, entry: &Entry<'_>) -> Result<(), NoMemory>
        ensures kept { Keeps self.old self.new }
        ensures shown { OnOk result ((text : List ℕ)
            × IsPacketObject frame.now.number (value_of frame.now) (entry_value entry.now)
            self.old.listing.first self.old.cells.time (string_bytes self.old.phrase) text
            × (text_in self.new ≡ text_in self.old ++ text)) }
    {
        let room = mem::replace(&mut self.room, JsonRoom::new(self.alloc));
        let shown = Shown {
            first: self.listing.first,
            time: self.cells.time.as_str(),
            phrase: self.phrase.as_str(),
        };
        self.room = packet_object(frame, entry, &shown, &mut self.scratch, room)?;
        self.text.extend_from_slice(self.room.as_slice())?;
        Ok(())
    }
}
