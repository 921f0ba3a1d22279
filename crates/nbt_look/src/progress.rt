//! The frames of a capture, one after another: what they leave to those that follow.
ghost use Rattle.std.specs.Prelude.{OnOk};
ghost use Rattle.nb_pcap.specs.Frame.{value_of};
ghost use Rattle.nbt_look.specs.Listing.{IsBeginning, Lists, so_far, text_in};

use crate::asked::Asked;
use crate::lister::Lister;
use nb_pcap::Frame;
use nb_streams::NoMemory;
use nb_traffic::{Room, Traffic};
use std::alloc::Global;

/// What the frames so far leave to those that follow, and the text of the last one.
#[derive(Drop)]
pub struct Progress {
    /// What is kept of streams and fragments.
    pub traffic: Traffic,
    /// Room for what a frame brings.
    room: Room,
    /// The list.
    pub lister: Lister,
}

impl Progress {
    /// Before the first frame, where this is asked. No memory is taken.
    pub fn new(alloc: Global, asked: Asked) -> Progress
        ensures { IsBeginning asked (so_far result) }
    {
        Progress {
            traffic: Traffic::new(alloc),
            room: Room::new(alloc),
            lister: Lister::new(alloc, asked),
        }
    }

    /// Takes the next frame, and makes its text.
    ///
    /// # Errors
    ///
    /// [`NoMemory`] where memory ran out.
    pub fn take(&mut self, frame: &Frame<'_>) -> Result<(), NoMemory>
        ensures { OnOk result (Lists frame.now.number (value_of frame.now) (so_far self.old)
            (so_far self.new) (text_in self.new.lister)) }
    {
        let lent = *frame;
        let brought = self.traffic.take(&lent, &mut self.room)?;
        self.lister.make(frame, &brought)
    }
}
