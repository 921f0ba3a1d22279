//! Entries: what is known of one datagram, and its saved form. No table is known here.
#![tactic(auto)]

mod cover;
mod entry;
pub mod laws;
mod outline;
mod piece;
mod ranges;
pub mod saved;
mod slot;

pub use cover::{Cover, CoverFacts};
pub use entry::{Entry, EntryFacts};
pub use outline::{Change, Handing, Outline, State};
pub use piece::Piece;
pub use ranges::{PlaceRange, Ranges};
pub use saved::LoadFault;
pub use slot::{Facts, Slot};
