//! Reassembly: what the fragments of a datagram say together.
#![tactic(auto)]

mod entries;
mod fault;
mod join;
mod keys;
pub mod laws;
mod saved;
mod table;

pub use fault::TableFault;
pub use join::{Join, join_all};
pub use keys::Keys;
pub use nb_entries::{
    Change, Cover, CoverFacts, Entry, EntryFacts, Handing, LoadFault, Outline, PlaceRange, Ranges,
    Slot, State,
};
pub use table::{Table, load, take_in_all};
