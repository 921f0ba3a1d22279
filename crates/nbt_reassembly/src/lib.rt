//! The commands of `nbt` on the reassembly of datagrams: `replay`, `save`, `merge`, `list` and
//! `agree`.
#![tactic(auto)]

mod agree;
mod capacity;
mod list;
mod merge;
mod replay;
mod save;
mod tables;

pub use agree::run_agree;
pub use list::run_list;
pub use merge::run_merge;
pub use replay::run_replay;
pub use save::run_save;
