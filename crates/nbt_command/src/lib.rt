//! What the commands of `nbt` share: how they end, what their options ask, and how they print, also
//! what each line of a capture says.
#![tactic(auto)]

mod fault;
pub mod laws;
mod objects;
mod options;
mod printing;
mod printing_lines;

pub use fault::{Fault, Status};
pub use objects::{Objects, bare};
pub use options::{input_limit_of, is_given, options_of};
pub use printing::print;
pub use printing_lines::{LineFields, print_lines};
