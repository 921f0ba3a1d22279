//! How `nbt` is used: its command line, its help, and what is reported of a refusal.
#![tactic(auto)]

mod advice;
mod command_forms;
mod command_line;
mod errors;
mod help;
mod hints;
pub mod laws;
mod limits;
mod mistakes;
mod output;
mod refusals;
mod signature;

pub use advice::{asked, print_advice, refusal_lines};
pub use command_forms::Subcommand;
pub use command_line::{ClapAnswer, command};
pub use errors::{Audience, Errors};
pub use hints::{print_dropped, print_hint, print_input, print_unhelped};
pub use output::Output;
pub use refusals::{REFUSALS, Refusal};
pub use signature::{Signature, SignatureInput, UNREAD};
