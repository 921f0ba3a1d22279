//! Captures as text: lines as they come from an input, and what each says.
#![tactic(auto)]

mod capture;
mod comment_writing;
mod fault;
pub mod laws;
pub mod limits;
mod line;
mod line_printing;
mod line_reading;
mod line_room;
mod line_taking;
mod line_writing;
mod options;

pub use capture::capture_line;
pub use comment_writing::{Comments, push_comment, push_comment_bytes};
pub use fault::{CaptureFault, LineFault, LineReadFault, PrintFault};
pub use line::Line;
pub use line_printing::{LineText, print_lines};
pub use line_reading::{next_from, next_line};
pub use line_room::LineRoom;
pub use line_taking::{LineTaker, take_lines};
pub use line_writing::{push_packet, push_tick};
pub use options::CaptureOptions;
