//! Capture files, pcap and pcapng, read as they come.
#![tactic(auto)]

mod block;
mod clock;
mod context;
mod describing;
mod fault;
mod file_reading;
mod form;
mod frame;
pub mod laws;
pub mod limits;
mod numbers;
mod options;
mod part_reading;
mod section;

pub use clock::Clock;
pub use fault::FileFault;
pub use file_reading::{FileRoom, Standing, next_frame};
pub use form::{Form, Unit};
pub use frame::{Frame, Head};
pub use numbers::Order;
