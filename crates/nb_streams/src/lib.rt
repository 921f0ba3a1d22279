//! Bytes that come and go: lists, streams whose calls are counted, inputs, outputs, lines, and the
//! numbers and digits in them.
#![tactic(auto)]

mod bytes;
mod counted;
mod fault;
mod hexadecimal;
pub mod input;
pub mod laws;
pub mod limits;
pub mod lines;
pub mod numbers;
pub mod output;
mod parts_writing;
mod room;

pub use bytes::{Bytes, Items, NoMemory};
pub use counted::{Counted, Told};
pub use fault::{DeviceFault, RoomFault};
pub use hexadecimal::{DigitsFault, byte_of_pair, bytes_of_digits, data_in, data_of_text};
pub use parts_writing::{
    ascii_str, pair_of, push_address, push_ascii, push_data, push_decimal, push_digits, push_shown,
    push_word_digits,
};
pub use room::Room;
