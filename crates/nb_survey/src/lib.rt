//! What the packets of a capture say of names: the tables of a summary.
#![tactic(auto)]

mod heard;
mod hearing;
mod key;
pub mod laws;
pub mod limits;
mod query;
mod query_row;
mod requests;
mod row;
mod rows;
mod saying;
mod survey;
mod word;

pub use heard::{Facts, Frame, Heard, Listed, Place, Said};
pub use hearing::hear;
pub use key::{Key, Reason};
pub use query::{Outcome, Query, Reply};
pub use query_row::{QueryRow, frames_of, is_known, row_of};
pub use row::{Half, Row, Tally, are_several, macs_differ};
pub use saying::say;
pub use survey::Survey;
pub use word::{Asking, Word, word_of};
