//! Members, which take payloads as a station of the network takes those that come to it.
#![tactic(auto)]

mod event_taking;
pub mod laws;
pub mod limits;
mod line_reports;
mod listing;
mod local_names;
mod member;
mod outcome;
mod pair;
mod replaying;
mod report;
mod settings;
mod tags;
mod timed_table;

pub use event_taking::{RunReport, RunStop, run};
pub use line_reports::tell_line;
pub use listing::{list_keys, list_objects, push_key_line, tell_key};
pub use local_names::{AddFault, LocalNames};
pub use member::Member;
pub use nb_capture::{
    CaptureOptions, Comments, Line, LineFault, LineReadFault, LineRoom, LineTaker,
    PrintFault as ReplayFault, capture_line, next_line, push_comment, take_lines,
};
pub use outcome::{Dropped, Event, MemberFault, Outcome};
pub use pair::{Pair, two_members};
pub use replaying::{Report, replay, replay_with};
pub use report::push_parts;
pub use settings::Settings;
