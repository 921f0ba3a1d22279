//! NetBIOS names: labels, domain names, scopes, and the text that people write names in.
#![tactic(auto)]

mod domain_name;
mod fault;
mod kept_name;
pub mod laws;
mod length_byte;
mod lent_name;
pub mod limits;
mod name;
mod reading;
mod spellings;
mod text_reading;
mod text_steps;
mod text_writing;
mod walking;

pub use domain_name::{DomainName, LentDomain, write_domain};
pub use fault::{LabelFault, NameFault, TextFault};
pub use kept_name::KeptName;
pub use lent_name::{LentName, NameForm, push_lent_name, read_lent_name};
pub use name::{Name, NotNetbios, Scope};
pub use nb_streams::{Bytes, Counted, NoMemory};
pub use reading::{NameReader, Pointers, Skipped, read_domain, read_name};
pub use text_reading::name_from_text;
pub use text_writing::{domain_text, name_text, push_domain, push_name};
