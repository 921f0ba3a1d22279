//! How fields get their tags, and the tag of a packet's kind (our choice).

use nb_telling::FieldTag;

/// The tag of this name, and what stands before its value in text: the name as in ` ttl=`, where
/// nothing else is said.
macro_rules! field_tag {
    ($name:literal) => {
        field_tag!($name, concat!(" ", $name, "="))
    };
    ($name:literal, $lead:expr) => {
        nb_telling::FieldTag {
            name: $name,
            lead: $lead,
        }
    };
}

pub(crate) use field_tag;

/// What a packet is, with which its line begins.
pub const KIND: FieldTag = field_tag!("kind", "");
