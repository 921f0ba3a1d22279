//! The keys of the fields of a report and of a listing, as specs/Tags has them (our choice).

use nb_telling::FieldTag;

/// The key of this name, before whose value this stands in text.
macro_rules! field_tag {
    ($name:literal, $lead:literal) => {
        FieldTag {
            name: $name,
            lead: $lead,
        }
    };
}

// Of a report; a line's number stands before it.
pub const OUTCOME: FieldTag = field_tag!("outcome", "");

pub const COUNT: FieldTag = field_tag!("count", " ");

pub const REFUSED: FieldTag = field_tag!("refused", "refused ");

pub const ERROR: FieldTag = field_tag!("error", " error ");

// Of both.
pub const KEY: FieldTag = field_tag!("key", " ");

pub const KIND: FieldTag = field_tag!("kind", " ");

pub const SOURCE: FieldTag = field_tag!("source", " ");

pub const DESTINATION: FieldTag = field_tag!("destination", " ");

pub const DATA: FieldTag = field_tag!("data", " ");

// Of a listing, whose lines begin with the key.
pub const LISTED: FieldTag = field_tag!("key", "");

pub const STATE: FieldTag = field_tag!("state", " ");

pub const HELD: FieldTag = field_tag!("held", " ");

pub const END: FieldTag = field_tag!("end", "/");

pub const RUNS: FieldTag = field_tag!("runs", " ");

pub const MORE: FieldTag = field_tag!("more", " more ");
