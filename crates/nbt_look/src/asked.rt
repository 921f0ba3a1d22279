//! What is asked of the list.

use crate::wanted::Filter;

/// How the times of frames are shown.
#[derive(Clone, Copy)]
pub enum Times {
    /// Seconds since the first frame that has a time.
    Since,
    /// Date and time of day in UTC.
    Utc,
}

/// How packets are shown.
#[derive(Clone, Copy)]
pub enum Form {
    /// As lines.
    Lines,
    /// As lines, some of which have colours.
    Colours,
    /// As JSON objects.
    Objects,
    /// As the text of a capture.
    Capture(Layout),
}

/// What stands in the text of a capture.
#[derive(Clone, Copy)]
pub struct Layout {
    /// Whether payloads come without a comment on their frame.
    pub is_bare: bool,
    /// Whether the ticks of a clock stand between them.
    pub has_ticks: bool,
    /// Whether what the snap length left of a payload comes too.
    pub has_cut: bool,
}

/// What is asked of the list.
#[derive(Drop)]
pub struct Asked {
    /// Which packets have a line.
    pub wanted: Filter,
    /// How times are shown.
    pub times: Times,
    /// How packets are shown.
    pub form: Form,
    /// Whether counts follow the list.
    pub has_counts: bool,
}
