//! What became of a segment.

/// What became of a segment that came.
#[derive(Clone, Copy, Debug, PartialEq, Eq)]
pub struct Taken {
    /// The place of its first byte.
    pub place: u64,
    /// How many bytes of its payload are taken, from the front on.
    pub count: usize,
    /// Whether one of its bytes came before with another value, at a place that is still known.
    pub differs: bool,
    /// Why not all bytes are taken, where they aren't.
    pub refusal: Option<Refusal>,
}

/// Why the rest of a segment isn't taken. It is as if it hadn't been captured.
#[derive(Clone, Copy, Debug, PartialEq, Eq)]
pub enum Refusal {
    /// There is no room for it.
    Full,
    /// Memory ran out.
    NoMemory,
}
