//! What became of a segment.
ghost use Rattle.std.specs.Prelude.{◌≡◌, Some};

/// What became of a segment.
#[derive(Clone, Copy, Debug, PartialEq, Eq)]
pub struct Taken {
    /// What is left out with it, where something is.
    pub left_out: Option<LeftOut>,
    /// Whether one of its bytes came before with another value, at a place that is still known. The
    /// byte that came first counts.
    pub differs: bool,
}

impl Taken {
    /// So many bytes are left out.
    pub(crate) fn left_out(reason: Reason, count: usize, differs: bool) -> Taken
        ensures { result ≡ record {
          left_out = Some (record { reason = reason; count = count });
          differs = differs;
        } }
    {
        Taken {
            left_out: Some(LeftOut { reason, count }),
            differs,
        }
    }
}

/// Bytes that are in no packet.
#[derive(Clone, Copy, Debug, PartialEq, Eq)]
pub struct LeftOut {
    /// Why.
    pub reason: Reason,
    /// How many bytes.
    pub count: usize,
}

/// Why bytes are left out.
#[derive(Clone, Copy, Debug, PartialEq, Eq)]
pub enum Reason {
    /// After a gap in TCP.
    Gap,
    /// After a header that no session packet has.
    BadHeader,
    /// The start of its direction isn't in the file, and it is too short to begin one.
    NoStart,
    /// It comes with RST.
    Reset,
    /// There are too many directions.
    TooMany,
}
