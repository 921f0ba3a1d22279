//! What is asked of a call that reads a capture.
use crate::comment_writing::Comments;

/// What is asked of a call that reads a capture and prints what it says.
#[derive(Clone, Copy, Debug, PartialEq, Eq)]
pub struct CaptureOptions {
    /// How many bytes the input may have.
    pub most: u64,
    /// Whether its comments are printed.
    pub comments: Comments,
}
