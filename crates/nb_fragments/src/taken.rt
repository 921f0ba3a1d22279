//! What a fragment made of its packet.
use nb_streams::Bytes;

/// What a fragment made of its packet.
#[derive(Drop)]
pub enum Taken {
    /// The packet became whole: what its fragments make, once.
    Whole(Bytes),
    /// The packet isn't whole yet.
    Kept,
    /// The packet was whole before.
    Again,
    /// The fragment, or one before it, contradicts another: nothing is made of them.
    Disagrees,
    /// The fragment isn't kept.
    LeftOut(Refusal),
}

/// Why a fragment isn't kept.
#[derive(Clone, Copy, Debug, PartialEq, Eq)]
pub enum Refusal {
    /// Some of its bytes aren't captured.
    Cut,
    /// It reaches past the 65,535 bytes that a packet may have.
    TooLong,
    /// It is the first of its packet, or says more of it, and there is no room for it.
    TooMany,
}
