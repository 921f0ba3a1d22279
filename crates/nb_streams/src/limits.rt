//! The limits of devices, each with its unit.

/// The most bytes of an input that are looked at: 16 MiB (our choice).
pub const MAX_INPUT: usize = 16_777_216;

/// The interrupts in a row after which a reader or a writer is given up (our choice).
pub const MAX_INTERRUPTS: u32 = 1_024;

/// The most bytes that one read into a [`Room`](crate::Room) asks for (our choice).
pub const MAX_READ: usize = 4_096;
