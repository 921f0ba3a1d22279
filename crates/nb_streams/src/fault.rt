//! Why a device is given up.

use thiserror::Error;

/// A call of a device failed, a write took no byte, or 1,024 calls in a row were interrupted.
#[derive(Clone, Copy, Debug, PartialEq, Eq, Error)]
#[error("device")]
pub struct DeviceFault;

/// Why a room got no more bytes of its input.
#[derive(Clone, Copy, Debug, PartialEq, Eq)]
pub enum RoomFault {
    /// A read failed, reads were interrupted 1,024 times in a row, or the input is too long.
    Read,
    /// Memory ran out.
    NoMemory,
}
