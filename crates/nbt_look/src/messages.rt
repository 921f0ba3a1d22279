//! What is said on standard error where nothing is shown.

use std::io::Write;

/// The status of a bad command line.
pub const BAD_USAGE: u8 = 2;

/// The status of what failed.
pub const FAILED: u8 = 3;

/// Says why nothing was done.
pub fn fail(rt: &HostRuntime, why: &str) -> u8 {
    let mut errors = rt.stderr();
    let _ = writeln!(errors, "nbt-look: {why}");
    FAILED
}

/// Says what is wrong with a file or a word of the command line, and answers this exit status.
pub fn refuse(rt: &HostRuntime, subject: &str, why: &str, status: u8) -> u8 {
    let mut errors = rt.stderr();
    let _ = writeln!(errors, "nbt-look: {subject}: {why}");
    status
}
