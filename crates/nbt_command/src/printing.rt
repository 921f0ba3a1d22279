//! Printing bytes on the output of a command.
ghost use Rattle.std.specs.Prelude.{◌≡◌, OnOk, OnErr, IfErr};
ghost use Rattle.std.specs.Io.KnownBytes.{Appends};
ghost use Rattle.nb_streams.specs.Devices.{AppendsFront, GrowTo, ShowsWriteFault};

use crate::fault::Fault;
use nb_streams::Counted;
use nb_streams::output::write_whole;
use std::io::Write;

/// Writes all the bytes.
///
/// # Errors
///
/// [`Fault::Write`] where a write failed, took no byte, or was interrupted 1,024 times in a row. A
/// front of the bytes is written then.
pub fn print<W: Write>(output: &mut Counted<W>, bytes: &[u8]) -> Result<(), Fault>
    ensures printed { OnOk result
        (Appends (W.contents output.old.inner) (W.contents output.new.inner) bytes.now) }
    ensures fault { IfErr result (λ fault. fault ≡ Fault.Write) }
    ensures err { OnErr result (AppendsFront (W.contents output.old.inner)
        (W.contents output.new.inner) bytes.now) }
    ensures grow { GrowTo output.old.counts output.new.counts }
    ensures why { OnErr result (ShowsWriteFault output.old.counts output.new.counts) }
{
    write_whole(output, bytes).or(Err(Fault::Write))
}
