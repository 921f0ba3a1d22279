//! Printing something of each line of a capture, as it comes, and the fields of such lines.
ghost use Rattle.std.specs.Prelude.{◌≡◌, ℕ, List, Err, OnOk};
ghost use Rattle.std.specs.Io.KnownBytes.{Consumes};
ghost use Rattle.nb_streams.specs.Devices.{ShowsUnread};
ghost use Rattle.nb_capture.specs.LinePrinting.{Shows, TellsLine};
ghost use Rattle.nbt_command.specs.Lines.{EndsWith};
ghost use Rattle.nbt_command.specs.Printing.{ExplainsWrite};
ghost use Rattle.nbt_command.specs.Objects.{TellsFields};

use crate::fault::Fault;
use nb_capture::{CaptureOptions, Line, LineText};
use nb_streams::{Counted, NoMemory};
use nb_telling::Sink;
use std::alloc::Global;
use std::io::{Read, Write};

/// Prints the texts of the lines of an input, each as it comes.
///
/// # Errors
///
/// The first that is met: [`Fault::Write`] where a line can't be written, [`Fault::Line`] for a
/// malformed line, [`Fault::Read`] where the input couldn't be read to its end, [`Fault::Memory`]
/// where memory ran out. What stands before it is printed.
pub fn print_lines<R: Read, W: Write, T: LineText + Drop>(
    alloc: Global,
    mut lines: T,
    options: CaptureOptions,
    input: &mut Counted<R>,
    output: &mut Counted<W>,
) -> Result<(), Fault>
    ensures printed { (bytes : List ℕ) ×
        Consumes (R.remaining input.old.inner) (R.remaining input.new.inner) bytes ×
        ((result ≡ Err Fault.Read →
        ShowsUnread options.most bytes input.old.counts input.new.counts) ×
        ((last : T.State) × EndsWith (Shows (TellsLine (T.is_text options.comments)) T.may_leave
        options.most bytes (R.remaining input.new.inner) (T.state lines) last
        (W.contents output.old.inner) (W.contents output.new.inner)) result)) }
    ensures why { ExplainsWrite result output.old.counts output.new.counts }
{
    nb_capture::print_lines(alloc, options, input, output, &mut lines)?;
    Ok(())
}

/// The fields of what each line of a capture says.
pub trait LineFields {
    ghost use Rattle.std.specs.Prelude.{List};
    ghost use Rattle.nb_capture.specs.declared.line.Line.{Line};
    ghost use Rattle.nb_telling.specs.Telling.{Field};

    // What stands from line to line.
    ghost State: { Type 0 };

    ghost state: { Self → State };

    // Which fields are told of what a line says, and what stands then.
    ghost are_fields: { Line → State → State → List Field → Type 0 };

    /// Tells the fields of what a line says.
    ///
    /// # Errors
    ///
    /// [`NoMemory`] where memory ran out.
    fn tell<S: Sink>(&mut self, said: &Line, sink: &mut S) -> Result<(), NoMemory>
        ensures told { OnOk result
            (TellsFields (are_fields said.now (state self.old) (state self.new)) S.after
            (S.seen sink.old) (S.seen sink.new)) };
}
