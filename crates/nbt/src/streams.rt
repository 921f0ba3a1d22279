//! The program over streams that are lent to it.
//!
//! A contract over a stream that holds a reference doesn't say which one it holds afterwards, so
//! each stream is moved out of its place and counted, and moved back once the run has ended.
ghost use Rattle.std.specs.Prelude.{◌≡◌, map, string_bytes};
ghost use Rattle.nbt.specs.Ending.{IsQuiet, Ends};

use crate::program::run_counted;
use core::mem::replace_with;
use nb_streams::Counted;
use nbt_usage::{Audience, Errors, Output};
use std::alloc::Global;
use std::io::{Read, Write};

/// What a run is given besides its streams.
#[derive(Clone, Copy)]
pub struct Call<'a> {
    /// The allocator.
    pub alloc: Global,
    /// The words, of which the first is the program's name.
    pub words: &'a [String],
    /// Who reads standard error.
    pub audience: Audience<'a>,
}

/// Runs the program over these streams, for those who read standard error.
pub fn run_for<R: Read, W: Write, E: Write>(
    call: Call<'_>,
    input: &mut R,
    output: &mut W,
    errors: &mut E,
) -> u8
    ensures runs { Ends (map string_bytes call.entry.words.now)
        (R.remaining input.old) (R.remaining input.new)
        (W.contents output.old) (W.contents output.new) result }
    ensures quiet { IsQuiet call.entry.audience result errors.old errors.new }
{
    let (code, output, errors) = replace_with(input, (call, output, errors), with_input);
    end(output, errors);
    code
}

/// Ends both loans at once, since the prover ties the one that is ended last to its lender. What
/// lies behind the references stays.
fn end<W, E>(_output: &mut W, _errors: &mut E)
    ensures output { _output.new ≡ _output.old }
    ensures errors { _errors.new ≡ _errors.old }
{}

/// Runs the program over an input of its own, which it gives back.
fn with_input<'a, R: Read, W: Write, E: Write>(
    input: R,
    rest: (Call<'_>, &'a mut W, &'a mut E),
) -> (R, (u8, &'a mut W, &'a mut E))
    ensures runs { Ends (map string_bytes rest.entry.0.words.now)
        (R.remaining input) (R.remaining result.0)
        (W.contents rest.entry.1.now) (W.contents result.1.1.now) result.1.0 }
    ensures quiet { IsQuiet rest.entry.0.audience result.1.0 rest.entry.2.now result.1.2.now }
    ensures same_output { result.1.1.ghost_name ≡ rest.entry.1.ghost_name }
    ensures same_errors { result.1.2.ghost_name ≡ rest.entry.2.ghost_name }
{
    let (call, output, errors) = rest;
    let (code, input, errors) = replace_with(output, (call, input, errors), with_output);
    (input, (code, output, errors))
}

/// Runs the program over an input and an output of its own, which it gives back.
fn with_output<'a, R: Read, W: Write, E: Write>(
    output: W,
    rest: (Call<'_>, R, &'a mut E),
) -> (W, (u8, R, &'a mut E))
    ensures runs { Ends (map string_bytes rest.entry.0.words.now)
        (R.remaining rest.entry.1) (R.remaining result.1.1)
        (W.contents output) (W.contents result.0) result.1.0 }
    ensures quiet { IsQuiet rest.entry.0.audience result.1.0 rest.entry.2.now result.1.2.now }
    ensures same_errors { result.1.2.ghost_name ≡ rest.entry.2.ghost_name }
{
    let (call, input, errors) = rest;
    let (code, input, output) = replace_with(errors, (call, input, output), with_errors);
    (output, (code, input, errors))
}

/// Runs the program over streams of its own, which it gives back.
fn with_errors<R: Read, W: Write, E: Write>(errors: E, rest: (Call<'_>, R, W)) -> (E, (u8, R, W))
    ensures runs { Ends (map string_bytes rest.entry.0.words.now)
        (R.remaining rest.entry.1) (R.remaining result.1.1)
        (W.contents rest.entry.2) (W.contents result.1.2) result.1.0 }
    ensures quiet { IsQuiet rest.entry.0.audience result.1.0 errors result.0 }
{
    let (call, input, output) = rest;
    let mut input = Counted::new(input);
    let mut output = Counted::new(output);
    let mut errors = Errors {
        output: Output::new(errors),
        audience: call.audience,
    };
    let status = run_counted(call.alloc, call.words, &mut input, &mut output, &mut errors);
    let Errors {
        output: Output { device },
        audience: _,
    } = errors;
    let left = (status.code(), input.into_inner(), output.into_inner());
    (device.into_inner(), left)
}
