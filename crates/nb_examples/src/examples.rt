//! Lines `CALL WORDS = ANSWER`, taken one after another.

use crate::calls::answer;
use nb_examples_words::fault::ExampleFault;
use nb_examples_words::line::{Line, cut};
use std::alloc::Global;
use std::io::Write;

/// The examples made so far.
#[derive(Drop)]
pub struct Examples {
    /// How many there were.
    pub count: u64,
    /// How many of them had another answer.
    pub wrong: u64,
}

impl Examples {
    /// Takes in a line: makes its call, and prints it where the answer is another.
    ///
    /// # Errors
    ///
    /// [`ExampleFault::Write`] and [`ExampleFault::NoMemory`], where what there is to say of the
    /// line can't be said.
    pub fn take<W: Write>(
        &mut self,
        alloc: Global,
        line: &str,
        output: &mut W,
    ) -> Result<(), ExampleFault> {
        self.count = self.count.saturating_add(1);
        let difference = match difference(alloc, line) {
            Ok(None) => return Ok(()),
            Ok(Some(answered)) => format!(in alloc; "answered: {answered}")?,
            Err(fault) => format!(in alloc; "{fault}")?,
        };
        self.wrong = self.wrong.saturating_add(1);
        Ok(writeln!(output, "{line}\n    {difference}")?)
    }
}

/// What the call of an example answers, where that isn't what the example says.
fn difference(alloc: Global, example: &str) -> Result<Option<String>, ExampleFault> {
    let (asked, wanted) = example.split_once(" = ").ok_or(ExampleFault::NoExample)?;
    let (call, words) = cut(asked, " ");
    let mut line = Line::new(alloc, words);
    answer(&mut line, call);
    if line.begins_again(words) {
        answer(&mut line, call);
    }
    let said = line.finish()?;
    match said.as_str() == wanted {
        true => Ok(None),
        false => Ok(Some(said)),
    }
}
