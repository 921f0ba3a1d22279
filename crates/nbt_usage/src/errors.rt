//! Standard error: what is reported there, and who reads it.
ghost use Rattle.std.specs.Prelude.{◌≡◌, None, OnOk};
ghost use Rattle.std.specs.Io.KnownBytes.{Appends};
ghost use Rattle.nbt_command.specs.FaultTexts.{fault_line};

use crate::output::Output;
use crate::signature::Signature;
use nbt_command::{Fault, print};
use std::cell::Cell;
use std::io::{self, Write};

/// Who reads standard error.
#[derive(Clone, Copy)]
pub enum Audience<'a> {
    /// Programs: a fault is one line.
    Programs,
    /// A person at a terminal, who gets advice too; and what the input began with.
    Person(&'a Cell<Signature>),
}

/// Standard error, and those who read it.
#[derive(Drop)]
pub struct Errors<'a, E> {
    /// The device.
    pub output: Output<E>,
    /// Who reads what it gets.
    pub audience: Audience<'a>,
}

impl<'a, E> Errors<'a, E> {
    /// What the input began with, where a person reads this.
    pub(crate) fn signature(&self) -> Option<Signature>
        ensures { self.now.audience ≡ Audience.Programs → result ≡ None }
    {
        match self.audience {
            Audience::Programs => None,
            Audience::Person(signature) => Some(signature.get()),
        }
    }

    /// Prints a text, as far as the device takes it.
    pub(crate) fn tell(&mut self, text: &str)
    where
        E: Write,
    {
        let _ = print(&mut self.output.device, text.as_bytes());
    }

    /// Prints a fault, as a line.
    ///
    /// # Errors
    ///
    /// That of the device. A front of the line may be written then.
    pub fn print_fault(&mut self, fault: Fault) -> io::Result<()>
    where
        E: Write,
        ensures printed { OnOk result (Appends (E.contents self.old.output.device.inner)
            (E.contents self.new.output.device.inner) (fault_line fault)) }
        ensures audience { self.new.audience ≡ self.old.audience }
    {
        writeln!(self.output, "nbt: {fault}")
    }
}
