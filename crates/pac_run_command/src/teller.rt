//! Where the program tells why it doesn't do its work.

ghost use Rattle.std.specs.Prelude.{ℕ, List, Result, ⊤};
ghost use Rattle.clap.specs.Words.{kind_of};
ghost use Rattle.clap.specs.declared.error.kind.ErrorKind.{ErrorKind};
ghost use Rattle.pac_run.specs.WriteFault.{WriteFault};
ghost use Rattle.pac_run_command.specs.Failures.{message};

use crate::failure::Failure;
use pac_run::{Counted, Out, Through, WriteFault};
use std::fmt::Write;
use std::{fmt, io};

/// Where the program tells why it doesn't do its work.
///
/// A teller says by relations what is left when a line was told, and when `clap` told of words of some kind.
pub trait Teller {
    /// What is left where this line was told.
    ghost tells: { Self → List ℕ → Self → Type 0 };

    /// What is left where `clap` told a fault of this kind, or the help that was asked for, by whether that was written.
    ghost explains: { Self → ErrorKind → Result Unit WriteFault → Self → Type 0 };

    /// Tells the line of a failure.
    fn tell(&mut self, failure: &Failure)
        ensures { tells self.old (message failure.now) self.new };

    /// Tells what `clap` has to say of words. The fault has the count of the bytes that were written of it.
    fn explain(&mut self, error: &clap::Error) -> Result<(), WriteFault>
        ensures { explains self.old (kind_of error.now) result self.new };
}

/// A file that takes what values print as.
#[derive(Drop)]
struct Formatted<W> {
    file: Counted<W>,
}

impl<W: Out> fmt::Write for Formatted<W> {
    /// Writes a piece of a value that is printed.
    fn write_str(&mut self, text: &str) -> fmt::Result {
        match self.file.put(text.as_bytes()) {
            Ok(()) => Ok(()),
            Err(_) => Err(fmt::Error),
        }
    }
}

/// The console of the machine that the program runs on, of which no contract says what it shows.
#[derive(Clone, Copy)]
pub struct HostConsole<'a, C> {
    /// The console.
    pub console: &'a C,
}

impl<C: Print + Eprint> Teller for HostConsole<'_, C> {
    ghost tells = { λ old line new. ⊤ };

    ghost explains = { λ old kind written new. ⊤ };

    /// Prints the line of a failure, and a line feed, on standard error.
    fn tell(&mut self, failure: &Failure) {
        let _ = eprintln!(self.console; "{failure}");
    }

    /// Prints a fault on standard error, as far as that takes it, and help on standard output.
    fn explain(&mut self, error: &clap::Error) -> Result<(), WriteFault> {
        if error.use_stderr() {
            let _ = error.print(self.console);
            return Ok(());
        }
        let mut output = Formatted {
            file: Counted::new(Through {
                inner: io::writer(self.console),
            }),
        };
        match write!(output, "{error}") {
            Ok(()) => Ok(()),
            Err(_) => output.file.check_open(),
        }
    }
}
