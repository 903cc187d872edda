//! What keeps the program from its work: the line that tells it, and the exit status.

ghost use Rattle.std.specs.Prelude.{◌≡◌, ◌≤◌, ◌++◌, Some, IfSome, codes};
ghost use Rattle.std.specs.Fmt.{WritesOnOk};
ghost use Rattle.pac_run_command.specs.Failures as told;
ghost use Rattle.pac_run_command.specs.FailuresProofs as failures_proofs;

use pac_asm::AsmFault;
use pac_run::{Output, RunFault, ScriptFault, SetFault, StateFault, Stop};
use pac_run_files::{ReadFault, Told};
use std::fmt;

/// The outputs of the program.
#[derive(Clone, Copy)]
pub enum Target {
    /// An output of a run; a disassembly's is the text.
    Of(Output),
    /// The ROM of an assembled program.
    Rom,
}

/// What keeps the program from its work. It prints as the one line that goes to standard error; in a name each control character is
/// told by its digits.
#[derive(Clone, Copy)]
pub enum Failure<'a> {
    /// The file of this name can't be read, or has more than 16 MiB.
    Read(&'a str),
    /// The source has a fault.
    Source(AsmFault),
    /// The ROM set has a fault.
    Set(SetFault),
    /// The script has a fault.
    Script(ScriptFault),
    /// The state file has a fault, or no run with this script can begin from it.
    State(StateFault),
    /// X1: what is to be disassembled has no byte, or more than 65,536.
    Extent,
    /// An output refused after this count of its bytes.
    Write(Target, u64),
    /// Memory ran out.
    Memory,
    /// A word of the command line isn't UTF-8.
    Words,
}

impl fmt::Display for Target {
    ghost use Rattle.pac_run_command.specs.Failures.{target_name};

    ghost output = { λ output. Some (target_name output) };

    /// The name of the output.
    fn fmt<W: fmt::Write>(&self, f: &mut fmt::Formatter<W>) -> fmt::Result {
        match self {
            Target::Of(output) => write!(f, "{output}"),
            Target::Rom => f.write_str("rom"),
        }
    }
}

/// Writes that the file of a name can't be read.
fn put_read_fault<W: fmt::Write>(f: &mut fmt::Formatter<W>, name: &str) -> fmt::Result
    ensures { WritesOnOk W.write_str_gives f.old result (told.read_fault_text name.now) f.new }
{
    write!(f, "read fault {}", Told { name })
}

/// Writes that an input is refused, and its fault.
fn put_refusal<W: fmt::Write, T: fmt::Display>(f: &mut fmt::Formatter<W>, fault: &T) -> fmt::Result
    ensures { IfSome (T.output fault.now) (λ text. WritesOnOk W.write_str_gives f.old result
        (codes "refused " ++ text) f.new) }
{
    write!(f, "refused {fault}")
}

impl fmt::Display for Failure<'_> {
    ghost use Rattle.pac_run_command.specs.Failures.{message};

    ghost output = { λ failure. Some (message failure) };

    /// The line of the failure, without a line feed.
    fn fmt<W: fmt::Write>(&self, f: &mut fmt::Formatter<W>) -> fmt::Result {
        match self {
            Failure::Read(name) => put_read_fault(f, name),
            Failure::Source(fault) => put_refusal(f, fault),
            Failure::Set(fault) => put_refusal(f, fault),
            Failure::Script(fault) => put_refusal(f, fault),
            Failure::State(fault) => put_refusal(f, fault),
            Failure::Extent => f.write_str("refused X1"),
            Failure::Write(output, count) => {
                write!(f, "write fault {output} after {count} bytes")
            }
            Failure::Memory => f.write_str("out of memory"),
            Failure::Words => f.write_str("error: a word of the command line isn't UTF-8"),
        }
    }
}

impl Failure<'_> {
    /// The exit status: 1 refused input, 2 no command line, 3 read or write fault, 4 memory.
    pub fn status(&self) -> u8
        ensures status { result ≡ told.failure_status self.now }
        ensures most { result ≤ told.most_status }
    {
        match self {
            Failure::Source(_) | Failure::Set(_) | Failure::Script(_) => 1,
            Failure::State(_) | Failure::Extent => 1,
            Failure::Read(_) | Failure::Write(_, _) => 3,
            Failure::Memory => 4,
            Failure::Words => 2,
        }
    }
}

/// The failure that a fault of reading files is.
pub(crate) fn read_failure<'a>(fault: ReadFault<'a>) -> Failure<'a>
    ensures { result ≡ failures_proofs.read_failure fault.entry }
{
    match fault {
        ReadFault::Unreadable(name) => Failure::Read(name),
        ReadFault::Memory => Failure::Memory,
    }
}

/// The failure that a fault of a run is.
pub(crate) fn failure_of(fault: RunFault) -> Failure<'static>
    ensures { result ≡ told.failure_of fault }
{
    match fault {
        RunFault::Source(fault) => Failure::Source(fault),
        RunFault::Set(fault) => Failure::Set(fault),
        RunFault::Script(fault) => Failure::Script(fault),
        RunFault::State(fault) => Failure::State(fault),
        RunFault::Write(output, count) => Failure::Write(Target::Of(output), count),
        RunFault::NoMemory => Failure::Memory,
    }
}

/// The exit status of a run that was done: 5 where a stop ended it.
pub(crate) fn end_status(stop: Option<Stop>) -> u8
    ensures { result ≡ told.end_status stop }
{
    match stop {
        None => 0,
        Some(_) => 5,
    }
}
