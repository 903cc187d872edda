//! Why a call of a host wasn't done, and the number that it answers.

ghost use Rattle.std.specs.Prelude.{◌≡◌, ◌≤◌, Ok, Err};
ghost use Rattle.pac_block.specs.Codes as codes;

use pac_state::LoadFault;

/// Why a call wasn't done. Then it changed nothing.
#[derive(Clone, Copy, PartialEq, Eq)]
pub enum HostFault {
    /// A length is another than the one that the call wants.
    WrongLength,
    /// The block isn't the state of a board.
    NoBoard,
    /// The microseconds that were asked of the board in all would pass 2^50.
    TooLong,
    /// The buffer has less room than the samples that the call could give.
    NoRoom,
    /// The file isn't a state file of these ROMs: V1 to V6, as docs/FORMATS.md says.
    NoFile(LoadFault),
    /// The handle isn't open.
    Closed,
}

/// The number of a state file's fault: 11 to 16 for V1 to V6.
fn of_file(fault: LoadFault) -> u32
    ensures { result ≡ codes.file_code fault }
{
    match fault {
        LoadFault::NoState => 11,
        LoadFault::OtherVersion => 12,
        LoadFault::Size => 13,
        LoadFault::OutOfRange => 14,
        LoadFault::Damaged => 15,
        LoadFault::OtherSet => 16,
        LoadFault::NoMemory => 17,
    }
}

/// The number that a call answers: 0 where it was done.
pub fn code(answer: Result<(), HostFault>) -> u32
    ensures { result ≡ codes.code_of answer }
{
    match answer {
        Ok(()) => 0,
        Err(HostFault::WrongLength) => 1,
        Err(HostFault::NoBoard) => 2,
        Err(HostFault::TooLong) => 3,
        Err(HostFault::NoRoom) => 4,
        Err(HostFault::Closed) => 5,
        Err(HostFault::NoFile(fault)) => of_file(fault),
    }
}
