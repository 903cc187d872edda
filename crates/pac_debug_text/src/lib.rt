//! What a person and the debugger say to one another: lines of commands, and the texts that answer them.
#![tactic(auto)]

mod command;
mod history;
mod numbers;
mod peek;
mod place;
mod refusal;
mod registers;
mod slot;
mod verb;

pub use command::{Command, NoCommand, read_command};
pub use history::{Done, HistoryLine, put_history};
pub use pac_lex::first_line;
pub use peek::{Peek, put_instructions, put_memory};
pub use place::{Ending, Place, put_place};
pub use refusal::{Refusal, put_ok, put_refusal};
pub use registers::{Latches, put_registers};
pub use slot::Slot;
