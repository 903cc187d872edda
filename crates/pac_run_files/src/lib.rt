//! The files of a command line: where they are, what was read of them, and outputs that are created.
#![tactic(auto)]

mod drafts;
mod files;
mod given;
mod host;
mod links;
mod names;
mod parts;

pub use files::{FileKind, FileSystem, ReadError, read_whole};
pub use given::{Given, ReadFault, read_file, read_given, read_played, read_watched};
pub use host::{HostFile, HostFiles};
pub use names::{Told, is_within};
pub use parts::{NamedFile, manifest_in, parts_of, read_parts};
