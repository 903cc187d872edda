//! A ROM set from its files: what its manifest says of them, and whether they are what it says.
#![tactic(auto)]

mod fault;
mod loading;
mod manifest;
mod part;
mod reading;

pub use fault::{ManifestCode, SetError, SetFault};
pub use loading::{digest, load_set, load_set_into};
pub use manifest::{Manifest, PartEntry};
pub use part::{Part, PartName};
pub use reading::read_manifest;
