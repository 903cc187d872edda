//! What was read of a run's files, as its inputs.

ghost use Rattle.std.specs.Prelude.{◌≡◌, List, map, option_copied, option_map};
ghost use Rattle.pac_run_files.specs.Read.{told_file, told_part};
ghost use Rattle.pac_run_files.specs.declared.parts.NamedFile.{NamedFile};
ghost use Rattle.pac_run_options.specs.CommandLineProofs.{told_run};
ghost use Rattle.pac_run_command.specs.Outputs.{IsInputs};

use pac_run::{Part, RunInputs};
use pac_run_files::Given;
use pac_run_options::RunFiles;

/// The bytes of a file that may have been read.
pub(crate) fn bytes_in(read: &Option<Vec<u8>>) -> Option<&[u8]>
    ensures { option_copied result ≡ option_map (λ bytes. bytes.items) read.now }
{
    match read {
        Some(bytes) => Some(bytes.as_slice()),
        None => None,
    }
}

/// What was read, as the inputs of a run.
pub fn inputs_of<'a>(files: &RunFiles, given: &'a Given, parts: &'a [Part<'a>]) -> RunInputs<'a>
    ensures inputs { (named : List NamedFile) → map told_part parts.now ≡ map told_file named
        → IsInputs (told_run files.now) given.now named result }
{
    RunInputs {
        source: bytes_in(&given.source),
        manifest: &given.manifest,
        parts,
        dip: files.dip,
        script: &given.script,
    }
}
