//! What a run plays, made from what it is given. All of its memory is found here.

ghost use Rattle.std.specs.Prelude.{◌≡◌, ℕ, length, option_map, option_copied, List, Option};
ghost use Rattle.std.specs.Prelude.{Err, IfErr, IfOk, IfSome, Ok};
ghost use Rattle.pac_board_course.specs.Script.{script_of};
ghost use Rattle.pac_asm.specs.Assembled.{Assembled};
ghost use Rattle.pac_board_course.specs.RomParts.{IsWhole, program_size};
ghost use Rattle.pac_roms_manifest.specs.Results.{filled};
ghost use Rattle.pac_run.specs.Plan.{program_in, set_in};
ghost use Rattle.pac_run.specs.PlanProofs.{fault_told, script_told, Judges, LieIn};
ghost use Rattle.pac_run.specs.Start.{IsFirstBoard};
ghost use Rattle.pac_run.specs.Started.{IsStarted, Prepares};

use crate::fault::RunFault;
use crate::inputs::RunInputs;
use crate::start::first_board;
use pac_asm::{AsmError, Program, assemble};
use pac_board_course::{Board, RomSet, Script, ScriptError, read_script};
use pac_media::Image;
use pac_roms_manifest::{Part, SetError, load_set_into, read_manifest};
use std::alloc::Global;

/// What a run plays, and room for its images.
#[derive(Drop)]
pub struct Prepared {
    /// The program of the source, if there is one.
    pub program: Option<Program>,
    /// The board that the run begins with.
    pub board: Box<Board>,
    /// The script.
    pub script: Script,
    /// Room for an image.
    pub image: Image,
}

/// The program of a source, where there is one.
fn program(alloc: Global, source: Option<&[u8]>) -> Result<Option<Program>, RunFault>
    ensures exact { Judges result (program_in (option_copied source.entry)) }
    ensures lie { IfOk result LieIn }
{
    let Some(source) = source else {
        return Ok(None);
    };
    match assemble(alloc, source) {
        Ok(program) => Ok(Some(program)),
        Err(AsmError::Fault(fault)) => Err(RunFault::Source(fault)),
        Err(AsmError::Memory) => Err(RunFault::NoMemory),
    }
}

/// A fault of the set, or want of memory.
fn set_fault(error: SetError) -> RunFault
    ensures { result ≡ fault_told error }
{
    match error {
        SetError::Fault(fault) => RunFault::Set(fault),
        SetError::Memory => RunFault::NoMemory,
    }
}

/// The ROM of a program, where there is one.
fn rom_in(program: &Option<Program>) -> Option<&[u8]>
    ensures rom { option_copied result ≡ option_map (λ (it : Assembled). it.rom) program.now }
    ensures size { IfSome result (λ rom. length rom.now ≡ program_size) }
{
    match program {
        Some(program) => Some(program.rom()),
        None => None,
    }
}

/// Each part of a set has its size: a law, with nothing to run.
fn is_whole(set: &RomSet)
    ensures { IsWhole set.now }
{
    let _ = set.program();
    let _ = set.tiles();
    let _ = set.sprites();
    let _ = set.colours();
    let _ = set.lookup();
    let _ = set.wave();
}

/// Puts the ROM set of a manifest and its files over one that is there, with the program's ROM where there is a program.
fn put_set(
    alloc: Global,
    manifest: &[u8],
    files: &[Part<'_>],
    program: &Option<Program>,
    set: &mut RomSet,
) -> Result<(), RunFault>
    ensures exact { Judges (filled result set.new) (set_in manifest.now files.now program.now) }
    ensures whole { IfOk (filled result set.new) IsWhole }
{
    let manifest = match read_manifest(alloc, manifest) {
        Ok(manifest) => manifest,
        Err(error) => return Err(set_fault(error)),
    };
    match load_set_into(alloc, &manifest, files, rom_in(program), set) {
        Ok(()) => {
            is_whole(set);
            Ok(())
        }
        Err(error) => Err(set_fault(error)),
    }
}

/// The script of a text.
fn script(alloc: Global, text: &[u8]) -> Result<Script, RunFault>
    ensures { Judges result (script_told (script_of text.now)) }
{
    match read_script(alloc, text) {
        Ok(script) => Ok(script),
        Err(ScriptError::Fault(fault)) => Err(RunFault::Script(fault)),
        Err(ScriptError::Memory) => Err(RunFault::NoMemory),
    }
}

/// The program of the source, and over the set that is there the one of the run: the source is judged first, and then the set.
#[tactic(auto, unfolding(crate::specs::Plan::plan_of))]
fn program_and_set(
    alloc: Global,
    inputs: &RunInputs,
    set: &mut RomSet,
) -> Result<Option<Program>, RunFault>
    ensures program { IfOk result (λ program.
        program_in (option_copied inputs.now.source) ≡ Ok program) }
    ensures set { IfOk result (λ program.
        set_in inputs.now.manifest.now inputs.now.parts.now program ≡ Ok set.new) }
    ensures whole { IfOk result (λ _. IsWhole set.new) }
    ensures lie { IfOk result LieIn }
    ensures refused { (from : Option (List ℕ))
        → IfErr result (λ fault. Prepares inputs.now from (Err fault)) }
{
    let program = program(alloc, inputs.source)?;
    put_set(alloc, inputs.manifest, inputs.parts, &program, set)?;
    Ok(program)
}

/// The board that a run on a set begins with, its script, which is judged before a state file, and room for its images.
fn begun(
    alloc: Global,
    inputs: &RunInputs,
    from: Option<&[u8]>,
    set: &RomSet,
) -> Result<(Box<Board>, Script, Image), RunFault>
    ensures script { IfOk result (λ begun.
        script_told (script_of inputs.now.script.now) ≡ Ok begun.1) }
    ensures board { IfOk result (λ begun. IsStarted
        (IsFirstBoard set.now inputs.now.dip begun.1 (option_copied from.entry))
        set.now begun.1 begun.0.value) }
    ensures refused { (program : Option Assembled)
        → program_in (option_copied inputs.now.source) ≡ Ok program
        → set_in inputs.now.manifest.now inputs.now.parts.now program ≡ Ok set.now
        → IfErr result (λ fault. Prepares inputs.now (option_copied from.entry) (Err fault)) }
{
    let script = match script(alloc, inputs.script) {
        Ok(script) => script,
        Err(fault) => return Err(fault),
    };
    let board = match first_board(alloc, set, inputs.dip, from, &script) {
        Ok(board) => board,
        Err(fault) => return Err(fault),
    };
    match Image::new(alloc) {
        Ok(image) => Ok((board, script, image)),
        Err(_) => Err(RunFault::NoMemory),
    }
}

/// What is played: the source is judged first, then the set, then the script, then the state file that the run begins with, if
/// there is one.
pub fn prepare(alloc: Global, inputs: &RunInputs, from: Option<&[u8]>) -> Result<Prepared, RunFault>
    ensures { Prepares inputs.now (option_copied from.entry) result }
{
    let mut set = RomSet::zeroed();
    let program = match program_and_set(alloc, inputs, &mut set) {
        Ok(program) => program,
        Err(fault) => return Err(fault),
    };
    match begun(alloc, inputs, from, &set) {
        Ok((board, script, image)) => Ok(Prepared {
            program,
            board,
            script,
            image,
        }),
        Err(fault) => Err(fault),
    }
}
