//! `asm`: a source becomes a ROM file and a listing.

ghost use Rattle.std.specs.Prelude.{◌≡◌, Ok, Some};
ghost use Rattle.pac_asm.specs.Programs.{program_of};
ghost use Rattle.pac_listing.specs.Listing as texts;
ghost use Rattle.pac_run.specs.Recorded.{WritesWholeText};
ghost use Rattle.pac_run_options.specs.CommandLineProofs.{told_asm};
ghost use Rattle.pac_run_command.specs.FailuresProofs.{Opens};
ghost use Rattle.pac_run_files.specs.Files.{AllBegun, AllClosed, FirstUnbegun};
ghost use Rattle.pac_run_files.specs.declared.files.FileKind.TheVariants.{Any};
ghost use Rattle.pac_run_command.specs.Making.{Makes, asm_outputs, asm_output_files};
ghost use Rattle.pac_run.specs.Run.{writing};
ghost use Rattle.pac_run_command.specs.Programs.{Assembles, assembling};

use crate::failure::{Failure, Target, read_failure};
use pac_asm::{AsmError, Program, assemble};
use pac_listing::write_listing;
use pac_run::{Counted, Out, Output, WriteFault};
use pac_run_files::{FileSystem, read_file};
use pac_run_options::AsmFiles;
use std::alloc::Global;

/// Writes the ROM of a program.
fn put_rom<R: Out>(rom: &mut R, program: &Program) -> Result<(), WriteFault>
    ensures { WritesWholeText (writing R.took R.refused rom.old rom.new) program.now.rom result }
{
    let mut file = Counted::new(rom);
    let written = file.put(program.rom());
    let _ = file.into_writer();
    written
}

/// Writes the listing of a program.
fn put_listing<L: Out>(listing: &mut L, program: &Program, source: &[u8]) -> Result<(), WriteFault>
    ensures { WritesWholeText (writing L.took L.refused listing.old listing.new)
        (texts.listing program.now source.now) result }
{
    let mut file = Counted::new(listing);
    let written = write_listing(&mut file, program, source);
    let _ = file.into_writer();
    written
}

/// Writes the ROM of a source's program, and then its listing.
fn put_program<R: Out, L: Out>(
    program: &Program,
    source: &[u8],
    rom: &mut R,
    listing: &mut L,
) -> Result<(), Failure<'static>>
    requires { program_of source.now ≡ Ok program.now }
    ensures { Assembles source.now (writing R.took R.refused rom.old rom.new)
        (writing L.took L.refused listing.old listing.new) result }
{
    if let Err(fault) = put_rom(rom, program) {
        return Err(Failure::Write(Target::Rom, fault.count));
    }
    match put_listing(listing, program, source) {
        Ok(()) => Ok(()),
        Err(fault) => Err(Failure::Write(Target::Of(Output::Listing), fault.count)),
    }
}

/// Assembles a source, and writes the 16,384 bytes of its ROM, and then its listing. The source is judged and all
/// memory is found before anything is written.
pub fn write_program<R: Out, L: Out>(
    alloc: Global,
    source: &[u8],
    rom: &mut R,
    listing: &mut L,
) -> Result<(), Failure<'static>>
    ensures { Assembles source.now (writing R.took R.refused rom.old rom.new)
        (writing L.took L.refused listing.old listing.new) result }
{
    match assemble(alloc, source) {
        Ok(program) => put_program(&program, source, rom, listing),
        Err(AsmError::Fault(fault)) => Err(Failure::Source(fault)),
        Err(AsmError::Memory) => Err(Failure::Memory),
    }
}

/// The files of a ROM and of a listing.
#[derive(Drop)]
pub struct AsmOutputs<F> {
    /// The file of the ROM.
    pub rom: F,
    /// The file of the listing.
    pub listing: F,
}

/// Creates the files of ROM and listing, in this order.
pub fn create_pair<D: FileSystem>(
    disk: &mut D,
    files: &AsmFiles,
) -> Result<AsmOutputs<D::File>, Failure<'static>>
    ensures { Opens
        (λ outputs. AllBegun D.handling disk.old (asm_outputs (told_asm files.now))
        (asm_output_files outputs) disk.new)
        (λ output. FirstUnbegun D.handling disk.old (asm_outputs (told_asm files.now))
        output disk.new) result }
{
    let Some(rom) = disk.create(files.rom) else {
        return Err(Failure::Write(Target::Rom, 0));
    };
    let Some(listing) = disk.create(files.listing) else {
        disk.close(rom);
        return Err(Failure::Write(Target::Of(Output::Listing), 0));
    };
    Ok(AsmOutputs { rom, listing })
}

/// Closes the files of ROM and listing, in this order.
fn close_pair<D: FileSystem>(disk: &mut D, outputs: AsmOutputs<D::File>)
    ensures { AllClosed D.handling disk.old (asm_output_files outputs) disk.new }
{
    disk.close(outputs.rom);
    disk.close(outputs.listing);
}

/// Assembles the source that a file has into two: both are created, and then it is judged.
fn assemble_into<D: FileSystem>(
    alloc: Global,
    disk: &mut D,
    files: &AsmFiles,
    source: &[u8],
) -> Result<(), Failure<'static>>
    requires { (D.finds disk.old).bytes Any files.now.source.now (Some source.now) }
    ensures { Makes (D.finds disk.old) D.handling
        (assembling D.File.took D.File.refused) (told_asm files.now) disk.old result disk.new }
{
    let mut outputs = match create_pair(disk, files) {
        Ok(outputs) => outputs,
        Err(failure) => return Err(failure),
    };
    let done = write_program(alloc, source, &mut outputs.rom, &mut outputs.listing);
    close_pair(disk, outputs);
    done
}

/// Assembles a file into two: the source is read, then both are created, and then the source is judged.
pub fn asm<'a, D: FileSystem>(
    alloc: Global,
    disk: &mut D,
    files: &AsmFiles<'a>,
) -> Result<(), Failure<'a>>
    ensures { Makes (D.finds disk.old) D.handling
        (assembling D.File.took D.File.refused) (told_asm files.now) disk.old result disk.new }
{
    match read_file(alloc, disk, files.source) {
        Ok(source) => assemble_into(alloc, disk, files, &source),
        Err(fault) => Err(read_failure(fault)),
    }
}
