//! A source in a host's memory becomes a ROM and a listing there.

ghost use Rattle.std.specs.Prelude.{◌≡◌, ◌≤◌, ◌++◌, length, drop};
ghost use Rattle.pac_listing.specs.Listing as texts;
ghost use Rattle.pac_out.specs.Counted.{file_count};
ghost use Rattle.pac_source.specs.Source as calls;
ghost use Rattle.pac_source.specs.Writing.{LeavesText};

use crate::codes::SourceFault;
use crate::size::Size;
use pac_asm::{AsmError, Program, assemble};
use pac_listing::write_listing;
use pac_out::buffer::HostBuffer;
use pac_out::counted::Counted;
use pac_out::{Out, WriteFault};
use std::alloc::Global;

/// The bytes of the program ROM.
const ROM_SIZE: usize = 16_384;

/// How many bytes the listing of a program has.
fn listing_size(program: &Program, source: &[u8]) -> u64
    ensures { result ≡ file_count (length (texts.listing program.now source.now)) }
{
    let mut file = Counted::new(Size { bytes: 0 });
    match write_listing(&mut file, program, source) {
        Ok(()) => file.into_writer().bytes,
        // what has more bytes has the greatest count
        Err(_) => u64::MAX,
    }
}

/// Writes the listing of a program.
fn write_to<W: Out>(writer: &mut W, program: &Program, source: &[u8]) -> Result<(), WriteFault>
    ensures { LeavesText W.took W.refused writer.old
        (texts.listing program.now source.now) result writer.new }
{
    let mut file = Counted::new(writer);
    let written = write_listing(&mut file, program, source);
    let _ = file.into_writer();
    written
}

/// Writes the listing of a program to the head of a buffer that has room for it.
fn put_listing(program: &Program, source: &[u8], listing: &mut [u8])
    requires { length (texts.listing program.now source.now) ≤ length listing.old }
    ensures { listing.new ≡ texts.listing program.now source.now
        ++ drop (length (texts.listing program.now source.now)) listing.old }
{
    let mut buffer = HostBuffer {
        bytes: listing,
        taken: 0,
    };
    // there is room for all of it, so nothing is refused
    let _ = write_to(&mut buffer, program, source);
}

/// Assembles a source into a ROM and a listing, and answers how many bytes the listing has. All is judged before anything is written.
pub(crate) fn assemble_into(
    alloc: Global,
    source: &[u8],
    rom: &mut [u8],
    listing: &mut [u8],
) -> Result<u64, SourceFault>
    ensures { calls.AssemblesInto source.now rom.old listing.old result rom.new listing.new }
{
    if rom.len() != ROM_SIZE {
        return Err(SourceFault::WrongLength);
    }
    let program = match assemble(alloc, source) {
        Ok(program) => program,
        Err(AsmError::Fault(fault)) => return Err(SourceFault::Fault(fault)),
        Err(AsmError::Memory) => return Err(SourceFault::NoMemory),
    };
    let size = listing_size(&program, source);
    if size > listing.len() as u64 {
        return Err(SourceFault::NoRoom(size));
    }
    put_listing(&program, source, listing);
    rom.copy_from_slice(program.rom());
    Ok(size)
}
