//! `dis`: a file's bytes become the text of their instructions.

ghost use Rattle.std.specs.Prelude.{◌≡◌};
ghost use Rattle.pac_dis.specs.Lines.{disassembly};
ghost use Rattle.pac_run.specs.Recorded.{WritesWholeText};
ghost use Rattle.pac_run_command.specs.Making.{TellsDisassembly};
ghost use Rattle.pac_run.specs.Run.{writing};
ghost use Rattle.pac_run_command.specs.Texts.{WritesDisassembly};

use crate::failure::{Failure, Target, read_failure};
use pac_dis::put_disassembly;
use pac_run::{Counted, Out, Output, WriteFault};
use pac_run_files::{FileSystem, read_file};
use std::alloc::Global;

/// The most bytes that have addresses.
const MOST_BYTES: usize = 65_536;

/// Writes the instructions of bytes, from address 0000H on, a line each.
fn put_text<W: Out>(text: &mut W, bytes: &[u8]) -> Result<(), WriteFault>
    ensures { WritesWholeText (writing W.took W.refused text.old text.new)
        (disassembly bytes.now) result }
{
    let mut file = Counted::new(text);
    let written = put_disassembly(&mut file, bytes);
    let _ = file.into_writer();
    written
}

/// Writes the instructions of 1 to 65,536 bytes, from address 0000H on, a line each.
pub fn write_text<W: Out>(bytes: &[u8], text: &mut W) -> Result<(), Failure<'static>>
    ensures { WritesDisassembly bytes.now (writing W.took W.refused text.old text.new) result }
{
    if bytes.is_empty() || bytes.len() > MOST_BYTES {
        return Err(Failure::Extent);
    }
    match put_text(text, bytes) {
        Ok(()) => Ok(()),
        Err(fault) => Err(Failure::Write(Target::Of(Output::Text), fault.count)),
    }
}

/// Disassembles a file.
#[inline(never)]
pub fn dis<'a, D: FileSystem, W: Out>(
    alloc: Global,
    disk: &D,
    text: &mut W,
    name: &'a str,
) -> Result<(), Failure<'a>>
    ensures { TellsDisassembly (D.finds disk.now)
        (λ bytes answer. WritesDisassembly bytes
        (writing W.took W.refused text.old text.new) answer)
        (text.new ≡ text.old) name.now result }
{
    match read_file(alloc, disk, name) {
        Ok(bytes) => write_text(&bytes, text),
        Err(fault) => Err(read_failure(fault)),
    }
}
