//! What the manual prints of an instruction, as one equation, where the definitions say it in several.
#![tactic(auto, unfolding(crate::proofs::OnLiterals::step_on_literals))]

ghost use Rattle.pac_cpu_vectors.specs.Decimals.{EachDaaIsByBits};
ghost use Rattle.pac_cpu_vectors.specs.DaaLines.{EachDaaLineHolds};
ghost use Rattle.pac_cpu_vectors.specs.Manual.{CopiesBlocks, SearchesBlocks, InputsBlocks};
ghost use Rattle.pac_cpu_vectors.specs.Manual.{OutputsBlocks, RotatesA, AdjustsDecimals};
ghost use Rattle.pac_cpu_vectors.specs.Manual.{AcceptsInModes, AcceptsRestarts};
ghost use Rattle.pac_cpu_vectors.specs.Manual.{OnlyTheseAreRestarts};
ghost use Rattle.pac_cpu_vectors.specs.ReadLines.{EachReadLineHolds};

/// LDI, LDD, LDIR and LDDR (UM0080, "Exchange, Block Transfer, and Search Group").
pub fn block_copies()
    ensures { CopiesBlocks }
{}

/// CPI, CPD, CPIR and CPDR (UM0080, "Exchange, Block Transfer, and Search Group").
pub fn block_searches()
    ensures { SearchesBlocks }
{}

/// INI, IND, INIR and INDR (UM0080, "Input and Output Group").
pub fn block_inputs()
    ensures { InputsBlocks }
{}

/// OUTI, OUTD, OTIR and OTDR (UM0080, "Input and Output Group").
pub fn block_outputs()
    ensures { OutputsBlocks }
{}

/// RLCA, RRCA, RLA and RRA (UM0080, "Rotate and Shift Group").
pub fn rotations_of_a()
    ensures { RotatesA }
{}

/// DAA (UM0080, "General-Purpose Arithmetic and CPU Control Groups"): by the arithmetic of decimals; by the lines of the manual's table;
/// and of each A with each F by the bits of its correction.
pub fn decimal_adjust()
    ensures code { AdjustsDecimals }
    ensures table { EachDaaLineHolds }
    ensures bits { EachDaaIsByBits }
{}

/// What an interrupt does in each mode (UM0080, "Interrupt Response"; this profile's RST in mode 0).
pub fn acceptances()
    ensures modes { AcceptsInModes }
    ensures restarts { AcceptsRestarts }
    ensures no_others { OnlyTheseAreRestarts }
{}

/// Which cells of memory a step reads as data (UM0080, "Z80 Instruction Description" and "Interrupt Response").
pub fn data_reads()
    ensures { EachReadLineHolds }
{}
