//! The lines of tools/check/vectors.txt, a function a heading: the definition of a step comes to what each says. Made by tools/make/make-vectors.
#![tactic(auto, unfolding(crate::proofs::OnLiterals::step_on_literals))]

ghost use Rattle.pac_cpu_vectors.specs.Vectors.{EachLineHolds, EachLineResets};
ghost use Rattle.pac_cpu_vectors.specs.LoadsOfBytes.{loads_of_bytes_lines};
ghost use Rattle.pac_cpu_vectors.specs.LoadsOfWordsAndTheStack.{loads_of_words_and_the_stack_lines};
ghost use Rattle.pac_cpu_vectors.specs.Exchanges.{exchanges_lines};
ghost use Rattle.pac_cpu_vectors.specs.Displacements.{displacements_lines};
ghost use Rattle.pac_cpu_vectors.specs.EachRegisterByItself.{each_register_by_itself_lines};
ghost use Rattle.pac_cpu_vectors.specs.ArithmeticOfBytes.{arithmetic_of_bytes_lines};
ghost use Rattle.pac_cpu_vectors.specs.TheAccumulatorAndF.{the_accumulator_and_f_lines};
ghost use Rattle.pac_cpu_vectors.specs.ArithmeticOfWords.{arithmetic_of_words_lines};
ghost use Rattle.pac_cpu_vectors.specs.AAndAByte.{a_and_a_byte_lines};
ghost use Rattle.pac_cpu_vectors.specs.OneByte.{one_byte_lines};
ghost use Rattle.pac_cpu_vectors.specs.Words.{words_lines};
ghost use Rattle.pac_cpu_vectors.specs.RotationsAndShifts.{rotations_and_shifts_lines};
ghost use Rattle.pac_cpu_vectors.specs.SingleBits.{single_bits_lines};
ghost use Rattle.pac_cpu_vectors.specs.ShiftsAndRotationsOfAByte.{shifts_and_rotations_of_a_byte_lines};
ghost use Rattle.pac_cpu_vectors.specs.SingleBitsOfAByte.{single_bits_of_a_byte_lines};
ghost use Rattle.pac_cpu_vectors.specs.Jumps.{jumps_lines};
ghost use Rattle.pac_cpu_vectors.specs.Conditions.{conditions_lines};
ghost use Rattle.pac_cpu_vectors.specs.CallsAndReturns.{calls_and_returns_lines};
ghost use Rattle.pac_cpu_vectors.specs.Ports.{ports_lines};
ghost use Rattle.pac_cpu_vectors.specs.Control.{control_lines};
ghost use Rattle.pac_cpu_vectors.specs.Copies.{copies_lines};
ghost use Rattle.pac_cpu_vectors.specs.Searches.{searches_lines};
ghost use Rattle.pac_cpu_vectors.specs.BlocksFromAndToPorts.{blocks_from_and_to_ports_lines};
ghost use Rattle.pac_cpu_vectors.specs.PointersAtTheEndsOfMemory.{pointers_at_the_ends_of_memory_lines};
ghost use Rattle.pac_cpu_vectors.specs.FlagsOfTransfers.{flags_of_transfers_lines};
ghost use Rattle.pac_cpu_vectors.specs.AcceptancesAndHaltedSteps.{acceptances_and_halted_steps_lines};
ghost use Rattle.pac_cpu_vectors.specs.Stops.{stops_lines};
ghost use Rattle.pac_cpu_vectors.specs.LoadsOfEachRegister.{loads_of_each_register_lines};
ghost use Rattle.pac_cpu_vectors.specs.LoadsOfEachPair.{loads_of_each_pair_lines};
ghost use Rattle.pac_cpu_vectors.specs.ArithmeticOfAAndEachRegister.{arithmetic_of_a_and_each_register_lines};
ghost use Rattle.pac_cpu_vectors.specs.ArithmeticOfEachPair.{arithmetic_of_each_pair_lines};
ghost use Rattle.pac_cpu_vectors.specs.Restarts.{restarts_lines};
ghost use Rattle.pac_cpu_vectors.specs.RotationsAndShiftsOfEachRegister.{rotations_and_shifts_of_each_register_lines};
ghost use Rattle.pac_cpu_vectors.specs.SingleBitsOfEachRegister.{single_bits_of_each_register_lines};
ghost use Rattle.pac_cpu_vectors.specs.PortsByEachRegister.{ports_by_each_register_lines};
ghost use Rattle.pac_cpu_vectors.specs.ProgramsOfAFewSteps.{programs_of_a_few_steps_lines};
ghost use Rattle.pac_cpu_vectors.specs.AReset.{a_reset_lines};

/// Loads of bytes (UM0080, "8-Bit Load Group").
pub fn loads_of_bytes()
    ensures { EachLineHolds loads_of_bytes_lines }
{}

/// Loads of words and the stack (UM0080, "16-Bit Load Group").
pub fn loads_of_words_and_the_stack()
    ensures { EachLineHolds loads_of_words_and_the_stack_lines }
{}

/// Exchanges (UM0080, "Exchange, Block Transfer, and Search Group").
pub fn exchanges()
    ensures { EachLineHolds exchanges_lines }
{}

/// Displacements, over the ends of memory too (UM0080, "Indexed Addressing").
pub fn displacements()
    ensures { EachLineHolds displacements_lines }
{}

/// Each register by itself (UM0080, "8-Bit Load Group").
pub fn each_register_by_itself()
    ensures { EachLineHolds each_register_by_itself_lines }
{}

/// Arithmetic of bytes (UM0080, "8-Bit Arithmetic Group").
pub fn arithmetic_of_bytes()
    ensures { EachLineHolds arithmetic_of_bytes_lines }
{}

/// The accumulator and F (UM0080, "General-Purpose Arithmetic and CPU Control Groups").
pub fn the_accumulator_and_f()
    ensures { EachLineHolds the_accumulator_and_f_lines }
{}

/// Arithmetic of words (UM0080, "16-Bit Arithmetic Group").
pub fn arithmetic_of_words()
    ensures { EachLineHolds arithmetic_of_words_lines }
{}

/// A and a byte (UM0080, "8-Bit Arithmetic Group").
pub fn a_and_a_byte()
    ensures { EachLineHolds a_and_a_byte_lines }
{}

/// One byte (UM0080, "8-Bit Arithmetic Group" and "General-Purpose Arithmetic and CPU Control Groups").
pub fn one_byte()
    ensures { EachLineHolds one_byte_lines }
{}

/// Words (UM0080, "16-Bit Arithmetic Group").
pub fn words()
    ensures { EachLineHolds words_lines }
{}

/// Rotations and shifts (UM0080, "Rotate and Shift Group").
pub fn rotations_and_shifts()
    ensures { EachLineHolds rotations_and_shifts_lines }
{}

/// Single bits (UM0080, "Bit Set, Reset, and Test Group").
pub fn single_bits()
    ensures { EachLineHolds single_bits_lines }
{}

/// Shifts and rotations of a byte, and of digits (UM0080, "Rotate and Shift Group").
pub fn shifts_and_rotations_of_a_byte()
    ensures { EachLineHolds shifts_and_rotations_of_a_byte_lines }
{}

/// Single bits of a byte (UM0080, "Bit Set, Reset, and Test Group").
pub fn single_bits_of_a_byte()
    ensures { EachLineHolds single_bits_of_a_byte_lines }
{}

/// Jumps (UM0080, "Jump Group").
pub fn jumps()
    ensures { EachLineHolds jumps_lines }
{}

/// Conditions (UM0080, "Jump Group").
pub fn conditions()
    ensures { EachLineHolds conditions_lines }
{}

/// Calls and returns (UM0080, "Call and Return Group").
pub fn calls_and_returns()
    ensures { EachLineHolds calls_and_returns_lines }
{}

/// Ports (UM0080, "Input and Output Group").
pub fn ports()
    ensures { EachLineHolds ports_lines }
{}

/// Control (UM0080, "General-Purpose Arithmetic and CPU Control Groups") and the loads of I and R.
pub fn control()
    ensures { EachLineHolds control_lines }
{}

/// Copies (UM0080, "Exchange, Block Transfer, and Search Group").
pub fn copies()
    ensures { EachLineHolds copies_lines }
{}

/// Searches (UM0080, "Exchange, Block Transfer, and Search Group").
pub fn searches()
    ensures { EachLineHolds searches_lines }
{}

/// Blocks from and to ports (UM0080, "Input and Output Group").
pub fn blocks_from_and_to_ports()
    ensures { EachLineHolds blocks_from_and_to_ports_lines }
{}

/// Pointers at the ends of memory.
pub fn pointers_at_the_ends_of_memory()
    ensures { EachLineHolds pointers_at_the_ends_of_memory_lines }
{}

/// Flags of transfers (UM0080, "8-Bit Load Group", "Exchange, Block Transfer, and Search Group", "Input and Output Group").
pub fn flags_of_transfers()
    ensures { EachLineHolds flags_of_transfers_lines }
{}

/// Acceptances and halted steps (UM0080, "Interrupt Response" and "HALT"; this profile where a vector byte isn't even).
pub fn acceptances_and_halted_steps()
    ensures { EachLineHolds acceptances_and_halted_steps_lines }
{}

/// Stops (this profile): bytes that are no documented instruction, and in mode 0 a vector byte that is no RST.
pub fn stops()
    ensures { EachLineHolds stops_lines }
{}

/// Loads of each register (UM0080, "8-Bit Load Group").
pub fn loads_of_each_register()
    ensures { EachLineHolds loads_of_each_register_lines }
{}

/// Loads of each pair (UM0080, "16-Bit Load Group").
pub fn loads_of_each_pair()
    ensures { EachLineHolds loads_of_each_pair_lines }
{}

/// Arithmetic of A and each register (UM0080, "8-Bit Arithmetic Group").
pub fn arithmetic_of_a_and_each_register()
    ensures { EachLineHolds arithmetic_of_a_and_each_register_lines }
{}

/// Arithmetic of each pair (UM0080, "16-Bit Arithmetic Group").
pub fn arithmetic_of_each_pair()
    ensures { EachLineHolds arithmetic_of_each_pair_lines }
{}

/// Restarts (UM0080, "Call and Return Group").
pub fn restarts()
    ensures { EachLineHolds restarts_lines }
{}

/// Rotations and shifts of each register (UM0080, "Rotate and Shift Group").
pub fn rotations_and_shifts_of_each_register()
    ensures { EachLineHolds rotations_and_shifts_of_each_register_lines }
{}

/// Single bits of each register (UM0080, "Bit Set, Reset, and Test Group"; S and P/V, which it leaves open, stay: this profile).
pub fn single_bits_of_each_register()
    ensures { EachLineHolds single_bits_of_each_register_lines }
{}

/// Ports by each register (UM0080, "Input and Output Group").
pub fn ports_by_each_register()
    ensures { EachLineHolds ports_by_each_register_lines }
{}

/// Programs of a few steps (UM0080; this profile's EI, repeats and acceptances between them).
pub fn programs_of_a_few_steps()
    ensures { EachLineHolds programs_of_a_few_steps_lines }
{}

/// A reset (UM0080, "Pin Functions"; this profile where it names no register).
pub fn a_reset()
    ensures { EachLineResets a_reset_lines }
{}
