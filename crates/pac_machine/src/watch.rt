//! What steps do at addresses that are watched: writes, and reads of data.

ghost use Rattle.std.specs.Prelude.{◌≡◌, ◌≤◌, ◌∷◌, ℕ, List, [], Option, None, Some, is_some};
ghost use Rattle.pac_cpu.specs.Instructions.{least_ticks, most_ticks};
ghost use Rattle.pac_cpu.specs.Step.{cpu_step};
ghost use Rattle.pac_cpu.specs.StepLaws.{surroundings_of};
ghost use Rattle.pac_cpu.specs.StepProofs.{DoesCpuStep, IfStepped, actions_of};
ghost use Rattle.pac_cpu.specs.CellsReadProofs.{read_cells};
ghost use Rattle.pac_cpu.specs.StepReads.{reads_in};
ghost use Rattle.pac_map.specs.ContentsProofs.{map_byte_at, map_input_at, map_after_action};
ghost use Rattle.pac_cpu.specs.Action.{Write};
ghost use Rattle.pac_machine.specs.declared.watch.Access.{Access};
ghost use Rattle.pac_machine.specs.Watches.{first_of, first_read, first_write, watched_in};
ghost use Rattle.pac_machine.specs.Watches.{watches_reads};
ghost use Rattle.pac_machine.specs.WatchesProofs.{looked_at, watched_byte_at, watched_input_at};
ghost use Rattle.pac_machine.specs.WatchesProofs.{watched_after_action};

use crate::stops::Marks;
use pac_cpu::{Bus, Cpu, DataReads, Once, Regs};
use pac_map::Map;

/// What a step did at an address that is watched.
#[derive(Clone, Copy)]
pub enum Access {
    /// It read there, as data and not as code.
    Read {
        /// The address.
        address: u16,
    },
    /// It wrote there.
    Write {
        /// The address.
        address: u16,
        /// What a read there gave right before.
        before: u8,
        /// The byte that was written, also where it's the one that was there, or where nothing keeps it.
        written: u8,
    },
}

/// Hears of what the processor reads and writes, or of nothing.
///
/// A step of the processor goes through it. So where nothing is watched, a step is what it is without.
pub trait Watch {
    /// The map of the addresses that are watched, if there is one: 1 where writes are, 2 where reads are, and 3 where both are.
    ghost marks: { Self → Option (List ℕ) };

    /// What a step did at one of them.
    ghost met: { Self → Option Access };

    /// Does one step of the processor over the board's bus. Where nothing was met before, what the step does at watched addresses is kept:
    /// its first write, or else its first read.
    fn step(&mut self, cpu: &mut Cpu, map: &mut Map, request: Option<u8>) -> Once
        ensures did { DoesCpuStep map_after_action
            (cpu_step (surroundings_of map_byte_at map_input_at map_after_action map.old) cpu.old
            request)
            cpu.old map.old cpu.new map.new result }
        ensures time { IfStepped result (λ ticks kind. (least_ticks ≤ ticks)
            × (ticks ≤ most_ticks)) }
        ensures marks { marks self.new ≡ marks self.old }
        ensures met { met self.old ≡ None → met self.new
            ≡ watched_in (surroundings_of map_byte_at map_input_at map_after_action map.old)
            (marks self.old) cpu.old request
            (cpu_step (surroundings_of map_byte_at map_input_at map_after_action map.old) cpu.old
            request) };

    /// Whether any address is watched.
    fn is_watching(&self) -> bool
        ensures { result ≡ is_some (marks self.now) };

    /// Whether anything was met.
    fn has_met(&self) -> bool
        ensures { result ≡ is_some (met self.now) };

    /// What was met.
    fn met(&self) -> Option<Access>
        ensures { result ≡ met self.now };
}

/// Nothing is watched.
#[derive(Drop)]
pub struct Unwatched;

impl Watch for Unwatched {
    ghost marks = { λ _. None };

    ghost met = { λ _. None };

    /// Does the step.
    #[inline(always)]
    fn step(&mut self, cpu: &mut Cpu, map: &mut Map, request: Option<u8>) -> Once {
        cpu.step(map, request)
    }

    /// No.
    #[inline(always)]
    fn is_watching(&self) -> bool {
        false
    }

    /// Never.
    #[inline(always)]
    fn has_met(&self) -> bool {
        false
    }

    /// Nothing.
    #[inline(always)]
    fn met(&self) -> Option<Access> {
        None
    }
}

/// The addresses of a map are watched.
#[derive(Drop)]
pub struct WatchedAddresses<'a> {
    marks: &'a Marks,
    met: Option<Access>,
}

impl<'a> WatchedAddresses<'a> {
    /// Watches the addresses that a map marks; nothing was met yet.
    pub fn new(marks: &'a Marks) -> WatchedAddresses<'a>
        ensures marks { result.marks.now ≡ marks.now }
        ensures met { result.met ≡ None }
    {
        WatchedAddresses { marks, met: None }
    }
}

/// Whether reads of an address are watched.
#[inline(always)]
fn watches_reads(marks: &Marks, address: u16) -> bool
    ensures { result ≡ watches_reads (Some marks.now) address }
{
    marks[usize::from(address)] / 2 % 2 == 1
}

/// A read, where reads of its address are watched.
#[inline(always)]
fn read_at(marks: &Marks, address: u16) -> Option<Access>
    ensures { result ≡ first_read (Some marks.now) (address ∷ []) }
{
    if watches_reads(marks, address) {
        Some(Access::Read { address })
    } else {
        None
    }
}

/// The first of these cells whose reads are watched.
#[inline(always)]
fn first_read(marks: &Marks, cells: DataReads) -> Option<Access>
    ensures { result ≡ first_read (Some marks.now) (read_cells cells) }
{
    match cells {
        DataReads::Nothing => None,
        DataReads::Byte(address) => read_at(marks, address),
        DataReads::Word(address) => match read_at(marks, address) {
            Some(met) => Some(met),
            None => read_at(marks, address.wrapping_add(1)),
        },
    }
}

/// What a step did at watched addresses: the write that its bus kept, or else its first read there, by the registers before it.
#[inline(always)]
fn written_or_read(
    written: Option<Access>,
    marks: &Marks,
    once: &Once,
    before: &Regs,
    request: Option<u8>,
) -> Option<Access>
    ensures { result ≡ first_of written (first_read (Some marks.now)
        (reads_in once.now before.now request)) }
{
    match written {
        Some(met) => Some(met),
        None => first_read(marks, once.data_reads(before, request)),
    }
}

impl Watch for WatchedAddresses<'_> {
    ghost marks = { λ watching. Some watching.marks.now };

    ghost met = { λ watching. watching.met };

    /// Does the step, over a bus that looks at each write. What it read goes by the registers before it.
    #[inline(always)]
    fn step(&mut self, cpu: &mut Cpu, map: &mut Map, request: Option<u8>) -> Once {
        let before = cpu.regs();
        let mut bus = WatchedBus {
            map,
            marks: self.marks,
            met: self.met,
        };
        let once = bus.step(cpu, request);
        self.met = written_or_read(bus.met, self.marks, &once, &before, request);
        once
    }

    /// Yes.
    #[inline(always)]
    fn is_watching(&self) -> bool {
        true
    }

    /// Whether one was met.
    #[inline(always)]
    fn has_met(&self) -> bool {
        self.met.is_some()
    }

    /// What it was.
    #[inline(always)]
    fn met(&self) -> Option<Access> {
        self.met
    }
}

/// The board's bus, where each write is looked at.
#[derive(Drop)]
struct WatchedBus<'a> {
    map: &'a mut Map,
    marks: &'a Marks,
    met: Option<Access>,
}

impl WatchedBus<'_> {
    /// Does one step of the processor over it, each instruction as a call.
    #[inline(always)]
    fn step(&mut self, cpu: &mut Cpu, request: Option<u8>) -> Once
        ensures same { self.new.map.ghost_name ≡ self.old.map.ghost_name }
        ensures did { DoesCpuStep map_after_action
            (cpu_step (surroundings_of map_byte_at map_input_at map_after_action self.old.map.now)
            cpu.old request)
            cpu.old self.old.map.now cpu.new self.new.map.now result }
        ensures time { IfStepped result (λ ticks kind. (least_ticks ≤ ticks)
            × (ticks ≤ most_ticks)) }
        ensures met { self.old.met ≡ None → self.new.met
            ≡ first_write (surroundings_of map_byte_at map_input_at map_after_action
            self.old.map.now) (Some self.old.marks.now) []
            (actions_of (cpu_step (surroundings_of map_byte_at map_input_at map_after_action
            self.old.map.now) cpu.old request)) }
    {
        cpu.step_apart(self, request)
    }

    /// Keeps a write that comes, where writes to its address are watched, and nothing was kept before.
    #[inline(never)]
    fn look(&mut self, address: u16, byte: u8)
        ensures { self.new ≡ record self.old { met = looked_at self.old address byte } }
    {
        if self.marks[usize::from(address)] % 2 == 1 && self.met.is_none() {
            self.met = Some(Access::Write {
                address,
                before: self.map.read(address),
                written: byte,
            });
        }
    }

    /// Writes to the board's bus.
    #[inline(always)]
    fn pass(&mut self, address: u16, byte: u8)
        ensures { self.new ≡ record self.old {
          map = record self.old.map
              { now = map_after_action self.old.map.now (Write address byte) };
        } }
    {
        self.map.write(address, byte);
    }
}

impl Bus for WatchedBus<'_> {
    ghost byte_at = { watched_byte_at };

    ghost input_at = { watched_input_at };

    ghost after = { watched_after_action };

    /// What the board's bus gives.
    #[inline(always)]
    fn read(&self, address: u16) -> u8 {
        self.map.read(address)
    }

    /// The four bytes from the address on.
    #[inline(always)]
    fn read_four(&self, address: u16) -> [u8; 4] {
        self.map.read_four(address)
    }

    /// Looks at the write, and writes.
    #[inline(always)]
    fn write(&mut self, address: u16, byte: u8) {
        self.look(address, byte);
        self.pass(address, byte);
    }

    /// What the board's bus gives.
    #[inline(always)]
    fn input(&self, port: u8) -> u8 {
        self.map.input(port)
    }

    /// Gives the byte to the board's bus.
    #[inline(always)]
    fn output(&mut self, port: u8, byte: u8) {
        self.map.output(port, byte);
    }
}
