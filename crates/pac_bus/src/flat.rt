//! A bus of memory and ports alone.

ghost use Rattle.std.specs.Prelude.{◌≡◌, ◌+◌, ◌<◌, ◌≤◌, ℕ, IfOk, length, slice_index};
ghost use Rattle.std.specs.Int.{to_le_bytes, w32};
ghost use Rattle.pac_bus.specs.Reads.{four_from};
ghost use Rattle.pac_bus.specs.Flat.{Cells, byte_at, input_at, cells_after_action};
ghost use Rattle.pac_bus.specs.Flat.{cells_with_bytes, IsBlank};

use crate::{Bus, packed};
use std::alloc::{AllocError, Global};
use std::marker::Model;

/// 65,536 bytes of memory, each one writable, and 256 ports that give back what they were last given:
/// a bus for whoever takes the processor by itself. All are 0 at first.
pub struct Flat {
    memory: Box<[u8; 65536]>,
    ports: [u8; 256],
}

impl Drop for Flat {
    /// Drops each part.
    fn drop(self) {
        let Flat {
            memory: _,
            ports: _,
        } = self;
    }
}

impl Model for Flat {
    ghost Value = { Cells };

    ghost view = { λ flat. record { memory = flat.memory.value; ports = flat.ports } };
}

/// An array of zeros.
fn zeros<const N: usize>() -> [u8; N]
    ensures room { length result ≡ N }
    ensures zero { (k : ℕ) → slice_index result k ≡ 0 }
{
    [0; N]
}

impl Flat {
    /// A bus whose 65,536 bytes and 256 ports are all 0; refused for want of memory alone.
    pub fn new(alloc: Global) -> Result<Self, AllocError>
        ensures { IfOk result IsBlank }
    {
        let memory = Box::new(alloc, zeros::<65536>())?;
        Ok(Flat {
            memory,
            ports: zeros::<256>(),
        })
    }

    /// Puts bytes into memory from an address on; they must not reach over the end. The ports keep what they have.
    pub fn load(&mut self, at: u16, bytes: &[u8])
        requires { at + length bytes.now ≤ 65536 }
        ensures { self.new ≡ cells_with_bytes self.old at bytes.now }
    {
        let start = at as usize;
        let end = start + bytes.len();
        self.memory[start..end].copy_from_slice(bytes);
    }
}

/// The four bytes from an address on, packed, one by one.
#[cold]
#[inline(never)]
fn read_each(flat: &Flat, address: u16) -> u32
    ensures { to_le_bytes w32 result ≡ four_from (byte_at flat.now) address }
{
    packed([
        flat.read(address),
        flat.read(address.wrapping_add(1)),
        flat.read(address.wrapping_add(2)),
        flat.read(address.wrapping_add(3)),
    ])
}

/// The four bytes from an address on, packed: at once where none lies past the end.
#[inline(always)]
fn four_at(flat: &Flat, address: u16) -> u32
    ensures { to_le_bytes w32 result ≡ four_from (byte_at flat.now) address }
{
    let at = usize::from(address);
    if at < 0xFFFD {
        let memory = &flat.memory;
        packed([memory[at], memory[at + 1], memory[at + 2], memory[at + 3]])
    } else {
        read_each(flat, address)
    }
}

impl Bus for Flat {
    ghost byte_at = { byte_at };

    ghost input_at = { input_at };

    ghost after = { cells_after_action };

    #[inline(always)]
    fn read(&self, address: u16) -> u8 {
        self.memory[address as usize]
    }

    /// The four bytes from the address on.
    #[inline(always)]
    fn read_four(&self, address: u16) -> [u8; 4] {
        four_at(self, address).to_le_bytes()
    }

    #[inline(always)]
    fn write(&mut self, address: u16, byte: u8) {
        let at = address as usize;
        self.memory[at] = byte;
    }

    fn input(&self, port: u8) -> u8 {
        self.ports[port as usize]
    }

    fn output(&mut self, port: u8, byte: u8) {
        let at = port as usize;
        self.ports[at] = byte;
    }
}
