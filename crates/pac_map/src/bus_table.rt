//! The address decoder: the place that an address selects, for a read and for a write.

ghost use Rattle.std.specs.Prelude.{◌≡◌, ◌%◌, ◌<◌, IfSome, unwrap_or, false};
ghost use Rattle.pac_map.specs.Heard.{is_of_sound};
ghost use Rattle.pac_map.specs.Place as spec;
ghost use Rattle.pac_map.specs.PlaceProofs as place_proofs;

/// A place on the bus (Namco Pac-Man service schematics). Numbers are cells, bits or registers of the place.
#[derive(Clone, Copy, PartialEq, Debug)]
pub enum BusPlace {
    /// A cell of the program ROM, below 16,384. A write there changes nothing.
    Program(u16),
    /// A cell of the tile RAM, below 1,024.
    Tile(u16),
    /// A cell of the colour RAM, below 1,024.
    Colour(u16),
    /// A cell of the work RAM, below 1,024; the last 16 are the sprites' attributes.
    Work(u16),
    /// No chip.
    Nothing,
    /// The first player's inputs, read only.
    Inputs0,
    /// The second player's inputs, read only.
    Inputs1,
    /// The DIP switches, read only.
    Switches,
    /// The watchdog: a write sets its count to 0, and nothing answers a read.
    Kick,
    /// A bit of the output latch, below 8, write only.
    Latch(u8),
    /// A register of the wave generator, below 32, write only.
    Wave(u8),
    /// A sprite coordinate, below 16, write only.
    Coordinate(u8),
}

/// A place of the RAM page, whose bytes are counted from 0 to 4,095. The work RAM is asked for first: stack and variables lie there.
#[inline(always)]
fn ram_place(offset: u16) -> BusPlace
    requires { offset < 0x1000 }
    ensures place { result ≡ spec.ram_place offset }
    ensures in_range { place_proofs.IsPlaceInRange result }
    ensures silent { is_of_sound result ≡ false }
{
    if offset >= 0xC00 {
        BusPlace::Work(offset - 0xC00)
    } else if offset < 0x400 {
        BusPlace::Tile(offset)
    } else if offset < 0x800 {
        BusPlace::Colour(offset - 0x400)
    } else {
        BusPlace::Nothing
    }
}

/// A place of the port page, whose low eight address lines are wired, when read.
#[inline(always)]
fn read_port(offset: u8) -> BusPlace
    ensures place { result ≡ spec.read_port offset }
    ensures in_range { place_proofs.IsPlaceInRange result }
{
    if offset < 0x40 {
        BusPlace::Inputs0
    } else if offset < 0x80 {
        BusPlace::Inputs1
    } else if offset < 0xC0 {
        BusPlace::Switches
    } else {
        BusPlace::Kick
    }
}

/// A place of the port page, whose low eight address lines are wired, when written. The watchdog is asked for first: programs that wait
/// write there most.
#[inline(always)]
pub(crate) fn write_port(offset: u8) -> BusPlace
    ensures place { result ≡ spec.write_port offset }
    ensures in_range { place_proofs.IsPlaceInRange result }
{
    if offset >= 0xC0 {
        BusPlace::Kick
    } else if offset < 0x40 {
        BusPlace::Latch(offset % 8)
    } else if offset < 0x60 {
        BusPlace::Wave(offset - 0x40)
    } else if offset < 0x70 {
        BusPlace::Coordinate(offset - 0x60)
    } else {
        BusPlace::Nothing
    }
}

/// Whether a place is a register of the wave generator, or a bit of the latch.
#[inline]
pub(crate) fn is_of_sound(place: BusPlace) -> bool
    ensures { result ≡ is_of_sound place }
{
    matches!(place, BusPlace::Latch(_) | BusPlace::Wave(_))
}

/// The place of the ROM or of the RAM page that an address selects, none where it selects a port.
#[inline(always)]
pub(crate) fn memory_place(address: u16) -> Option<BusPlace>
    ensures read { unwrap_or result (spec.read_port (address % 0x100)) ≡ spec.read_place address }
    ensures written { unwrap_or result (spec.write_port (address % 0x100))
        ≡ spec.write_place address }
    ensures in_range { IfSome result place_proofs.IsPlaceInRange }
    ensures silent { IfSome result (λ place. is_of_sound place ≡ false) }
{
    if address % 0x8000 < 0x4000 {
        Some(BusPlace::Program(address % 0x8000))
    } else if address % 0x2000 < 0x1000 {
        Some(ram_place(address % 0x2000))
    } else {
        None
    }
}

/// The place that a read from an address asks.
#[inline(always)]
pub fn read_place(address: u16) -> BusPlace
    ensures place { result ≡ spec.read_place address }
    ensures in_range { place_proofs.IsPlaceInRange result }
{
    match memory_place(address) {
        Some(place) => place,
        None => read_port((address % 0x100) as u8),
    }
}

/// The place that a write to an address reaches.
#[inline(always)]
pub fn write_place(address: u16) -> BusPlace
    ensures place { result ≡ spec.write_place address }
    ensures in_range { place_proofs.IsPlaceInRange result }
{
    match memory_place(address) {
        Some(place) => place,
        None => write_port((address % 0x100) as u8),
    }
}
