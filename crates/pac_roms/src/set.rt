//! A ROM set: the program and the five parts that picture and sound are made from.

ghost use Rattle.std.specs.Prelude.{◌≡◌, length};
ghost use Rattle.pac_roms.specs.Parts as spec;
ghost use Rattle.pac_roms.specs.PartsProofs as parts_proofs;

use std::marker::Model;

/// The bytes of a ROM set's parts, the program aside.
#[derive(Clone, Copy)]
pub struct Raw<'a> {
    /// The tile ROM, 4,096 bytes: 256 tiles of 16.
    pub tiles: &'a [u8],
    /// The sprite ROM, 4,096 bytes: 64 sprites of 64.
    pub sprites: &'a [u8],
    /// The colour PROM, 32 bytes: red, green and blue of each colour number.
    pub colours: &'a [u8],
    /// The lookup PROM, 256 bytes: four colour numbers for each of 64 colours.
    pub lookup: &'a [u8],
    /// The wave PROM, 256 bytes: eight waveforms of 32 samples.
    pub wave: &'a [u8],
}

/// The ROMs and PROMs of a board (Namco Pac-Man service schematics): a value of 25,120 bytes, which needs no memory beside
/// itself. Clauses see the bytes of each part; the parts have their sizes, and no call changes them.
#[derive(Drop)]
pub struct RomSet {
    program: [u8; 16384],
    tiles: [u8; 4096],
    sprites: [u8; 4096],
    colours: [u8; 32],
    lookup: [u8; 256],
    wave: [u8; 256],
}

impl Model for RomSet {
    ghost use Rattle.pac_roms.specs.Parts.{Parts, IsWhole};

    ghost Value = { Parts };

    ghost view = { λ set. record {
      program = set.program;
      tiles = set.tiles;
      sprites = set.sprites;
      colours = set.colours;
      lookup = set.lookup;
      wave = set.wave;
    } };

    ghost invariant = { λ set. IsWhole (record {
      program = set.program;
      tiles = set.tiles;
      sprites = set.sprites;
      colours = set.colours;
      lookup = set.lookup;
      wave = set.wave;
    }) };
}

impl RomSet {
    /// The set of these bytes: a program of 16,384, tiles and sprites of 4,096 each, 32 of the colour PROM, and 256 each of
    /// the lookup PROM and of the wave PROM.
    #[inline(always)]
    pub fn of(program: &[u8], raw: &Raw) -> RomSet
        requires program { length program.now ≡ spec.program_size }
        requires tiles { length raw.now.tiles.now ≡ spec.tiles_size }
        requires sprites { length raw.now.sprites.now ≡ spec.sprites_size }
        requires colours { length raw.now.colours.now ≡ spec.colour_prom_size }
        requires lookup { length raw.now.lookup.now ≡ spec.lookup_prom_size }
        requires wave { length raw.now.wave.now ≡ spec.wave_prom_size }
        ensures { result ≡ record {
          program = program.now;
          tiles = raw.now.tiles.now;
          sprites = raw.now.sprites.now;
          colours = raw.now.colours.now;
          lookup = raw.now.lookup.now;
          wave = raw.now.wave.now;
        } }
    {
        let mut set = RomSet::zeroed();
        set.put(program, raw);
        set
    }

    /// A set of zeros, over which another is put.
    #[tactic(auto, unfolding(crate::specs::PartsProofs::zero_parts))]
    pub fn zeroed() -> RomSet
        ensures { result ≡ parts_proofs.zero_parts }
    {
        RomSet {
            program: [0; 16384],
            tiles: [0; 4096],
            sprites: [0; 4096],
            colours: [0; 32],
            lookup: [0; 256],
            wave: [0; 256],
        }
    }

    /// Becomes the set of these bytes, in place.
    #[inline(always)]
    pub fn put(&mut self, program: &[u8], raw: &Raw)
        requires { spec.IsWhole (parts_proofs.parts_of program.now raw.now) }
        ensures { self.new ≡ parts_proofs.parts_of program.now raw.now }
    {
        self.put_program(program);
        self.put_shapes(raw.tiles, raw.sprites);
        self.put_proms(raw.colours, raw.lookup, raw.wave);
    }

    /// Puts another program in the four ROMs of it.
    #[inline(always)]
    fn put_program(&mut self, program: &[u8])
        requires { length program.now ≡ spec.program_size }
        ensures { self.new ≡ record self.old { program = program.now } }
    {
        self.program.copy_from_slice(program);
    }

    /// Puts other shapes of tiles and sprites in the two ROMs of them.
    #[inline(always)]
    fn put_shapes(&mut self, tiles: &[u8], sprites: &[u8])
        requires tiles { length tiles.now ≡ spec.tiles_size }
        requires sprites { length sprites.now ≡ spec.sprites_size }
        ensures { self.new ≡ record self.old { tiles = tiles.now; sprites = sprites.now } }
    {
        self.tiles.copy_from_slice(tiles);
        self.sprites.copy_from_slice(sprites);
    }

    /// Puts other bytes in the three PROMs.
    #[inline(always)]
    fn put_proms(&mut self, colours: &[u8], lookup: &[u8], wave: &[u8])
        requires colours { length colours.now ≡ spec.colour_prom_size }
        requires lookup { length lookup.now ≡ spec.lookup_prom_size }
        requires wave { length wave.now ≡ spec.wave_prom_size }
        ensures { self.new ≡ record self.old {
          colours = colours.now;
          lookup = lookup.now;
          wave = wave.now;
        } }
    {
        self.colours.copy_from_slice(colours);
        self.lookup.copy_from_slice(lookup);
        self.wave.copy_from_slice(wave);
    }

    /// The program ROM, 16,384 bytes.
    #[inline(always)]
    pub fn program(&self) -> &[u8; 16384]
        ensures bytes { result.now ≡ self.now.program }
        ensures size { length self.now.program ≡ spec.program_size }
    {
        &self.program
    }

    /// The tile ROM, 4,096 bytes.
    #[inline(always)]
    pub fn tiles(&self) -> &[u8; 4096]
        ensures bytes { result.now ≡ self.now.tiles }
        ensures size { length self.now.tiles ≡ spec.tiles_size }
    {
        &self.tiles
    }

    /// The sprite ROM, 4,096 bytes.
    #[inline(always)]
    pub fn sprites(&self) -> &[u8; 4096]
        ensures bytes { result.now ≡ self.now.sprites }
        ensures size { length self.now.sprites ≡ spec.sprites_size }
    {
        &self.sprites
    }

    /// The colour PROM, 32 bytes.
    #[inline(always)]
    pub fn colours(&self) -> &[u8; 32]
        ensures bytes { result.now ≡ self.now.colours }
        ensures size { length self.now.colours ≡ spec.colour_prom_size }
    {
        &self.colours
    }

    /// The lookup PROM, 256 bytes.
    #[inline(always)]
    pub fn lookup(&self) -> &[u8; 256]
        ensures bytes { result.now ≡ self.now.lookup }
        ensures size { length self.now.lookup ≡ spec.lookup_prom_size }
    {
        &self.lookup
    }

    /// The wave PROM, 256 bytes.
    #[inline(always)]
    pub fn wave(&self) -> &[u8; 256]
        ensures bytes { result.now ≡ self.now.wave }
        ensures size { length self.now.wave ≡ spec.wave_prom_size }
    {
        &self.wave
    }
}
