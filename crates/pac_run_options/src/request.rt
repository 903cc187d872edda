//! What a command line asks for.

/// What the words ask for; names of files are as they were given.
#[derive(Clone, Copy)]
pub enum Request<'a> {
    /// `asm`: a source is assembled.
    Asm(AsmFiles<'a>),
    /// `run`: a ROM set is run by a script.
    Run(PlayFiles<'a>),
    /// `debug`: a ROM set is run by a script, and a debugger's commands are done on it.
    Debug(DebugFiles<'a>),
    /// `dis`: the file of this name is disassembled.
    Dis(&'a str),
}

/// The files of `asm`.
#[derive(Clone, Copy)]
pub struct AsmFiles<'a> {
    /// The source that is read.
    pub source: &'a str,
    /// The file that gets the ROM's bytes.
    pub rom: &'a str,
    /// The file that gets the listing.
    pub listing: &'a str,
}

/// The files of a run that it has in any case, and the switches of the board.
#[derive(Clone, Copy)]
pub struct RunFiles<'a> {
    /// The manifest of the ROM set.
    pub set: &'a str,
    /// The script of inputs.
    pub script: &'a str,
    /// The file that gets the pictures, in PPM.
    pub frames: &'a str,
    /// The file that gets the sound, in WAV.
    pub wave: &'a str,
    /// The file that gets the listing.
    pub listing: &'a str,
    /// The source that stands in place of the set's program.
    pub source: Option<&'a str>,
    /// Whether the outputs take their places once all of them are whole.
    pub whole: bool,
    /// The byte of the DIP switches: 201 where the words don't say it.
    pub dip: u8,
}

/// The files of `run`: those that a run has in any case, and the states that it begins and ends with.
#[derive(Clone, Copy)]
pub struct PlayFiles<'a> {
    /// The files that a run has in any case, and the switches of the board.
    pub run: RunFiles<'a>,
    /// The state that the run begins with, in place of power-on.
    pub load: Option<&'a str>,
    /// The file that gets the state at the run's end.
    pub save: Option<&'a str>,
}

/// The files of `debug`: those of a run, and its commands.
#[derive(Clone, Copy)]
pub struct DebugFiles<'a> {
    /// The files of the run, and the switches of the board.
    pub run: RunFiles<'a>,
    /// The debugger's commands.
    pub commands: &'a str,
}
