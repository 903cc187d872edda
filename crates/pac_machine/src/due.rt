//! The outputs that no sink has taken yet.

ghost use Rattle.std.specs.Prelude.{◌≡◌, ◌||◌, is_some};

/// What is due: the outputs of the last step that a sink hasn't taken, the sample before the picture.
#[derive(Clone, Copy)]
pub struct Due {
    /// A sound sample.
    pub sample: Option<i16>,
    /// Whether the picture is due, as the board then has it.
    pub picture: bool,
}

impl Due {
    /// Nothing is due.
    pub const NOTHING: Due = Due {
        sample: None,
        picture: false,
    };

    /// Whether anything is due.
    #[inline]
    pub fn is_some(&self) -> bool
        ensures { result ≡ (is_some self.now.sample || self.now.picture) }
    {
        self.sample.is_some() || self.picture
    }
}
