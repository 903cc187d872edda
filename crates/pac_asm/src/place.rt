//! What becomes of a line in the first phase.

/// So many bytes from an address on.
#[derive(Clone, Copy)]
pub(crate) struct Span {
    /// The address of the first byte.
    pub(crate) at: u16,
    /// How many bytes.
    pub(crate) size: u16,
}

/// What becomes of a line in the first phase.
#[derive(Clone, Copy)]
pub(crate) enum LineLayout {
    /// It counts, and places nothing.
    Blank,
    /// It is skipped.
    Skipped,
    /// It has an item of these bytes, maybe of none.
    Placed(Span),
}
