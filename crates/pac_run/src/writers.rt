//! The writers of a run.

/// The writers of a run's four outputs.
#[derive(Drop)]
pub struct Writers<F, W, L, R> {
    /// The images of the frames.
    pub frames: F,
    /// The sound.
    pub wave: W,
    /// The listing of the source.
    pub listing: L,
    /// The report.
    pub report: R,
}
