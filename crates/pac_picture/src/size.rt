//! The size of the picture, in pixels and in cells.

ghost use Rattle.std.specs.Prelude.{◌≡◌, length};
ghost use Rattle.pac_num.specs.Tabulate.{tabulate};

/// The width of the picture, in pixels.
pub const WIDTH: usize = 288;

/// The height of the picture, in lines of pixels.
pub const HEIGHT: u8 = 224;

/// The columns of cells, 8 pixels wide each.
pub const COLUMNS: usize = 36;

/// The rows of cells, 8 lines high each.
pub const ROWS: u8 = 28;

/// A byte for each cell of a row, from left to right.
pub type RowBytes = [u8; COLUMNS];

/// N times a value.
#[inline(always)]
pub(crate) fn repeated<T: Copy, const N: usize>(value: T) -> [T; N]
    ensures { result ≡ tabulate N (λ _. value) }
{
    [value; N]
}

/// N bytes, copied.
#[inline]
pub(crate) fn copied<const N: usize>(bytes: &[u8; N]) -> [u8; N]
    ensures bytes { result ≡ bytes.now }
    ensures size { length bytes.now ≡ N }
{
    *bytes
}
