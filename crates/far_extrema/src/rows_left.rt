// The min-max of the rows that remain under a key.
ghost use Rattle.std.specs.Prelude.{◌≡◌, Option, ℤ};

use super::min_max::MinMax;

/// The rows of a row group that remain under one key once a row is removed. Extrema keep no rows, so the caller provides them.
pub trait RowsLeft {
    /// Whether the rows can be read.
    ghost at_hand: { Self → Type 0 };

    /// The least and the greatest of their values, if there are rows.
    ghost extremes: { Self → Option (ℤ × ℤ) };

    /// Returns the least and the greatest of their values, or `None` if no row remains. Allocates nothing.
    fn min_max(&self) -> Option<MinMax>
        requires { at_hand self.now }
        ensures { result ≡ extremes self.now };
}
