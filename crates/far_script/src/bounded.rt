// A reader that allows a bounded number of reads and of bytes.
ghost use Rattle.std.specs.Prelude.{◌≡◌, ◌≤◌, [], unwrap_or, IsTrue};

mod reading;

use std::io::Read;

/// The most bytes that a script may have.
pub const MAX_BYTES: u32 = 16_777_216;

/// The most reads that are made for a script, including the one that finds its end.
pub const MAX_READS: u32 = 1_048_576;

/// A reader, with the number of reads and bytes that it still allows.
#[derive(Drop)]
pub struct Bounded<R: Read + Drop> {
    /// The reader, which is called only by `read`.
    pub reader: R,
    /// How many reads are still allowed.
    pub reads: u32,
    /// How many bytes are still allowed.
    pub bytes: u32,
    /// Whether a read found the end. The reader is not called again after it.
    pub ended: bool,
    ghost few: { reads ≤ 1048576 },
    ghost most: { bytes ≤ 16777216 },
    ghost end: { IsTrue ended → unwrap_or (R.remaining reader) [] ≡ [] },
}
