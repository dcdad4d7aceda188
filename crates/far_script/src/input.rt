// A script that is read piece by piece.
ghost use Rattle.std.specs.Prelude.{◌≡◌, ◌==◌, ◌≤◌, ◌+◌, true, false, length, take, drop};
ghost use Rattle.std.specs.List.{list_any};
ghost use Rattle.std.specs.Str.{IsAscii};

mod filling;
mod taking;

use super::bounded::Bounded;
use super::page::Page;
use std::io::Read;

/// The byte range of a line or a load in the bytes that are held.
#[derive(Clone, Copy, Debug, Drop)]
pub struct ByteRange {
    /// Index of its first byte.
    pub from: usize,
    /// Index after its last byte.
    pub to: usize,
}

/// A line of a script, without its end.
#[derive(Clone, Copy, Debug, Drop)]
pub enum Line {
    /// A line that a line feed ends.
    Whole(ByteRange),
    /// The last line, which no line feed ends. It may be empty.
    Last(ByteRange),
}

/// A script that is read while it is answered. It holds at most one line or one load, and the bytes that came with it. It
/// makes at most 1,048,576 reads and takes at most 16,777,216 bytes.
#[derive(Drop)]
pub struct Input<R: Read + Drop> {
    /// The reader, with the reads and bytes that it still allows.
    pub source: Bounded<R>,
    /// The buffer for reads.
    chunk: Vec<u8>,
    /// The bytes that were read. Those before `start` were taken.
    pub held: Page,
    /// Index of the first byte of the next line.
    pub start: usize,
    /// How many bytes from `start` on are known to have no line feed.
    plain: usize,
    /// Whether all bytes held are known to be ASCII. Then no line has to be checked for UTF-8.
    is_ascii: bool,
    ghost known: { start + plain ≤ length held },
    ghost most: { length held + source.bytes ≤ 16777216 + start },
    ghost within: { list_any (λ c. c == 10) (take plain (drop start held)) ≡ false },
    ghost ascii: { is_ascii ≡ true → IsAscii held },
}
