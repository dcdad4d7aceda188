// Readers of types that say whether a read may fail.
ghost use Rattle.std.specs.Prelude.{OnErr};
ghost use Rattle.std.specs.Io.{ReadsAtMost};
ghost use Rattle.std.specs.Io.KnownBytes.{ReadConsumes};

use std::io;
use std::io::Read;

/// A reader of a type that says whether a read may fail.
///
/// A slice of bytes (`&[u8]`) never fails. Any other reader is wrapped in [`Fallible`](crate::Fallible).
pub trait Source: Read {
    /// Whether readers of this type may fail.
    ghost may_fail: { Type 0 };

    /// Reads once, as `read` does, and returns how many bytes came. Fails only if `may_fail`.
    fn read_some(&mut self, buffer: &mut [u8]) -> io::Result<usize>
        ensures bound { ReadsAtMost result buffer.new }
        ensures bytes { ReadConsumes (Self.remaining self.old) (Self.remaining self.new) result
            buffer.new }
        ensures failed { OnErr result may_fail };
}

impl Source for &[u8] {
    ghost may_fail = { ⊥ };

    fn read_some(&mut self, buffer: &mut [u8]) -> io::Result<usize> {
        self.read(buffer)
    }
}
