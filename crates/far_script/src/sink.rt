// Writers of types that say whether a write may fail.
ghost use Rattle.std.specs.Prelude.{◌≡◌, ◌<◌, Bool, false, length, IfOk, IsTrue, OnErr};
ghost use Rattle.std.specs.Io.{WritesAtMost};
ghost use Rattle.std.specs.Io.KnownBytes.{Keeps, WriteAppends};

use std::io;
use std::io::Write;

/// A writer of a type that says whether a write may fail. So a script can end with `Output` only if that type may fail.
///
/// [`io::Sink`], which drops all bytes, never fails. Any other writer is wrapped in [`Fallible`](crate::Fallible), also a
/// `Vec`, which may run out of memory.
pub trait Sink: Write {
    /// Whether writers of this type may fail.
    ghost may_fail: { Bool };

    /// Writes once, as `write` does, and returns how many bytes the writer took. Fails only if `may_fail`. A write of at
    /// least one byte that takes none counts as failed.
    fn write_some(&mut self, bytes: &[u8]) -> io::Result<usize>
        ensures bound { WritesAtMost result bytes.now }
        ensures bytes { WriteAppends (Self.contents self.old) (Self.contents self.new) result
            bytes.now }
        ensures none { IfOk result (λ count. count ≡ 0 → 0 < length bytes.now → IsTrue may_fail) }
        ensures failed { OnErr result (IsTrue may_fail) };

    /// Flushes, as `flush` does. Fails only if `may_fail`.
    fn flush_all(&mut self) -> io::Result<()>
        ensures bytes { Keeps (Self.contents self.old) (Self.contents self.new) }
        ensures failed { OnErr result (IsTrue may_fail) };
}

impl Sink for io::Sink {
    ghost may_fail = { false };

    fn write_some(&mut self, bytes: &[u8]) -> io::Result<usize> {
        self.write(bytes)
    }

    fn flush_all(&mut self) -> io::Result<()> {
        self.flush()
    }
}
