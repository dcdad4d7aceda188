// A wrapper that makes any reader or writer one that may fail.
ghost use Rattle.std.specs.Prelude.{⊤, true};

use super::sink::Sink;
use super::source::Source;
use std::io;
use std::io::{Read, Write};

/// A reader or a writer of a type that may fail. Reads and writes go to the one inside.
#[derive(Drop)]
pub struct Fallible<T>(pub T);

impl<R: Read + Drop> Read for Fallible<R> {
    ghost remaining = { λ reader. R.remaining reader.0 };

    fn read(&mut self, buffer: &mut [u8]) -> io::Result<usize> {
        self.0.read(buffer)
    }
}

impl<R: Read + Drop> Source for Fallible<R> {
    ghost may_fail = { ⊤ };

    fn read_some(&mut self, buffer: &mut [u8]) -> io::Result<usize> {
        self.read(buffer)
    }
}

impl<W: Write + Drop> Write for Fallible<W> {
    ghost contents = { λ writer. W.contents writer.0 };

    fn write(&mut self, bytes: &[u8]) -> io::Result<usize> {
        self.0.write(bytes)
    }

    fn flush(&mut self) -> io::Result<()> {
        self.0.flush()
    }
}

impl<W: Write + Drop> Sink for Fallible<W> {
    ghost may_fail = { true };

    fn write_some(&mut self, bytes: &[u8]) -> io::Result<usize> {
        self.write(bytes)
    }

    fn flush_all(&mut self) -> io::Result<()> {
        self.flush()
    }
}
