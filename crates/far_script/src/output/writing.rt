// Writes the replies of an output.
ghost use Rattle.std.specs.Prelude.{◌≡◌, ◌≤◌, ◌<◌, [], length, take, true, OnOk, OnErr, IfErr, IsTrue};
ghost use Rattle.std.specs.Io.KnownBytes.{Appends, Keeps};
ghost use Rattle.far_script.specs.Flow.{Prints, has_failed};

use super::Output;
use crate::fault::ShellFault;
use crate::sink::Sink;
use std::io::ErrorKind;
use std::mem::swap;

/// How many bytes of replies are collected before they are written.
const FULL: usize = 65_536;

/// Writes bytes until the writer has taken all of them or a write fails. Returns how many the writer took.
fn write_out<W: Sink>(writer: &mut W, bytes: &[u8]) -> usize
    ensures sent { Appends (W.contents writer.old) (W.contents writer.new) (take result bytes.now) }
    ensures within { result ≤ length bytes.now }
    ensures stopped { result < length bytes.now → IsTrue W.may_fail }
{
    let mut taken = 0;
    for turn in 0..u64::MAX {
        if taken >= bytes.len() {
            return taken;
        }
        match writer.write_some(&bytes[taken..]) {
            Ok(0) => return taken,
            Ok(count) => taken += count,
            Err(error) => {
                if error.kind() != ErrorKind::Interrupted {
                    return taken;
                }
            }
        }
    }
    taken
}

impl<W: Sink> Output<W> {
    /// Lets the next reply be printed in the larger memory of the two pages, none of whose bytes is needed any more. So of two
    /// long replies the second needs no memory of its own.
    fn change_pages(&mut self)
        requires { self.old.page ≡ [] }
        ensures page { self.new.page ≡ self.old.page }
        ensures failed { has_failed self.new ≡ has_failed self.old }
    {
        if self.reply.capacity() < self.page.capacity() {
            self.reply.truncate(0);
            swap(&mut self.page, &mut self.reply);
        }
    }

    /// Writes the replies and flushes the writer. Does nothing if there are no replies.
    ///
    /// Ends with `Output` if that fails, or if a write failed before. The writer then got a prefix of the replies, and
    /// nothing is written afterwards.
    pub fn flush(&mut self, writer: &mut W) -> Result<(), ShellFault>
        ensures printed { Prints (W.contents writer.old) self.old.page [] (W.contents writer.new)
            self.new.page }
        ensures ok { OnOk result (self.new.page ≡ []) }
        ensures going { OnOk result (has_failed self.new ≡ has_failed self.old) }
        ensures failed { OnErr result (has_failed self.new ≡ true) }
        ensures stopped { has_failed self.old ≡ true
            → Keeps (W.contents writer.old) (W.contents writer.new) }
        ensures fault { IfErr result (λ fault. fault ≡ ShellFault.Output) }
    {
        if self.page.is_empty() {
            return Ok(());
        }
        if self.failed {
            return Err(ShellFault::Output);
        }
        let taken = write_out(writer, self.page.as_slice());
        self.page.forget(taken);
        self.failed = !self.page.is_empty() || writer.flush_all().is_err();
        if self.failed {
            return Err(ShellFault::Output);
        }
        self.change_pages();
        Ok(())
    }

    /// Calls `flush` if there are at least 65,536 bytes of replies. Ends with `Output` if that fails.
    pub fn flush_if_full(&mut self, writer: &mut W) -> Result<(), ShellFault>
        ensures printed { Prints (W.contents writer.old) self.old.page [] (W.contents writer.new)
            self.new.page }
        ensures going { OnOk result (has_failed self.new ≡ has_failed self.old) }
        ensures failed { OnErr result (has_failed self.new ≡ true) }
        ensures stopped { has_failed self.old ≡ true
            → Keeps (W.contents writer.old) (W.contents writer.new) }
        ensures fault { IfErr result (λ fault. fault ≡ ShellFault.Output) }
    {
        if self.page.len() < FULL {
            return Ok(());
        }
        self.flush(writer)
    }
}
