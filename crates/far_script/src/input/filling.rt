// Reads the bytes of a script.
ghost use Rattle.std.specs.Prelude.{◌≡◌, ◌⊎◌, ◌≤◌, ◌<◌, [], slice_index, take, length, IfNone, IfErr, IfOk, IfSome};
ghost use Rattle.far_script.specs.Faults.{IfInput, IfHalted};
ghost use Rattle.far_script.specs.Flow.{Reads, unread};
ghost use Rattle.far_script.specs.Lines.{IsOneLine};
ghost use Rattle.far_script.specs.Reading.{EndsAt, ReadsMore, ReadsNone};

use super::Input;
use crate::bounded::Bounded;
use crate::fault::ShellFault;
use crate::lines::first_feed;
use crate::page::Page;
use crate::source::Source;
use std::alloc::Global;
use std::io::Read;

/// The least capacity for a read, in bytes.
const CHUNK: usize = 65_536;

impl<R: Read + Drop> Input<R> {
    /// Returns a script that has not been read yet. Ends with `Memory` if there is no memory for a buffer.
    pub fn new(alloc: Global, reader: R) -> Result<Input<R>, ShellFault>
        ensures reader { IfOk result (λ input. input.source.reader ≡ reader) }
        ensures bytes { IfOk result (λ input. input.source.bytes ≡ 16777216) }
        ensures reads { IfOk result (λ input. input.source.reads ≡ 1048576) }
        ensures unread { IfOk result (λ input. unread R.Read input ≡ []) }
        ensures fault { IfErr result (λ fault. fault ≡ ShellFault.Memory) }
    {
        let mut chunk = Vec::new(alloc);
        chunk.resize(CHUNK, 0)?;
        Ok(Input {
            source: Bounded::new(reader),
            chunk,
            held: Page::new(alloc),
            start: 0,
            plain: 0,
            is_ascii: true,
        })
    }

    /// Returns how many reads are still allowed.
    pub fn reads_left(&self) -> u32
        ensures { result ≡ self.now.source.reads }
    {
        self.source.reads
    }

    /// Returns how many bytes are still allowed.
    pub fn bytes_left(&self) -> u32
        ensures { result ≡ self.now.source.bytes }
    {
        self.source.bytes
    }

    /// Drops the bytes that were taken.
    fn forget(&mut self)
        ensures source { self.new.source ≡ self.old.source }
        ensures unread { unread R.Read self.new ≡ unread R.Read self.old }
        ensures chunk { self.new.chunk ≡ self.old.chunk }
    {
        self.held.forget(self.start);
        self.start = 0;
    }

    /// Gives back the memory of a long load that was taken. Does nothing if less was taken than one read may bring: the bytes
    /// that are still held are moved, and they are at most so many.
    pub fn give_back(&mut self)
        ensures source { self.new.source ≡ self.old.source }
        ensures unread { unread R.Read self.new ≡ unread R.Read self.old }
    {
        if self.start >= CHUNK {
            self.forget();
            self.held.shrink();
        }
    }
}

impl<R: Source + Drop> Input<R> {
    /// Reads once, and returns whether bytes came; false means the end of the script. All replies must have been written
    /// before. Ends with `Memory`, without a read, if there is no memory for the bytes.
    pub fn read_more(&mut self, gathered: &Page) -> Result<bool, ShellFault>
        requires flushed { gathered.now ≡ [] }
        ensures read { IfOk result (λ more. ReadsMore R.Read self.old more self.new) }
        ensures cut { IfErr result
            (λ fault. IfInput fault (ReadsNone R.Read R.may_fail self.old self.new)) }
        ensures kept { IfErr result (λ fault. IfHalted fault (Reads R.Read self.old [] self.new)) }
        ensures asked { self.new.source.reads ≤ self.old.source.reads }
        ensures fault { IfErr result
            (λ fault. (fault ≡ ShellFault.Input) ⊎ (fault ≡ ShellFault.Memory)) }
    {
        self.forget();
        if self.chunk.is_empty() {
            return Err(ShellFault::Memory);
        }
        let len = self.held.len();
        let is_plain = self.is_ascii || len == 0;
        // The space is allocated before the read, so that no byte is read and then lost.
        self.held.bytes(self.chunk.as_slice())?;
        match self.source.read(self.chunk.as_mut_slice()) {
            Ok(count) => {
                let came = &self.chunk[..count];
                self.is_ascii = is_plain && came.is_ascii();
                self.held.replace_behind(len, came);
                Ok(count > 0)
            }
            Err(fault) => {
                self.held.truncate(len);
                Err(fault)
            }
        }
    }
}

impl<R: Read + Drop> Input<R> {
    /// Returns the index of the first line feed at or after `start`, if one is held.
    pub fn line_end(&mut self) -> Option<usize>
        ensures end { IfSome result (λ end. EndsAt R.Read self.new end) }
        ensures none { IfNone result (IsOneLine (unread R.Read self.new)) }
        ensures source { self.new.source ≡ self.old.source }
        ensures held { self.new.held ≡ self.old.held }
        ensures start { self.new.start ≡ self.old.start }
    {
        match line_feed(&self.held.as_slice()[self.start..], self.plain) {
            Some(at) => {
                self.plain = at;
                Some(self.start + at)
            }
            None => {
                self.plain = self.held.len() - self.start;
                None
            }
        }
    }
}

/// Returns the index of the first line feed. The first `from` bytes must have none.
fn line_feed(bytes: &[u8], from: usize) -> Option<usize>
    requires within { from ≤ length bytes.now }
    requires none { IsOneLine (take from bytes.now) }
    ensures some { IfSome result
        (λ at. (at < length bytes.now)
        × (slice_index bytes.now at ≡ 10)
        × IsOneLine (take at bytes.now)) }
    ensures none { IfNone result (IsOneLine bytes.now) }
{
    match first_feed(&bytes[from..]) {
        Some(at) => Some(from + at),
        None => None,
    }
}
