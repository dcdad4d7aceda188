// Takes lines and loads from a script.
ghost use Rattle.std.specs.Prelude.{◌↔◌, ◌≡◌, ◌≢◌, ◌≤◌, ◌<◌, [], true, length, take, IsTrue, IsUtf8, IfNone, IfErr, IfOk, IfSome, OnOk};
ghost use Rattle.std.specs.Io.BufRead.{strip_last};
ghost use Rattle.far_script.specs.Faults.{IfInput, IfHalted};
ghost use Rattle.far_script.specs.Flow.{Holds, IsShort, Prints, Reads, Stops, TakesLine, TakesNoLine, has_failed, byte_range_of, bytes_in, unread};
ghost use Rattle.far_script.specs.Lines.{IsOneLine};
ghost use Rattle.far_script.specs.Reading.{EndsAt};

use super::{ByteRange, Input, Line};
use crate::bounded::MAX_READS;
use crate::fault::ShellFault;
use crate::output::Output;
use crate::sink::Sink;
use crate::source::Source;
use std::str;

/// The most turns of the loop of `seek_line`, which reads once in each but the last.
const MORE_THAN_READS: u32 = MAX_READS + 1;

impl ByteRange {
    /// Returns whether the range is empty.
    pub fn is_empty(self) -> bool
        ensures { IsTrue result ↔ (self.to ≤ self.from) }
    {
        self.to <= self.from
    }
}

/// Returns the length of a line, not counting a carriage return at its end.
fn line_len(line: &[u8]) -> usize
    ensures within { result ≤ length line.now }
    ensures line { take result line.now ≡ strip_last 13 line.now }
{
    let len = line.len();
    if len > 0 && line[len - 1] == b'\r' {
        len - 1
    } else {
        len
    }
}

impl<R: Source + Drop> Input<R> {
    /// Reads until a whole line is held, and returns the index of its line feed, or `None` at the end of the script.
    /// Replies are written before each read.
    fn seek_line<W: Sink>(
        &mut self,
        output: &mut Output<W>,
        writer: &mut W,
    ) -> Result<Option<usize>, ShellFault>
        ensures read { OnOk result (Reads R.Read self.old [] self.new) }
        ensures fault { IfErr result
            (λ fault. (fault ≢ ShellFault.BadStart) × (fault ≢ ShellFault.Turns)) }
        ensures no_line { IfErr result
            (λ fault. TakesNoLine R.Read R.may_fail fault self.old self.new) }
        ensures asked { self.new.source.reads ≤ self.old.source.reads }
        ensures printed { Prints (W.contents writer.old) output.old.page [] (W.contents writer.new)
            output.new.page }
        ensures failed { IfErr result
            (λ fault. fault ≡ ShellFault.Output → has_failed output.new ≡ true) }
        ensures end { IfOk result (λ found. IfSome found (λ end. EndsAt R.Read self.new end)) }
        ensures ended { IfOk result
            (λ found. IfNone found
            ((self.new.source.ended ≡ true) × IsOneLine (unread R.Read self.new))) }
    {
        for turn in 0..MORE_THAN_READS {
            if let Some(end) = self.line_end() {
                return Ok(Some(end));
            }
            output.flush(writer)?;
            if !self.read_more(&output.page)? {
                return Ok(None);
            }
        }
        Err(ShellFault::Input)
    }

    /// Takes the bytes up to `end`, and makes `next` the start of the next line.
    fn take(&mut self, end: usize, next: usize) -> ByteRange
        requires { (self.old.start ≤ end) × (end ≤ next) × (next ≤ length self.old.held) }
        ensures from { result.from ≡ self.old.start }
        ensures to { result.to ≡ end }
        ensures held { self.new.held ≡ self.old.held }
        ensures source { self.new.source ≡ self.old.source }
        ensures start { self.new.start ≡ next }
    {
        let from = self.start;
        self.start = next;
        self.plain = 0;
        ByteRange { from, to: end }
    }

    /// Takes the next line, without its line feed and without a carriage return directly before that.
    pub fn line<W: Sink>(
        &mut self,
        output: &mut Output<W>,
        writer: &mut W,
    ) -> Result<Line, ShellFault>
        ensures line { IfOk result
            (λ line. Holds R.Read self.new (byte_range_of R.Read line)
            × TakesLine R.Read self.old line self.new) }
        ensures fault { IfErr result (λ fault. fault ≢ ShellFault.BadStart) }
        ensures turns { IfErr result (λ fault. fault ≢ ShellFault.Turns) }
        ensures no_line { IfErr result
            (λ fault. TakesNoLine R.Read R.may_fail fault self.old self.new) }
        ensures asked { self.new.source.reads ≤ self.old.source.reads }
        ensures printed { Prints (W.contents writer.old) output.old.page [] (W.contents writer.new)
            output.new.page }
        ensures failed { IfErr result
            (λ fault. fault ≡ ShellFault.Output → has_failed output.new ≡ true) }
    {
        self.give_back();
        let found = self.seek_line(output, writer)?;
        let len = self.held.len();
        let Some(end) = found else {
            return Ok(Line::Last(self.take(len, len)));
        };
        let line = self.take(end, end + 1);
        let whole = line_len(&self.held.as_slice()[line.from..line.to]);
        Ok(Line::Whole(ByteRange {
            from: line.from,
            to: line.from + whole,
        }))
    }

    /// Takes the next `count` bytes. Ends with `Input` if the script ends before them, or no more of it comes.
    pub fn bytes<W: Sink>(
        &mut self,
        output: &mut Output<W>,
        writer: &mut W,
        count: usize,
    ) -> Result<ByteRange, ShellFault>
        ensures byte_range { IfOk result
            (λ byte_range. Holds R.Read self.new byte_range
            × (length (bytes_in R.Read self.new byte_range) ≡ count)
            × Reads R.Read self.old (bytes_in R.Read self.new byte_range) self.new) }
        ensures fault { IfErr result (λ fault. fault ≢ ShellFault.BadStart) }
        ensures turns { IfErr result (λ fault. fault ≢ ShellFault.Turns) }
        ensures stopped { IfErr result
            (λ fault. IfInput fault
            (Stops R.Read
            (λ bytes rest. (length bytes < count)
            × IsShort R.Read R.may_fail self.old self.new rest) self.old self.new)) }
        ensures kept { IfErr result (λ fault. IfHalted fault (Reads R.Read self.old [] self.new)) }
        ensures asked { self.new.source.reads ≤ self.old.source.reads }
        ensures printed { Prints (W.contents writer.old) output.old.page [] (W.contents writer.new)
            output.new.page }
        ensures failed { IfErr result
            (λ fault. fault ≡ ShellFault.Output → has_failed output.new ≡ true) }
    {
        for turn in 0..MORE_THAN_READS {
            if self.held.len() - self.start >= count {
                let end = self.start + count;
                return Ok(self.take(end, end));
            }
            output.flush(writer)?;
            if !self.read_more(&output.page)? {
                return Err(ShellFault::Input);
            }
        }
        Err(ShellFault::Input)
    }

    /// Returns the text of a line or a load that was just taken. Ends with `Input` if it is not valid UTF-8.
    pub fn text(&self, byte_range: ByteRange) -> Result<&str, ShellFault>
        requires { Holds R.Read self.now byte_range }
        ensures ok { IfOk result
            (λ text. (text.now ≡ bytes_in R.Read self.now byte_range) × IsUtf8 text.now) }
        ensures fault { IfErr result
            (λ fault. (fault ≡ ShellFault.Input)
            × ¬ (IsUtf8 (bytes_in R.Read self.now byte_range))) }
    {
        let bytes = &self.held.as_slice()[byte_range.from..byte_range.to];
        if self.is_ascii {
            return Ok(unsafe { str::from_utf8_unchecked(bytes) });
        }
        match str::from_utf8(bytes) {
            Ok(text) => Ok(text),
            Err(_) => Err(ShellFault::Input),
        }
    }
}
