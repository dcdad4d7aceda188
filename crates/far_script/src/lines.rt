// Texts whose records are simply their lines.
ghost use Rattle.std.specs.Prelude.{◌≡◌, ◌<◌, length, MatchOption};
ghost use Rattle.std.specs.List.{list_any, position_or_len};
ghost use Rattle.far_script.specs.Lines.{is_line_feed};
ghost use Rattle.far_script.specs.PlainLines.{are_plain_lines, is_break, line_of, lines_behind};

use super::cut::{before, behind};
use super::record::may_begin_with_order_mark;
use memchr::memchr;

/// Returns whether there is a quote or a carriage return. Two searches, each of which tests many bytes at a time.
fn has_break(bytes: &[u8]) -> bool
    ensures { result ≡ list_any is_break bytes.now }
{
    bytes.contains(&b'"') || bytes.contains(&b'\r')
}

/// Returns whether a text has no quote and no carriage return, and cannot begin with a byte order mark. Then its records
/// are its lines that are not empty, cut at their commas.
pub fn are_plain_lines(text: &str) -> bool
    ensures { result ≡ are_plain_lines text.now }
{
    let bytes = text.as_bytes();
    !may_begin_with_order_mark(bytes) && !has_break(bytes)
}

/// Returns the index of the first line feed, or `None` if there is none. The search tests many bytes at a time.
pub(crate) fn first_feed(bytes: &[u8]) -> Option<usize>
    ensures { MatchOption result (position_or_len is_line_feed bytes.now ≡ length bytes.now)
        (λ at. (at < length bytes.now) × (at ≡ position_or_len is_line_feed bytes.now)) }
{
    memchr(b'\n', bytes)
}

/// Splits a text after its first line: returns the line without its line feed, and the rest.
pub fn next_line(text: &str) -> (&str, &str)
    ensures line { result.0.now ≡ line_of text.now }
    ensures behind { result.1.now ≡ lines_behind text.now }
    ensures shorter { 0 < length text.now → length result.1.now < length text.now }
{
    match first_feed(text.as_bytes()) {
        Some(at) => (before(text, at, b'\n'), behind(text, at, b'\n')),
        None => (text, ""),
    }
}
