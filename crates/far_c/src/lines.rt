// Many lines of an answer at once.
ghost use Rattle.std.specs.Prelude.{◌≡◌, ◌≢◌, IsSomeAnd, drop, length};
ghost use Rattle.std.specs.Option.{MatchOption};
ghost use Rattle.far_c.specs.Answering.{AreLinesAt, lines_from};

use crate::answer::{FcLine, line_of};
use crate::code::{CLOSED, NOTHING, OK};
use crate::handle::Handle;
use crate::sorted_answer::SortedAnswer;
use crate::table::Table;

/// Writes lines of the answer in the handle, from an index on, as many as there are and fit the buffer, and writes their number.
/// Lends the texts of keys.
#[unsafe(no_mangle)]
pub extern "C" fn fc_lines<'a>(
    handle: &'a mut Handle,
    from: usize,
    lines: &mut [FcLine<'a>],
    count: &mut usize,
) -> u32
    ensures lines { result ≡ 0
        → IsSomeAnd handle.old.table
        (λ old. IsSomeAnd old.answer (λ answer. AreLinesAt answer from count.new lines.new)) }
    ensures count { result ≡ 0
        → IsSomeAnd handle.old.table
        (λ old. IsSomeAnd old.answer
        (λ answer. count.new ≡ lines_from answer from (length lines.old))) }
    ensures rest { result ≡ 0 → drop count.new lines.new ≡ drop count.new lines.old }
    ensures codes { MatchOption handle.old.table (result ≡ 100)
        (λ old. MatchOption old.answer (result ≡ 104) (λ _. result ≡ 0)) }
    ensures unwritten { result ≢ 0 → (lines.new ≡ lines.old) × (count.new ≡ count.old) }
{
    let Some(table) = handle.table() else {
        return CLOSED;
    };
    lend_lines(table, from, lines, count)
}

// Writes lines of the answer in the handle, and their number. The lines borrow their texts.
fn lend_lines<'a>(table: &'a Table, from: usize, lines: &mut [FcLine<'a>], count: &mut usize) -> u32
    ensures lines { result ≡ 0
        → IsSomeAnd table.now.answer (λ answer. AreLinesAt answer from count.new lines.new) }
    ensures count { result ≡ 0
        → IsSomeAnd table.now.answer
        (λ answer. count.new ≡ lines_from answer from (length lines.old)) }
    ensures rest { result ≡ 0 → drop count.new lines.new ≡ drop count.new lines.old }
    ensures codes { MatchOption table.now.answer (result ≡ 104) (λ _. result ≡ 0) }
    ensures unwritten { result ≢ 0 → (lines.new ≡ lines.old) × (count.new ≡ count.old) }
{
    let Some(answer) = table.answer() else {
        return NOTHING;
    };
    *count = write_lines(answer, from, lines);
    OK
}

// Writes the lines of an answer from an index on that fit the buffer, and returns their number.
fn write_lines<'a>(answer: &'a SortedAnswer, from: usize, lines: &mut [FcLine<'a>]) -> usize
    ensures lines { AreLinesAt answer.now from result lines.new }
    ensures count { result ≡ lines_from answer.now from (length lines.old) }
    ensures rest { drop result lines.new ≡ drop result lines.old }
{
    let count = lines.len().min(answer.len().saturating_sub(from));
    for k in 0..count {
        // For the proof: there is a line at each of these indexes.
        if let Some(line) = line_of(answer.get(), from + k) {
            lines[k] = line;
        }
    }
    count
}
