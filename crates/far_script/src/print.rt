// Prints replies as lines.
ghost use Rattle.std.specs.Prelude.{◌≡◌, ◌++◌, ◌∷◌, [], OnOk, codes, length, take};
ghost use Rattle.std.specs.Fmt.{signed_decimal};
ghost use Rattle.far_script.specs.Printing.{answer_text, carried_text, extrema_text, gauge_text, key_text, numbered_text, reading_text, record_text, refusal_text, space, texts_of, total_text};

use super::page::Page;
use far_types::{Answer, ExtremaLines, Key, Refusal, TotalLines};
use std::alloc::AllocError;

/// Prints a line of a word and a number.
#[inline(always)]
pub fn numbered(page: &mut Page, word: &str, number: u64) -> Result<(), AllocError>
    ensures ok { OnOk result (page.new ≡ page.old ++ numbered_text word.now number) }
{
    page.text(word)?;
    page.byte(b' ')?;
    page.number(number)?;
    page.byte(b'\n')
}

/// Prints the details that a refusal carries.
fn carried(page: &mut Page, refusal: &Refusal) -> Result<(), AllocError>
    ensures ok { OnOk result (page.new ≡ page.old ++ carried_text refusal.now) }
{
    match refusal {
        Refusal::Building(left) => {
            page.byte(b' ')?;
            page.number(u64::from(*left))
        }
        Refusal::Absent { column, group } => {
            page.byte(b' ')?;
            page.number(u64::from(*column))?;
            page.byte(b' ')?;
            page.number(u64::from(*group))
        }
        _ => Ok(()),
    }
}

/// Prints `refused NUMBER NAME` and the details of the refusal.
pub fn refused(page: &mut Page, refusal: &Refusal) -> Result<(), AllocError>
    ensures ok { OnOk result (page.new ≡ page.old ++ refusal_text refusal.now) }
{
    page.text("refused ")?;
    page.number(u64::from(refusal.number()))?;
    page.byte(b' ')?;
    page.text(refusal.name())?;
    carried(page, refusal)?;
    page.byte(b'\n')
}

/// Prints the key of a line, a number, and a space. A number needs no quotes.
#[inline(always)]
fn number_key(page: &mut Page, number: i64) -> Result<(), AllocError>
    ensures ok { OnOk result
        (page.new ≡ page.old ++ (record_text (signed_decimal number ∷ []) ++ space)) }
{
    page.signed(number)?;
    page.byte(b' ')
}

/// Prints the key of a line and a space, or nothing if the aggregate has no key column.
#[inline(always)]
fn key(page: &mut Page, key: &Option<Key>) -> Result<(), AllocError>
    ensures ok { OnOk result (page.new ≡ page.old ++ key_text key.now) }
{
    match key {
        None => Ok(()),
        Some(Key::Int(number)) => number_key(page, *number),
        Some(Key::Text(text)) => {
            page.lone_field(text.as_bytes())?;
            page.byte(b' ')
        }
    }
}

/// Prints a line of totals.
pub fn total(page: &mut Page, line: &(Option<Key>, u64, i128)) -> Result<(), AllocError>
    ensures ok { OnOk result (page.new ≡ page.old ++ total_text line.now) }
{
    key(page, &line.0)?;
    page.text("count ")?;
    page.number(line.1)?;
    page.text(" sum ")?;
    page.wide(line.2)?;
    page.byte(b'\n')
}

/// Prints a line of extrema.
pub fn extrema(page: &mut Page, line: &(Option<Key>, i64, i64)) -> Result<(), AllocError>
    ensures ok { OnOk result (page.new ≡ page.old ++ extrema_text line.now) }
{
    key(page, &line.0)?;
    page.text("min ")?;
    page.signed(line.1)?;
    page.text(" max ")?;
    page.signed(line.2)?;
    page.byte(b'\n')
}

fn totals(page: &mut Page, lines: &TotalLines) -> Result<(), AllocError>
    ensures ok { OnOk result (page.new ≡ page.old ++ texts_of total_text lines.now) }
{
    for line in lines.as_slice() {
        total(page, line)?;
    }
    Ok(())
}

fn all_extrema(page: &mut Page, lines: &ExtremaLines) -> Result<(), AllocError>
    ensures ok { OnOk result (page.new ≡ page.old ++ texts_of extrema_text lines.now) }
{
    for line in lines.as_slice() {
        extrema(page, line)?;
    }
    Ok(())
}

/// Prints `EDITS COUNT SUM`.
fn reading(page: &mut Page, edits: u64, count: u64, sum: i128) -> Result<(), AllocError>
    ensures ok { OnOk result (page.new ≡ page.old ++ reading_text edits count sum) }
{
    page.number(edits)?;
    page.byte(b' ')?;
    page.number(count)?;
    page.byte(b' ')?;
    page.wide(sum)?;
    page.byte(b'\n')
}

/// Prints `session SESSION gauge EDITS COUNT SUM`.
pub fn gauge(
    page: &mut Page,
    session: u64,
    edits: u64,
    count: u64,
    sum: i128,
) -> Result<(), AllocError>
    ensures ok { OnOk result (page.new ≡ page.old ++ gauge_text session edits count sum) }
{
    page.text("session ")?;
    page.number(session)?;
    page.text(" gauge ")?;
    reading(page, edits, count, sum)
}

/// Prints the lines of an answer, or `none`.
pub fn answer(page: &mut Page, answer: &Answer) -> Result<(), AllocError>
    ensures ok { OnOk result (page.new ≡ page.old ++ answer_text answer.now) }
{
    match answer {
        Answer::Totals(lines) if lines.as_slice().is_empty() => page.text("none\n"),
        Answer::Totals(lines) => totals(page, lines),
        Answer::Extrema(lines) if lines.as_slice().is_empty() => page.text("none\n"),
        Answer::Extrema(lines) => all_extrema(page, lines),
    }
}
