// Folds a row group, and compares the lines of its answer.
ghost use Rattle.std.specs.Prelude.{◌<◌, ◌^◌, length, IsTrue};
ghost use Rattle.far_codec.specs.TextForm.{IsTextsForm};

use crate::cases::Case;
use crate::lines::{Lines, text};
use crate::offload::rows::form_of;
use far_offload::{Column, PartialDone, fold};
use far_types::{Answer, Filter, Fold, Refusal, Spec, Test};
use std::alloc::Global;

/// A row group of a column of numbers and one of texts.
#[derive(Clone, Copy)]
pub struct RowGroup {
    pub numbers: &'static [Option<i64>],
    pub words: &'static [Option<&'static str>],
    pub alive: &'static [bool],
}

/// A fold of the numbers of a row group, by the keys of a column or without key, and its lines.
pub struct Folded {
    pub name: &'static str,
    pub rows: RowGroup,
    pub key: Option<u32>,
    /// Only rows whose text begins with this pass; all rows if it is `None`.
    pub prefix: Option<&'static str>,
    pub lines: Lines<'static>,
}

fn tests_of(alloc: Global, prefix: Option<&str>) -> Result<Vec<Test>, Refusal> {
    let Some(prefix) = prefix else {
        return Ok(Vec::new(alloc));
    };
    let text = text(alloc, prefix)?;
    Ok(Vec::from_array(alloc, [Test::TextBegins { column: 1, text }])?)
}

fn answer_of(alloc: Global, done: &PartialDone) -> Result<Answer, Refusal> {
    match done {
        PartialDone::Totals(live) => live.answer(alloc),
        PartialDone::Extrema(observed) => observed.answer(alloc),
    }
}

/// Returns whether the answer of a partial aggregate has these lines, or is the expected refusal.
pub fn has_lines(
    alloc: Global,
    lines: Lines<'_>,
    done: Result<PartialDone, Refusal>,
) -> Result<bool, Refusal> {
    match done {
        Ok(done) => lines.are_of(answer_of(alloc, &done)),
        Err(refusal) => Err(refusal),
    }
}

/// Returns the columns of a row group in memory: the numbers as a list and the texts as a form.
fn columns<'a>(numbers: &'a [Option<i64>], form: &'a [u8]) -> [Column<'a>; 2]
    requires { IsTextsForm form.now }
{
    [Column::of_numbers(0, numbers), Column::of_form(1, form)]
}

impl RowGroup {
    fn is_short(&self) -> bool
        ensures numbers { IsTrue result → length self.now.numbers.now < 2 ^ 26 }
        ensures alive { IsTrue result → length self.now.alive.now < 2 ^ 26 }
    {
        self.numbers.len() < 100 && self.alive.len() < 100
    }
}

impl Folded {
    fn spec(&self, alloc: Global) -> Result<Spec, Refusal> {
        let fold = match self.lines {
            Lines::Totals(_) => Fold::Totals,
            Lines::Extrema(_) => Fold::Extrema,
        };
        Ok(Spec {
            fold,
            value: 0,
            key: self.key,
            filter: Filter::new(tests_of(alloc, self.prefix)?),
        })
    }
}

impl Case for Folded {
    fn name(&self) -> &'static str {
        self.name
    }

    /// Returns whether the row group, with its columns in memory, has the expected lines.
    fn is_right(&self, alloc: Global) -> Result<bool, Refusal> {
        if !self.rows.is_short() {
            return Ok(false);
        }
        let spec = self.spec(alloc)?;
        let form = form_of(alloc, self.rows.words)?;
        let columns = columns(self.rows.numbers, &form);
        let done = fold(alloc, &spec, &columns, self.rows.alive)?;
        self.lines.are_of(answer_of(alloc, &done))
    }
}
