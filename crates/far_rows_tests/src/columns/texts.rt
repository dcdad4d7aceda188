// Columns of texts with their objects.
ghost use Rattle.std.specs.Prelude.{◌≡◌, ◌<◌, ◌≤◌, All, IfOk};
ghost use Rattle.far_texts.specs.Texts.{Lists, lists_of, IsTextColumn};
ghost use Rattle.far_texts.specs.Columns.{AreTextColumns};

mod all;
mod one;

use crate::cell::Cell::Text as Letters;
use crate::cell::Word;
use crate::columns::LIMITS;
use far_scopes::Objects;
use far_store::{AgentStore, FarTickets};
use far_texts::TextColumn;
use far_texts::laws::columns_stay_together;
use far_types::{Refusal, Text};
use std::alloc::Global;

/// The number of columns, and of places in a row group.
#[derive(Clone, Copy)]
struct Layout {
    columns: u32,
    group: u32,
}

// Returns columns without a text, whose forms have at most 64 bytes.
fn no_texts(alloc: Global, layout: Layout) -> Result<Vec<TextColumn>, Refusal>
    requires some { 0 < layout.group }
    requires small { layout.group ≤ 8 }
    ensures are { IfOk result (λ columns. (lists : Lists) → AreTextColumns lists columns.items) }
    ensures sized { IfOk result (λ columns. All (λ c. c.size ≡ layout.group) columns.items) }
{
    columns_stay_together();
    let mut columns = Vec::new(alloc);
    for k in 0..layout.columns {
        columns.push(TextColumn::new(alloc, k, layout.group, 64)?)?;
    }
    Ok(columns)
}

// Returns column `k`, counted from 0. Refused with `NoColumn` if there is none.
fn column_of<'a, S: FarTickets>(
    _objects: &Objects<u8, S>,
    columns: &'a [TextColumn],
    k: usize,
) -> Result<&'a TextColumn, Refusal>
    requires { AreTextColumns (lists_of S.content _objects.now) columns.now }
    ensures { IfOk result (λ column. IsTextColumn (lists_of S.content _objects.now) column.now) }
{
    if k >= columns.len() {
        return Err(Refusal::NoColumn);
    }
    Ok(&columns[k])
}

/// Returns the texts `one` and `two`.
fn two_texts(alloc: Global) -> Result<[Option<Text>; 2], Refusal> {
    Ok([
        Letters(Word::One, 1).text(alloc)?,
        Letters(Word::Two, 1).text(alloc)?,
    ])
}

/// A trial on an empty collection of objects of texts.
#[derive(Clone, Copy)]
enum Trial {
    OneColumn,
    TwoColumns,
}

fn comes_out_with<S: FarTickets>(
    alloc: Global,
    objects: &mut Objects<u8, S>,
    trial: Trial,
) -> Result<bool, Refusal> {
    let texts = two_texts(alloc)?;
    match trial {
        Trial::OneColumn => one::comes_out(alloc, objects, &texts),
        Trial::TwoColumns => all::comes_out(alloc, objects, &texts),
    }
}

fn comes_out<S: FarTickets>(alloc: Global, trial: Trial) -> Result<bool, Refusal> {
    match Objects::<u8, S>::new(alloc, 7, LIMITS) {
        Ok(mut objects) => {
            let answer = comes_out_with(alloc, &mut objects, trial);
            drop(objects);
            answer
        }
        Err(refusal) => Err(refusal),
    }
}

/// Makes no store, since local objects need none.
#[test]
fn texts_are_pushed_set_and_lent(rt: HostRuntime) {
    assert!(rt; comes_out::<AgentStore<&'_ HostRuntime>>(rt.alloc(), Trial::OneColumn) == Ok(true));
}

#[test]
fn each_of_two_columns_gets_its_own_text(rt: HostRuntime) {
    assert!(rt;
        comes_out::<AgentStore<&'_ HostRuntime>>(rt.alloc(), Trial::TwoColumns) == Ok(true)
    );
}
