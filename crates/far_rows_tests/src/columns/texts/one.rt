// A column of texts: what is pushed and set reads back, and is lent with the flags of its places.
ghost use Rattle.far_texts.specs.Texts.{lists_of, IsTextColumn};

use crate::cell::Cell::Text as Letters;
use crate::cell::Word;
use crate::columns::flags::flags;
use far_columns::Alive;
use far_scopes::Objects;
use far_store::FarTickets;
use far_texts::{TextCell, TextColumn};
use far_types::{Refusal, Text};
use std::alloc::Global;

/// The refusal of a call that found something unexpected.
const WRONG: Refusal = Refusal::BadSpec;

fn push<S: FarTickets>(
    alloc: Global,
    objects: &mut Objects<u8, S>,
    column: &mut TextColumn,
    text: &Option<Text>,
) -> Result<(), Refusal>
    requires { IsTextColumn (lists_of S.content objects.old) column.old }
    ensures { IsTextColumn (lists_of S.content objects.new) column.new }
{
    if objects.count() >= 1 << 28 {
        return Err(Refusal::TableFull);
    }
    column.push(alloc, objects, text)
}

// Sets a text, and checks that `may_set` returns the same reply before, unless memory runs out.
fn set<S: FarTickets>(
    alloc: Global,
    objects: &mut Objects<u8, S>,
    column: &TextColumn,
    place: u32,
    text: &Option<Text>,
) -> Result<(), Refusal>
    requires { IsTextColumn (lists_of S.content objects.old) column.now }
    ensures { IsTextColumn (lists_of S.content objects.new) column.now }
{
    let due = column.may_set(objects, place, text);
    let reply = column.set(alloc, objects, place, text);
    if reply == due || reply == Err(Refusal::NoMemory) {
        reply
    } else {
        Err(WRONG)
    }
}

// Pushes the first text, none and the second, and sets the last to none.
fn fill<S: FarTickets>(
    alloc: Global,
    objects: &mut Objects<u8, S>,
    column: &mut TextColumn,
    texts: &[Option<Text>; 2],
) -> Result<(), Refusal>
    requires { IsTextColumn (lists_of S.content objects.old) column.old }
    ensures { IsTextColumn (lists_of S.content objects.new) column.new }
{
    push(alloc, objects, column, &texts[0])?;
    push(alloc, objects, column, &None)?;
    push(alloc, objects, column, &texts[1])?;
    set(alloc, objects, column, 2, &None)
}

// Returns whether a cell is the text of a place and its flag.
fn is_cell<S: FarTickets>(
    objects: &Objects<u8, S>,
    column: &TextColumn,
    alive: &Alive,
    cell: Option<TextCell<'_>>,
    place: u32,
) -> bool
    requires { IsTextColumn (lists_of S.content objects.now) column.now }
{
    let Some(cell) = cell else {
        return false;
    };
    column.text(objects, place) == Ok(cell.text) && alive.get(place as usize) == Some(cell.alive)
}

// Borrows a part of a column, and compares each cell with the text of its place and its flag.
fn lend<S: FarTickets>(
    objects: &Objects<u8, S>,
    column: &TextColumn,
    alive: &Alive,
    part: (u32, u32),
) -> Result<(), Refusal>
    requires { IsTextColumn (lists_of S.content objects.now) column.now }
{
    let (from, to) = part;
    if alive.len() != column.len() {
        return Err(WRONG);
    }
    let mut cells = column.texts(objects, alive.all(), from as usize, to as usize)?;
    for place in from..to {
        if !is_cell(objects, column, alive, cells.next(), place) {
            return Err(WRONG);
        }
    }
    Ok(())
}

// Returns whether the first text is at its place, the text of place 2 is missing, and there is no place 3.
fn is_filled<S: FarTickets>(objects: &Objects<u8, S>, column: &TextColumn) -> bool
    requires { IsTextColumn (lists_of S.content objects.now) column.now }
{
    column.text(objects, 0) == Ok(Some("one"))
        && column.text(objects, 2) == Ok(None)
        && column.text(objects, 3) == Err(Refusal::NoRow)
}

// Returns whether a text of 4,097 bytes is refused as too long.
fn is_bounded<S: FarTickets>(
    alloc: Global,
    objects: &mut Objects<u8, S>,
    column: &mut TextColumn,
) -> Result<bool, Refusal>
    requires { IsTextColumn (lists_of S.content objects.old) column.old }
{
    let long = Letters(Word::A, 4_097).text(alloc)?;
    Ok(push(alloc, objects, column, &long) == Err(Refusal::TextTooLong))
}

// Fills an empty column, and returns whether it is then read and lent as expected.
fn is_right<S: FarTickets>(
    alloc: Global,
    objects: &mut Objects<u8, S>,
    column: &mut TextColumn,
    texts: &[Option<Text>; 2],
    alive: &Alive,
) -> Result<bool, Refusal>
    requires { IsTextColumn (lists_of S.content objects.old) column.old }
{
    fill(alloc, objects, column, texts)?;
    if !is_filled(objects, column) || lend(objects, column, alive, (0, 3)) != Ok(()) {
        return Ok(false);
    }
    is_bounded(alloc, objects, column)
}

/// Returns whether texts that are pushed and set read back from a column in row groups of two places.
pub fn comes_out<S: FarTickets>(
    alloc: Global,
    objects: &mut Objects<u8, S>,
    texts: &[Option<Text>; 2],
) -> Result<bool, Refusal> {
    let alive = flags(alloc, 3)?;
    let mut column = TextColumn::new(alloc, 0, 2, 64)?;
    is_right(alloc, objects, &mut column, texts, &alive)
}
