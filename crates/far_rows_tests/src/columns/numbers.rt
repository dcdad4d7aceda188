// A column of numbers with its objects.
ghost use Rattle.far_columns.specs.Vector.{IsVector};
ghost use Rattle.far_columns.specs.Numbers.{number_lists};

use crate::columns::LIMITS;
use crate::columns::flags::flags;
use far_columns::{Alive, IntColumn, Lent, lend_numbers};
use far_scopes::Objects;
use far_store::{AgentStore, FarTickets};
use far_types::Refusal;
use std::alloc::Global;

fn push<S: FarTickets>(
    objects: &mut Objects<Option<i64>, S>,
    column: &mut IntColumn,
    number: Option<i64>,
) -> Result<(), Refusal>
    requires { IsVector (number_lists S.content objects.old) column.old }
    ensures { IsVector (number_lists S.content objects.new) column.new }
{
    if objects.count() >= 1 << 28 {
        return Err(Refusal::TableFull);
    }
    column.push(objects, number)
}

// Pushes three numbers, of which the second is missing, and sets the first.
fn fill<S: FarTickets>(
    objects: &mut Objects<Option<i64>, S>,
    column: &mut IntColumn,
) -> Result<(), Refusal>
    requires { IsVector (number_lists S.content objects.old) column.old }
    ensures { IsVector (number_lists S.content objects.new) column.new }
{
    push(objects, column, Some(1))?;
    push(objects, column, None)?;
    push(objects, column, Some(3))?;
    column.set(objects, 0, Some(-1))
}

// Returns whether a piece has the numbers of these places and their flags.
fn is_piece<S: FarTickets>(
    objects: &Objects<Option<i64>, S>,
    column: &IntColumn,
    alive: &Alive,
    piece: &Lent<'_>,
    part: (usize, usize),
) -> bool
    requires { IsVector (number_lists S.content objects.now) column.now }
{
    let (from, to) = part;
    for place in from..to {
        let index = place - from;
        let (number, flag) = (piece.values.get(index), piece.alive.get(index));
        if column.get(objects, place).ok() != number.copied() || alive.get(place) != flag.copied() {
            return false;
        }
    }
    from < to && piece.values.len() == to - from
}

// Returns whether the first piece of a whole column is the piece of its first row group, of two places.
fn is_lent<S: FarTickets>(
    objects: &Objects<Option<i64>, S>,
    column: &IntColumn,
    alive: &Alive,
) -> Result<bool, Refusal>
    requires { IsVector (number_lists S.content objects.now) column.now }
{
    if alive.len() != column.len() {
        return Ok(false);
    }
    let mut pieces = lend_numbers(column, objects, alive, 0, column.len())?;
    match pieces.next() {
        Some(piece) => Ok(is_piece(objects, column, alive, &piece, (0, 2))),
        None => Ok(false),
    }
}

// Fills an empty column, and returns whether its first piece has the numbers.
fn is_lent_as_filled<S: FarTickets>(
    objects: &mut Objects<Option<i64>, S>,
    column: &mut IntColumn,
    alive: &Alive,
) -> Result<bool, Refusal>
    requires { IsVector (number_lists S.content objects.old) column.old }
{
    fill(objects, column)?;
    is_lent(objects, column, alive)
}

fn reads_back_in<S: FarTickets>(
    alloc: Global,
    objects: &mut Objects<Option<i64>, S>,
) -> Result<bool, Refusal> {
    let mut column = IntColumn::new(alloc, 0, 2, Some(0))?;
    let alive = flags(alloc, 3)?;
    is_lent_as_filled(objects, &mut column, &alive)
}

fn reads_back<S: FarTickets>(alloc: Global) -> Result<bool, Refusal> {
    match Objects::<Option<i64>, S>::new(alloc, 7, LIMITS) {
        Ok(mut objects) => {
            let answer = reads_back_in(alloc, &mut objects);
            drop(objects);
            answer
        }
        Err(refusal) => Err(refusal),
    }
}

/// Makes no store, since local objects need none.
#[test]
fn numbers_are_pushed_set_and_lent(rt: HostRuntime) {
    assert!(rt; reads_back::<AgentStore<&'_ HostRuntime>>(rt.alloc()) == Ok(true));
}
