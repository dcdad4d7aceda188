// Random edits, and a plain list of the rows that they leave.
use crate::scenes::{Left, Replied, Reply, Step};
use crate::signals::Signals;
use far_types::Refusal;
use std::alloc::Global;

// The number of times that an edit is tried.
const TRIES: u32 = 100_000;

// A random edit.
#[derive(Clone, Copy)]
enum Call {
    Insert(i64),
    Set(u32, i64),
    Remove(u32),
}

// The rows that the edits so far leave: the number of each place, or none if it is removed.
#[derive(Drop)]
struct Rows {
    numbers: Vec<Option<i64>>,
    edits: u64,
}

// Returns the number of places of a list.
fn places_in(numbers: &[Option<i64>]) -> u32 {
    u32::try_from(numbers.len()).unwrap_or(u32::MAX)
}

// Returns the edit of this turn on a list of this many places. The multiples of the constant are spread evenly (Knuth).
fn draw(turn: u32, places: u32) -> Call {
    let drawn = turn.wrapping_mul(2_654_435_761);
    let kind = drawn >> 29;
    let number = i64::from(drawn % 2_000_001).wrapping_sub(1_000_000);
    if kind < 5 || places == 0 {
        Call::Insert(number)
    } else if kind < 7 {
        Call::Set(drawn % places, number)
    } else {
        Call::Remove(drawn % places)
    }
}

// Returns the place of an edit on a list.
fn place_of(rows: &Rows, call: Call) -> u32 {
    match call {
        Call::Insert(_) => places_in(&rows.numbers),
        Call::Set(place, _) => place,
        Call::Remove(place) => place,
    }
}

// Returns whether an edit names a removed place.
fn is_removed(rows: &Rows, call: Call) -> bool {
    matches!(rows.numbers.get(place_of(rows, call) as usize), Some(None))
}

// Sets or removes the number of a place.
fn put(numbers: &mut [Option<i64>], place: u32, number: Option<i64>) {
    if let Some(kept) = numbers.get_mut(place as usize) {
        *kept = number;
    }
}

// Makes an edit on the list.
fn keep(rows: &mut Rows, call: Call) -> Result<(), Refusal> {
    rows.edits = rows.edits.wrapping_add(1);
    match call {
        Call::Insert(number) => rows.numbers.push(Some(number))?,
        Call::Set(place, number) => put(&mut rows.numbers, place, Some(number)),
        Call::Remove(place) => put(&mut rows.numbers, place, None),
    }
    Ok(())
}

// Returns the rows of the list.
fn left_of(numbers: &[Option<i64>]) -> Left {
    let mut count = 0u64;
    let mut sum = 0i128;
    for number in numbers {
        if let Some(number) = number {
            count = count.wrapping_add(1);
            sum = sum.wrapping_add(i128::from(*number));
        }
    }
    Left {
        places: places_in(numbers),
        count,
        sum,
    }
}

// Returns the call that makes an edit on a stripe.
fn step_of(home: u32, edit: Call) -> Step {
    match edit {
        Call::Insert(number) => Step::Insert(home, number),
        Call::Set(place, number) => Step::Set(home, place, number),
        Call::Remove(place) => Step::Remove(home, place),
    }
}

// Makes an edit, with as many tries as it needs: an object that is away is fetched.
fn edit_at_last<M, F: Fn(&mut M, Step) -> Replied>(
    call: &F,
    me: &mut M,
    home: u32,
    step: Step,
) -> Replied
    requires { F.IsAlwaysCallable call.now }
{
    for _ in 0..TRIES {
        match call(me, step) {
            Err(Refusal::Absent { column: _, group }) => {
                let _reply = call(me, Step::Fetch(home, group));
            }
            reply => return reply,
        }
    }
    Err(Refusal::OutOfRange)
}

// Makes an accepted edit on the list, which no other session edits.
fn follow_applied(rows: &mut Rows, edit: Call, number: u64, place: u32) -> Result<(), Refusal> {
    let is_next = number == rows.edits.wrapping_add(1);
    if is_next && place == place_of(rows, edit) && !is_removed(rows, edit) {
        keep(rows, edit)
    } else {
        Err(Refusal::OutOfRange)
    }
}

// Makes an edit on the list too, if the table accepted it. Refused as the table refused it, unless its place is removed on the list too.
fn follow(rows: &mut Rows, edit: Call, reply: Replied) -> Result<(), Refusal> {
    match reply {
        Ok(Reply::Applied(number, place)) => follow_applied(rows, edit, number, place),
        Err(Refusal::RemovedRow) if is_removed(rows, edit) => Ok(()),
        Ok(_) => Err(Refusal::OutOfRange),
        Err(refusal) => Err(refusal),
    }
}

// Makes this many edits on a stripe and on the list.
fn edit_both<M, F: Fn(&mut M, Step) -> Replied>(
    call: &F,
    me: &mut M,
    home: u32,
    rows: &mut Rows,
    edits: u32,
) -> Result<(), Refusal>
    requires { F.IsAlwaysCallable call.now }
{
    for turn in 0..edits {
        // (the home stripes of the sessions differ, and so do their turns)
        let edit = draw(
            turn.wrapping_mul(4).wrapping_add(home),
            places_in(&rows.numbers),
        );
        let reply = edit_at_last(call, me, home, step_of(home, edit));
        if let Err(refusal) = follow(rows, edit, reply) {
            return Err(refusal);
        }
    }
    Ok(())
}

// Returns the rows that the edits leave, if the gauge of the stripe agrees.
fn as_gauged(rows: &Rows, reading: Replied) -> Result<Left, Refusal> {
    let left = left_of(&rows.numbers);
    if reading == Ok(Reply::Reading(rows.edits, left.count, left.sum)) {
        Ok(left)
    } else {
        Err(Refusal::OutOfRange)
    }
}

// Makes this many edits on a stripe and on an empty list.
fn edit_all<M, F: Fn(&mut M, Step) -> Replied>(
    call: &F,
    me: &mut M,
    number: u64,
    rows: &mut Rows,
    edits: u32,
) -> Result<Left, Refusal>
    requires { F.IsAlwaysCallable call.now }
{
    let home = (number % 4) as u32;
    match edit_both(call, me, home, rows, edits) {
        Ok(()) => as_gauged(rows, call(me, Step::Gauge(home))),
        Err(refusal) => Err(refusal),
    }
}

// Makes this many edits on the home stripe of the session with this number, which no other session edits, and then sends a signal.
// Returns the rows that the accepted edits leave in a plain list, which are those that the gauge reads.
pub fn edit_by_turns<M, F: Fn(&mut M, Step) -> Replied>(
    alloc: Global,
    call: &F,
    me: &mut M,
    signals: &Signals,
    number: u64,
    edits: u32,
) -> Result<Left, Refusal>
    requires { F.IsAlwaysCallable call.now }
{
    let mut rows = Rows {
        numbers: Vec::new(alloc),
        edits: 0,
    };
    let left = edit_all(call, me, number, &mut rows, edits);
    signals.send();
    left
}
