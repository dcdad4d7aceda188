// Plays a script.
ghost use Rattle.std.specs.Prelude.{◌<◌, ℕ, List, Option, IfOk};
ghost use lib.IntN.{ℤ};
ghost use Rattle.far_codec.specs.PlainNumbers.{plain_meaning};
ghost use Rattle.far_scopes.specs.Movement.{list_of};
ghost use Rattle.far_columns.specs.Vector.{IsVector};

use crate::fixtures::{agent, no_objects};
use crate::vector::calls::reply;
use crate::vector::script::Line;
use far_columns::FarVector;
use far_scopes::{ObjectLimits, Objects};
use far_store::FarStore;
use far_types::Refusal;
use std::alloc::Global;
use std::sync::Wait;

/// Four segments of four numbers; each object may be written five times.
const LIMITS: ObjectLimits = ObjectLimits {
    segments: 4,
    size: 4,
    max_writes: 5,
    leavings: 1,
};

/// Plays lines on an empty vector with row groups of four places. Returns the index of the first line with another reply.
pub fn first_wrong<R: Wait + Sync + Copy + Drop>(
    rt: R,
    alloc: Global,
    lines: &[Line],
) -> Result<Option<usize>, Refusal> {
    play_over(alloc, agent(rt, alloc, 4), lines)
}

// Returns the same for this store, if it was made. Generic over the store, so that taking it out of its result is cheap to
// prove.
fn play_over<S: FarStore>(
    alloc: Global,
    store: Result<S, Refusal>,
    lines: &[Line],
) -> Result<Option<usize>, Refusal> {
    let store = store?;
    match no_objects(alloc, &store, LIMITS) {
        Ok(mut objects) => {
            let wrong = play_in(alloc, &mut objects, lines);
            drop(objects);
            wrong
        }
        Err(refusal) => Err(refusal),
    }
}

fn play_in<S: FarStore>(
    alloc: Global,
    objects: &mut Objects<i64, S>,
    lines: &[Line],
) -> Result<Option<usize>, Refusal> {
    let mut vector = no_elements(alloc, 4)?;
    Ok(play(&mut vector, objects, lines))
}

/// Returns an empty vector of column 0, from a second call if memory runs out.
fn no_elements(alloc: Global, size: u32) -> Result<FarVector<i64>, Refusal>
    requires { 0 < size }
    ensures { IfOk result (λ v. (lists : ℕ → Option (List ℤ)) → IsVector lists v) }
{
    match FarVector::new(alloc, 0, size, 0) {
        Err(Refusal::NoMemory) => FarVector::new(alloc, 0, size, 0),
        reply => reply,
    }
}

/// Returns the index of the first line with another reply.
fn play<S: FarStore>(
    vector: &mut FarVector<i64>,
    objects: &mut Objects<i64, S>,
    lines: &[Line],
) -> Option<usize>
    requires { IsVector (list_of plain_meaning S.content objects.old) vector.old }
{
    for (index, (call, due)) in lines.iter().enumerate() {
        if reply(vector, objects, call) != *due {
            return Some(index);
        }
    }
    None
}
