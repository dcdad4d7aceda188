// Makes empty tables.
ghost use Rattle.std.specs.Prelude.{◌≡◌, ◌⊎◌, [], IfErr, IfOk};
ghost use Rattle.far_types.specs.Bounds.{AreLimits};
ghost use Rattle.far_frame.specs.State.{empty_state};
ghost use Rattle.far_c.specs.Numbering.{HasStore};

use far_frame::{Frame, World};
use far_host::HostStore;
use far_types::{Limits, Refusal, Schema};
use std::alloc::Global;

/// Makes an empty table with its jobs, of which there are none, and a store with the numbers below `capacity`. Refused as
/// [`Frame::open`] is.
pub fn empty_world(
    alloc: Global,
    schema: Schema,
    limits: Limits,
    capacity: u64,
) -> Result<World<HostStore>, Refusal>
    ensures state { IfOk result (λ world. world.state ≡ empty_state schema limits 0) }
    ensures store { IfOk result (HasStore capacity) }
    ensures jobs { IfOk result (λ world. (world.begun ≡ 0) × (world.jobs ≡ [])) }
    ensures faults { IfOk result (λ world. world.faults ≡ 0) }
    ensures refused { IfErr result
        (λ e. ((e ≡ Refusal.BadSchema) × ¬ (AreLimits limits))
        ⊎ ((e ≡ Refusal.NoMemory) × AreLimits limits)) }
{
    let frame = Frame::open(alloc, schema, limits, 0)?;
    let store = match HostStore::new(alloc, capacity) {
        Ok(store) => store,
        Err(refusal) => {
            // For the proof: a call drops the table. A function that drops one itself is long to prove.
            drop(frame);
            return Err(refusal);
        }
    };
    match World::new(alloc, frame, store) {
        Ok(world) => Ok(world),
        Err(back) => Err(refusal_of(back)),
    }
}

// Returns why a table and its store were returned, and drops them. For the proof: of any types, for the same reason.
fn refusal_of<F: Drop, S: Drop>(back: (Refusal, F, S)) -> Refusal
    ensures { result ≡ back.0 }
{
    back.0
}
