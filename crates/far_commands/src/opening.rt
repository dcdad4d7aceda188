// Opens the table of a first line.
ghost use Rattle.std.specs.Prelude.{◌≡◌, ◌⊎◌, IfOk, IfErr};
ghost use Rattle.far_types.specs.Bounds.{IsSchema, AreLimits};
ghost use Rattle.far_commands.specs.Tables.{IsEmpty};

use far_frame::{Frame, World};
use far_script::Opening;
use far_store::FarStore;
use far_types::{Refusal, Schema};
use std::alloc::Global;

/// Opens a table over a store. Refused with `BadSchema` (2) exactly if the columns or the limits are not valid, else only
/// with `NoMemory` (1).
pub fn open_table<S: FarStore>(
    alloc: Global,
    store: S,
    opening: Opening,
) -> Result<World<S>, Refusal>
    ensures ok { IfOk result (IsEmpty (opening.kinds.items, opening.limits)) }
    ensures store { IfOk result (λ world. world.store ≡ S.store_id store) }
    ensures bad { IfErr result
        (λ e. ((e ≡ Refusal.BadSchema)
        × ¬ (IsSchema opening.kinds.items × AreLimits opening.limits))
        ⊎ (e ≡ Refusal.NoMemory)) }
{
    let schema = Schema::new(opening.kinds)?;
    let frame = Frame::open(alloc, schema, opening.limits, 0)?;
    Ok(World::new(alloc, frame, store).unwrap())
}
