// Moves the far copies of a table to a new store.
ghost use Rattle.std.specs.Prelude.{◌≡◌, ◌+◌, ◌≤◌, ◌<◌, ◌^◌, OnOk, IfErr, IsErrAnd, IsOkAnd};
ghost use Rattle.far_frame.specs.Renewing.{IsMigratedTo};
ghost use Rattle.far_frame.specs.TableViews.{table_of};
ghost use Rattle.far_commands.specs.Renewals.{IsRenewed, IsNotRenewed, Renews};

use super::opening::open_table;
use super::resources::Resources;
use far_frame::World;
use far_script::print::refused;
use far_script::{Opening, Page};
use far_store::FarStore;
use far_types::{Kind, Limits, Refusal};
use std::alloc::AllocError;
use std::mem;

/// The smallest limits that a table may have.
const SMALLEST: Limits = Limits {
    group: 1,
    places: 1,
    edits: 1,
    int_segments: 1,
    int_size: 1,
    text_segments: 1,
    text_size: 64,
};

/// Returns an empty table, which takes the place of the script's table during the move.
fn stand_in<S: FarStore, A: Resources<S>>(resources: &A) -> Result<World<S>, AllocError> {
    let mut kinds = Vec::new(resources.alloc());
    kinds.push(Kind::Int)?;
    let opening = Opening {
        kinds,
        limits: SMALLEST,
    };
    let store = resources.store(0)?;
    match open_table(resources.alloc(), store, opening) {
        Ok(world) => Ok(world),
        Err(_) => Err(AllocError),
    }
}

/// Puts the table back: the moved one, or the old one if the move was refused.
///
/// Generic, since a proof over the table's own type takes minutes.
fn put_back<T: Drop>(place: &mut T, moved: Result<T, (Refusal, T)>) -> Result<(), Refusal>
    ensures moved { OnOk result (IsOkAnd moved (λ new. place.new ≡ new)) }
    ensures back { IfErr result
        (λ e. IsErrAnd moved (λ back. (back.0 ≡ e) × (place.new ≡ back.1))) }
{
    match moved {
        Ok(new) => {
            *place = new;
            Ok(())
        }
        Err((refusal, back)) => {
            *place = back;
            Err(refusal)
        }
    }
}

/// Moves the far copies of a table to a store. Refused as `World::migrate` is. A refused call changes only the count of
/// faults: jobs stay valid.
fn migrate<S: FarStore>(world: &mut World<S>, empty: World<S>, store: S) -> Result<(), Refusal>
    requires few { world.old.faults < 2 ^ 62 }
    ensures renewed { OnOk result
        (IsMigratedTo S.content S.content (S.store_id store) world.old world.new) }
    ensures table { table_of world.new.state ≡ table_of world.old.state }
    ensures back { IfErr result (λ e. IsNotRenewed S.may_fail world.old e world.new) }
{
    let old = mem::replace(world, empty);
    put_back(world, old.migrate(store))
}

/// Moves the far copies of the table to a new store of this capacity. Refused as `World::migrate` is, and with `NoMemory`
/// (1) if the store cannot be allocated. A refused call changes only the count of faults: jobs stay valid.
fn go_on<S: FarStore, A: Resources<S>>(
    resources: &A,
    world: &mut World<S>,
    capacity: u32,
) -> Result<(), Refusal>
    requires few { world.old.faults < 2 ^ 62 }
    ensures renewed { OnOk result (IsRenewed S.FarTickets capacity world.old world.new) }
    ensures table { table_of world.new.state ≡ table_of world.old.state }
    ensures back { IfErr result (λ e. IsNotRenewed S.may_fail world.old e world.new) }
{
    let store = resources.store(u64::from(capacity))?;
    let empty = stand_in(resources)?;
    migrate(world, empty, store)
}

/// Moves the far copies to a new store of this capacity, and prints `renewed` or the refusal. Not inlined: the tables have
/// a large stack frame, for which each command would pay.
#[inline(never)]
pub fn renew<S: FarStore, A: Resources<S>>(
    resources: &A,
    world: &mut World<S>,
    capacity: u32,
    reply: &mut Page,
) -> Result<(), AllocError>
    requires few { world.old.faults < 2 ^ 62 }
    ensures ok { OnOk result (Renews S.FarTickets capacity world.old reply.new world.new) }
    ensures table { table_of world.new.state ≡ table_of world.old.state }
    ensures faults { world.new.faults ≤ world.old.faults + 1 }
{
    reply.truncate(0);
    match go_on(resources, world, capacity) {
        Ok(()) => reply.text("renewed\n"),
        Err(refusal) => refused(reply, &refusal),
    }
}
