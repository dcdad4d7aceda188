// Computes the answers of aggregates from scratch.
ghost use Rattle.std.specs.Prelude.{◌≡◌, IfErr, IfOk, OnOk};
ghost use Rattle.far_table.specs.Recounting.{IsAnswerNow};
ghost use Rattle.far_commands.specs.Recounts.{IsNotRecounted, Recounts, recount_workers};

use super::resources::Resources;
use far_frame::World;
use far_script::Page;
use far_script::print::{answer, refused};
use far_store::{FarStore, Meter};
use far_types::{Answer, Refusal};
use std::alloc::AllocError;

/// Returns the number of threads for a recount.
fn workers() -> u32
    ensures { result ≡ recount_workers }
{
    4
}

/// Computes the answer of an aggregate from scratch, from the rows that the table has now. Refused with `NoAggregate` (12),
/// or with `FarFault` (21) if a store fails, or with `NoMemory` (1). The world does not count the faults of a recount.
fn from_scratch<S: FarStore, A: Resources<S>>(
    resources: &A,
    world: &World<S>,
    aggregate: u32,
) -> Result<Answer, Refusal>
    ensures answer { IfOk result (IsAnswerNow world.now.state.table aggregate) }
    ensures refused { IfErr result
        (IsNotRecounted S.may_fail world.now.state.table aggregate) }
{
    let rt = resources.runtime();
    let mut meter = Meter::new();
    world
        .frame()
        .recount(rt, world.store(), &mut meter, aggregate, workers())
}

/// Recounts an aggregate, and prints the answer or the refusal.
pub fn recount<S: FarStore, A: Resources<S>>(
    resources: &A,
    world: &World<S>,
    aggregate: u32,
    reply: &mut Page,
) -> Result<(), AllocError>
    ensures ok { OnOk result (Recounts S.may_fail world.now.state.table aggregate reply.new) }
{
    reply.truncate(0);
    match from_scratch(resources, world, aggregate) {
        Ok(found) => answer(reply, &found),
        Err(refusal) => refused(reply, &refusal),
    }
}
