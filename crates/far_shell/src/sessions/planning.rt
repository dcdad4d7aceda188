// The plan of a run's table.
ghost use Rattle.std.specs.Prelude.{◌≡◌, ◌<◌, ◌≤◌, IfErr, IfOk};
ghost use Rattle.far_shell.specs.Runs.{plan_for};

use super::outcome::Stop;
use far_shared::Plan;
use far_types::{Kind, Limits, Refusal, Schema, Spec};
use std::alloc::Global;

/// Returns the plan of a table of one column of numbers, with row groups of 4 places and the totals of the column as its
/// gauge. Ends only with `Memory`.
pub(crate) fn plan_for(alloc: Global, sessions: u32) -> Result<Plan, Stop>
    requires some { 1 ≤ sessions }
    requires few { sessions ≤ 4 }
    ensures ok { IfOk result (λ plan. plan ≡ plan_for sessions) }
    ensures memory { IfErr result (λ stop. stop ≡ Stop.Memory) }
{
    let mut kinds = Vec::new(alloc);
    kinds.push(Kind::Int)?;
    let Ok(schema) = Schema::new(kinds) else {
        unreachable!()
    };
    let limits = Limits::in_groups_of(4);
    let gauge = Spec::totals(alloc, 0);
    let Ok(plan) = Plan::new(schema, limits, gauge, u64::from(sessions)) else {
        unreachable!()
    };
    Ok(plan)
}
