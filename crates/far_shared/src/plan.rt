// Plans of shared tables.
ghost use Rattle.std.specs.Prelude.{◌≡◌, ◌⊎◌, Some, None, IfOk, IfErr, OnOk};
ghost use Rattle.far_types.specs.Bounds.{AreLimits};
ghost use Rattle.far_shared.specs.Plans.{is_plain, gauge_refusal, plan_refusal};

use far_types::{Fold, Limits, Refusal, Schema, Spec};
use std::marker::Model;

/// A plan of a shared table: the schema and the limits of each stripe, the aggregate that is its gauge, and the number of
/// sessions. Contracts see these four.
///
/// Here the gauge of each stripe is the count and the sum of an int column:
///
/// ```
/// pub(crate) fn plan_for(alloc: Global, sessions: u32) -> Result<Plan, Stop>
///     requires some { 1 ≤ sessions }
///     requires few { sessions ≤ 4 }
///     ensures ok { IfOk result (λ plan. plan ≡ plan_for sessions) }
///     ensures memory { IfErr result (λ stop. stop ≡ Stop.Memory) }
/// {
///     let mut kinds = Vec::new(alloc);
///     kinds.push(Kind::Int)?;
///     let Ok(schema) = Schema::new(kinds) else {
///         unreachable!()
///     };
///     let limits = Limits::in_groups_of(4);
///     let gauge = Spec::totals(alloc, 0);
///     let Ok(plan) = Plan::new(schema, limits, gauge, u64::from(sessions)) else {
///         unreachable!()
///     };
///     Ok(plan)
/// }
/// ```
#[derive(Drop)]
pub struct Plan {
    pub(crate) schema: Schema,
    pub(crate) limits: Limits,
    pub(crate) gauge: Spec,
    pub(crate) sessions: u64,
}

impl Model for Plan {
    ghost use Rattle.far_sessions.specs.Histories.{Planned};
    ghost use Rattle.far_shared.specs.Plans.{IsPlan};

    ghost Value = { Planned };

    ghost view = { λ plan. record {
      schema = plan.schema;
      limits = plan.limits;
      gauge = plan.gauge;
      sessions = plan.sessions;
    } };

    ghost invariant = { λ plan. IsPlan record {
      schema = plan.schema;
      limits = plan.limits;
      gauge = plan.gauge;
      sessions = plan.sessions;
    } };
}

/// Returns whether the aggregate has only one count and one sum.
fn is_plain(gauge: &Spec) -> bool
    ensures { result ≡ is_plain gauge.now }
{
    match gauge.fold {
        Fold::Totals => gauge.key.is_none(),
        Fold::Extrema => false,
    }
}

/// Checks that the aggregate may be the gauge of tables with this schema. Refused with `BadSpec` (3) if it is not totals
/// without a key column, else as `Spec::check` says.
fn check_gauge(schema: &Schema, gauge: &Spec) -> Result<(), Refusal>
    ensures ok { OnOk result (gauge_refusal schema.now gauge.now ≡ None) }
    ensures refused { IfErr result (λ e. gauge_refusal schema.now gauge.now ≡ Some e) }
{
    if !is_plain(gauge) {
        return Err(Refusal::BadSpec);
    }
    gauge.check(schema)
}

impl Plan {
    /// Returns the plan of a shared table. Allocates nothing.
    ///
    /// Refused with the first of these that applies:
    ///
    /// - `BadSchema` (2): the limits are not valid.
    /// - `BadSpec` (3): the gauge is not totals without a key column, has more than 4 tests, or too long a constant.
    /// - `NoColumn` (4) or `WrongKind` (5): the gauge does not fit the schema.
    /// - `OutOfRange` (14): the number of sessions is not 1 to 64.
    pub fn new(schema: Schema, limits: Limits, gauge: Spec, sessions: u64) -> Result<Plan, Refusal>
        ensures plan { IfOk result (λ plan. plan
            ≡ record { schema = schema; limits = limits; gauge = gauge; sessions = sessions }) }
        ensures limits { OnOk result (AreLimits limits) }
        ensures ok { OnOk result (plan_refusal schema gauge sessions ≡ None) }
        ensures refused { IfErr result (λ e. ((e ≡ Refusal.BadSchema) × ¬ (AreLimits limits))
            ⊎ (AreLimits limits × (plan_refusal schema gauge sessions ≡ Some e))) }
    {
        limits.check()?;
        check_gauge(&schema, &gauge)?;
        if sessions < 1 || sessions > 64 {
            return Err(Refusal::OutOfRange);
        }
        Ok(Plan {
            schema,
            limits,
            gauge,
            sessions,
        })
    }
}
