// Registers aggregates in all four stripes.
ghost use Rattle.std.specs.Prelude.{◌≡◌, ◌≢◌, ◌<◌, ℕ, None, IfOk, IfErr, OnOk};
ghost use Rattle.far_types.specs.Bounds.{spec_refusal};
ghost use Rattle.far_shared.specs.UnderLock.{IsUnder, Registers};
ghost use Rattle.far_shared.specs.Watching.{WatchRefusal};

use crate::shared::Shared;
use crate::stripe::TableTag;
pub use crate::stripe::registering::watch_four;
use far_sessions::PlanTag;
use far_store::FarTickets;
use far_types::{Refusal, Spec};
use std::sync::Wait;

impl<N: PlanTag, B: TableTag, S: FarTickets> Shared<N, B, S> {
    /// Registers an aggregate in all four stripes under one number, which is below 32, or in none. All row groups that hold a place are
    /// pending in it. Holds all four write locks.
    ///
    /// Refused as `watch_four` is. The rows, objects and aggregates of the four stripes are then unchanged.
    pub fn watch_all<R: Wait>(&self, rt: &R, spec: Spec) -> Result<u32, Refusal>
        ensures number { IfOk result (λ a. (a ≢ 0) × (a < 32)) }
        ensures allowed { OnOk result (spec_refusal N.plan.schema spec ≡ None) }
        ensures all { IfOk result
            (λ a. (n : ℕ) → n < 4 → Registers (IsUnder N.plan S.is_of B.store n) a spec) }
        ensures refused { IfErr result (WatchRefusal N.plan.schema spec) }
    {
        let mut zero = self.zero.write(rt);
        let mut one = self.one.write(rt);
        let mut two = self.two.write(rt);
        let mut three = self.three.write(rt);
        watch_four(&mut zero, &mut one, &mut two, &mut three, &spec)
    }
}
