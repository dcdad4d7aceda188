// The rows of stripes under their locks.
ghost use Rattle.std.specs.Prelude.{◌≡◌, IfOk, IfErr};
ghost use Rattle.far_frame.specs.State.{live};
ghost use Rattle.far_shared.specs.Asking.{IsAnswer, IsAsked, IsLeft};

use super::{Stripe, TableTag};
use crate::four::answer_four;
use far_frame::View;
use far_sessions::PlanTag;
use far_store::FarTickets;
use far_types::{Answer, Refusal};
use std::alloc::Global;

impl<N: PlanTag, B: TableTag, S: FarTickets, const I: usize> Stripe<N, B, S, I> {
    /// Returns a view of the rows, which are the replay of a legal history.
    pub(crate) fn view(&self) -> View<'_, S>
        ensures same { result ≡ live self.now.state }
        ensures left { IsLeft N.plan result.table }
    {
        self.keeper.known();
        self.frame.scope()
    }
}

/// Returns the answer of an aggregate over the rows of four stripes.
pub(crate) fn answer_stripes<N: PlanTag, B: TableTag, S: FarTickets>(
    alloc: Global,
    zero: &Stripe<N, B, S, 0>,
    one: &Stripe<N, B, S, 1>,
    two: &Stripe<N, B, S, 2>,
    three: &Stripe<N, B, S, 3>,
    a: u32,
) -> Result<Answer, Refusal>
    ensures answer { IfOk result (IsAnswer N.plan a) }
    ensures asked { IsAsked N.plan a result }
    ensures gauge { a ≡ 0 → IfErr result (λ e. e ≡ Refusal.NoMemory) }
{
    zero.keeper.known();
    one.keeper.known();
    two.keeper.known();
    three.keeper.known();
    answer_four(alloc, &zero.frame, &one.frame, &two.frame, &three.frame, a)
}
