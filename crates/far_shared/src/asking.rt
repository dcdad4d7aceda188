// Asks the four stripes together, and reads one of them.
ghost use Rattle.std.specs.Prelude.{◌≡◌, ◌<◌, ◌≤◌, IfOk, IfErr};
ghost use Rattle.far_frame.specs.State.{live};
ghost use Rattle.far_shared.specs.Asking.{IsAnswer, IsAsked, IsLeft};
ghost use Rattle.far_shared.specs.Guards.{number_of, stripe_under};

use crate::shared::Shared;
use crate::stripe::asking::answer_stripes;
use crate::stripe::{Stripe, TableTag};
use far_frame::View;
use far_sessions::PlanTag;
use far_store::FarTickets;
use far_types::{Answer, Refusal};
use std::sync::{RwLockReadGuard, Wait};

/// A stripe under its read lock. While the guard is held, no edit is made in the stripe, and no object moves.
#[derive(Drop)]
pub enum StripeGuard<'a, N: PlanTag, B: TableTag, S: FarTickets> {
    /// Stripe 0.
    Zero(RwLockReadGuard<'a, Stripe<N, B, S, 0>>),
    /// Stripe 1.
    One(RwLockReadGuard<'a, Stripe<N, B, S, 1>>),
    /// Stripe 2.
    Two(RwLockReadGuard<'a, Stripe<N, B, S, 2>>),
    /// Stripe 3.
    Three(RwLockReadGuard<'a, Stripe<N, B, S, 3>>),
}

impl<'a, N: PlanTag, B: TableTag, S: FarTickets> StripeGuard<'a, N, B, S> {
    /// Returns a view of the rows of the stripe, which are the replay of a legal history. Each view of a guard has the same rows.
    pub fn view(&self) -> View<'_, S>
        ensures same { result ≡ live (stripe_under self.now).state }
        ensures left { IsLeft N.plan result.table }
    {
        match self {
            StripeGuard::Zero(stripe) => stripe.view(),
            StripeGuard::One(stripe) => stripe.view(),
            StripeGuard::Two(stripe) => stripe.view(),
            StripeGuard::Three(stripe) => stripe.view(),
        }
    }
}

impl<N: PlanTag, B: TableTag, S: FarTickets> Shared<N, B, S> {
    /// Returns the stripe of this number under its read lock. Refused with `OutOfRange` (14) exactly if there is no such
    /// stripe.
    pub fn scope<R: Wait>(&self, rt: &R, stripe: u32) -> Result<StripeGuard<'_, N, B, S>, Refusal>
        ensures ok { IfOk result (λ guard. (number_of guard ≡ stripe) × (stripe < 4)) }
        ensures refused { IfErr result (λ e. (e ≡ Refusal.OutOfRange) × (4 ≤ stripe)) }
    {
        match stripe {
            0 => Ok(StripeGuard::Zero(self.zero.read(rt))),
            1 => Ok(StripeGuard::One(self.one.read(rt))),
            2 => Ok(StripeGuard::Two(self.two.read(rt))),
            3 => Ok(StripeGuard::Three(self.three.read(rt))),
            _ => Err(Refusal::OutOfRange),
        }
    }

    /// Returns the answer of an aggregate that the four stripes have under one number, over the rows of the four, one stripe
    /// after another. Holds all four read locks.
    ///
    /// Refused as `answer_four` is, over the four tables as they are under their locks, with the first of these that applies:
    ///
    /// - `NoAggregate` (12): one of them lacks the aggregate, or it is not the same in all. This is always so for a number from
    ///   32 on.
    /// - `Building` (15): row groups are pending. It says how many.
    /// - `NoMemory` (1): an allocation fails.
    ///
    /// The gauge, whose number is 0, is refused only with `NoMemory` (1).
    pub fn ask_all<R: Wait>(&self, rt: &R, a: u32) -> Result<Answer, Refusal>
        ensures answer { IfOk result (IsAnswer N.plan a) }
        ensures asked { IsAsked N.plan a result }
        ensures gauge { a ≡ 0 → IfErr result (λ e. e ≡ Refusal.NoMemory) }
    {
        let zero = self.zero.read(rt);
        let one = self.one.read(rt);
        let two = self.two.read(rt);
        let three = self.three.read(rt);
        answer_stripes(self.alloc, &zero, &one, &two, &three, a)
    }
}
