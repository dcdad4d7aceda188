// Four stripes that threads share.
ghost use Rattle.std.specs.Prelude.{◌≡◌, ◌≢◌, ◌<◌, ◌≤◌, ℕ, length, IfOk, IfErr, OnOk};
ghost use Rattle.far_sessions.specs.Known.{at};
ghost use Rattle.far_shared.specs.Applying.{Extends, IsRefused};
ghost use Rattle.far_shared.specs.Editing.{IsDueUnder, IsMadeUnder};
ghost use Rattle.far_shared.specs.UnderLock.{IsUnder};

use crate::stripe::{Applied, Stripe, TableTag};
use crossbeam_utils::CachePadded;
use far_sessions::{Cells, PlanTag, Session, SessionAt, StripeCell};
use far_store::FarTickets;
use far_types::{Edit, Refusal};
use std::alloc::Global;
use std::marker::PhantomData;
use std::sync::{RwLock, Wait};

/// The numbers of sessions and of columns of a shared table. They never change, so no lock protects them.
#[derive(Drop)]
pub(crate) struct Count<N: PlanTag> {
    pub(crate) sessions: u64,
    pub(crate) columns: u64,
    pub(crate) of: PhantomData<N>,
    ghost is: { sessions ≡ N.plan.sessions },
    ghost wide: { columns ≡ length N.plan.schema },
}

/// Four stripes, each a table under its lock, and a cell for each. Session s has the home stripe s mod 4, and may use all stripes.
///
/// A session is used with the shared table that made it: its type says which. No two stripes are on one cache line, so that a
/// writer of one stripe does not slow the next.
///
/// A session makes an edit, or gets its refusal, which a fetch or an eviction may resolve:
///
/// ```
/// pub(crate) fn make<N: PlanTag, B: TableTag, S: FarTickets, R: Wait>(
///     self,
///     rt: &R,
///     shared: &Shared<N, B, S>,
///     me: &mut Session<B>,
///     edit: Edit,
/// ) -> Result<(), RefusedTry>
///     requires stripe { self.stripe < 4 }
///     ensures made { OnOk result (AddsOne self.stripe edit me.old me.new) }
///     ensures own { OnErr result (AddsNothing self.stripe me.old me.new) }
///     ensures counted { IfErr result
///         (λ it. (it.stripe ≡ self.stripe) × (it.tries ≡ self.refused + 1)) }
///     ensures due { IfErr result
///         (λ it. IsDueUnder (IsUnder N.plan S.is_of B.store self.stripe) edit
///         (at me.new self.stripe) it.refusal) }
/// {
///     match shared.apply(rt, me, self.stripe, edit) {
///         Ok(_) => Ok(()),
///         Err(refusal) => Err(RefusedTry {
///             stripe: self.stripe,
///             tries: self.refused + 1,
///             refusal,
///         }),
///     }
/// }
/// ```
#[derive(Drop)]
pub struct Shared<N: PlanTag, B: TableTag, S: FarTickets> {
    pub(crate) alloc: Global,
    pub(crate) zero: CachePadded<RwLock<Stripe<N, B, S, 0>>>,
    pub(crate) one: CachePadded<RwLock<Stripe<N, B, S, 1>>>,
    pub(crate) two: CachePadded<RwLock<Stripe<N, B, S, 2>>>,
    pub(crate) three: CachePadded<RwLock<Stripe<N, B, S, 3>>>,
    pub(crate) cells: Cells<N, B>,
    pub(crate) count: Count<N>,
}

/// Makes an edit on the stripe under this lock.
fn apply_under<N: PlanTag, B: TableTag, S: FarTickets, const I: usize, R: Wait>(
    rt: &R,
    lock: &RwLock<Stripe<N, B, S, I>>,
    stripe_cell: &StripeCell<N, B, I>,
    me: &mut SessionAt<B, I>,
    edit: Edit,
) -> Result<Applied, Refusal>
    ensures ok { IfOk result (Extends N.plan me.old edit me.new) }
    ensures made { OnOk result
        (IsMadeUnder S.content (IsUnder N.plan S.is_of B.store I) edit me.new) }
    ensures refused { IfErr result (IsRefused N.plan me.old edit me.new) }
    ensures due { IfErr result (IsDueUnder (IsUnder N.plan S.is_of B.store I) edit me.new) }
{
    let mut stripe = lock.write(rt);
    stripe.known();
    let applied = stripe.apply(rt, stripe_cell, me, edit);
    stripe.known();
    applied
}

impl<N: PlanTag, B: TableTag, S: FarTickets> Shared<N, B, S> {
    /// Returns the four cells. Takes no stripe's lock.
    pub fn cells(&self) -> &Cells<N, B>
        ensures { result.now ≡ self.now.cells }
    {
        &self.cells
    }

    /// Makes an edit on a stripe, as this session, under the stripe's write lock. The session has then seen the stripe's
    /// history up to the edit. At the other stripes the session is unchanged.
    ///
    /// Refused with:
    ///
    /// - `OutOfRange` (14), if there is no such stripe. The session is then unchanged.
    /// - Otherwise as `Frame`'s call of the edit is. The session has then seen the history so far.
    pub fn apply<R: Wait>(
        &self,
        rt: &R,
        me: &mut Session<B>,
        stripe: u32,
        edit: Edit,
    ) -> Result<Applied, Refusal>
        ensures stripe { OnOk result (stripe < 4) }
        ensures ok { IfOk result (Extends N.plan (at me.old stripe) edit (at me.new stripe)) }
        ensures made { OnOk result (IsMadeUnder S.content
            (IsUnder N.plan S.is_of B.store stripe) edit (at me.new stripe)) }
        ensures refused { IfErr result
            (λ e. stripe < 4 → IsRefused N.plan (at me.old stripe) edit (at me.new stripe) e) }
        ensures due { IfErr result (λ e. stripe < 4
            → IsDueUnder (IsUnder N.plan S.is_of B.store stripe) edit (at me.new stripe) e) }
        ensures unknown { IfErr result
            (λ e. 4 ≤ stripe → (e ≡ Refusal.OutOfRange) × (me.new ≡ me.old)) }
        ensures others { (k : ℕ) → k < 4 → k ≢ stripe → at me.new k ≡ at me.old k }
    {
        let cells = &self.cells;
        match stripe {
            0 => apply_under(rt, &self.zero, cells.zero(), &mut me.zero, edit),
            1 => apply_under(rt, &self.one, cells.one(), &mut me.one, edit),
            2 => apply_under(rt, &self.two, cells.two(), &mut me.two, edit),
            3 => apply_under(rt, &self.three, cells.three(), &mut me.three, edit),
            _ => {
                // For the proof: a call drops the edit, since a function that drops it itself is long to prove.
                drop(edit);
                Err(Refusal::OutOfRange)
            }
        }
    }
}
