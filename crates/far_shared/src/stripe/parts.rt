// A table and the owner of its history: put under a lock, and taken from it.
ghost use Rattle.std.specs.Prelude.{◌≡◌, []};
ghost use Rattle.far_rows.specs.Jobs.{AreAt};
ghost use Rattle.far_shared.specs.Opening.{IsEmpty};
ghost use Rattle.far_shared.specs.Stripes.{IsStripe};

use super::{Stripe, TableTag};
use crossbeam_utils::CachePadded;
use far_frame::Frame;
use far_sessions::{Keeper, PlanTag};
use far_store::FarTickets;
use std::sync::RwLock;

/// Puts a table under its lock, with the owner of its history, which is empty.
pub(crate) fn under_lock<N: PlanTag, B: TableTag, S: FarTickets, const I: usize>(
    frame: Frame<S>,
    keeper: Keeper<N, B, I>,
) -> CachePadded<RwLock<Stripe<N, B, S, I>>>
    requires empty { IsEmpty S.is_of N.plan I frame }
    requires new { keeper ≡ [] }
{
    CachePadded::new(RwLock::new(Stripe { frame, keeper }))
}

impl<N: PlanTag, B: TableTag, S: FarTickets, const I: usize> Stripe<N, B, S, I> {
    /// Returns the table, unchanged, and the owner of its history.
    pub(crate) fn into_parts(self) -> (Frame<S>, Keeper<N, B, I>)
        ensures table { result.0 ≡ self.state }
        ensures history { result.1 ≡ self.log }
        ensures stripe { IsStripe N.plan result.1 result.0.table }
        ensures here { AreAt S.is_of B.store result.0.rows }
    {
        let Stripe { frame, keeper } = self;
        (frame, keeper)
    }
}
