// The four cells outside the locks.
ghost use Rattle.std.specs.Prelude.{◌≡◌, ◌≢◌, ◌<◌, ◌≤◌, ℕ, OnOk, IfOk, IfErr};
ghost use Rattle.crossbeam_utils.specs.Padded.{padded_value};
ghost use Rattle.far_sessions.specs.Histories.{gauge_of};
ghost use Rattle.far_sessions.specs.Known.{at, SeesMore};

use crate::law::PlanTag;
use crate::reading::Reading;
use crate::session::Session;
use crate::stripe_cell::{CellsTag, StripeCell};
use crossbeam_utils::CachePadded;
use far_types::Refusal;
use std::sync::Wait;

// Unused blocks between the blocks of the cells.
pub(crate) type Spacers = Vec<Vec<u64>>;

/// The four cells, which are read without a stripe's lock.
///
/// Each field is padded, so that no two share a cache line. The words of each cell are in a block of their own, with
/// spacers between these blocks. So an edit of one stripe does not slow down the readings of another stripe's gauge.
#[derive(Drop)]
pub struct Cells<N: PlanTag, B: CellsTag> {
    pub(crate) zero: CachePadded<StripeCell<N, B, 0>>,
    pub(crate) one: CachePadded<StripeCell<N, B, 1>>,
    pub(crate) two: CachePadded<StripeCell<N, B, 2>>,
    pub(crate) three: CachePadded<StripeCell<N, B, 3>>,
    // Kept as long as the cells. If they were freed, other data that a thread writes would soon take their place.
    pub(crate) spacers: Spacers,
}

impl<N: PlanTag, B: CellsTag> Cells<N, B> {
    /// Returns the cell of stripe 0.
    pub fn zero(&self) -> &StripeCell<N, B, 0>
        ensures { result.now ≡ padded_value self.now.zero }
    {
        &self.zero
    }

    /// Returns the cell of stripe 1.
    pub fn one(&self) -> &StripeCell<N, B, 1>
        ensures { result.now ≡ padded_value self.now.one }
    {
        &self.one
    }

    /// Returns the cell of stripe 2.
    pub fn two(&self) -> &StripeCell<N, B, 2>
        ensures { result.now ≡ padded_value self.now.two }
    {
        &self.two
    }

    /// Returns the cell of stripe 3.
    pub fn three(&self) -> &StripeCell<N, B, 3>
        ensures { result.now ≡ padded_value self.now.three }
    {
        &self.three
    }

    /// Reads the gauge of a stripe after its history so far. Takes no stripe's lock, and reads one cell once.
    ///
    /// Refused with `OutOfRange` (14) if there is no such stripe. The session then does not change.
    pub fn gauge<R: Wait>(
        &self,
        rt: &R,
        me: &mut Session<B>,
        stripe: u32,
    ) -> Result<Reading, Refusal>
        ensures ok { OnOk result (stripe < 4) }
        ensures reading { IfOk result (λ r. r ≡ gauge_of N.plan (at me.new stripe).seen) }
        ensures seen { OnOk result (SeesMore N.plan (at me.old stripe) (at me.new stripe)) }
        ensures others { (k : ℕ) → k < 4 → k ≢ stripe → at me.new k ≡ at me.old k }
        ensures refused { IfErr result
            (λ e. (e ≡ Refusal.OutOfRange) × (4 ≤ stripe) × (me.new ≡ me.old)) }
    {
        match stripe {
            0 => Ok(self.zero().gauge(rt, &mut me.zero)),
            1 => Ok(self.one().gauge(rt, &mut me.one)),
            2 => Ok(self.two().gauge(rt, &mut me.two)),
            3 => Ok(self.three().gauge(rt, &mut me.three)),
            _ => Err(Refusal::OutOfRange),
        }
    }
}
