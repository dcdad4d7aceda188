// The table and the history under the lock of a stripe.
ghost use Rattle.std.specs.Prelude.{◌≡◌, ◌++◌, ◌∷◌, [], length, IfOk, IfErr, OnOk, OnErr};
ghost use Rattle.far_frame.specs.Effects.{Accepts, WhyRefused, edit_reply};
ghost use Rattle.far_frame.specs.declared.step.Step.TheVariants as step;
ghost use Rattle.far_sessions.specs.Histories.{replay};
ghost use Rattle.far_sessions.specs.Rule.{entry};
ghost use Rattle.far_shared.specs.Applying.{place_of, SeesAll, WhyNot};
ghost use Rattle.far_shared.specs.UnderLock.{IsUnder};

pub(crate) mod asking;
pub(crate) mod parts;
pub mod registering;
mod working;

use crate::editing::change;
use far_frame::Frame;
use far_sessions::{CellsTag, Keeper, PlanTag, SessionAt, StripeCell};
use far_store::FarTickets;
use far_types::{Edit, Refusal};
use std::marker::{Brand, Model};
use std::snapshot::Snapshot;
use std::sync::Wait;

/// Names a shared table: its four cells, and the store to which its objects go. It has no functions: a caller picks a type, as
/// `Brand`.
pub trait TableTag: CellsTag {
    ghost use Rattle.std.specs.Prelude.{ℕ, List};

    ghost store: { List ℕ };
}

impl TableTag for Brand {
    ghost use Rattle.std.specs.Prelude.{[]};

    ghost store = { [] };
}

/// The result of an accepted edit.
#[derive(Clone, Copy, Debug, PartialEq, Eq)]
pub struct Applied {
    /// The number of edits that the stripe has accepted by then, including this one.
    pub number: u64,
    /// The place of the row that was appended, or the place that the edit names.
    pub place: u32,
}

/// A table and the owner of its history, under the lock of stripe I.
///
/// Contracts see the history and the table's state. The table is the replay of the history, and the gauge is its aggregate 0.
/// Its objects have the number I, and all its tickets are of the store.
// No other module sees the fields, nor the calls that register one aggregate or remove it. So what is done under a lock is done by calls
// whose contracts name the state before and after.
#[derive(Drop)]
pub struct Stripe<N: PlanTag, B: TableTag, S: FarTickets, const I: usize> {
    frame: Frame<S>,
    keeper: Keeper<N, B, I>,
}

impl<N: PlanTag, B: TableTag, S: FarTickets, const I: usize> Model for Stripe<N, B, S, I> {
    ghost use Rattle.far_rows.specs.Jobs.{AreAt};
    ghost use Rattle.far_shared.specs.Stripes.{AreRowsOf, StripeState, IsStripe};

    ghost Value = { StripeState S.Ticket };

    ghost view = { λ s. record { log = s.keeper; state = s.frame } };

    ghost invariant = { λ s. IsStripe N.plan s.keeper s.frame.table
        × AreAt S.is_of B.store s.frame.rows
        × AreRowsOf N.plan.schema I s.frame.rows };
}

impl<N: PlanTag, B: TableTag, S: FarTickets, const I: usize> Stripe<N, B, S, I> {
    /// Makes an edit, as this session, as `Frame`'s call for this edit does. Refused as that call is; the table, its objects and
    /// its aggregates are then unchanged.
    pub fn apply<R: Wait>(
        &mut self,
        rt: &R,
        stripe_cell: &StripeCell<N, B, I>,
        me: &mut SessionAt<B, I>,
        edit: Edit,
    ) -> Result<Applied, Refusal>
        ensures seen { SeesAll N.plan me.old self.old.log me.new self.new.log }
        ensures ok { OnOk result ((self.new.log ≡ self.old.log ++ entry me.old.by edit ∷ [])
            × (me.new.mine ≡ me.old.mine ++ entry me.old.by edit ∷ [])) }
        ensures accepted { OnOk result (Accepts S.content self.old.state (step.Edit edit)
            (edit_reply self.old.state.table edit) self.new.state) }
        ensures number { IfOk result (λ applied. applied.number ≡ length self.new.log) }
        ensures place { IfOk result
            (λ applied. applied.place ≡ place_of (replay N.plan self.old.log) edit) }
        ensures refused { OnErr result ((self.new ≡ self.old) × (me.new.mine ≡ me.old.mine)) }
        ensures why { IfErr result (WhyNot (replay N.plan self.old.log) edit) }
        ensures due { IfErr result (WhyRefused self.old.state (step.Edit edit)) }
    {
        let before = self.keeper.look(rt, stripe_cell, me);
        let copy = Snapshot::of(&edit);
        let changed = change::<N, S>(&mut self.frame, before.edits, edit)?;
        self.keeper.add(rt, stripe_cell, me, changed.after, copy);
        Ok(Applied {
            number: changed.after.edits,
            place: changed.place,
        })
    }

    /// For the proof: shows the invariant of a stripe under its lock.
    #[inline(always)]
    pub(crate) fn known(&self)
        ensures { IsUnder N.plan S.is_of B.store I self.now }
    {
        self.keeper.known();
    }
}
