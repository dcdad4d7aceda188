// What is under a lock beside a table: the owner of the table's history.
ghost use Rattle.std.specs.Prelude.{◌≡◌, ◌++◌, ◌∷◌, [], None};
ghost use mathlib.Core.List.{IsPrefix};
ghost use Rattle.far_types.specs.Edits.{edit_refusal};
ghost use Rattle.far_sessions.specs.Histories.{replay, gauge_of, by_session, IsLegal, AllBelow};
ghost use Rattle.far_sessions.specs.Rule.{entry};
ghost use Rattle.far_sessions.specs.Known.{SeesMore};

use crate::kept::Kept;
use crate::law::PlanTag;
use crate::reading::{Reading, reading_of, words_of};
use crate::session::SessionAt;
use crate::steps::{add, join_session, look, split_session};
use crate::stripe_cell::{CellsTag, StripeCell};
use crate::view::PassView;
use crossbeam_utils::atomic::seq_cell::Doing;
use far_types::Edit;
use std::marker::{Model, PhantomData};
use std::snapshot::Snapshot;
use std::sync::Wait;

/// Owns the history of stripe I. It is under the table's lock, beside the table, and stores no list of edits.
///
/// Contracts see the history. It is legal, and each entry is of a session of the plan.
#[derive(Drop)]
pub struct Keeper<N: PlanTag, B: CellsTag, const I: usize> {
    pub(crate) pass: Option<Kept<[u64; 4], Doing<[u64; 4], PassView>>>,
    pub(crate) of: PhantomData<(N, B)>,
}

impl<N: PlanTag, B: CellsTag, const I: usize> Model for Keeper<N, B, I> {
    ghost use Rattle.std.specs.Prelude.{List};
    ghost use Rattle.far_sessions.specs.declared.view.Entry.{Entry};
    ghost use Rattle.far_sessions.specs.Passes.{history_in, IsHeld};

    ghost Value = { List Entry };

    ghost view = { λ s. history_in s.pass };

    ghost invariant = { λ s. IsHeld (B.cells I) N.plan s.pass };
}

/// The keepers of the four histories.
#[derive(Drop)]
pub struct Keepers<N: PlanTag, B: CellsTag> {
    /// The keeper of stripe 0.
    pub zero: Keeper<N, B, 0>,
    /// The keeper of stripe 1.
    pub one: Keeper<N, B, 1>,
    /// The keeper of stripe 2.
    pub two: Keeper<N, B, 2>,
    /// The keeper of stripe 3.
    pub three: Keeper<N, B, 3>,
}

impl<N: PlanTag, B: CellsTag, const I: usize> Keeper<N, B, I> {
    /// Lets a session see the history so far, and returns the gauge's reading after it.
    pub fn look<R: Wait>(
        &mut self,
        rt: &R,
        stripe_cell: &StripeCell<N, B, I>,
        me: &mut SessionAt<B, I>,
    ) -> Reading
        ensures reading { result ≡ gauge_of N.plan self.old }
        ensures history { self.new ≡ self.old }
        ensures whole { me.new.seen ≡ self.old }
        ensures seen { SeesMore N.plan me.old me.new }
    {
        let Some(kept) = self.pass.take() else {
            unreachable!()
        };
        let mut pass = kept.into_pass();
        let session = split_session(&stripe_cell.cell, &mut me.pass);
        join_session(&stripe_cell.cell, &mut pass, session);
        let words = look(rt, &stripe_cell.cell, &mut pass);
        me.pass = split_session(&stripe_cell.cell, &mut pass);
        self.pass = Some(Kept::new(pass));
        reading_of(words)
    }

    /// Adds an edit of this session to the history. The session has then seen all of it. `after` is the gauge's reading
    /// after the edit.
    pub fn add<R: Wait>(
        &mut self,
        rt: &R,
        stripe_cell: &StripeCell<N, B, I>,
        me: &mut SessionAt<B, I>,
        after: Reading,
        edit: Snapshot<Edit>,
    )
        requires may { edit_refusal (replay N.plan self.old) edit.value ≡ None }
        requires reading { after ≡ gauge_of N.plan (self.old ++ entry me.old.by edit.value ∷ []) }
        ensures history { self.new ≡ self.old ++ entry me.old.by edit.value ∷ [] }
        ensures whole { me.new.seen ≡ self.new }
        ensures mine { me.new.mine ≡ me.old.mine ++ entry me.old.by edit.value ∷ [] }
        ensures by { me.new.by ≡ me.old.by }
        ensures own { by_session me.new.by me.new.seen ≡ me.new.mine }
        ensures legal { IsLegal N.plan self.new }
    {
        let Some(kept) = self.pass.take() else {
            unreachable!()
        };
        let mut pass = kept.into_pass();
        let session = split_session(&stripe_cell.cell, &mut me.pass);
        join_session(&stripe_cell.cell, &mut pass, session);
        add(rt, &stripe_cell.cell, &mut pass, words_of(after), edit);
        look(rt, &stripe_cell.cell, &mut pass);
        me.pass = split_session(&stripe_cell.cell, &mut pass);
        self.pass = Some(Kept::new(pass));
    }

    /// Ends a session at this stripe. The session knows all its own entries in the history.
    pub fn end_session<R: Wait>(
        &mut self,
        rt: &R,
        stripe_cell: &StripeCell<N, B, I>,
        session: SessionAt<B, I>,
    )
        ensures history { self.new ≡ self.old }
        ensures seen { IsPrefix session.seen self.old }
        ensures own { by_session session.by self.old ≡ session.mine }
    {
        let mut session = session;
        self.look(rt, stripe_cell, &mut session);
    }

    /// For the proof: shows that the history is legal, and that each entry is of a session of the plan.
    #[inline(always)]
    pub fn known(&self)
        ensures legal { IsLegal N.plan self.now }
        ensures below { AllBelow N.plan.sessions self.now }
    {
        let _pass = &self.pass;
    }
}
