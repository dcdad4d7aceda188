// The session of a thread.
ghost use Rattle.std.specs.Prelude.{◌≡◌, ℕ};
ghost use Rattle.far_sessions.specs.Histories.{gauge_of};
ghost use Rattle.far_sessions.specs.Known.{at, SeesMore};

use crate::law::{Pass, PlanTag};
use crate::reading::{Reading, reading_of};
use crate::steps::look;
use crate::stripe_cell::{CellsTag, StripeCell};
use std::marker::{Model, PhantomData};
use std::sync::Wait;

/// A session at stripe I. Contracts see its number, the history that it has seen, and its own entries in it.
#[derive(Drop)]
pub struct SessionAt<B: CellsTag, const I: usize> {
    pub(crate) pass: Pass,
    pub(crate) of: PhantomData<B>,
}

impl<B: CellsTag, const I: usize> Model for SessionAt<B, I> {
    ghost use Rattle.std.specs.Prelude.{◌≡◌};
    ghost use Rattle.crossbeam_utils.specs.Seq.{cell_view};
    ghost use Rattle.far_sessions.specs.Sessions.{SessionState, session_state, IsSession};

    ghost Value = { SessionState };

    ghost view = { λ s. session_state (cell_view s.pass) };

    ghost invariant = { λ s. (s.pass.table_id ≡ B.cells I) × IsSession (cell_view s.pass) };
}

/// A session, at all four stripes.
#[derive(Drop)]
pub struct Session<B: CellsTag> {
    pub(crate) number: u64,
    /// The session at stripe 0.
    pub zero: SessionAt<B, 0>,
    /// The session at stripe 1.
    pub one: SessionAt<B, 1>,
    /// The session at stripe 2.
    pub two: SessionAt<B, 2>,
    /// The session at stripe 3.
    pub three: SessionAt<B, 3>,
}

impl<B: CellsTag> Model for Session<B> {
    ghost use Rattle.std.specs.Prelude.{◌≡◌};
    ghost use Rattle.far_sessions.specs.Known.{Known};

    ghost Value = { Known };

    ghost view = { λ s. record
        { zeroth = s.zero; first = s.one; second = s.two; third = s.three } };

    ghost invariant = { λ s. (s.number ≡ s.zero.by)
        × (s.one.by ≡ s.zero.by)
        × (s.two.by ≡ s.zero.by)
        × (s.three.by ≡ s.zero.by) };
}

impl<B: CellsTag> Session<B> {
    /// Returns the session's number, counted from 0.
    pub fn number(&self) -> u64
        ensures { (k : ℕ) → (at self.now k).by ≡ result }
    {
        self.number
    }
}

impl<N: PlanTag, B: CellsTag, const I: usize> StripeCell<N, B, I> {
    /// Reads the gauge after the history so far. Takes no stripe's lock.
    pub fn gauge<R: Wait>(&self, rt: &R, me: &mut SessionAt<B, I>) -> Reading
        ensures reading { result ≡ gauge_of N.plan me.new.seen }
        ensures seen { SeesMore N.plan me.old me.new }
    {
        reading_of(look(rt, &self.cell, &mut me.pass))
    }
}
