// Closes a shared table.
ghost use Rattle.std.specs.Prelude.{◌≡◌, IfOk, IfErr, OnOk};
ghost use Rattle.far_rows.specs.Jobs.{AreAt};
ghost use Rattle.far_sessions.specs.Histories.{IsLegal};
ghost use Rattle.far_sessions.specs.Closing.{IsSettled, IsWhole};
ghost use Rattle.far_shared.specs.Closing.{IsClosed};

use crate::opening::Four;
use crate::shared::Shared;
use crate::stripe::{Stripe, TableTag};
use crossbeam_utils::CachePadded;
use far_frame::Frame;
use far_sessions::{Cells, Keepers, PlanTag, Session, are_whole, settle};
use far_store::FarTickets;
use far_types::Refusal;
use std::sync::{RwLock, Wait};

/// Ends these sessions. Each history is legal, and has exactly their entries.
fn end<N: PlanTag, B: TableTag, R: Wait>(
    rt: &R,
    cells: Cells<N, B>,
    keepers: Keepers<N, B>,
    sessions: Vec<Session<B>>,
)
    ensures zero { IsLegal N.plan keepers.zero
        × IsSettled N.plan.sessions 0 keepers.zero sessions.items }
    ensures one { IsLegal N.plan keepers.one
        × IsSettled N.plan.sessions 1 keepers.one sessions.items }
    ensures two { IsLegal N.plan keepers.two
        × IsSettled N.plan.sessions 2 keepers.two sessions.items }
    ensures three { IsLegal N.plan keepers.three
        × IsSettled N.plan.sessions 3 keepers.three sessions.items }
{
    let mut keepers = keepers;
    keepers.zero.known();
    keepers.one.known();
    keepers.two.known();
    keepers.three.known();
    settle(rt, &cells, &mut keepers, sessions);
    // For the proof: calls drop them, since a function that drops them itself is long to prove.
    drop(keepers);
    drop(cells);
}

/// Ends these sessions, and returns the tables of the four stripes. Each is unchanged, with its objects and its aggregates.
fn end_stripes<N: PlanTag, B: TableTag, S: FarTickets, R: Wait>(
    rt: &R,
    cells: Cells<N, B>,
    zero: Stripe<N, B, S, 0>,
    one: Stripe<N, B, S, 1>,
    two: Stripe<N, B, S, 2>,
    three: Stripe<N, B, S, 3>,
    sessions: Vec<Session<B>>,
) -> Four<Frame<S>>
    ensures same { (result.zero ≡ zero.state)
        × (result.one ≡ one.state)
        × (result.two ≡ two.state)
        × (result.three ≡ three.state) }
    ensures zero { IsClosed N.plan 0 sessions.items result.zero.table }
    ensures one { IsClosed N.plan 1 sessions.items result.one.table }
    ensures two { IsClosed N.plan 2 sessions.items result.two.table }
    ensures three { IsClosed N.plan 3 sessions.items result.three.table }
    ensures here { AreAt S.is_of B.store result.zero.rows
        × AreAt S.is_of B.store result.one.rows
        × AreAt S.is_of B.store result.two.rows
        × AreAt S.is_of B.store result.three.rows }
{
    let (frame_zero, keeper_zero) = zero.into_parts();
    let (frame_one, keeper_one) = one.into_parts();
    let (frame_two, keeper_two) = two.into_parts();
    let (frame_three, keeper_three) = three.into_parts();
    let keepers = Keepers {
        zero: keeper_zero,
        one: keeper_one,
        two: keeper_two,
        three: keeper_three,
    };
    end(rt, cells, keepers, sessions);
    Four {
        zero: frame_zero,
        one: frame_one,
        two: frame_two,
        three: frame_three,
    }
}

/// Returns the value under a stripe's lock.
fn unlocked<N: PlanTag, B: TableTag, S: FarTickets, const I: usize>(
    lock: CachePadded<RwLock<Stripe<N, B, S, I>>>,
) -> Stripe<N, B, S, I> {
    lock.into_inner().into_inner()
}

impl<N: PlanTag, B: TableTag, S: FarTickets> Shared<N, B, S> {
    /// Ends these sessions, and returns the four tables.
    fn settled<R: Wait>(self, rt: &R, sessions: Vec<Session<B>>) -> Four<Frame<S>>
        ensures zero { IsClosed N.plan 0 sessions.items result.zero.table }
        ensures one { IsClosed N.plan 1 sessions.items result.one.table }
        ensures two { IsClosed N.plan 2 sessions.items result.two.table }
        ensures three { IsClosed N.plan 3 sessions.items result.three.table }
        ensures here { AreAt S.is_of B.store result.zero.rows
            × AreAt S.is_of B.store result.one.rows
            × AreAt S.is_of B.store result.two.rows
            × AreAt S.is_of B.store result.three.rows }
    {
        let Shared {
            alloc: _,
            count: _,
            cells,
            zero,
            one,
            two,
            three,
        } = self;
        end_stripes(
            rt,
            cells,
            unlocked(zero),
            unlocked(one),
            unlocked(two),
            unlocked(three),
            sessions,
        )
    }
}

/// Ends all sessions, and returns the four tables. The entries of each table's history are exactly those that its sessions
/// know as their own.
///
/// Refused with `OutOfRange` (14) exactly if a session is missing. The shared table and the sessions are then returned.
pub fn close<N: PlanTag, B: TableTag, S: FarTickets, R: Wait>(
    rt: &R,
    shared: Shared<N, B, S>,
    sessions: Vec<Session<B>>,
) -> Result<Four<Frame<S>>, (Refusal, Shared<N, B, S>, Vec<Session<B>>)>
    ensures whole { OnOk result (IsWhole N.plan.sessions sessions.items) }
    ensures zero { IfOk result (λ frames. IsClosed N.plan 0 sessions.items frames.zero.table) }
    ensures one { IfOk result (λ frames. IsClosed N.plan 1 sessions.items frames.one.table) }
    ensures two { IfOk result (λ frames. IsClosed N.plan 2 sessions.items frames.two.table) }
    ensures three { IfOk result (λ frames. IsClosed N.plan 3 sessions.items frames.three.table) }
    ensures here { IfOk result (λ frames. AreAt S.is_of B.store frames.zero.rows
        × AreAt S.is_of B.store frames.one.rows
        × AreAt S.is_of B.store frames.two.rows
        × AreAt S.is_of B.store frames.three.rows) }
    ensures missing { IfErr result
        (λ refused. (refused.0 ≡ Refusal.OutOfRange) × ¬ (IsWhole N.plan.sessions sessions.items)) }
    ensures back { IfErr result (λ refused. refused.2.items ≡ sessions.items) }
{
    if !are_whole(&sessions, shared.count.sessions) {
        return Err((Refusal::OutOfRange, shared, sessions));
    }
    Ok(shared.settled(rt, sessions))
}
