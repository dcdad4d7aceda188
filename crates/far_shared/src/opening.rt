// Opens a shared table.
ghost use Rattle.std.specs.Prelude.{◌≡◌, ◌⊎◌, ℕ, List, [], length, IfOk, IfErr, IsErr, IsErrOf, IsOk, IsOkAnd, OnErr, OnOk};
ghost use Rattle.far_rows.specs.Jobs.{AreAt};
ghost use Rattle.far_frame.specs.State.{empty_state};
ghost use Rattle.far_sessions.specs.Known.{newcomers};
ghost use Rattle.far_shared.specs.Opening.{HaveNames, IsEmpty};

use crate::plan::Plan;
use crate::shared::{Count, Shared};
use crate::stripe::TableTag;
use crate::stripe::parts::under_lock;
use far_frame::Frame;
use far_sessions::{Opened, PlanTag, Session};
use far_store::FarTickets;
use far_types::Refusal;
use std::alloc::{AllocError, Global};
use std::marker::{Model, PhantomData};

/// One value for each of the four stripes.
#[derive(Drop)]
pub struct Four<T> {
    /// The value of stripe 0.
    pub zero: T,
    /// The value of stripe 1.
    pub one: T,
    /// The value of stripe 2.
    pub two: T,
    /// The value of stripe 3.
    pub three: T,
}

/// Returns all four, or the first refusal.
///
/// Takes values of any type. For the proof: a function that takes a table out of a result costs minutes to prove, and here it
/// costs nothing.
fn all_four<T: Drop>(
    zero: Result<T, Refusal>,
    one: Result<T, Refusal>,
    two: Result<T, Refusal>,
    three: Result<T, Refusal>,
) -> Result<Four<T>, Refusal>
    ensures zero { IfOk result (λ four. IsOkAnd zero (λ x. x ≡ four.zero)) }
    ensures one { IfOk result (λ four. IsOkAnd one (λ x. x ≡ four.one)) }
    ensures two { IfOk result (λ four. IsOkAnd two (λ x. x ≡ four.two)) }
    ensures three { IfOk result (λ four. IsOkAnd three (λ x. x ≡ four.three)) }
    ensures refused { IfErr result
        (λ e. IsErrOf zero e ⊎ IsErrOf one e ⊎ IsErrOf two e ⊎ IsErrOf three e) }
{
    Ok(Four {
        zero: zero?,
        one: one?,
        two: two?,
        three: three?,
    })
}

/// Two values of any types.
#[derive(Drop)]
struct Together<A, B> {
    one: A,
    other: B,
}

/// Returns both values. Refused as the first was, else with `NoMemory` (1) if the second ran out of memory.
///
/// Takes values of any type, for the same reason as `all_four`.
fn both<A: Drop, B: Drop>(
    one: Result<A, Refusal>,
    other: Result<B, AllocError>,
) -> Result<Together<A, B>, Refusal>
    ensures one { IfOk result (λ both. IsOkAnd one (λ x. x ≡ both.one)) }
    ensures other { IfOk result (λ both. IsOkAnd other (λ y. y ≡ both.other)) }
    ensures memory { IfErr one (λ e. e ≡ Refusal.NoMemory)
        → IfErr result (λ e. e ≡ Refusal.NoMemory) }
    ensures refused { IfErr result
        (λ e. IsErrOf one e ⊎ (IsOk one × IsErr other × (e ≡ Refusal.NoMemory))) }
{
    match (one, other) {
        (Ok(one), Ok(other)) => Ok(Together { one, other }),
        (Err(refusal), _) => Err(refusal),
        (_, Err(_)) => Err(Refusal::NoMemory),
    }
}

/// Returns one value with another. Fails exactly if making the other ran out of memory.
fn with_other<A: Drop, B: Drop>(one: A, other: Result<B, AllocError>) -> Result<(A, B), AllocError>
    ensures one { IfOk result (λ both. both.0 ≡ one) }
    ensures other { IfOk result (λ both. IsOkAnd other (λ y. y ≡ both.1)) }
    ensures refused { OnErr result (IsErr other) }
{
    match other {
        Ok(other) => Ok((one, other)),
        Err(_) => Err(AllocError),
    }
}

/// Returns the value if the work on it was done. Refused as the work was; the value is then dropped.
///
/// Takes a value of any type, for the same reason as `all_four`.
fn once_done<T: Drop, U: Drop>(value: T, done: Result<U, Refusal>) -> Result<T, Refusal>
    ensures ok { IfOk result (λ kept. (kept ≡ value) × IsOk done) }
    ensures refused { IfErr result (IsErrOf done) }
{
    match done {
        Ok(_) => Ok(value),
        Err(refusal) => Err(refusal),
    }
}

/// Four empty tables with their gauges, and four cells that have no name yet. Contracts see which cell each stripe has.
#[derive(Drop)]
pub struct Made<N: PlanTag, S: FarTickets> {
    sessions: u64,
    columns: u64,
    cells: far_sessions::NewCells<N>,
    frames: Four<Frame<S>>,
}

impl<N: PlanTag, S: FarTickets> Model for Made<N, S> {
    ghost use Rattle.std.specs.Prelude.{◌≡◌, length};
    ghost use Rattle.far_shared.specs.Opening.{CellIds, IsEmpty};

    ghost Value = { CellIds };

    ghost view = { λ m. record {
      zeroth = m.cells.zero;
      first = m.cells.one;
      second = m.cells.two;
      third = m.cells.three;
    } };

    ghost invariant = { λ m. (m.sessions ≡ N.plan.sessions)
        × (m.columns ≡ length N.plan.schema)
        × IsEmpty S.is_of N.plan 0 m.frames.zero
        × IsEmpty S.is_of N.plan 1 m.frames.one
        × IsEmpty S.is_of N.plan 2 m.frames.two
        × IsEmpty S.is_of N.plan 3 m.frames.three };
}

/// Registers the gauge of a plan in an empty table. Refused only with `NoMemory` (1).
fn watch_gauge<S: FarTickets>(
    frame: &mut Frame<S>,
    plan: &Plan,
    number: u32,
) -> Result<u32, Refusal>
    requires fresh { frame.old ≡ empty_state plan.now.schema plan.now.limits number }
    requires here { (id : List ℕ) → AreAt S.is_of id frame.old.rows }
    ensures ok { OnOk result (IsEmpty S.is_of plan.now number frame.new) }
    ensures memory { IfErr result (λ e. e ≡ Refusal.NoMemory) }
{
    // For the proof: names the table.
    let _number = number;
    frame.watch(plan.gauge.clone()?)
}

/// Opens an empty table with this number, whose aggregate 0 is the gauge. Refused only with `NoMemory` (1).
fn open_frame<S: FarTickets>(alloc: Global, plan: &Plan, number: u32) -> Result<Frame<S>, Refusal>
    ensures ok { IfOk result (IsEmpty S.is_of plan.now number) }
    ensures memory { IfErr result (λ e. e ≡ Refusal.NoMemory) }
{
    match Frame::<S>::open(alloc, plan.schema.clone()?, plan.limits, number) {
        Ok(mut frame) => {
            let watched = watch_gauge(&mut frame, plan, number);
            once_done(frame, watched)
        }
        Err(refusal) => Err(refusal),
    }
}

/// Opens four such tables. Refused only with `NoMemory` (1).
fn open_frames<S: FarTickets>(alloc: Global, plan: &Plan) -> Result<Four<Frame<S>>, Refusal>
    ensures zero { IfOk result (λ frames. IsEmpty S.is_of plan.now 0 frames.zero) }
    ensures one { IfOk result (λ frames. IsEmpty S.is_of plan.now 1 frames.one) }
    ensures two { IfOk result (λ frames. IsEmpty S.is_of plan.now 2 frames.two) }
    ensures three { IfOk result (λ frames. IsEmpty S.is_of plan.now 3 frames.three) }
    ensures memory { IfErr result (λ e. e ≡ Refusal.NoMemory) }
{
    all_four(
        open_frame(alloc, plan, 0),
        open_frame(alloc, plan, 1),
        open_frame(alloc, plan, 2),
        open_frame(alloc, plan, 3),
    )
}

impl Plan {
    /// Makes the four tables, each with the gauge as its aggregate 0, and the four cells.
    ///
    /// Refused only with `NoMemory` (1). What was made before is then dropped.
    pub fn make<N: PlanTag, S: FarTickets>(self, alloc: Global) -> Result<Made<N, S>, Refusal>
        requires { self ≡ N.plan }
        ensures memory { IfErr result (λ e. e ≡ Refusal.NoMemory) }
    {
        let count = self.sessions;
        let columns = self.schema.len() as u64;
        match both(
            open_frames(alloc, &self),
            far_sessions::NewCells::<N>::make(alloc),
        ) {
            Ok(both) => Ok(Made {
                sessions: count,
                columns,
                cells: both.other,
                frames: both.one,
            }),
            Err(refusal) => Err(refusal),
        }
    }
}

/// Puts each table under a lock, with the owner of its history.
fn share<N: PlanTag, B: TableTag, S: FarTickets>(
    alloc: Global,
    count: Count<N>,
    frames: Four<Frame<S>>,
    opened: Opened<N, B>,
) -> (Shared<N, B, S>, Vec<Session<B>>)
    requires zero { IsEmpty S.is_of N.plan 0 frames.zero × (opened.keepers.zero ≡ []) }
    requires one { IsEmpty S.is_of N.plan 1 frames.one × (opened.keepers.one ≡ []) }
    requires two { IsEmpty S.is_of N.plan 2 frames.two × (opened.keepers.two ≡ []) }
    requires three { IsEmpty S.is_of N.plan 3 frames.three × (opened.keepers.three ≡ []) }
    ensures sessions { result.1.items ≡ opened.sessions.items }
{
    let Opened {
        keepers,
        cells,
        sessions,
    } = opened;
    let shared = Shared {
        alloc,
        zero: under_lock(frames.zero, keepers.zero),
        one: under_lock(frames.one, keepers.one),
        two: under_lock(frames.two, keepers.two),
        three: under_lock(frames.three, keepers.three),
        cells,
        count,
    };
    (shared, sessions)
}

impl<N: PlanTag, S: FarTickets> Made<N, S> {
    /// Puts each table under a lock, with the owner of its history, and makes the sessions. All histories are empty. The caller
    /// names the four cells, and the store to which objects will go.
    ///
    /// Refused only with `NoMemory` (1). What was made before is then dropped.
    pub fn open<B: TableTag>(
        self,
        alloc: Global,
    ) -> Result<(Shared<N, B, S>, Vec<Session<B>>), Refusal>
        requires names { HaveNames self B.cells }
        ensures sessions { IfOk result (λ opened. opened.1.items ≡ newcomers N.plan.sessions) }
        ensures memory { IfErr result (λ e. e ≡ Refusal.NoMemory) }
    {
        let Made {
            sessions,
            columns,
            cells,
            frames,
        } = self;
        let count = Count {
            sessions,
            columns,
            of: PhantomData,
        };
        match with_other(frames, cells.open::<B>(alloc, sessions)) {
            Ok((frames, opened)) => Ok(share(alloc, count, frames, opened)),
            Err(_) => Err(Refusal::NoMemory),
        }
    }
}
