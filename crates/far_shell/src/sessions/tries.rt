// The tries of one edit. After a refusal the next try exists only when the way was cleared.
ghost use Rattle.std.specs.Prelude.{◌≡◌, ◌≢◌, ◌<◌, ◌≤◌, true};
ghost use Rattle.far_shell.specs.Tries.{is_final, most_tries};

use super::outcome::{Stop, stop_at_no_memory};
use far_sessions::{PlanTag, Session};
use far_shared::{Shared, TableTag};
use far_store::{FarStore, FarTickets, Meter};
use far_types::{Edit, Refusal};
use std::sync::Wait;

/// The most tries for one edit.
const MOST_TRIES: u32 = 10_000;

/// An edit that a session gave up: how often it was tried, and why it was refused last. Only a session that tried it can
/// make one.
#[derive(Clone, Copy, Debug, PartialEq, Eq)]
pub struct GaveUp {
    tries: u32,
    refusal: Refusal,
    // It was tried as often as allowed, unless a retry cannot change the refusal.
    ghost enough: { tries ≢ most_tries → is_final refusal ≡ true },
}

impl GaveUp {
    /// Returns how often the edit was tried.
    pub fn tries(&self) -> u32
        ensures { result ≡ self.now.tries }
    {
        self.tries
    }

    /// Returns why the last try was refused.
    pub fn refusal(&self) -> Refusal
        ensures { result ≡ self.now.refusal }
    {
        self.refusal
    }
}

/// The next try of an edit on a stripe, after so many that were refused.
#[derive(Drop)]
pub(crate) struct NextTry {
    stripe: u32,
    refused: u32,
    ghost few: { refused < most_tries },
}

/// A refused try of an edit on a stripe, and how many were made. It cannot be dropped: a session that goes on must clear
/// the way.
pub(crate) struct RefusedTry {
    stripe: u32,
    tries: u32,
    refusal: Refusal,
    ghost few: { tries ≤ most_tries },
}

impl NextTry {
    ghost use Rattle.std.specs.Prelude.{◌≡◌, ◌<◌, ◌+◌, IfErr, OnErr, OnOk};
    ghost use Rattle.far_sessions.specs.Known.{at};
    ghost use Rattle.far_shared.specs.Editing.{IsDueUnder};
    ghost use Rattle.far_shared.specs.UnderLock.{IsUnder};
    ghost use Rattle.far_shell.specs.Working.{AddsNothing, AddsOne};

    /// Returns the first try of an edit on a stripe.
    pub(crate) fn first(stripe: u32) -> NextTry
        ensures stripe { result.stripe ≡ stripe }
        ensures none { result.refused ≡ 0 }
    {
        NextTry { stripe, refused: 0 }
    }

    /// Tries the edit. Returns the refused try with the refusal that the stripe gave.
    pub(crate) fn make<N: PlanTag, B: TableTag, S: FarTickets, R: Wait>(
        self,
        rt: &R,
        shared: &Shared<N, B, S>,
        me: &mut Session<B>,
        edit: Edit,
    ) -> Result<(), RefusedTry>
        requires stripe { self.stripe < 4 }
        ensures made { OnOk result (AddsOne self.stripe edit me.old me.new) }
        ensures own { OnErr result (AddsNothing self.stripe me.old me.new) }
        ensures counted { IfErr result
            (λ it. (it.stripe ≡ self.stripe) × (it.tries ≡ self.refused + 1)) }
        ensures due { IfErr result
            (λ it. IsDueUnder (IsUnder N.plan S.is_of B.store self.stripe) edit
            (at me.new self.stripe) it.refusal) }
    {
        match shared.apply(rt, me, self.stripe, edit) {
            Ok(_) => Ok(()),
            Err(refusal) => Err(RefusedTry {
                stripe: self.stripe,
                tries: self.refused + 1,
                refusal,
            }),
        }
    }
}

impl RefusedTry {
    ghost use Rattle.std.specs.Prelude.{◌≡◌, length, IfErr, IfOk, IsSomeAnd, OnOk};
    ghost use Rattle.far_shared.specs.UnderLock.{IsUnder};
    ghost use Rattle.far_shell.specs.Working.{IsTried, StopsAfter, remedy_of};

    /// Clears the way for the next try, and returns that.
    ///
    /// Ends with:
    ///
    /// - `Turns`, if the edit was tried 10,000 times, or was refused for a reason that a retry cannot change;
    /// - `Memory`, if the try or clearing the way ran out of memory.
    pub(crate) fn clear<N: PlanTag, B: TableTag, S: FarStore, R: Wait>(
        self,
        rt: &R,
        shared: &Shared<N, B, S>,
        store: &S,
    ) -> Result<NextTry, Stop>
        requires store { S.store_id store.now ≡ B.store }
        ensures next { IfOk result
            (λ next. (next.stripe ≡ self.stripe) × (next.refused ≡ self.tries)) }
        ensures cleared { OnOk result (IsSomeAnd (remedy_of self.stripe self.refusal)
            (IsTried S.number_of S.content (IsUnder N.plan S.is_of B.store)
            (length N.plan.schema))) }
        ensures stopped { IfErr result (StopsAfter self.tries self.refusal) }
    {
        let RefusedTry {
            stripe,
            tries,
            refusal,
        } = self;
        if tries == MOST_TRIES {
            return Err(Stop::Turns(GaveUp { tries, refusal }));
        }
        Self::clear_way(rt, shared, store, stripe, tries, refusal)?;
        Ok(NextTry {
            stripe,
            refused: tries,
        })
    }

    /// Does what may let an edit succeed that a stripe refused: fetches the object that is away, or evicts one if space is
    /// short. If this is refused in turn, for another reason than memory, the next try may still succeed.
    ///
    /// Ends as `clear`, but for the number of tries.
    fn clear_way<N: PlanTag, B: TableTag, S: FarStore, R: Wait>(
        rt: &R,
        shared: &Shared<N, B, S>,
        store: &S,
        stripe: u32,
        tries: u32,
        refusal: Refusal,
    ) -> Result<(), Stop>
        requires store { S.store_id store.now ≡ B.store }
        ensures cleared { OnOk result (IsSomeAnd (remedy_of stripe refusal)
            (IsTried S.number_of S.content (IsUnder N.plan S.is_of B.store)
            (length N.plan.schema))) }
        ensures stopped { IfErr result (StopsAfter tries refusal) }
    {
        let mut meter = Meter::new();
        match refusal {
            Refusal::Absent { column, group } => stop_at_no_memory(shared.fetch(
                rt, stripe, column, group, store, &mut meter,
            )),
            Refusal::RegionFull => {
                stop_at_no_memory(shared.evacuate_once(rt, stripe, store, &mut meter))
            }
            Refusal::NoMemory => Err(Stop::Memory),
            _ => Err(Stop::Turns(GaveUp { tries, refusal })),
        }
    }
}
