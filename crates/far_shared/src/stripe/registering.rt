// Registers aggregates in four stripes together. No other module registers one in a stripe, or removes one.
ghost use Rattle.std.specs.Prelude.{◌≡◌, ◌≢◌, ◌<◌, ℕ, length, is_none, Some, None, IfOk, IfErr, IfSome, IsTrue, OnOk, OnErr};
ghost use Rattle.far_types.specs.Bounds.{spec_refusal};
ghost use Rattle.far_table.specs.Watching.{aggregate_at, lowest_free};
ghost use Rattle.far_shared.specs.UnderLock.{IsUnder, Registers};
ghost use Rattle.far_shared.specs.Watching.{IsAsBefore, WatchRefusal, after_register, after_unregister};

use super::{Stripe, TableTag};
use far_frame::Frame;
use far_sessions::PlanTag;
use far_store::FarTickets;
use far_types::{Refusal, Spec};

/// Returns whether a number of a table has no aggregate. Allocates nothing.
fn is_free<S: FarTickets>(frame: &Frame<S>, a: u32) -> bool
    ensures { result ≡ is_none (aggregate_at frame.now.table a) }
{
    frame.spec(a).is_none()
}

/// Returns the lowest number of a table without an aggregate. Allocates nothing.
fn free_number<S: FarTickets>(frame: &Frame<S>) -> Option<u32>
    requires all { length frame.now.table.aggregates ≡ 32 }
    ensures { result ≡ lowest_free frame.now.table }
{
    for a in 0..32 {
        if is_free(frame, a) {
            return Some(a);
        }
    }
    None
}

impl<N: PlanTag, B: TableTag, S: FarTickets, const I: usize> Stripe<N, B, S, I> {
    /// Returns the number under which the next aggregate is registered, which is not the gauge's. Allocates nothing.
    fn next_number(&self) -> Option<u32>
        ensures free { result ≡ lowest_free self.now.state.table }
        ensures number { IfSome result (λ a. (a ≢ 0) × (a < 32)) }
    {
        free_number(&self.frame)
    }

    /// Returns whether the next aggregate is registered under this number. Allocates nothing.
    fn is_next(&self, a: u32) -> bool
        ensures { IsTrue result → lowest_free self.now.state.table ≡ Some a }
    {
        match self.next_number() {
            Some(next) => next == a,
            None => false,
        }
    }

    /// Checks that an aggregate is valid for the schema. Allocates nothing.
    fn check(&self, spec: &Spec) -> Result<(), Refusal>
        ensures allowed { OnOk result (spec_refusal N.plan.schema spec.now ≡ None) }
        ensures refused { IfErr result (λ e. spec_refusal N.plan.schema spec.now ≡ Some e) }
    {
        spec.check(self.frame.schema())
    }

    /// Registers an aggregate under the next number. A refused call changes nothing.
    fn watch(&mut self, spec: Spec) -> Result<u32, Refusal>
        ensures ok { IfOk result (λ a. (lowest_free self.old.state.table ≡ Some a)
            × (self.new ≡ after_register a spec self.old)) }
        ensures err { OnErr result (self.new ≡ self.old) }
        ensures refused { IfErr result (WatchRefusal N.plan.schema spec) }
        ensures under { IfOk result
            (λ a. Registers (IsUnder N.plan S.is_of B.store I) a spec) }
    {
        // For the proof: shows that a legal history leaves few places, so few row groups are pending.
        self.keeper.known();
        self.frame.watch(spec)
    }

    /// Forgets the aggregate with a number, if there is one.
    fn unwatch(&mut self, a: u32)
        requires { a ≢ 0 }
        ensures { self.new ≡ after_unregister a self.old }
    {
        let _done = self.frame.unwatch(a);
    }
}

/// Registers an aggregate in two stripes, whose next number is this one, or in neither.
fn watch_two<N: PlanTag, B: TableTag, S: FarTickets, const I: usize, const J: usize>(
    one: &mut Stripe<N, B, S, I>,
    other: &mut Stripe<N, B, S, J>,
    spec: &Spec,
    a: u32,
) -> Result<(), Refusal>
    requires next { a ≢ 0 }
    requires allowed { spec_refusal N.plan.schema spec.now ≡ None }
    requires one { lowest_free one.old.state.table ≡ Some a }
    requires other { lowest_free other.old.state.table ≡ Some a }
    ensures both { OnOk result ((one.new ≡ after_register a spec.now one.old)
        × (other.new ≡ after_register a spec.now other.old)) }
    ensures under { OnOk result (Registers (IsUnder N.plan S.is_of B.store I) a spec.now
        × Registers (IsUnder N.plan S.is_of B.store J) a spec.now) }
    ensures none { OnErr result (IsAsBefore one.old one.new × (other.new ≡ other.old)) }
    ensures refused { IfErr result (WatchRefusal N.plan.schema spec.now) }
{
    let first = spec.clone()?;
    let second = spec.clone()?;
    one.watch(first)?;
    match other.watch(second) {
        Ok(_) => Ok(()),
        Err(refusal) => {
            one.unwatch(a);
            Err(refusal)
        }
    }
}

/// Returns the number under which the next aggregate is registered in all four stripes. `None` if there is none, or the numbers
/// differ. Allocates nothing.
fn common_number<N: PlanTag, B: TableTag, S: FarTickets>(
    zero: &Stripe<N, B, S, 0>,
    one: &Stripe<N, B, S, 1>,
    two: &Stripe<N, B, S, 2>,
    three: &Stripe<N, B, S, 3>,
) -> Option<u32>
    ensures number { IfSome result (λ a. (a ≢ 0) × (a < 32)) }
    ensures zero { IfSome result (λ a. lowest_free zero.now.state.table ≡ Some a) }
    ensures one { IfSome result (λ a. lowest_free one.now.state.table ≡ Some a) }
    ensures two { IfSome result (λ a. lowest_free two.now.state.table ≡ Some a) }
    ensures three { IfSome result (λ a. lowest_free three.now.state.table ≡ Some a) }
{
    let Some(a) = zero.next_number() else {
        return None;
    };
    if one.is_next(a) && two.is_next(a) && three.is_next(a) {
        return Some(a);
    }
    None
}

/// Registers an aggregate in four stripes under one number, or in none: `Shared::watch_all` does this under its four locks. Each
/// registration counts. If it is refused, the four are as before, except that a registration that was undone counts too.
///
/// Refused with the first of these that applies:
///
/// - `BadSpec` (3), `NoColumn` (4) or `WrongKind` (5), exactly as `Spec::check` says.
/// - `TooManyAggregates` (13): a stripe has 32, or the lowest free numbers differ.
/// - `NoMemory` (1) if an allocation fails, or `TooManyAggregates` (13) if a stripe has registered 2^32.
pub fn watch_four<N: PlanTag, B: TableTag, S: FarTickets>(
    zero: &mut Stripe<N, B, S, 0>,
    one: &mut Stripe<N, B, S, 1>,
    two: &mut Stripe<N, B, S, 2>,
    three: &mut Stripe<N, B, S, 3>,
    spec: &Spec,
) -> Result<u32, Refusal>
    ensures number { IfOk result (λ a. (a ≢ 0) × (a < 32)) }
    ensures allowed { OnOk result (spec_refusal N.plan.schema spec.now ≡ None) }
    ensures all { IfOk result (λ a. (zero.new ≡ after_register a spec.now zero.old)
        × (one.new ≡ after_register a spec.now one.old)
        × (two.new ≡ after_register a spec.now two.old)
        × (three.new ≡ after_register a spec.now three.old)) }
    ensures under { IfOk result
        (λ a. (n : ℕ) → n < 4 → Registers (IsUnder N.plan S.is_of B.store n) a spec.now) }
    ensures none { OnErr result (IsAsBefore zero.old zero.new
        × IsAsBefore one.old one.new
        × IsAsBefore two.old two.new
        × (three.new ≡ three.old)) }
    ensures refused { IfErr result (WatchRefusal N.plan.schema spec.now) }
{
    // Both come before any allocation, so that a failed one hides neither.
    zero.check(spec)?;
    let Some(a) = common_number(zero, one, two, three) else {
        return Err(Refusal::TooManyAggregates);
    };
    watch_two(zero, one, spec, a)?;
    match watch_two(two, three, spec, a) {
        Ok(()) => Ok(a),
        Err(refusal) => {
            zero.unwatch(a);
            one.unwatch(a);
            Err(refusal)
        }
    }
}
