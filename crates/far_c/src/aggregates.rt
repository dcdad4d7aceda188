// Aggregates of a table.
ghost use Rattle.std.specs.Prelude.{◌≡◌, ◌≢◌, ◌≤◌, [], Some, None, IfSome, IsSomeAnd, option_map};
ghost use Rattle.far_aggregates.specs.PendingCounts.{pending_of};
ghost use Rattle.far_aggregates.specs.Readings.{plain_in};
ghost use Rattle.far_table.specs.Watching.{aggregate_at};
ghost use Rattle.far_frame.specs.declared.step.Step.TheVariants as step;
ghost use Rattle.far_frame.specs.declared.step.Reply.TheVariants as reply;
ghost use Rattle.far_c.specs.Outcomes.{Behind, IsServed, IsRefused, IsRefusedOrStopped, IsRefusal, IsRejected, IsRejectedFor};
ghost use Rattle.far_c.specs.Aggregates.{IsAggregateOf};
ghost use Rattle.far_c.specs.Specs.{spec_of};
ghost use Rattle.far_c.specs.Sums.{AreWordsOf};
ghost use Rattle.far_c.specs.Unreadable.{IsReadableSpec, IsUnreadable, SpecFault};

use crate::code::{CLOSED, NOTHING, OK};
use crate::handle::Handle;
use crate::replies;
use crate::spec::{EXTREMA, FcSpec, TOTALS};
use crate::words::words;
use far_frame::Step;
use far_types::{Fold, Refusal};
use std::alloc::Global;

/// Registers an aggregate, and writes its number.
#[unsafe(no_mangle)]
pub extern "C" fn fc_watch(
    alloc: Global,
    handle: &mut Handle,
    spec: &FcSpec<'_>,
    aggregate: &mut u32,
) -> u32
    ensures served { result ≡ 0
        → Behind (IsServed (step.Watch (spec_of spec.now)) (reply.Aggregate aggregate.new))
        handle.old.table handle.new.table }
    ensures refused { IsRefusal result
        → Behind (IsRefusedOrStopped result (step.Watch (spec_of spec.now)))
        handle.old.table handle.new.table }
    ensures rejected { 100 ≤ result
        → IsRejectedFor
        (λ _. IsUnreadable (SpecFault spec.now)) result handle.old.table handle.new.table }
    ensures read { result ≡ 0 → IsReadableSpec spec.now }
    ensures aggregate { result ≢ 0 → aggregate.new ≡ aggregate.old }
{
    let Some(table) = handle.table() else {
        return CLOSED;
    };
    let spec = match spec.read(alloc) {
        Ok(spec) => spec,
        Err(why) => return table.turn_away(why),
    };
    let outcome = replies::aggregate(table.serve(Step::Watch(spec)));
    table.give(outcome, aggregate)
}

/// Forgets an aggregate.
#[unsafe(no_mangle)]
pub extern "C" fn fc_unwatch(handle: &mut Handle, aggregate: u32) -> u32
    ensures served { result ≡ 0
        → Behind (IsServed (step.Unwatch aggregate) reply.Done) handle.old.table handle.new.table }
    ensures refused { IsRefusal result
        → Behind (IsRefused result (step.Unwatch aggregate)) handle.old.table handle.new.table }
    ensures rejected { 100 ≤ result → IsRejected [] result handle.old.table handle.new.table }
{
    let Some(table) = handle.table() else {
        return CLOSED;
    };
    let outcome = replies::done(table.serve(Step::Unwatch(aggregate)));
    table.end(outcome)
}

/// Scans a row group into an aggregate.
#[unsafe(no_mangle)]
pub extern "C" fn fc_scan(handle: &mut Handle, aggregate: u32, group: u32) -> u32
    ensures served { result ≡ 0
        → Behind (IsServed (step.ScanGroup aggregate group) reply.Done)
        handle.old.table handle.new.table }
    ensures refused { IsRefusal result
        → Behind (IsRefused result (step.ScanGroup aggregate group))
        handle.old.table handle.new.table }
    ensures rejected { 100 ≤ result → IsRejected [] result handle.old.table handle.new.table }
{
    let Some(table) = handle.table() else {
        return CLOSED;
    };
    let outcome = replies::done(table.serve(Step::ScanGroup { aggregate, group }));
    table.end(outcome)
}

/// A count and a sum. The sum has 128 bits in two's complement, in two words.
#[repr(C)]
#[derive(Drop)]
pub struct FcSum {
    pub count: u64,
    pub sum_low: u64,
    pub sum_high: i64,
}

/// Writes the count and the sum of an aggregate of totals without a key column.
#[unsafe(no_mangle)]
pub extern "C" fn fc_plain(handle: &mut Handle, aggregate: u32, sum: &mut FcSum) -> u32
    ensures plain { result ≡ 0
        → IsSomeAnd handle.old.table
        (λ old. IsSomeAnd
        (plain_in old.world.state.table.places (aggregate_at old.world.state.table aggregate))
        (λ plain. (sum.new.count ≡ plain.0)
        × AreWordsOf plain.1 sum.new.sum_low sum.new.sum_high)) }
    ensures none { result ≡ 104
        → IsSomeAnd handle.old.table
        (λ old. plain_in old.world.state.table.places
        (aggregate_at old.world.state.table aggregate) ≡ None) }
    ensures same { handle.new.table ≡ handle.old.table }
{
    let Some(table) = handle.table() else {
        return CLOSED;
    };
    let Some((count, total)) = table.world().frame().plain(aggregate) else {
        return NOTHING;
    };
    let (low, high) = words(total);
    sum.count = count;
    sum.sum_low = low;
    sum.sum_high = high;
    OK
}

/// Writes the number of row groups that are pending in an aggregate, and the first of them, if there is one.
#[unsafe(no_mangle)]
pub extern "C" fn fc_pending(
    handle: &mut Handle,
    aggregate: u32,
    groups: &mut u32,
    first: &mut u32,
) -> u32
    ensures pending { result ≡ 0
        → IsSomeAnd handle.old.table
        (λ old. IsSomeAnd (aggregate_at old.world.state.table aggregate)
        (λ found. (groups.new ≡ (pending_of found).0)
        × IfSome (pending_of found).1 (λ group. first.new ≡ group))) }
    ensures none { result ≡ 12
        → IsSomeAnd handle.old.table (λ old. aggregate_at old.world.state.table aggregate ≡ None) }
    ensures same { result ≢ 12 → handle.new.table ≡ handle.old.table }
{
    let Some(table) = handle.table() else {
        return CLOSED;
    };
    let Some((count, next)) = table.world().frame().pending(aggregate) else {
        return table.refuse(Refusal::NoAggregate);
    };
    *groups = count;
    if let Some(group) = next {
        *first = group;
    }
    OK
}

/// The description of an aggregate: its fold, its columns, and the number of its tests.
#[repr(C)]
#[derive(Drop)]
pub struct FcAggregate {
    pub fold: u32,
    pub value: u32,
    pub key: u32,
    pub tests: u32,
    pub has_key: bool,
}

/// Writes the description of an aggregate.
#[unsafe(no_mangle)]
pub extern "C" fn fc_spec_of(handle: &mut Handle, aggregate: u32, about: &mut FcAggregate) -> u32
    ensures about { result ≡ 0
        → IsSomeAnd handle.old.table
        (λ old. IsSomeAnd (aggregate_at old.world.state.table aggregate)
        (λ found. IsAggregateOf found.spec about.new)) }
    ensures none { result ≡ 12
        → IsSomeAnd handle.old.table (λ old. aggregate_at old.world.state.table aggregate ≡ None) }
    ensures same { result ≢ 12 → handle.new.table ≡ handle.old.table }
{
    let Some(table) = handle.table() else {
        return CLOSED;
    };
    let Some(spec) = table.world().frame().spec(aggregate) else {
        return table.refuse(Refusal::NoAggregate);
    };
    about.fold = match spec.fold {
        Fold::Totals => TOTALS,
        Fold::Extrema => EXTREMA,
    };
    about.value = spec.value;
    about.key = spec.key.unwrap_or(0);
    about.has_key = spec.key.is_some();
    // A table takes at most 4.
    about.tests = spec.filter.as_slice().len().min(4) as u32;
    OK
}
