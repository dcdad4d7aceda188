// The answer of an aggregate of four tables.
ghost use Rattle.std.specs.Prelude.{◌≡◌, ◌⊎◌, ◌+◌, ◌≤◌, ◌^◌, ◌++◌, ◌↔◌, List, Some, IsTrue, IfOk, IfErr, IfSome, IfNone, IsErrOf, IsOk, OnOk};
ghost use Rattle.far_types.specs.declared.cell.Cell.{Cell};
ghost use Rattle.far_types.specs.declared.spec.Fold.TheVariants as fold;
ghost use Rattle.far_types.specs.Answers.{answer_over};
ghost use Rattle.far_types.specs.Table.{rows_of};
ghost use Rattle.far_table.specs.Watching.{aggregate_at};
ghost use Rattle.far_shared.specs.Fours.{AreLike, AreAlike, pending_in, pending_in_all, all_rows, spec_at, IsOf, AnyRefusal, FourRefusal};

use crate::merging::{merge_extrema, merge_totals};
use crate::opening::Four;
use far_frame::Frame;
use far_store::FarTickets;
use far_types::{Answer, ExtremaLines, Fold, Refusal, Schema, Spec, TotalLines};
use std::alloc::{AllocError, Global};

/// Returns whether two schemas are the same.
fn have_same_kinds(one: &Schema, other: &Schema) -> bool
    ensures { IsTrue result ↔ (one.now ≡ other.now) }
{
    let kinds = one.as_slice();
    let others = other.as_slice();
    if kinds.len() != others.len() {
        return false;
    }
    for column in 0..kinds.len() {
        if kinds[column] != others[column] {
            return false;
        }
    }
    true
}

/// Returns whether two tables have the same schema, and the same aggregate under a number.
fn are_like<S: FarTickets>(one: &Frame<S>, other: &Frame<S>, a: u32) -> bool
    ensures { IsTrue result ↔ AreLike a one.now.table other.now.table }
{
    let Some(spec) = one.spec(a) else {
        return false;
    };
    let Some(same) = other.spec(a) else {
        return false;
    };
    spec.is_same(same) && have_same_kinds(one.schema(), other.schema())
}

/// Returns whether four tables have the same schema, and the same aggregate under a number.
fn are_alike<S: FarTickets>(
    one: &Frame<S>,
    two: &Frame<S>,
    three: &Frame<S>,
    four: &Frame<S>,
    a: u32,
) -> bool
    ensures { IsTrue result
        ↔ AreAlike a one.now.table two.now.table three.now.table four.now.table }
{
    are_like(one, two, a) && are_like(one, three, a) && are_like(one, four, a)
}

/// Returns the number of row groups that are pending in an aggregate, and its answer; `None` if it cannot answer.
fn asked<S: FarTickets>(frame: &Frame<S>, spec: &Spec, a: u32) -> (u32, Option<Answer>)
    requires { spec_at frame.now.table a ≡ Some spec.now }
    ensures left { result.0 ≡ pending_in (aggregate_at frame.now.table a) }
    ensures answer { IfSome result.1
        (λ answer. answer ≡ answer_over spec.now (rows_of frame.now.table.places)) }
    ensures kind { IfSome result.1 (IsOf spec.now.fold) }
{
    // For the proof: names the specification that the answer is of.
    let _spec = spec;
    match frame.ask(a) {
        Ok(answer) => (0, Some(answer)),
        Err(Refusal::Building(left)) => (left, None),
        Err(_) => (0, None),
    }
}

/// Returns the sum of four numbers, or `None` if it does not fit 32 bits. Allocates nothing.
fn sum_of(one: u32, two: u32, three: u32, four: u32) -> Option<u32>
    ensures fits { IfSome result (λ n. n ≡ one + two + three + four) }
    ensures past { IfNone result (2 ^ 32 ≤ one + two + three + four) }
{
    let sum = u64::from(one) + u64::from(two) + u64::from(three) + u64::from(four);
    if sum > u64::from(u32::MAX) {
        return None;
    }
    Some(sum as u32)
}

/// Refused if any of these row groups is pending:
///
/// - with `Building` (15), if their sum fits 32 bits. The refusal has the sum.
/// - with `NoMemory` (1), if it does not.
fn none_left(one: u32, two: u32, three: u32, four: u32) -> Result<(), Refusal>
    ensures ok { OnOk result (one + two + three + four ≡ 0) }
    ensures refused { IfErr result (AnyRefusal (one + two + three + four)) }
{
    let Some(left) = sum_of(one, two, three, four) else {
        return Err(Refusal::NoMemory);
    };
    if left != 0 {
        return Err(Refusal::Building(left));
    }
    Ok(())
}

/// Returns all four answers if all row groups are scanned. Refused as the scan was, otherwise with `NoMemory` (1) if one is missing.
///
/// Takes values of any type. For the proof: a function that returns early while answers are alive is long to prove, and here the
/// type of the answers does not matter.
fn all_scanned<T: Drop>(
    scanned: Result<(), Refusal>,
    zero: Option<T>,
    one: Option<T>,
    two: Option<T>,
    three: Option<T>,
) -> Result<Four<T>, Refusal>
    ensures zero { IfOk result (λ four. zero ≡ Some four.zero) }
    ensures one { IfOk result (λ four. one ≡ Some four.one) }
    ensures two { IfOk result (λ four. two ≡ Some four.two) }
    ensures three { IfOk result (λ four. three ≡ Some four.three) }
    ensures scanned { OnOk result (IsOk scanned) }
    ensures refused { IfErr result
        (λ e. IsErrOf scanned e ⊎ (IsOk scanned × (e ≡ Refusal.NoMemory))) }
{
    match scanned {
        Ok(()) => match (zero, one, two, three) {
            (Some(zero), Some(one), Some(two), Some(three)) => Ok(Four {
                zero,
                one,
                two,
                three,
            }),
            _ => Err(Refusal::NoMemory),
        },
        Err(refusal) => Err(refusal),
    }
}

/// Returns the lines of an answer of totals.
fn total_lines(answer: Answer) -> TotalLines
    requires { IsOf fold.Totals answer }
    ensures { answer ≡ Answer.Totals result }
{
    match answer {
        Answer::Totals(lines) => lines,
        Answer::Extrema(_) => unreachable!(),
    }
}

/// Returns the lines of an answer of extrema.
fn extrema_lines(answer: Answer) -> ExtremaLines
    requires { IsOf fold.Extrema answer }
    ensures { answer ≡ Answer.Extrema result }
{
    match answer {
        Answer::Extrema(lines) => lines,
        Answer::Totals(_) => unreachable!(),
    }
}

/// Merges the answers over four parts of the rows into the answer over all of them.
fn merge(
    alloc: Global,
    spec: &Spec,
    one: Answer,
    two: Answer,
    three: Answer,
    four: Answer,
) -> Result<Answer, AllocError>
    requires one { IsOf spec.now.fold one }
    requires two { IsOf spec.now.fold two }
    requires three { IsOf spec.now.fold three }
    requires four { IsOf spec.now.fold four }
    ensures ok { IfOk result (λ answer. (a : List (List Cell)) → (b : List (List Cell))
        → (c : List (List Cell)) → (d : List (List Cell))
        → one ≡ answer_over spec.now a
        → two ≡ answer_over spec.now b
        → three ≡ answer_over spec.now c
        → four ≡ answer_over spec.now d
        → answer ≡ answer_over spec.now (a ++ (b ++ (c ++ d)))) }
{
    match spec.fold {
        Fold::Totals => merge_totals(
            alloc,
            spec.key,
            total_lines(one),
            total_lines(two),
            total_lines(three),
            total_lines(four),
        ),
        Fold::Extrema => merge_extrema(
            alloc,
            extrema_lines(one),
            extrema_lines(two),
            extrema_lines(three),
            extrema_lines(four),
        ),
    }
}

/// Returns the answer of an aggregate that four tables have under one number, over the rows of the four.
///
/// Refused with the first of these that applies:
///
/// - `Building` (15): row groups are pending, and their number fits 32 bits. The refusal has their number.
/// - `NoMemory` (1): an allocation fails.
fn answer_alike<S: FarTickets>(
    alloc: Global,
    spec: &Spec,
    one: &Frame<S>,
    two: &Frame<S>,
    three: &Frame<S>,
    four: &Frame<S>,
    a: u32,
) -> Result<Answer, Refusal>
    requires one { spec_at one.now.table a ≡ Some spec.now }
    requires two { spec_at two.now.table a ≡ Some spec.now }
    requires three { spec_at three.now.table a ≡ Some spec.now }
    requires four { spec_at four.now.table a ≡ Some spec.now }
    ensures answer { IfOk result (λ answer. answer ≡ answer_over spec.now
        (all_rows one.now.table two.now.table three.now.table four.now.table)) }
    ensures scanned { OnOk result
        (pending_in_all a one.now.table two.now.table three.now.table four.now.table ≡ 0) }
    ensures refused { IfErr result
        (AnyRefusal (pending_in_all a one.now.table two.now.table three.now.table four.now.table)) }
{
    let (left_one, answer_one) = asked(one, spec, a);
    let (left_two, answer_two) = asked(two, spec, a);
    let (left_three, answer_three) = asked(three, spec, a);
    let (left_four, answer_four) = asked(four, spec, a);
    let scanned = none_left(left_one, left_two, left_three, left_four);
    match all_scanned(scanned, answer_one, answer_two, answer_three, answer_four) {
        Ok(all) => Ok(merge(alloc, spec, all.zero, all.one, all.two, all.three)?),
        Err(refusal) => Err(refusal),
    }
}

/// Returns the answer of an aggregate that four tables have under one number, over the rows of the four, one table after
/// another.
///
/// Refused with the first of these that applies:
///
/// - `NoAggregate` (12): one of them lacks the aggregate, or the four schemas or the four aggregates differ.
/// - `Building` (15): row groups are pending, fewer than 2^32 in all four, as always in four stripes. It says how many.
/// - `NoMemory` (1): an allocation fails.
pub fn answer_four<S: FarTickets>(
    alloc: Global,
    one: &Frame<S>,
    two: &Frame<S>,
    three: &Frame<S>,
    four: &Frame<S>,
    a: u32,
) -> Result<Answer, Refusal>
    ensures answer { IfOk result (λ answer. IfSome (spec_at one.now.table a)
        (λ spec. answer ≡ answer_over spec
        (all_rows one.now.table two.now.table three.now.table four.now.table))) }
    ensures alike { OnOk result
        (AreAlike a one.now.table two.now.table three.now.table four.now.table) }
    ensures scanned { OnOk result
        (pending_in_all a one.now.table two.now.table three.now.table four.now.table ≡ 0) }
    ensures refused { IfErr result
        (FourRefusal a one.now.table two.now.table three.now.table four.now.table) }
{
    if !are_alike(one, two, three, four, a) {
        return Err(Refusal::NoAggregate);
    }
    let Some(spec) = one.spec(a) else {
        unreachable!()
    };
    answer_alike(alloc, spec, one, two, three, four, a)
}
