// Ends a run. Closing proves that each history contains exactly its sessions' inserts, so the answer counts exactly the rows
// of these inserts.
ghost use Rattle.std.specs.Prelude.{◌≡◌, ◌↔◌, ℕ, ℤ, IfErr, IfOk, IfNone, IfSome, IsOk, IsOkAnd, IsTrue};
ghost use Rattle.far_types.specs.declared.answer.Answer.{Answer};
ghost use Rattle.far_types.specs.Answers.{answer_over};
ghost use Rattle.far_sessions.specs.Closing.{IsWhole};
ghost use Rattle.far_shared.specs.Closing.{IsClosed};
ghost use Rattle.far_shared.specs.Fours.{all_rows, spec_at};
ghost use Rattle.far_shell.specs.Runs.{IsRun};
ghost use Rattle.far_shell.specs.Working.{AreLeft, HasHomes, IsLineOf};

use super::outcome::{Outcome, Stop};
use far_frame::Frame;
use far_sessions::{PlanTag, Session};
use far_shared::{Four, Shared, TableTag, answer_four, close};
use far_store::FarTickets;
use far_types::Answer;
use std::alloc::Global;
use std::sync::Wait;

/// What an answer of a shared table and the answer of its closed stripes say as one line without a key, which is not the
/// same. Only a run that compared them can make one.
#[derive(Clone, Copy, Debug, PartialEq, Eq)]
pub struct Differing {
    asked: Option<(u64, i128)>,
    closed: Option<(u64, i128)>,
}

/// Drops a value. Generic for the proof: in a function over the tables' own type dropping four of them takes minutes to
/// prove.
fn let_go<T: Drop>(_value: T) {}

/// Returns the value of a call that cannot be refused. Generic for the same reason as `let_go`.
fn accepted<T, E: Drop>(given: Result<T, E>) -> T
    requires { IsOk given }
    ensures { IsOkAnd given (λ it. it ≡ result) }
{
    match given {
        Ok(it) => it,
        Err(_) => unreachable!(),
    }
}

/// Closes a table. The list must have all its sessions, so that closing cannot be refused.
fn close_all<N: PlanTag, B: TableTag, S: FarTickets, R: Wait>(
    rt: &R,
    shared: Shared<N, B, S>,
    sessions: Vec<Session<B>>,
) -> Four<Frame<S>>
    requires whole { IsWhole N.plan.sessions sessions.items }
    ensures zero { IsClosed N.plan 0 sessions.items result.zero.table }
    ensures one { IsClosed N.plan 1 sessions.items result.one.table }
    ensures two { IsClosed N.plan 2 sessions.items result.two.table }
    ensures three { IsClosed N.plan 3 sessions.items result.three.table }
{
    accepted(close(rt, shared, sessions))
}

/// Returns the answer of the gauge, aggregate 0, over the rows of four tables, and drops them. Ends only with `Memory`.
fn answer_closed<S: FarTickets>(alloc: Global, frames: Four<Frame<S>>) -> Result<Answer, Stop>
    ensures ok { IfOk result
        (λ answer. IfSome (spec_at frames.zero.table 0)
        (λ spec. answer
        ≡ answer_over spec
        (all_rows frames.zero.table frames.one.table frames.two.table
        frames.three.table))) }
    ensures memory { IfErr result (λ stop. stop ≡ Stop.Memory) }
{
    let answer = answer_four(
        alloc,
        &frames.zero,
        &frames.one,
        &frames.two,
        &frames.three,
        0,
    );
    let_go(frames);
    match answer {
        Ok(answer) => Ok(answer),
        Err(_) => Err(Stop::Memory),
    }
}

/// Returns the count and the sum of an answer that is one line without a key; `None` for any other answer.
fn only_line(answer: &Answer) -> Option<(u64, i128)>
    ensures line { IfSome result (λ line. IsLineOf line.0 line.1 answer.now) }
    ensures none { IfNone result ((count : ℕ) → (sum : ℤ) → ¬ (IsLineOf count sum answer.now)) }
{
    let Answer::Totals(lines) = answer else {
        return None;
    };
    let lines = lines.as_slice();
    if lines.len() != 1 {
        return None;
    }
    let (key, count, sum) = &lines[0];
    if key.is_some() {
        return None;
    }
    Some((*count, *sum))
}

/// Returns whether two answers are the same single line without a key.
fn have_same_line(one: &Answer, other: &Answer) -> bool
    ensures { IsTrue result
        ↔ ((count : ℕ) × (sum : ℤ) × IsLineOf count sum one.now × IsLineOf count sum other.now) }
{
    match (only_line(one), only_line(other)) {
        (Some((count, sum)), Some((also_count, also_sum))) => {
            count == also_count && sum == also_sum
        }
        _ => false,
    }
}

/// Closes the table of sessions that all ended well, and returns their outcome. The shared table's answer is returned only
/// if the closed stripes answer the same, since no clause of `ask_all` says whose rows it counts.
///
/// Ends with:
///
/// - `Memory`, if a call runs out of memory;
/// - `Answers`, if the two answers differ.
pub(crate) fn end<N: PlanTag, B: TableTag, S: FarTickets, R: Wait>(
    rt: &R,
    alloc: Global,
    shared: Shared<N, B, S>,
    left: Result<(Vec<Session<B>>, Outcome), Stop>,
    edits: u32,
) -> Result<Outcome, Stop>
    requires homes { HasHomes N.plan }
    requires left { IfOk left (λ left. AreLeft N.plan edits left.0.items left.1) }
    ensures { IfOk result (IsRun N.plan edits) }
{
    let (sessions, outcome) = left?;
    let frames = close_all(rt, shared, sessions);
    let closed = answer_closed(alloc, frames)?;
    if !have_same_line(&outcome.answer, &closed) {
        return Err(Stop::Answers(Differing {
            asked: only_line(&outcome.answer),
            closed: only_line(&closed),
        }));
    }
    Ok(outcome)
}
