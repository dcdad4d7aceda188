// The steps that preserve a cell's rule.
ghost use Rattle.std.specs.Prelude.{◌≡◌, [], true, None, IfOk};
ghost use Rattle.crossbeam_utils.specs.Seq.{cell_view, IsSamePass};
ghost use Rattle.far_types.specs.Edits.{edit_refusal};
ghost use Rattle.far_sessions.specs.Histories.{replay};
ghost use Rattle.far_sessions.specs.Rule.{IsReadingAfter, Looks, with_edit};
ghost use Rattle.far_sessions.specs.Views.{keeper, with_session_of, keeper_part, session_part, after_give, new_session};

use crate::law::{Add, EditTag, Give, HistoryCell, JoinSession, Look, Pass, PlanTag, SplitSession};
use far_types::Edit;
use std::alloc::{AllocError, Global};
use std::marker::Brand;
use std::snapshot::Snapshot;
use std::sync::Wait;

/// Makes the cell of an empty history, and the pass that owns it. Fails only if out of memory.
pub fn begin<N: PlanTag>(alloc: Global) -> Result<(HistoryCell<N>, Pass), AllocError>
    ensures { IfOk result (λ made. (made.1.table_id ≡ made.0.table.shared.table_id)
        × (cell_view made.1 ≡ keeper [] 0)) }
{
    HistoryCell::<N>::ruled(alloc, [0, 0, 0, 0])
}

/// Reads the four words in one step. Afterwards the session of the pass has seen the history so far.
pub fn look<N: PlanTag, R: Wait>(rt: &R, cell: &HistoryCell<N>, pass: &mut Pass) -> [u64; 4]
    requires cell { pass.old.table_id ≡ cell.now.table.shared.table_id }
    requires has_session { (cell_view pass.old).has_session ≡ true }
    ensures same { IsSamePass pass.old pass.new }
    ensures looks { Looks N.plan (cell_view pass.old) result result (cell_view pass.new) }
{
    cell.load_as::<Look<N>, R>(rt, pass)
}

fn add_named<N: PlanTag, E: EditTag, R: Wait>(
    rt: &R,
    cell: &HistoryCell<N>,
    pass: &mut Pass,
    words: [u64; 4],
    edit: Snapshot<Edit>,
)
    requires cell { pass.old.table_id ≡ cell.now.table.shared.table_id }
    requires named { edit.value ≡ E.edit }
    requires both { ((cell_view pass.old).keeps ≡ true)
        × ((cell_view pass.old).has_session ≡ true) }
    requires reads { IsReadingAfter N.plan words (with_edit (cell_view pass.old) edit.value).all }
    requires may { edit_refusal (replay N.plan (cell_view pass.old).all) edit.value ≡ None }
    ensures same { IsSamePass pass.old pass.new }
    ensures adds { cell_view pass.new ≡ with_edit (cell_view pass.old) edit.value }
{
    cell.swap_as::<Add<E>, R>(rt, pass, words);
}

/// Adds an edit to the history, for the session in the pass that owns it. Writes the four words in one step.
pub fn add<N: PlanTag, R: Wait>(
    rt: &R,
    cell: &HistoryCell<N>,
    pass: &mut Pass,
    words: [u64; 4],
    edit: Snapshot<Edit>,
)
    requires cell { pass.old.table_id ≡ cell.now.table.shared.table_id }
    requires both { ((cell_view pass.old).keeps ≡ true)
        × ((cell_view pass.old).has_session ≡ true) }
    requires reads { IsReadingAfter N.plan words (with_edit (cell_view pass.old) edit.value).all }
    requires may { edit_refusal (replay N.plan (cell_view pass.old).all) edit.value ≡ None }
    ensures same { IsSamePass pass.old pass.new }
    ensures adds { cell_view pass.new ≡ with_edit (cell_view pass.old) edit.value }
{
    add_named::<N, Brand, R>(rt, cell, pass, words, edit);
}

/// Moves the session of a pass into a pass of its own, and returns that.
pub fn split_session<N: PlanTag>(cell: &HistoryCell<N>, pass: &mut Pass) -> Pass
    requires { pass.old.table_id ≡ cell.now.table.shared.table_id }
    ensures same { IsSamePass pass.old pass.new }
    ensures rest { cell_view pass.new ≡ keeper_part (cell_view pass.old) }
    ensures session { (result.table_id ≡ pass.old.table_id)
        × (cell_view result ≡ session_part (cell_view pass.old))
        × (result.me.1 ≡ []) }
{
    cell.split_pass::<SplitSession>(pass)
}

/// Moves the session of another pass into this one.
pub fn join_session<N: PlanTag>(cell: &HistoryCell<N>, pass: &mut Pass, other: Pass)
    requires cell { pass.old.table_id ≡ cell.now.table.shared.table_id }
    requires other { (other.table_id ≡ cell.now.table.shared.table_id) × (other.me.1 ≡ []) }
    ensures same { IsSamePass pass.old pass.new }
    ensures joined { cell_view pass.new ≡ with_session_of (cell_view pass.old) (cell_view other) }
{
    cell.join_pass::<JoinSession>(pass, other)
}

/// Creates a new session, and returns its pass. The first pass owns the history.
pub fn give<N: PlanTag>(cell: &HistoryCell<N>, pass: &mut Pass) -> Pass
    requires cell { pass.old.table_id ≡ cell.now.table.shared.table_id }
    requires keeps { (cell_view pass.old).keeps ≡ true }
    ensures same { IsSamePass pass.old pass.new }
    ensures left { cell_view pass.new ≡ after_give (cell_view pass.old) }
    ensures given { (result.table_id ≡ pass.old.table_id)
        × (cell_view result ≡ new_session (cell_view pass.old))
        × (result.me.1 ≡ []) }
{
    cell.split_pass::<Give>(pass)
}
