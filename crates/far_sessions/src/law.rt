// The cell of a history, its passes, and the kinds of step.
use crate::view::PassView;
use atomic_table::{Join, Split};
use crossbeam_utils::atomic::seq_cell;
use crossbeam_utils::atomic::seq_cell::RuledSeqCell;
use crossbeam_utils::rule::{Outcome, Protocol};
use std::marker::{Brand, PhantomData};

/// The plan of a shared table, as a type: its schema, its limits, its gauge and its number of sessions. A proof knows a lock's value by
/// its type alone, so the plan is a type parameter of everything under a lock.
pub trait PlanTag {
    ghost use Rattle.far_sessions.specs.Histories.{Planned};

    ghost plan: { Planned };
}

impl PlanTag for Brand {
    ghost use Rattle.far_sessions.specs.Histories.{no_plan};

    ghost plan = { no_plan };
}

/// An edit that is about to be added to a history, as a type.
pub trait EditTag {
    ghost use Rattle.far_types.specs.declared.edit.Edit.{Edit};

    ghost edit: { Edit };
}

impl EditTag for Brand {
    ghost use Rattle.far_types.specs.declared.edit.Edit.TheVariants.{Remove};

    ghost edit = { Remove 0 };
}

/// The rule of a cell:
/// - There is one legal history, and the words encode the reading after it.
/// - One pass owns it.
/// - Each session has seen a prefix of it, and knows which entries are its own.
pub struct Law<N> {
    of: PhantomData<N>,
}

impl<N: PlanTag> Protocol<[u64; 4], PassView> for Law<N> {
    ghost use Rattle.std.specs.Prelude.{[]};
    ghost use Rattle.far_sessions.specs.Rule.{HoldsHistory};
    ghost use Rattle.far_sessions.specs.Views.{keeper};

    ghost holds = { HoldsHistory N.plan };

    ghost first = { keeper [] 0 };
}

/// A step that reads the cell: afterwards the session has seen the history so far.
pub struct Look<N> {
    of: PhantomData<N>,
}

impl<N: PlanTag> Outcome<[u64; 4], PassView> for Look<N> {
    ghost use Rattle.far_sessions.specs.Rule.{Looks};

    ghost then = { Looks N.plan };
}

/// A step that adds an edit to the history.
pub struct Add<E> {
    of: PhantomData<E>,
}

impl<E: EditTag> Outcome<[u64; 4], PassView> for Add<E> {
    ghost use Rattle.far_sessions.specs.Rule.{Adds};

    ghost then = { Adds E.edit };
}

/// A step that creates a new session.
pub struct Give;

impl Split<PassView> for Give {
    ghost use Rattle.far_sessions.specs.Views.{after_give, new_session};

    ghost left = { after_give };

    ghost right = { new_session };
}

/// A step that moves the session of a pass into a pass of its own.
pub struct SplitSession;

impl Split<PassView> for SplitSession {
    ghost use Rattle.far_sessions.specs.Views.{keeper_part, session_part};

    ghost left = { keeper_part };

    ghost right = { session_part };
}

/// A step that joins the session of one pass to the pass that owns the history.
pub struct JoinSession;

impl Join<PassView> for JoinSession {
    ghost use Rattle.far_sessions.specs.Views.{with_session_of, no_part};

    ghost both = { with_session_of };

    ghost spent = { no_part };
}

/// The cell of a history: four words that are read and written in one step.
pub type HistoryCell<N> = RuledSeqCell<[u64; 4], PassView, Law<N>, 4>;

/// A pass of a history's cell. It takes no bytes.
pub type Pass = seq_cell::Pass<[u64; 4], PassView>;
