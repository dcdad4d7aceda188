// Ends the sessions of four histories.
ghost use Rattle.std.specs.Prelude.{◌≡◌, ◌↔◌, IsTrue};
ghost use Rattle.far_sessions.specs.Closing.{Has, IsWhole, IsSettled};

use crate::cells::Cells;
use crate::keeper::Keepers;
use crate::law::PlanTag;
use crate::session::Session;
use crate::stripe_cell::CellsTag;
use std::sync::Wait;

// Returns whether one of the sessions has this number.
fn has<B: CellsTag>(sessions: &[Session<B>], number: u64) -> bool
    ensures { IsTrue result ↔ Has number sessions.now }
{
    for session in sessions {
        if session.number == number {
            return true;
        }
    }
    false
}

/// Returns whether every number below `count` is a session's.
pub fn are_whole<B: CellsTag>(sessions: &[Session<B>], count: u64) -> bool
    ensures { IsTrue result ↔ IsWhole count sessions.now }
{
    for number in 0..count {
        if !has(sessions, number) {
            return false;
        }
    }
    true
}

/// Ends these sessions. No history changes, and each session's entries in it are just those that the session knows. If
/// `are_whole` held before, a history has no other entries.
pub fn settle<N: PlanTag, B: CellsTag, R: Wait>(
    rt: &R,
    cells: &Cells<N, B>,
    keepers: &mut Keepers<N, B>,
    sessions: Vec<Session<B>>,
)
    ensures same { keepers.new ≡ keepers.old }
    ensures zero { IsSettled N.plan.sessions 0 keepers.old.zero sessions.items }
    ensures one { IsSettled N.plan.sessions 1 keepers.old.one sessions.items }
    ensures two { IsSettled N.plan.sessions 2 keepers.old.two sessions.items }
    ensures three { IsSettled N.plan.sessions 3 keepers.old.three sessions.items }
{
    keepers.zero.known();
    keepers.one.known();
    keepers.two.known();
    keepers.three.known();
    for session in sessions {
        let Session {
            number: _,
            zero,
            one,
            two,
            three,
        } = session;
        keepers.zero.end_session(rt, cells.zero(), zero);
        keepers.one.end_session(rt, cells.one(), one);
        keepers.two.end_session(rt, cells.two(), two);
        keepers.three.end_session(rt, cells.three(), three);
    }
}
