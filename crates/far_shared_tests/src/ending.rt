// Ends a scene: the table is closed, first without one of its sessions.
use crate::playing::Played;
use crate::scenes::{End, Left, NO_ROW};
use far_frame::Frame;
use far_sessions::{PlanTag, Session};
use far_shared::{Four, Shared, TableTag, close};
use far_store::FarTickets;
use far_types::Refusal;
use std::alloc::{AllocError, Global};
use std::sync::Wait;

// The sessions without the last, the last, and the expected rows of the four stripes.
#[derive(Drop)]
pub struct Finale<P> {
    sessions: Vec<P>,
    last: P,
    due: Due,
}

// The expected rows of the four stripes, and the number of aggregates of each.
#[derive(Clone, Copy)]
struct Due {
    left: [Left; 4],
    aggregates: u32,
}

// The result of `close` if a session is missing.
type Refused<N, B, S> = (Refusal, Shared<N, B, S>, Vec<Session<B>>);

// Returns whether a table has this many aggregates, which have the first numbers.
fn has_aggregates<S: FarTickets>(frame: &Frame<S>, aggregates: u32) -> bool {
    for a in 0..aggregates {
        if frame.spec(a).is_none() {
            return false;
        }
    }
    true
}

// Returns whether a table has these rows, and this many aggregates.
fn has_left<S: FarTickets>(frame: &Frame<S>, left: Left, aggregates: u32) -> bool {
    frame.places() == left.places
        && frame.plain(0) == Some((left.count, left.sum))
        && has_aggregates(frame, aggregates)
}

// Returns whether four tables have the expected rows and aggregates.
fn have_left<S: FarTickets>(frames: &Four<Frame<S>>, due: &Due) -> bool {
    has_left(&frames.zero, due.left[0], due.aggregates)
        && has_left(&frames.one, due.left[1], due.aggregates)
        && has_left(&frames.two, due.left[2], due.aggregates)
        && has_left(&frames.three, due.left[3], due.aggregates)
}

// Returns whether a result is `Ok` with a value that passes a test. Generic over the value: a function that takes four tables out of a
// result costs minutes to prove, and here it costs nothing.
fn is_ok_and<T: Drop, E: Drop, F: FnOnce(&T) -> bool + Drop>(
    answer: Result<T, E>,
    is_right: F,
) -> bool
    requires { F.IsAlwaysCallable is_right }
{
    match answer {
        Ok(value) => is_right(&value),
        Err(_) => false,
    }
}

// Returns the error of a result, if it is one. Generic over the value too.
fn error_of<T: Drop, E: Drop>(answer: Result<T, E>) -> Option<E> {
    match answer {
        Ok(_) => None,
        Err(error) => Some(error),
    }
}

// Returns whether a shared table is closed with these sessions, and leaves the expected rows.
fn closes<N: PlanTag, B: TableTag, S: FarTickets, R: Wait>(
    rt: &R,
    shared: Shared<N, B, S>,
    sessions: Vec<Session<B>>,
    due: &Due,
) -> bool {
    is_ok_and(
        close(rt, shared, sessions),
        |frames: &Four<Frame<S>>| -> bool { have_left(frames, due) },
    )
}

// Returns a list with one more element.
fn with_last<P: Drop>(mut list: Vec<P>, last: P) -> Result<Vec<P>, AllocError> {
    list.push(last)?;
    Ok(list)
}

// Returns whether a shared table that was returned with its sessions is closed once the missing session is there.
fn closes_again<N: PlanTag, B: TableTag, S: FarTickets, R: Wait>(
    rt: &R,
    refused: Refused<N, B, S>,
    last: Session<B>,
    due: &Due,
) -> bool {
    let (refusal, shared, sessions) = refused;
    match with_last(sessions, last) {
        Ok(sessions) => closes(rt, shared, sessions, due) && refusal == Refusal::OutOfRange,
        Err(_) => {
            drop(shared);
            false
        }
    }
}

// Returns whether a shared table is returned with its sessions if one is missing, and is closed once that session is there.
fn closes_with_all<N: PlanTag, B: TableTag, S: FarTickets, R: Wait>(
    rt: &R,
    shared: Shared<N, B, S>,
    finale: Finale<Session<B>>,
) -> bool {
    let Finale {
        sessions,
        last,
        due,
    } = finale;
    match error_of(close(rt, shared, sessions)) {
        Some(refused) => closes_again(rt, refused, last, &due),
        None => {
            drop(last);
            false
        }
    }
}

// Does the same, once all roles have passed.
pub fn ends<N: PlanTag, B: TableTag, S: FarTickets, R: Wait>(
    rt: &R,
    shared: Shared<N, B, S>,
    finale: Result<Finale<Session<B>>, Refusal>,
) -> Result<bool, Refusal> {
    match finale {
        Ok(finale) => Ok(closes_with_all(rt, shared, finale)),
        Err(refusal) => {
            drop(shared);
            Err(refusal)
        }
    }
}

// Returns the rows that at least four sessions report, in order.
fn left_by<P>(played: &[Played<P>]) -> [Left; 4] {
    match played {
        [zero, one, two, three, ..] => [
            zero.left.unwrap_or(NO_ROW),
            one.left.unwrap_or(NO_ROW),
            two.left.unwrap_or(NO_ROW),
            three.left.unwrap_or(NO_ROW),
        ],
        _ => [NO_ROW; 4],
    }
}

// Returns the expected rows of the four stripes. Each has its gauge.
fn due_of<P>(played: &[Played<P>], end: End) -> Due {
    match end {
        End::Leaves(left) => Due {
            left: *left,
            aggregates: 1,
        },
        End::LeavesWatched(left, aggregates) => Due {
            left: *left,
            aggregates,
        },
        End::LeavesReported => Due {
            left: left_by(played),
            aggregates: 1,
        },
    }
}

// Checks that all roles have passed. Refused as the first session whose role has not; with `NoMemory` if one ran out of memory, since
// others may have waited for it in vain.
fn all_came_out<P>(played: &[Played<P>]) -> Result<(), Refusal> {
    let mut came_out = Ok(());
    for one in played {
        if let Err(refusal) = one.left {
            if came_out.is_ok() || refusal == Refusal::NoMemory {
                came_out = Err(refusal);
            }
        }
    }
    came_out
}

// Returns the sessions that played.
fn sessions_of<P: Drop>(alloc: Global, played: Vec<Played<P>>) -> Result<Vec<P>, AllocError> {
    let mut sessions = Vec::with_capacity(alloc, played.len())?;
    for one in played {
        sessions.push(one.session)?;
    }
    Ok(sessions)
}

// Separates the last of these sessions.
fn parted<P: Drop>(mut sessions: Vec<P>, due: Due) -> Result<Finale<P>, Refusal> {
    match sessions.pop() {
        Some(last) => Ok(Finale {
            sessions,
            last,
            due,
        }),
        None => Err(Refusal::OutOfRange),
    }
}

// Returns the parts that the end of a scene needs. Refused as `all_came_out` is.
pub fn finale_of<P: Drop>(
    alloc: Global,
    played: Vec<Played<P>>,
    end: End,
) -> Result<Finale<P>, Refusal> {
    all_came_out(&played)?;
    let due = due_of(&played, end);
    let sessions = sessions_of(alloc, played)?;
    parted(sessions, due)
}
