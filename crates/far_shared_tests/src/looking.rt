// Rows of a stripe that a session borrows.
use crate::replies::waited;
use crate::scenes::{Replied, Reply};
use crate::signals::Signals;
use far_frame::View;
use far_sessions::PlanTag;
use far_shared::{Shared, TableTag};
use far_store::FarTickets;
use std::sync::Wait;

// Returns the one number of a part.
fn number_in(values: &[Option<i64>]) -> Replied {
    match values {
        [Some(number)] => Ok(Reply::Lent(*number)),
        _ => Ok(Reply::Nothing),
    }
}

// Returns the number at a first place.
fn first_number<S: FarTickets>(view: &View<'_, S>) -> Replied {
    match view.ints(0, 0, 1) {
        Ok(mut lents) => match lents.next() {
            Some(lent) => number_in(lent.values),
            None => Ok(Reply::Nothing),
        },
        Err(refusal) => Err(refusal),
    }
}

// Sends a signal, waits until this many signals were sent, and then looks at the first row.
fn look_later<S: FarTickets>(view: &View<'_, S>, signals: &Signals, times: u64) -> Replied {
    signals.send();
    let is_signalled = signals.awaits(times);
    waited(is_signalled && view.is_alive(0).is_some())
}

// Looks at the first row: at once, or when this many signals were sent.
fn first_row<S: FarTickets>(view: &View<'_, S>, signals: &Signals, times: Option<u64>) -> Replied {
    match times {
        Some(times) => look_later(view, signals, times),
        None => first_number(view),
    }
}

// Locks a stripe for reading, looks at its first row, at once or when this many signals were sent, and unlocks the stripe.
pub fn look<N: PlanTag, B: TableTag, S: FarTickets, R: Wait>(
    rt: &R,
    shared: &Shared<N, B, S>,
    signals: &Signals,
    stripe: u32,
    times: Option<u64>,
) -> Replied {
    match shared.scope(rt, stripe) {
        Ok(scope) => first_row(&scope.view(), signals, times),
        Err(refusal) => Err(refusal),
    }
}
