// The role of a session, played beside the others. The code that plays it knows the session only by the replies to its calls.
use crate::editing::edit_by_turns;
use crate::keyed::{ask_pairs, insert_pairs};
use crate::scenes::{Duty, Left, NO_ROW, Replied, Step};
use crate::signals::Signals;
use crate::working::{ask_beside, read_beside, register_beside, work_beside};
use far_types::Refusal;
use std::alloc::Global;

// Returns the rows that a session without rows leaves. Refused with `OutOfRange` if its role did not pass.
pub fn left_if(is_right: Result<bool, Refusal>) -> Result<Left, Refusal> {
    match is_right {
        Ok(true) => Ok(NO_ROW),
        Ok(false) => Err(Refusal::OutOfRange),
        Err(refusal) => Err(refusal),
    }
}

// Returns the rows that a session leaves on its home stripe. Refused with `OutOfRange` if its duty did not pass.
pub fn do_duty<M, F: Fn(&mut M, Step) -> Replied>(
    alloc: Global,
    call: &F,
    me: &mut M,
    signals: &Signals,
    number: u64,
    duty: Duty,
) -> Result<Left, Refusal>
    requires { F.IsAlwaysCallable call.now }
{
    match duty {
        Duty::Edits(edits) => edit_by_turns(alloc, call, me, signals, number, edits),
        Duty::Works(until) => left_if(work_beside(call, me, signals, until)),
        Duty::Reads(until) => left_if(read_beside(call, me, signals, until)),
        Duty::InsertsPairs(pairs) => left_if(insert_pairs(call, me, signals, pairs)),
        Duty::AsksPairs(pairs) => left_if(ask_pairs(call, me, signals, pairs)),
        Duty::Registers(aggregates) => left_if(register_beside(call, me, signals, aggregates)),
        Duty::Asks(until) => left_if(ask_beside(call, me, signals, until)),
    }
}
