// Rows of two keys on two stripes, and an answer over both.
use crate::scenes::{Letter, Replied, Reply, Step};
use crate::signals::Signals;
use far_types::Refusal;

// The number of answers that are asked for at most.
const ANSWERS: u32 = 10_000_000;

// Inserts a row of the first key on stripe 0, and then one of the second on stripe 1.
fn insert_both<M, F: Fn(&mut M, Step) -> Replied>(call: &F, me: &mut M) -> Replied
    requires { F.IsAlwaysCallable call.now }
{
    match call(me, Step::InsertKeyed(0, Letter::P)) {
        Ok(_) => call(me, Step::InsertKeyed(1, Letter::Q)),
        Err(refusal) => Err(refusal),
    }
}

// Inserts this many pairs. Returns whether an answer was asked for while each was inserted or after.
fn insert_all<M, F: Fn(&mut M, Step) -> Replied>(
    call: &F,
    me: &mut M,
    signals: &Signals,
    pairs: u32,
) -> Result<bool, Refusal>
    requires { F.IsAlwaysCallable call.now }
{
    for _ in 0..pairs {
        let asked = signals.asked();
        if let Err(refusal) = insert_both(call, me) {
            return Err(refusal);
        }
        if !signals.awaits_asking(asked) {
            return Ok(false);
        }
    }
    Ok(true)
}

// Returns the result of inserting the pairs, if the aggregate was registered as the first.
fn if_first(registered: Replied, is_answered: Result<bool, Refusal>) -> Result<bool, Refusal> {
    match registered {
        Ok(Reply::Number(1)) => is_answered,
        Ok(_) => Ok(false),
        Err(refusal) => Err(refusal),
    }
}

// Registers totals by key, sends a signal, inserts this many pairs, and sends another signal.
pub fn insert_pairs<M, F: Fn(&mut M, Step) -> Replied>(
    call: &F,
    me: &mut M,
    signals: &Signals,
    pairs: u32,
) -> Result<bool, Refusal>
    requires { F.IsAlwaysCallable call.now }
{
    let registered = call(me, Step::WatchByKey);
    signals.send();
    let is_answered = insert_all(call, me, signals, pairs);
    signals.send();
    if_first(registered, is_answered)
}

// Returns whether an answer has no second row of a pair without the first, and at most one first row without its second; and, for the
// last answer, whether it has all rows.
fn is_right(reply: Replied, is_last: bool, pairs: u32) -> Result<bool, Refusal> {
    match reply {
        Ok(Reply::Pairs(first, second)) => {
            let has_all = first == u64::from(pairs) && second == first;
            Ok(first.wrapping_sub(second) <= 1 && (has_all || !is_last))
        }
        Ok(_) => Err(Refusal::OutOfRange),
        Err(refusal) => Err(refusal),
    }
}

// Asks for the totals by key until this many pairs are inserted. Returns whether each answer was right.
fn ask_until<M, F: Fn(&mut M, Step) -> Replied>(
    call: &F,
    me: &mut M,
    signals: &Signals,
    pairs: u32,
) -> Result<bool, Refusal>
    requires { F.IsAlwaysCallable call.now }
{
    for _ in 0..ANSWERS {
        let is_last = signals.was_sent(2);
        signals.ask();
        let answer = is_right(call(me, Step::AskByKey(1)), is_last, pairs);
        if is_last || answer != Ok(true) {
            return answer;
        }
    }
    Ok(false)
}

// Does the same once the totals are registered.
pub fn ask_pairs<M, F: Fn(&mut M, Step) -> Replied>(
    call: &F,
    me: &mut M,
    signals: &Signals,
    pairs: u32,
) -> Result<bool, Refusal>
    requires { F.IsAlwaysCallable call.now }
{
    if signals.awaits(1) {
        ask_until(call, me, signals, pairs)
    } else {
        Ok(false)
    }
}
