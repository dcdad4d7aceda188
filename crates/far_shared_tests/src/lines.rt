// Calls that are made one after another, each with its expected reply.
use crate::scenes::{Line, Replied, Reply, Step};
use far_types::Refusal;

// Returns whether a call may be made a second time if it ran out of memory. When a list of works runs out of memory, some of them may be
// done. When an eviction does whose put was held, another session has gone on.
fn may_repeat(step: Step) -> bool {
    !matches!(step, Step::Run(_, _) | Step::EvacuateHeld(_))
}

// Returns the reply to a call. If the call ran out of memory, it is made a second time where it may be.
fn answer_at_last<M, F: Fn(&mut M, Step) -> Replied>(call: &F, me: &mut M, step: Step) -> Replied
    requires { F.IsAlwaysCallable call.now }
{
    match call(me, step) {
        Err(Refusal::NoMemory) if may_repeat(step) => call(me, step),
        reply => reply,
    }
}

// Returns whether a reply shows that memory ran out. A report of works does so if it counts more as refused than expected, since it
// does not say why.
fn ran_out(reply: Replied, due: Replied) -> bool {
    match (reply, due) {
        (Err(refusal), _) => refusal == Refusal::NoMemory,
        (Ok(Reply::Worked(_, refused)), Ok(Reply::Worked(_, due))) => refused > due,
        _ => false,
    }
}

// Returns whether calls get the expected replies, one after another. Refused with `NoMemory` if a reply shows that memory ran out: then
// the scene is played a second time.
pub fn play_lines<M, F: Fn(&mut M, Step) -> Replied>(
    call: &F,
    me: &mut M,
    lines: &[Line],
) -> Result<bool, Refusal>
    requires { F.IsAlwaysCallable call.now }
{
    let mut all = true;
    let mut out = false;
    for line in lines {
        let reply = answer_at_last(call, me, line.0);
        all &= reply == line.1;
        out |= ran_out(reply, line.1);
    }
    if out { Err(Refusal::NoMemory) } else { Ok(all) }
}
