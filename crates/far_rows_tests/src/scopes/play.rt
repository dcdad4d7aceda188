// Plays scripts.
ghost use Rattle.far_scopes.specs.Movement.{AreHere};

use crate::fixtures::{agent, no_objects};
use crate::scopes::calls::last_reply;
use crate::scopes::script::{Line, Script, WRONG};
use far_scopes::Objects;
use far_store::FarStore;
use far_types::Refusal;
use std::alloc::Global;
use std::sync::Wait;
use std::test::Fail;

/// Plays scripts. Fails at the first line with another reply, and names the script and the index of the line.
pub fn play_all<R: Wait + Sync + Copy + Drop>(
    rt: R,
    alloc: Global,
    scripts: &[Script],
) -> Result<(), Fail> {
    for script in scripts {
        if let Some(line) = first_wrong(rt, alloc, script)? {
            return Err(Fail::new(format_args!("{}: line {line}", script.name)));
        }
    }
    Ok(())
}

/// Returns the index of the first line with another reply.
fn first_wrong<R: Wait + Sync + Copy + Drop>(
    rt: R,
    alloc: Global,
    script: &Script,
) -> Result<Option<usize>, Refusal> {
    play_over(alloc, agent(rt, alloc, 4), script)
}

// Returns the same for this store, if it was made. Generic over the store, so that taking it out of its result is cheap to
// prove.
fn play_over<S: FarStore>(
    alloc: Global,
    store: Result<S, Refusal>,
    script: &Script,
) -> Result<Option<usize>, Refusal> {
    let store = store?;
    if script.limits.segments > 8 {
        return Err(WRONG);
    }
    match no_objects(alloc, &store, script.limits) {
        Ok(mut objects) => {
            let wrong = play(alloc, &store, &mut objects, script.lines);
            drop(objects);
            Ok(wrong)
        }
        Err(refusal) => Err(refusal),
    }
}

/// Returns the index of the first line with another reply.
fn play<S: FarStore>(
    alloc: Global,
    store: &S,
    objects: &mut Objects<i64, S>,
    lines: &[Line],
) -> Option<usize>
    requires { AreHere S.is_of (S.store_id store.now) objects.old }
{
    for (index, (call, due)) in lines.iter().enumerate() {
        if last_reply(alloc, store, objects, call) != *due {
            return Some(index);
        }
    }
    None
}
