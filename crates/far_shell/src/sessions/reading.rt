// Reads the gauges and the answer after the edits.
ghost use Rattle.std.specs.Prelude.{◌≡◌, IfOk};
ghost use Rattle.far_sessions.specs.Known.{newcomers};
ghost use Rattle.far_shell.specs.Working.{AreGauged, AreLeft, AreWorked, IsRead};

use super::evacuating::Evictions;
use super::outcome::{Outcome, Stop};
use super::worked::{Worked, home_of};
use far_sessions::{Cells, PlanTag, Reading, Session};
use far_shared::{Shared, TableTag};
use far_store::FarStore;
use std::alloc::Global;
use std::sync::Wait;

/// Reads the gauge of a session's home stripe. If the session was stopped, returns why.
fn read_gauge<N: PlanTag, B: TableTag, R: Wait>(
    rt: &R,
    cells: &Cells<N, B>,
    worked: Worked<B>,
) -> Result<(Session<B>, Reading), Stop>
    ensures { IfOk result (λ read. IsRead N.plan worked read.0 read.1) }
{
    worked.outcome?;
    let mut me = worked.session;
    let home = home_of(&me);
    let Ok(reading) = cells.gauge(rt, &mut me, home) else {
        unreachable!()
    };
    Ok((me, reading))
}

/// Reads the gauges of the sessions' home stripes, in order. If a session was stopped, returns why.
fn read_gauges<N: PlanTag, B: TableTag, R: Wait>(
    rt: &R,
    alloc: Global,
    cells: &Cells<N, B>,
    worked: Vec<Worked<B>>,
    edits: u32,
) -> Result<(Vec<Session<B>>, Vec<Reading>), Stop>
    requires { AreWorked edits (newcomers N.plan.sessions) worked.items }
    ensures { IfOk result (λ read. AreGauged N.plan edits read.0.items read.1.items) }
{
    let mut sessions = Vec::new(alloc);
    let mut readings = Vec::new(alloc);
    for one in worked {
        let (me, reading) = read_gauge(rt, cells, one)?;
        sessions.push(me)?;
        readings.push(reading)?;
    }
    Ok((sessions, readings))
}

/// Reads all gauges and the answer over all stripes, and adds what the worker did. If a session was stopped, returns why.
pub(crate) fn read_all<N: PlanTag, B: TableTag, S: FarStore, R: Wait>(
    rt: &R,
    alloc: Global,
    shared: &Shared<N, B, S>,
    evictions: Evictions,
    worked: Vec<Worked<B>>,
    edits: u32,
) -> Result<(Vec<Session<B>>, Outcome), Stop>
    requires worked { AreWorked edits (newcomers N.plan.sessions) worked.items }
    requires tried { evictions.tries ≡ edits }
    ensures { IfOk result (λ left. AreLeft N.plan edits left.0.items left.1) }
{
    let (sessions, gauges) = read_gauges(rt, alloc, shared.cells(), worked, edits)?;
    match shared.ask_all(rt, 0) {
        Ok(answer) => Ok((
            sessions,
            Outcome {
                gauges,
                answer,
                evictions,
            },
        )),
        Err(_) => Err(Stop::Memory),
    }
}
