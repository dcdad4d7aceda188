// Runs sessions on threads and prints their outcome.
ghost use Rattle.std.specs.Prelude.{◌≡◌, ◌⊎◌, ◌≤◌, ℕ, List, ◌++◌, IfErr, OnOk, OnErr};
ghost use Rattle.far_shell.specs.Sessions.{IsOutcomeText, fault_of, gauges_text, session_line, outcome_text};

use super::sessions::{Outcome, Stop, run_sessions};
use far_script::print::{answer, gauge};
use far_script::{Output, Page, ShellFault, Sink};
use far_sessions::Reading;
use std::alloc::AllocError;
use std::sync::Wait;
use std::thread::Threads;

/// Returns the fault that ends a script whose sessions were stopped.
fn fault_of(stop: Stop) -> ShellFault
    ensures fault { result ≡ fault_of stop }
    ensures one { (result ≡ ShellFault.Memory) ⊎ (result ≡ ShellFault.Turns) }
{
    match stop {
        Stop::Memory => ShellFault::Memory,
        Stop::Turns(_) | Stop::Answers(_) => ShellFault::Turns,
    }
}

/// Prints the gauge line of a session.
fn gauge_line(page: &mut Page, session: u64, reading: &Reading) -> Result<(), AllocError>
    ensures ok { OnOk result (page.new ≡ page.old ++ session_line session reading.now) }
{
    gauge(page, session, reading.edits, reading.count, reading.sum)
}

/// Prints the gauge lines of sessions 0, 1 and so on.
fn gauges(page: &mut Page, readings: &[Reading]) -> Result<(), AllocError>
    ensures ok { OnOk result (page.new ≡ page.old ++ gauges_text 0 readings.now) }
{
    for session in 0..readings.len() {
        gauge_line(page, session as u64, &readings[session])?;
    }
    Ok(())
}

/// Prints the gauge lines of the sessions, and the answer over all rows.
fn outcome(page: &mut Page, outcome: &Outcome) -> Result<(), AllocError>
    ensures ok { OnOk result (page.new ≡ page.old ++ outcome_text outcome.now) }
{
    gauges(page, outcome.gauges.as_slice())?;
    answer(page, &outcome.answer)
}

/// Runs the script line `threads SESSIONS EDITS`. The sessions share a table of one column of numbers, each on a thread of
/// its own if one can be made. Each inserts EDITS rows of the number 1 on its home stripe, while a background worker evicts
/// objects. When all have ended, adds the gauge of each session's home stripe and the answer over all stripes to the output.
///
/// Ends with one of these, and then adds nothing:
///
/// - `Memory`, if a call runs out of memory;
/// - `Turns`, if a session gave up an edit, or the closed stripes have another answer.
pub fn print_sessions<T: AllocGlobal + Sync + Threads + Wait, W: Sink>(
    rt: &T,
    sessions: u32,
    edits: u32,
    output: &mut Output<W>,
) -> Result<(), ShellFault>
    requires sessions { (1 ≤ sessions) × (sessions ≤ 4) }
    requires edits { (1 ≤ edits) × (edits ≤ 1000) }
    ensures ok { OnOk result
        ((text : List ℕ) × IsOutcomeText sessions edits text
        × (output.new.page ≡ output.old.page ++ text)) }
    ensures err { OnErr result (output.new.page ≡ output.old.page) }
    ensures fault { IfErr result
        (λ fault. (fault ≡ ShellFault.Memory) ⊎ (fault ≡ ShellFault.Turns)) }
{
    match run_sessions(rt, rt.alloc(), sessions, edits) {
        Ok(ended) => {
            output.reply.truncate(0);
            let printed = outcome(&mut output.reply, &ended);
            output.add_printed(printed)?;
            Ok(())
        }
        Err(stop) => Err(fault_of(stop)),
    }
}
