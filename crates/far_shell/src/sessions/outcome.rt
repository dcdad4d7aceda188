// The outcome of a run of sessions.
ghost use Rattle.std.specs.Prelude.{◌≡◌, ◌≢◌, IfErr, IsErrOf, OnOk};

use super::ending::Differing;
use super::evacuating::Evictions;
use super::tries::GaveUp;
use far_sessions::Reading;
use far_types::{Answer, Refusal};
use std::alloc::{AllocError, AllocFailed};
use std::fmt;

/// The readings and the answer after all sessions of a run have ended.
#[derive(Drop, Debug)]
pub struct Outcome {
    /// The gauge of each session's home stripe, in the order of the sessions.
    pub gauges: Vec<Reading>,
    /// The answer of the gauge over all stripes: count and sum of all sessions' rows.
    pub answer: Answer,
    /// How many evictions the background worker tried, and how many objects they evicted.
    pub evictions: Evictions,
}

/// Why a run of sessions ended early.
#[derive(Clone, Copy, Debug, PartialEq, Eq)]
pub enum Stop {
    /// A call ran out of memory.
    Memory,
    /// A session gave up an edit: it was tried 10,000 times, or was refused for a reason that a retry cannot change.
    Turns(GaveUp),
    /// The closed stripes answer otherwise than the shared table did, which no run has met and no clause rules out.
    Answers(Differing),
}

/// Ends with `Memory` if a call ran out of memory. Drops any other result.
pub(crate) fn stop_at_no_memory<T: Drop>(given: Result<T, Refusal>) -> Result<(), Stop>
    ensures ok { OnOk result (IfErr given (λ e. e ≢ Refusal.NoMemory)) }
    ensures memory { IfErr result
        (λ stop. (stop ≡ Stop.Memory) × IsErrOf given Refusal.NoMemory) }
{
    match given {
        Err(Refusal::NoMemory) => Err(Stop::Memory),
        _ => Ok(()),
    }
}

/// Prints why the run ended, as a sentence without a full stop.
impl fmt::Display for Stop {
    ghost use Rattle.std.specs.Prelude.{Some};
    ghost use Rattle.far_shell.specs.Stops.{sentence_of};

    ghost output = { λ stop. Some (sentence_of stop) };

    fn fmt<W: fmt::Write>(&self, f: &mut fmt::Formatter<W>) -> fmt::Result {
        match self {
            Stop::Memory => f.write_str("memory ran out"),
            Stop::Turns(_) => f.write_str("an edit could not be made"),
            Stop::Answers(_) => f.write_str("the closed stripes have another answer"),
        }
    }
}

impl From<AllocError> for Stop {
    ghost use Rattle.far_shell.specs.declared.sessions.outcome.Stop.TheVariants.{Memory};

    ghost from_gives = { λ _ stop. stop ≡ Memory };

    fn from(_e: AllocError) -> Stop {
        Stop::Memory
    }
}

impl<T: Drop> From<AllocFailed<T>> for Stop {
    ghost use Rattle.far_shell.specs.declared.sessions.outcome.Stop.TheVariants.{Memory};

    ghost from_gives = { λ _ stop. stop ≡ Memory };

    fn from(_e: AllocFailed<T>) -> Stop {
        Stop::Memory
    }
}
