// The faults that end a script early.
ghost use Rattle.std.specs.Prelude.{◌≡◌};

use far_types::Refusal;
use std::alloc::{AllocError, AllocFailed};
use thiserror::Error;

/// A fault that ends a script early. Replies that were already written stay.
#[derive(Drop, Debug, Clone, Copy, PartialEq, Eq, Error)]
pub enum ShellFault {
    /// The first command opens no table and asks for no sessions.
    #[error("the first command opens no table and asks for no sessions")]
    BadStart,
    /// A read failed; or the script is too long or needs too many reads; or a line or a load is not valid UTF-8; or the
    /// script ends inside a load.
    #[error("the script could not be read")]
    Input,
    /// A write failed.
    #[error("the replies could not be written")]
    Output,
    /// The shell itself ran out of memory.
    #[error("the shell is out of memory")]
    Memory,
    /// A session on a thread gave up on an edit: it tried as often as it may, or a retry cannot help.
    #[error("sessions did not get their edits through")]
    Turns,
}

impl From<AllocError> for ShellFault {
    ghost use Rattle.far_script.specs.declared.fault.ShellFault.TheVariants.{Memory};

    ghost from_gives = { λ _ fault. fault ≡ Memory };

    fn from(_e: AllocError) -> ShellFault {
        ShellFault::Memory
    }
}

impl<T: Drop> From<AllocFailed<T>> for ShellFault {
    ghost use Rattle.far_script.specs.declared.fault.ShellFault.TheVariants.{Memory};

    ghost from_gives = { λ _ fault. fault ≡ Memory };

    fn from(_e: AllocFailed<T>) -> ShellFault {
        ShellFault::Memory
    }
}

impl ShellFault {
    ghost use Rattle.far_script.specs.Faults.{status_of};

    /// Returns the fault `Memory`. The refusal must be `NoMemory`: the shell itself is out of memory. Any other refusal is
    /// printed as a reply, and ends the script, by `BadStart`, only if it is of the first line.
    pub fn of_memory(refusal: Refusal) -> ShellFault
        requires { refusal ≡ Refusal.NoMemory }
        ensures { result ≡ ShellFault.Memory }
    {
        match refusal {
            Refusal::NoMemory => ShellFault::Memory,
            _ => unreachable!(),
        }
    }

    /// Returns the exit status for the fault.
    pub fn status(self) -> u8
        ensures { result ≡ status_of self }
    {
        match self {
            ShellFault::BadStart => 2,
            ShellFault::Input | ShellFault::Output => 3,
            ShellFault::Memory => 4,
            ShellFault::Turns => 5,
        }
    }
}
