// Opens the table of a script.
ghost use Rattle.std.specs.Prelude.{◌≡◌, ◌≢◌, ℕ, List, ◌++◌, codes, IfOk, IfErr, IsErrOf, IsOk, OnOk};
ghost use Rattle.far_commands.specs.WorldRules.{both_rules};
ghost use Rattle.far_shell.specs.LineFaults.{IsRefused, Rejection};
ghost use Rattle.far_shell.specs.Scripts.{IsNew};

use far_commands::{Progress, Resources, open_table};
use far_script::{Opening, Output, ShellFault, Sink};
use far_store::FarStore;
use far_types::Refusal;

/// How many contents the first store of a script can hold.
const STORE_CAPACITY: u64 = 1_048_576;

/// Returns the value if its reply was added, and otherwise drops it and returns the fault.
///
/// Generic for the proof: in a function over the table's own type a return that drops it is long to prove.
fn once_said<T: Drop>(value: T, said: Result<(), ShellFault>) -> Result<T, ShellFault>
    ensures ok { IfOk result (λ kept. (kept ≡ value) × IsOk said) }
    ensures err { IfErr result (IsErrOf said) }
{
    match said {
        Ok(()) => Ok(value),
        Err(fault) => Err(fault),
    }
}

/// Opens the table that a first line asks for, over a new store, and prints `ok`. Ends with `Memory` if the store cannot be
/// allocated. If the table is refused with `BadSchema` (2), prints that and ends with `BadStart`.
pub fn open<S: FarStore, A: Resources<S>, W: Sink>(
    resources: &A,
    opening: Opening,
    output: &mut Output<W>,
) -> Result<Progress<S>, ShellFault>
    ensures ok { IfOk result
        (IsNew (both_rules S.FarTickets) (opening.kinds.items, opening.limits)) }
    ensures said { OnOk result (output.new.page ≡ output.old.page ++ codes "ok\n") }
    ensures err { IfErr result
        (λ fault. (text : List ℕ) × (output.new.page ≡ output.old.page ++ text)
        × Rejection fault (IsRefused (opening.kinds.items, opening.limits)) text) }
    ensures unwritten { IfErr result (λ fault. fault ≢ ShellFault.Output) }
{
    let store = resources.store(STORE_CAPACITY)?;
    match open_table(resources.alloc(), store, opening) {
        Ok(world) => {
            let said = output.add_text("ok\n");
            once_said(Progress::new(world), said)
        }
        Err(Refusal::NoMemory) => Err(ShellFault::Memory),
        Err(refusal) => {
            output.add_refusal(&refusal)?;
            Err(ShellFault::BadStart)
        }
    }
}
