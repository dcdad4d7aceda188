// Serves a script over a table, from its first command to its end.
ghost use Rattle.std.specs.Prelude.{◌≡◌, ◌≤◌, ℕ, List, true, IfErr, OnOk};
ghost use Rattle.far_script.specs.Flow.{Gives, IsOver, IsAtEnd, IsUnseen, Prints, Reads, has_failed};
ghost use Rattle.far_commands.specs.WorldRules.{both_rules};
ghost use Rattle.far_shell.specs.LineFaults.{BreaksServing};
ghost use Rattle.far_shell.specs.Scripts.{IsServed};

use super::lines::serve_lines;
use super::opening::open;
use far_commands::Resources;
use far_script::{Input, Opening, Output, ShellFault, Sink, Source};
use far_store::FarStore;

/// Opens the table that a first command asks for, and answers the lines after it to the end of the script. Ends with
/// `Memory` if the store cannot be allocated. If the table is refused, prints the refusal and ends with `BadStart`.
pub fn serve_table<S: FarStore, A: Resources<S>, R: Source + Drop, W: Sink>(
    resources: &A,
    opening: Opening,
    input: &mut Input<R>,
    output: &mut Output<W>,
    writer: &mut W,
) -> Result<(), ShellFault>
    ensures ok { OnOk result
        ((bytes : List ℕ) × (text : List ℕ) × Reads R.Read input.old bytes input.new
        × Prints (W.contents writer.old) output.old.page text (W.contents writer.new)
        output.new.page
        × IsServed (both_rules S.FarTickets) (opening.kinds.items, opening.limits) bytes text
        × IsAtEnd R.Read input.new) }
    ensures err { IfErr result
        (λ fault. (bytes : List ℕ) × (rest : List ℕ) × (text : List ℕ)
        × Gives R.Read fault input.old input.new bytes rest
        × Prints (W.contents writer.old) output.old.page text (W.contents writer.new)
        output.new.page
        × BreaksServing S.FarTickets (IsUnseen R.Read R.may_fail input.old input.new)
        (IsOver R.Read input.new rest) (opening.kinds.items, opening.limits) fault bytes rest
        text) }
    ensures failed { IfErr result
        (λ fault. fault ≡ ShellFault.Output → has_failed output.new ≡ true) }
    ensures asked { input.new.source.reads ≤ input.old.source.reads }
{
    match open(resources, opening, output) {
        Ok(mut progress) => {
            let served = serve_lines(resources, &mut progress, input, output, writer);
            // For the proof: a call drops the table, since a function that drops it itself is long to prove.
            drop(progress);
            served
        }
        Err(fault) => Err(fault),
    }
}
