// Answers the lines after the first command.
ghost use Rattle.std.specs.Prelude.{◌≡◌, ◌≤◌, ℕ, List, true, IfErr, OnOk};
ghost use Rattle.far_script.specs.Flow.{Gives, IsOver, IsAtEnd, IsUnseen, Prints, Reads, has_failed};
ghost use Rattle.far_commands.specs.WorldRules.{both_rules};
ghost use Rattle.far_shell.specs.LineFaults.{BreaksOff};
ghost use Rattle.far_shell.specs.Scripts.{Ends};

use far_commands::{Progress, Resources, answer_line};
use far_script::bounded::MAX_BYTES;
use far_script::{Input, Line, Output, ShellFault, Sink, Source};
use far_store::FarStore;

/// More lines than a script can have, since each takes a byte.
pub const MAX_LINES: u32 = MAX_BYTES + 1;

/// Answers the lines after the first command, to the end of the script.
pub fn serve_lines<S: FarStore, A: Resources<S>, R: Source + Drop, W: Sink>(
    resources: &A,
    progress: &mut Progress<S>,
    input: &mut Input<R>,
    output: &mut Output<W>,
    writer: &mut W,
) -> Result<(), ShellFault>
    requires first { progress.old.number ≡ 1 }
    ensures ok { OnOk result
        ((bytes : List ℕ) × (text : List ℕ) × Reads R.Read input.old bytes input.new
        × Prints (W.contents writer.old) output.old.page text (W.contents writer.new)
        output.new.page
        × Ends (both_rules S.FarTickets) progress.old bytes text
        × IsAtEnd R.Read input.new) }
    ensures err { IfErr result
        (λ fault. (bytes : List ℕ) × (rest : List ℕ) × (text : List ℕ)
        × Gives R.Read fault input.old input.new bytes rest
        × Prints (W.contents writer.old) output.old.page text (W.contents writer.new)
        output.new.page
        × BreaksOff S.FarTickets (IsUnseen R.Read R.may_fail input.old input.new)
        (IsOver R.Read input.new rest) progress.old fault bytes rest text) }
    ensures failed { IfErr result
        (λ fault. fault ≡ ShellFault.Output → has_failed output.new ≡ true) }
    ensures asked { input.new.source.reads ≤ input.old.source.reads }
{
    for turn in 0..MAX_LINES {
        match input.line(output, writer)? {
            Line::Whole(line) => answer_line(resources, progress, line, input, output, writer)?,
            Line::Last(line) => {
                answer_line(resources, progress, line, input, output, writer)?;
                return Ok(());
            }
        }
        output.flush_if_full(writer)?;
    }
    Err(ShellFault::Input)
}
