// Reads the first line of a script.
ghost use Rattle.std.specs.Prelude.{◌≡◌, ◌≢◌, ℕ, List, [], ◌++◌, ◌≤◌, true, IfOk, IfErr, OnOk, Some};
ghost use Rattle.far_script.specs.Flow.{Gives, IsOver, IsAtEnd, IsUnseen, Prints, Reads, has_failed};
ghost use Rattle.far_script.specs.Openings.{IsAllowedStart, start_in, start_of};
ghost use Rattle.far_shell.specs.LineFaults.{HasNotBegun, IsUnknown, Rejection};
ghost use Rattle.far_shell.specs.Scripts.{Begins};

use super::lines::MAX_LINES;
use far_script::opening::first_line;
use far_script::{FirstLine, Input, Line, Output, ShellFault, Sink, Source};
use std::alloc::Global;

/// Parses a first line. If it is invalid, prints `syntax command 1` and ends with `BadStart`.
fn read_first<W: Sink>(
    alloc: Global,
    line: &str,
    output: &mut Output<W>,
) -> Result<FirstLine, ShellFault>
    ensures first { IfOk result (λ first. start_in line.now ≡ Some (start_of first)) }
    ensures within { IfOk result (λ first. IsAllowedStart (start_of first)) }
    ensures quiet { OnOk result (output.new.page ≡ output.old.page) }
    ensures err { IfErr result
        (λ fault. (text : List ℕ) × (output.new.page ≡ output.old.page ++ text)
        × Rejection fault (IsUnknown line.now) text) }
    ensures unwritten { IfErr result (λ fault. fault ≢ ShellFault.Output) }
{
    match first_line(alloc, line) {
        Ok(Some(first)) => Ok(first),
        Ok(None) => {
            output.add_text("syntax command 1\n")?;
            Err(ShellFault::BadStart)
        }
        Err(_) => Err(ShellFault::Memory),
    }
}

/// Reads the first command of a script. Ends with `BadStart` if there is none or it is not a valid first line.
pub fn first_command<R: Source + Drop, W: Sink>(
    alloc: Global,
    input: &mut Input<R>,
    output: &mut Output<W>,
    writer: &mut W,
) -> Result<FirstLine, ShellFault>
    ensures ok { IfOk result
        (λ first. (bytes : List ℕ) × (line : List ℕ) × Reads R.Read input.old bytes input.new
        × Begins bytes (IsAtEnd R.Read input.new) line
        × (start_in line ≡ Some (start_of first))) }
    ensures within { IfOk result (λ first. IsAllowedStart (start_of first)) }
    ensures printed { OnOk result
        (Prints (W.contents writer.old) output.old.page [] (W.contents writer.new)
        output.new.page) }
    ensures err { IfErr result
        (λ fault. (bytes : List ℕ) × (rest : List ℕ) × (text : List ℕ)
        × Gives R.Read fault input.old input.new bytes rest
        × Prints (W.contents writer.old) output.old.page text (W.contents writer.new)
        output.new.page
        × HasNotBegun (IsUnseen R.Read R.may_fail input.old input.new)
        (IsOver R.Read input.new rest) fault bytes rest text) }
    ensures failed { IfErr result
        (λ fault. fault ≡ ShellFault.Output → has_failed output.new ≡ true) }
    ensures asked { input.new.source.reads ≤ input.old.source.reads }
{
    for turn in 0..MAX_LINES {
        match input.line(output, writer)? {
            Line::Whole(line) => {
                if !line.is_empty() {
                    let first = read_first(alloc, input.text(line)?, output)?;
                    return Ok(first);
                }
            }
            Line::Last(line) => {
                if line.is_empty() {
                    return Err(ShellFault::BadStart);
                }
                let last = read_first(alloc, input.text(line)?, output)?;
                return Ok(last);
            }
        }
    }
    Err(ShellFault::Input)
}
