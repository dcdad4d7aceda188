// Runs whole scripts. A line is read only after the replies before it were written.
ghost use Rattle.std.specs.Prelude.{◌≡◌, ℕ, List, [], ◌++◌, ◌≤◌, true, IfErr, IfSome, OnErr, OnOk};
ghost use Rattle.std.specs.Io.KnownBytes.{Appends, Keeps};
ghost use Rattle.far_script.specs.Flow.{Gives, IsFrontOf, IsOver, IsAtEnd, IsUnseen, Prints, Reads, has_failed};
ghost use Rattle.far_shell.specs.Breaks.{Breaks, IsBroken, IsUnfinished};
ghost use Rattle.far_shell.specs.Scripts.{IsScript, IsTableScript};
ghost use Rattle.far_shell.specs.Sessions.{IsAnswered};

use super::first_line::first_command;
use super::serving::serve_table;
use super::threads::print_sessions;
use far_commands::{Agents, Resources};
use far_script::{FirstLine, Input, Output, ShellFault, Sink, Source};
use far_store::{AgentStore, FarStore, FarTickets};
use std::sync::Wait;
use std::thread::Threads;

/// Reads the first command of a script and runs the script. If the command opens a table, answers the lines after it. If it
/// asks for sessions, runs them over a shared table and reads no more lines. Generic over the store, so that the proof
/// unfolds none.
///
/// Ends with the faults of `run_script`.
fn serve<
    S: FarStore,
    A: Resources<S>,
    T: AllocGlobal + Sync + Threads + Wait,
    R: Source + Drop,
    W: Sink,
>(
    rt: &T,
    resources: &A,
    input: &mut Input<R>,
    output: &mut Output<W>,
    writer: &mut W,
) -> Result<(), ShellFault>
    requires { output.old.page ≡ [] }
    ensures ok { OnOk result
        ((bytes : List ℕ) × (text : List ℕ) × Reads R.Read input.old bytes input.new
        × Prints (W.contents writer.old) [] text (W.contents writer.new) output.new.page
        × IsAnswered (IsScript S.FarTickets) bytes (IsAtEnd R.Read input.new) text
        × IsAnswered (IsTableScript S.may_fail) bytes (IsAtEnd R.Read input.new) text) }
    ensures err { IfErr result
        (λ fault. (bytes : List ℕ) × (rest : List ℕ) × (text : List ℕ)
        × Gives R.Read fault input.old input.new bytes rest
        × Prints (W.contents writer.old) [] text (W.contents writer.new) output.new.page
        × IsBroken S.FarTickets (λ _. IsUnseen R.Read R.may_fail input.old input.new)
        (IsOver R.Read input.new) fault bytes rest text) }
    ensures failed { IfErr result
        (λ fault. fault ≡ ShellFault.Output → has_failed output.new ≡ true) }
    ensures asked { input.new.source.reads ≤ input.old.source.reads }
{
    let first = first_command(rt.alloc(), input, output, writer)?;
    match first {
        FirstLine::Schema(opening) => {
            serve_table(resources, opening, input, output, writer)?;
            Ok(())
        }
        FirstLine::Threads { sessions, edits } => {
            print_sessions(rt, sessions, edits, output)?;
            Ok(())
        }
    }
}

/// Writes the remaining replies when a fault ends a script. Writes nothing if the fault is a failed write. Ends with
/// `Output` if a write fails, or failed before.
///
/// Only the contract reads `fault`: the body knows from `output` whether a write failed.
fn flush_at<W: Sink>(
    fault: ShellFault,
    output: &mut Output<W>,
    writer: &mut W,
) -> Result<(), ShellFault>
    requires failed { fault ≡ ShellFault.Output → has_failed output.old ≡ true }
    ensures printed { Prints (W.contents writer.old) output.old.page [] (W.contents writer.new)
        output.new.page }
    ensures ok { OnOk result (output.new.page ≡ []) }
    ensures stopped { fault ≡ ShellFault.Output
        → Keeps (W.contents writer.old) (W.contents writer.new) }
    ensures failed { OnErr result (has_failed output.new ≡ true) }
    ensures fault { IfErr result (λ why. why ≡ ShellFault.Output) }
{
    output.flush(writer)
}

/// Runs a script as `run_script` does, from an input that it borrows. After a first command for sessions no line is read,
/// though bytes may have come together with that command.
///
/// Ends with the faults of `run_script`, which say what was read and written:
///
/// - `Memory`: the replies to all lines that were taken are written. The last of these lines may lack its reply, or have
///   only a prefix of it if it is `dump`.
/// - `Output`: the writer took a prefix of those replies.
/// - `Input`: all lines before the one that stops the script are answered. That line or its load is not valid UTF-8, or its
///   load lacks bytes, or the line lacks its end and the end of the script was not found.
///
/// The last line, which no line feed ends, counts as not valid UTF-8 only if the end of the script was found. If the end
/// was not found, the reader was called, unless no read was allowed any more, and one of these holds:
///
/// - readers of its type may fail;
/// - no read is allowed any more, and at least as many bytes came as reads were allowed;
/// - no byte is allowed any more, and the reader, if its bytes are known, has more than were allowed.
///
/// Afterwards at most as many reads are allowed as before. At the end of the script and at `Input`, the bytes that came are
/// subtracted from those allowed. That holds even for a reader whose bytes no contract knows, as standard input.
pub fn run_input<T: AllocGlobal + Sync + Threads + Wait, R: Source + Drop, W: Sink>(
    rt: &T,
    input: &mut Input<R>,
    writer: &mut W,
) -> Result<(), ShellFault>
    ensures ok { OnOk result
        ((bytes : List ℕ) × (text : List ℕ) × Reads R.Read input.old bytes input.new
        × Appends (W.contents writer.old) (W.contents writer.new) text
        × IsAnswered (IsScript ⟦<AgentStore<&'static T> as FarTickets>⟧) bytes
        (IsAtEnd R.Read input.new) text) }
    ensures table { OnOk result
        ((bytes : List ℕ) × (text : List ℕ) × Reads R.Read input.old bytes input.new
        × Appends (W.contents writer.old) (W.contents writer.new) text
        × IsAnswered (IsTableScript ⊥) bytes (IsAtEnd R.Read input.new) text) }
    ensures err { IfErr result
        (λ fault. Breaks ⟦<AgentStore<&'static T> as FarTickets>⟧
        (λ _. IsUnseen R.Read R.may_fail input.old input.new) (IsOver R.Read input.new)
        (λ why. Gives R.Read why input.old input.new) W.may_fail (W.contents writer.old)
        (W.contents writer.new) fault) }
    ensures asked { input.new.source.reads ≤ input.old.source.reads }
{
    let agents = Agents::new(rt, rt.alloc());
    let mut output = Output::new(rt.alloc());
    let outcome = serve(rt, &agents, input, &mut output, writer);
    match outcome {
        Ok(()) => {
            output.flush(writer)?;
            Ok(())
        }
        Err(fault) => {
            flush_at(fault, &mut output, writer)?;
            Err(fault)
        }
    }
}

/// Runs a script: reads its commands and writes the replies, each before the reader is called for more. The objects of its
/// table go to a store in this process with space for 1,048,576 contents. If the first command asks for sessions, it is the
/// whole script, and no line after it is read.
///
/// A script has at most 16,777,216 bytes, and takes at most 1,048,576 reads. If it ends early, all lines before the fault
/// are answered, and the replies written unless the writer fails; `run_input` says exactly which. Ends with:
///
/// - `Input`, if a read fails or a bound is exceeded, if a line or a load is not valid UTF-8, or if the script ends inside
///   a load;
/// - `Output`, if a write fails;
/// - `Memory`, if the shell itself runs out of memory;
/// - `BadStart`, if the first command opens no table and asks for no sessions;
/// - `Turns`, if sessions give up on an edit.
///
/// If a script has fewer than 1,048,576 known bytes and its reader is of a type that never fails, `Input` has only two
/// causes. A line or a load is not valid UTF-8, or the script ends inside a load
/// ([`a_short_script_at_hand_comes_whole`](crate::laws::a_short_script_at_hand_comes_whole)).
///
/// A script ends with `Output` only if writers of the type of its writer may fail
/// ([`a_sure_writer_is_never_at_fault`](crate::laws::a_sure_writer_is_never_at_fault)).
///
/// The program does this:
///
/// ```
/// fn main(rt: HostRuntime) -> ExitCode {
///     let mut writer = Fallible(io::writer(&rt));
///     match run_script(&rt, Fallible(rt.reader()), &mut writer) {
///         Ok(()) => ExitCode::SUCCESS,
///         Err(fault) => ExitCode::from(fault.status()),
///     }
/// }
/// ```
pub fn run_script<T: AllocGlobal + Sync + Threads + Wait, R: Source + Drop, W: Sink>(
    rt: &T,
    reader: R,
    writer: &mut W,
) -> Result<(), ShellFault>
    ensures ok { OnOk result
        ((bytes : List ℕ) × (rest : List ℕ) × (text : List ℕ)
        × IsFrontOf (R.remaining reader) bytes rest
        × Appends (W.contents writer.old) (W.contents writer.new) text
        × IsAnswered (IsScript ⟦<AgentStore<&'static T> as FarTickets>⟧) bytes (rest ≡ [])
        text) }
    ensures table { OnOk result
        ((bytes : List ℕ) × (rest : List ℕ) × (text : List ℕ)
        × IsFrontOf (R.remaining reader) bytes rest
        × Appends (W.contents writer.old) (W.contents writer.new) text
        × IsAnswered (IsTableScript ⊥) bytes (rest ≡ []) text) }
    ensures err { IfErr result
        (λ fault. Breaks ⟦<AgentStore<&'static T> as FarTickets>⟧ (IsUnfinished R.may_fail)
        (λ rest. rest ≡ [])
        (λ _ bytes rest. IfSome (R.remaining reader) (λ script. script ≡ bytes ++ rest))
        W.may_fail (W.contents writer.old) (W.contents writer.new) fault) }
{
    let mut input = Input::new(rt.alloc(), reader)?;
    run_input(rt, &mut input, writer)?;
    Ok(())
}
