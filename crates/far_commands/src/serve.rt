// Serves lines as commands and prints their replies.
ghost use Rattle.std.specs.Prelude.{◌≡◌, ◌≢◌, ℕ, List, [], ◌++◌, ◌+◌, ◌≤◌, ◌<◌, ◌^◌, true, false, codes, IfOk, IfErr, OnOk, OnErr, Some};
ghost use Rattle.far_frame.specs.State.{live};
ghost use Rattle.far_commands.specs.Answering.{IsAnswered, IsOfWrite, IsReplied, StopsAtLine, TakesForLine};
ghost use Rattle.far_commands.specs.Cuts.{FailsBy, IsListing, PrintsCut, TakesFor};
ghost use Rattle.far_script.specs.Faults.{IfInput, IfHalted};
ghost use Rattle.far_script.specs.Flow.{Holds, IsShort, Prints, Reads, Stops, bytes_in};
ghost use Rattle.far_script.specs.Printing.{numbered_text};
ghost use Rattle.far_commands.specs.Listings.{listing_of};
ghost use Rattle.far_commands.specs.Replies.{Serves, Takes, done_text, reply_text};
ghost use Rattle.far_commands.specs.WorldRules.{both_rules};

use super::command::{Command, parse};
use super::lending::lent;
use super::listing::dump;
use super::loading::load;
use super::pieces::{ints, next, texts};
use super::progress::Progress;
use super::recounting::recount;
use super::renewing::renew;
use super::resources::Resources;
use far_aggregates::Line;
use far_frame::{Reply, Step, World};
use far_script::print::{answer, extrema, numbered, refused, total};
use far_script::{ByteRange, Input, Output, Page, ShellFault, Sink, Source};
use far_store::FarStore;
use far_types::Refusal;
use std::alloc::{AllocError, Global};

/// Returns the text for `Done` as the reply to a step.
fn done(step: &Step) -> &'static str
    ensures { result.now ≡ done_text step.now }
{
    match step {
        Step::Carry(_) => "carried\n",
        _ => "ok\n",
    }
}

/// Prints a reply, with `done` as the text for `Reply::Done`. Not inlined, so that the calls in it are.
#[inline(never)]
fn print_reply(page: &mut Page, done: &str, reply: &Reply) -> Result<(), AllocError>
    ensures ok { OnOk result (page.new ≡ reply_text done.now reply.now) }
{
    page.truncate(0);
    match reply {
        Reply::Place(place) => numbered(page, "place", u64::from(*place)),
        Reply::Done => page.text(done),
        Reply::Aggregate(aggregate) => numbered(page, "aggregate", u64::from(*aggregate)),
        Reply::Answer(found) => answer(page, found),
        Reply::Ints(copies) => ints(page, copies.as_slice()),
        Reply::Texts(copies) => texts(page, copies.as_slice()),
        Reply::Job(job) => numbered(page, "job", *job),
        Reply::Next(groups) => next(page, groups.as_slice()),
        Reply::Refused(refusal) => refused(page, refusal),
    }
}

/// Serves `lend` without copying a value, and prints the pieces. Returns false, and changes nothing in the world, if the
/// part cannot be lent.
fn take_lending<S: FarStore>(
    world: &mut World<S>,
    column: u32,
    from: u32,
    to: u32,
    reply: &mut Page,
) -> Result<bool, AllocError>
    ensures lent { IfOk result
        (λ lent. lent ≡ true
        → Takes (both_rules S.FarTickets) world.old (Step.Lend column from to) reply.new
        world.new) }
    ensures refused { IfOk result (λ lent. lent ≡ false → world.new ≡ world.old) }
    ensures faults { world.new.faults ≡ world.old.faults }
{
    if !lent(reply, world.frame(), column, from, to)? {
        return Ok(false);
    }
    // For the proof: shows that the limits are valid.
    let _limits = world.frame().limits();
    match world.record_lending(column, from, to) {
        Ok(()) => Ok(true),
        Err(_) => Ok(false),
    }
}

/// Serves `lend`, and prints the pieces or the refusal.
fn take_lend<S: FarStore>(
    world: &mut World<S>,
    column: u32,
    from: u32,
    to: u32,
    reply: &mut Page,
) -> Result<(), AllocError>
    requires few { world.old.faults < 2 ^ 62 }
    ensures ok { OnOk result
        (Takes (both_rules S.FarTickets) world.old (Step.Lend column from to) reply.new world.new) }
    ensures faults { world.new.faults ≤ world.old.faults + 1 }
{
    if take_lending(world, column, from, to, reply)? {
        return Ok(());
    }
    // The part cannot be lent. The step itself says why.
    let given = world.serve(Step::Lend { column, from, to });
    print_reply(reply, "ok\n", &given)
}

/// Answers an `ask` of totals without key column directly, without making lines. Returns false if the aggregate is of
/// another form or has pending row groups.
fn answer_plain<S: FarStore>(world: &World<S>, a: u32, reply: &mut Page) -> Result<bool, AllocError>
    ensures plain { IfOk result
        (λ plain. plain ≡ true
        → Takes (both_rules S.FarTickets) world.now (Step.Ask a) reply.new world.now) }
{
    let Some((count, sum)) = world.frame().plain(a) else {
        return Ok(false);
    };
    reply.truncate(0);
    total(reply, &(None, count, sum))?;
    Ok(true)
}

/// Answers an `ask` of extrema without key column directly, from their one line and without making a list. Returns false if
/// there are no such extrema, they have no line, or row groups are pending.
fn answer_extrema<S: FarStore>(
    world: &World<S>,
    a: u32,
    reply: &mut Page,
) -> Result<bool, AllocError>
    ensures plain { IfOk result
        (λ plain. plain ≡ true
        → Takes (both_rules S.FarTickets) world.now (Step.Ask a) reply.new world.now) }
{
    let frame = world.frame();
    let Some(spec) = frame.spec(a) else {
        return Ok(false);
    };
    if spec.key.is_some() {
        return Ok(false);
    }
    let Ok(Some(Line::Extrema { min, max })) = frame.line(a, &None) else {
        return Ok(false);
    };
    reply.truncate(0);
    extrema(reply, &(None, min, max))?;
    Ok(true)
}

/// Serves `ask`, and prints the answer or the refusal.
fn take_ask<S: FarStore>(world: &mut World<S>, a: u32, reply: &mut Page) -> Result<(), AllocError>
    requires few { world.old.faults < 2 ^ 62 }
    ensures ok { OnOk result
        (Takes (both_rules S.FarTickets) world.old (Step.Ask a) reply.new world.new) }
    ensures faults { world.new.faults ≤ world.old.faults + 1 }
{
    if answer_plain(world, a, reply)? || answer_extrema(world, a, reply)? {
        return Ok(());
    }
    let given = world.serve(Step::Ask(a));
    print_reply(reply, "ok\n", &given)
}

/// Serves a step, and prints its reply. Edits, which most steps are, go to the table on a shorter path.
fn take_step<S: FarStore>(
    world: &mut World<S>,
    step: Step,
    reply: &mut Page,
) -> Result<(), AllocError>
    requires few { world.old.faults < 2 ^ 62 }
    ensures ok { OnOk result (Takes (both_rules S.FarTickets) world.old step reply.new world.new) }
    ensures faults { world.new.faults ≤ world.old.faults + 1 }
{
    match step {
        Step::Edit(edit) => {
            let given = world.edit(edit);
            print_reply(reply, "ok\n", &given)
        }
        Step::Ask(a) => take_ask(world, a, reply),
        Step::Lend { column, from, to } => take_lend(world, column, from, to, reply),
        other => {
            let done = done(&other);
            let given = world.serve(other);
            print_reply(reply, done, &given)
        }
    }
}

/// Serves `load`: takes this many bytes after the line, inserts their rows, and prints the reply.
fn serve_load<S: FarStore, R: Source + Drop, W: Sink>(
    alloc: Global,
    world: &mut World<S>,
    count: u32,
    input: &mut Input<R>,
    output: &mut Output<W>,
    writer: &mut W,
) -> Result<(), ShellFault>
    ensures ok { OnOk result
        ((rows : List ℕ) × (text : List ℕ) × Reads R.Read input.old rows input.new
        × Prints (W.contents writer.old) output.old.page text (W.contents writer.new)
        output.new.page
        × Serves (both_rules S.FarTickets) world.old (Command.Load count) rows text world.new) }
    ensures err { IfErr result
        (λ fault. PrintsCut fault (λ said. ⊥) (W.contents writer.old) output.old.page
        (W.contents writer.new) output.new.page) }
    ensures stopped { IfErr result
        (λ fault. IfInput fault
        (Stops R.Read
        (λ behind rest. FailsBy (IsShort R.Read R.may_fail input.old input.new rest)
        (Some (Command.Load count)) behind) input.old input.new)) }
    ensures taken { IfErr result
        (λ fault. IfHalted fault
        (TakesFor R.Read (Some (Command.Load count)) input.old input.new)) }
    ensures faults { world.new.faults ≡ world.old.faults }
    ensures failed { IfErr result (λ fault. IsOfWrite fault output.new) }
    ensures asked { input.new.source.reads ≤ input.old.source.reads }
{
    let rows = input.bytes(output, writer, count as usize)?;
    let printed = load(alloc, world, input.text(rows)?, &mut output.reply);
    output.add_printed(printed)
}

/// Serves a step, and adds its reply to the output. Inlined, since most commands are steps.
#[inline(always)]
fn serve_step<S: FarStore, W: Sink>(
    world: &mut World<S>,
    step: Step,
    output: &mut Output<W>,
) -> Result<(), ShellFault>
    requires few { world.old.faults < 2 ^ 62 }
    ensures ok { OnOk result
        (IsReplied (both_rules S.FarTickets) world.old (Command.Step step) world.new output.old.page
        output.new.page) }
    ensures err { OnErr result (output.new.page ≡ output.old.page) }
    ensures memory { IfErr result (λ fault. fault ≡ ShellFault.Memory) }
    ensures faults { world.new.faults ≤ world.old.faults + 1 }
{
    let printed = take_step(world, step, &mut output.reply);
    output.add_printed(printed)
}

/// Serves `renew`, and adds its reply to the output.
fn serve_renewal<S: FarStore, A: Resources<S>, W: Sink>(
    resources: &A,
    world: &mut World<S>,
    capacity: u32,
    output: &mut Output<W>,
) -> Result<(), ShellFault>
    requires few { world.old.faults < 2 ^ 62 }
    ensures ok { OnOk result
        (IsReplied (both_rules S.FarTickets) world.old (Command.Renew capacity) world.new
        output.old.page output.new.page) }
    ensures err { OnErr result (output.new.page ≡ output.old.page) }
    ensures memory { IfErr result (λ fault. fault ≡ ShellFault.Memory) }
    ensures faults { world.new.faults ≤ world.old.faults + 1 }
{
    let printed = renew(resources, world, capacity, &mut output.reply);
    output.add_printed(printed)
}

/// Serves `recount`, and adds its reply to the output.
fn serve_recount<S: FarStore, A: Resources<S>, W: Sink>(
    resources: &A,
    world: &World<S>,
    aggregate: u32,
    output: &mut Output<W>,
) -> Result<(), ShellFault>
    ensures ok { OnOk result
        (IsReplied (both_rules S.FarTickets) world.now (Command.Recount aggregate) world.now
        output.old.page output.new.page) }
    ensures err { OnErr result (output.new.page ≡ output.old.page) }
    ensures memory { IfErr result (λ fault. fault ≡ ShellFault.Memory) }
{
    let printed = recount(resources, world, aggregate, &mut output.reply);
    output.add_printed(printed)
}

/// Serves `dump`, and prints the rows or the refusal.
fn serve_dump<S: FarStore, W: Sink>(
    world: &World<S>,
    output: &mut Output<W>,
    writer: &mut W,
) -> Result<(), ShellFault>
    ensures ok { OnOk result
        ((text : List ℕ)
        × Prints (W.contents writer.old) output.old.page text (W.contents writer.new)
        output.new.page
        × Serves (both_rules S.FarTickets) world.now Command.Dump [] text world.now) }
    ensures err { IfErr result
        (λ fault. PrintsCut fault (λ said. said ≡ listing_of (live world.now.state))
        (W.contents writer.old) output.old.page (W.contents writer.new) output.new.page) }
    ensures fault { IfErr result (λ fault. fault ≢ ShellFault.Input) }
    ensures failed { IfErr result (λ fault. IsOfWrite fault output.new) }
{
    let frame = world.frame();
    // For the proof: shows the invariant of the table.
    frame.keeps();
    dump(frame, output, writer)
}

/// Serves a command, taking the bytes of a load from the input, and prints its reply.
fn serve_command<S: FarStore, A: Resources<S>, R: Source + Drop, W: Sink>(
    resources: &A,
    world: &mut World<S>,
    command: Command,
    input: &mut Input<R>,
    output: &mut Output<W>,
    writer: &mut W,
) -> Result<(), ShellFault>
    requires few { world.old.faults < 2 ^ 62 }
    ensures ok { OnOk result
        ((rows : List ℕ) × (text : List ℕ) × Reads R.Read input.old rows input.new
        × Prints (W.contents writer.old) output.old.page text (W.contents writer.new)
        output.new.page
        × Serves (both_rules S.FarTickets) world.old command rows text world.new) }
    ensures err { IfErr result
        (λ fault. PrintsCut fault
        (λ said. (command ≡ Command.Dump) × (said ≡ listing_of (live world.old.state)))
        (W.contents writer.old) output.old.page (W.contents writer.new) output.new.page) }
    ensures stopped { IfErr result
        (λ fault. IfInput fault
        (Stops R.Read
        (λ behind rest. FailsBy (IsShort R.Read R.may_fail input.old input.new rest)
        (Some command) behind) input.old input.new)) }
    ensures taken { IfErr result
        (λ fault. IfHalted fault (TakesFor R.Read (Some command) input.old input.new)) }
    ensures faults { world.new.faults ≤ world.old.faults + 1 }
    ensures failed { IfErr result (λ fault. IsOfWrite fault output.new) }
    ensures asked { input.new.source.reads ≤ input.old.source.reads }
{
    match command {
        Command::Step(step) => serve_step(world, step, output),
        Command::Load(count) => serve_load(resources.alloc(), world, count, input, output, writer),
        Command::Dump => serve_dump(world, output, writer),
        Command::Renew(capacity) => serve_renewal(resources, world, capacity, output),
        Command::Recount(aggregate) => serve_recount(resources, world, aggregate, output),
    }
}

/// Prints `syntax command NUMBER`, the reply to a line that spells no command.
fn print_syntax<W: Sink>(output: &mut Output<W>, number: u32) -> Result<(), ShellFault>
    ensures ok { OnOk result
        (output.new.page ≡ output.old.page ++ numbered_text (codes "syntax command") number) }
    ensures err { OnErr result (output.new.page ≡ output.old.page) }
    ensures memory { IfErr result (λ fault. fault ≡ ShellFault.Memory) }
{
    output.reply.truncate(0);
    let printed = numbered(&mut output.reply, "syntax command", u64::from(number));
    output.add_printed(printed)
}

/// Answers a line. An empty line gets no reply and is not counted; any other is the next command.
pub fn answer_line<S: FarStore, A: Resources<S>, R: Source + Drop, W: Sink>(
    resources: &A,
    progress: &mut Progress<S>,
    line: ByteRange,
    input: &mut Input<R>,
    output: &mut Output<W>,
    writer: &mut W,
) -> Result<(), ShellFault>
    requires held { Holds R.Read input.old line }
    requires few { progress.old.number < 4294967295 }
    ensures ok { OnOk result
        (IsAnswered R.Read input.old line input.new (both_rules S.FarTickets) progress.old
        progress.new (W.contents writer.old) output.old.page (W.contents writer.new)
        output.new.page) }
    ensures err { IfErr result
        (λ fault. PrintsCut fault (IsListing progress.old (bytes_in R.Read input.old line))
        (W.contents writer.old) output.old.page (W.contents writer.new) output.new.page) }
    ensures stopped { IfErr result
        (λ fault. IfInput fault
        (StopsAtLine R.Read input.old line input.new R.may_fail progress.old)) }
    ensures taken { IfErr result
        (λ fault. IfHalted fault (TakesForLine R.Read input.old line input.new progress.old)) }
    ensures failed { IfErr result (λ fault. IsOfWrite fault output.new) }
    ensures asked { input.new.source.reads ≤ input.old.source.reads }
{
    if line.is_empty() {
        return Ok(());
    }
    // For the proof: shows that every ticket is of the world's store. The same below.
    progress.world.keeps();
    progress.number += 1;
    match parse(resources.alloc(), &mut progress.world, input.text(line)?) {
        Ok(Some(command)) => {
            let world = &mut progress.world;
            let served = serve_command(resources, world, command, input, output, writer);
            progress.world.keeps();
            served
        }
        Ok(None) => print_syntax(output, progress.number),
        Err(_) => Err(ShellFault::Memory),
    }
}
