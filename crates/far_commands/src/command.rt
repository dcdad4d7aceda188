// Parses lines as commands.
ghost use Rattle.std.specs.Prelude.{◌≡◌, IfOk, option_map};
ghost use Rattle.far_commands.specs.Commands.{lend_of, object_in, compact_of, movement_of, offload_of, command_of, insert_of, set_of, numbered, scan_of, command_by};
ghost use Rattle.far_script.specs.Watches.{spec_of};

use far_frame::{Step, World};
use far_script::Words;
use far_script::field::{kind_of, lone_cell, row};
use far_script::opening::read_kind;
use far_script::verb::{Movement, Verb, read_verb};
use far_script::watch::spec;
use far_store::FarStore;
use far_types::{Cell, Edit, Kind, Name};
use std::alloc::{AllocError, Global};

/// A command of a script, after the line that opens the table.
#[derive(Drop, Debug)]
pub enum Command {
    /// A step of the table: `insert CSV`, `set PLACE COLUMN CSV`, `remove PLACE`,
    /// `watch FOLD COLUMN [by COLUMN] [if COLUMN OPERATOR CONSTANT]..`, `unwatch AGGREGATE`, `scan AGGREGATE GROUP`,
    /// `ask AGGREGATE`, `lend COLUMN FROM TO`, `pin COLUMN GROUP`, `unpin COLUMN GROUP`, `evac COLUMN GROUP`,
    /// `fetch COLUMN GROUP`, `carry JOB`, `commit JOB`, `install JOB`, `compact KIND SEGMENT`, `prefetch COLUMN`,
    /// `offload AGGREGATE GROUP`, `merge JOB`
    Step(Step),
    /// `load BYTES`: inserts the rows in the bytes after the line
    Load(u32),
    /// `dump`
    Dump,
    /// `renew CAPACITY`: moves the far copies to a new store
    Renew(u32),
    /// `recount AGGREGATE`: computes the answer of an aggregate from scratch
    Recount(u32),
}

/// Reads `CSV`, which must be exactly one record.
fn insert(
    alloc: Global,
    spare: Vec<Cell>,
    kinds: &[Kind],
    words: Words,
) -> Result<Option<Command>, AllocError>
    ensures command { IfOk result (λ command. command ≡ insert_of kinds.now words.entry) }
{
    let Some(text) = words.rest() else {
        return Ok(None);
    };
    match row(alloc, spare, kinds, text)? {
        Some(row) => Ok(Some(Command::Step(Step::Edit(Edit::Insert(row))))),
        None => Ok(None),
    }
}

/// Reads `PLACE COLUMN CSV`, where `CSV` must be exactly one record of one field.
fn set(alloc: Global, kinds: &[Kind], mut words: Words) -> Result<Option<Command>, AllocError>
    ensures command { IfOk result (λ command. command ≡ set_of kinds.now words.entry) }
{
    let Some(place) = words.number() else {
        return Ok(None);
    };
    let Some(column) = words.number() else {
        return Ok(None);
    };
    let Some(text) = words.rest() else {
        return Ok(None);
    };
    match lone_cell(alloc, kind_of(kinds, column as usize), text)? {
        Some(cell) => Ok(Some(Command::Step(Step::Edit(Edit::Set {
            place,
            column,
            cell,
        })))),
        None => Ok(None),
    }
}

/// Reads `AGGREGATE GROUP`.
fn scan(mut words: Words) -> Option<Command>
    ensures { result ≡ scan_of words.entry }
{
    let aggregate = words.number()?;
    let group = words.last_number()?;
    Some(Command::Step(Step::ScanGroup { aggregate, group }))
}

/// Reads `COLUMN FROM TO`.
fn lend(mut words: Words) -> Option<Step>
    ensures { result ≡ lend_of words.entry }
{
    let column = words.number()?;
    let from = words.number()?;
    let to = words.last_number()?;
    Some(Step::Lend { column, from, to })
}

/// Reads `COLUMN GROUP`.
fn object(mut words: Words) -> Option<Name>
    ensures { result ≡ object_in words.entry }
{
    let column = words.number()?;
    let group = words.last_number()?;
    Some(Name { column, group })
}

/// Reads `KIND SEGMENT`.
fn compact(mut words: Words) -> Option<Step>
    ensures { result ≡ compact_of words.entry }
{
    let kind = read_kind(words.word()?)?;
    let segment = words.last_number()?;
    Some(Step::Compact(kind, segment))
}

/// Reads `AGGREGATE GROUP`.
fn offload(mut words: Words) -> Option<Step>
    ensures { result ≡ offload_of words.entry }
{
    let aggregate = words.number()?;
    let group = words.last_number()?;
    Some(Step::BeginOffload { aggregate, group })
}

/// Returns the step that a word about objects or jobs spells with the rest of its line.
fn movement_step(verb: Movement, words: Words) -> Option<Step>
    ensures { result ≡ movement_of verb words.entry }
{
    match verb {
        Movement::Lend => lend(words),
        Movement::Pin => {
            let Name { column, group } = object(words)?;
            Some(Step::Pin { column, group })
        }
        Movement::Unpin => {
            let Name { column, group } = object(words)?;
            Some(Step::Unpin { column, group })
        }
        Movement::Evac => {
            let Name { column, group } = object(words)?;
            Some(Step::BeginEvac { column, group })
        }
        Movement::Fetch => {
            let Name { column, group } = object(words)?;
            Some(Step::BeginFetch { column, group })
        }
        Movement::Carry => Some(Step::Carry(words.last_long_number()?)),
        Movement::Commit => Some(Step::Commit(words.last_long_number()?)),
        Movement::Install => Some(Step::Install(words.last_long_number()?)),
        Movement::Compact => compact(words),
        Movement::Prefetch => Some(Step::Prefetch(words.last_number()?)),
        Movement::Offload => offload(words),
        Movement::Merge => Some(Step::Merge(words.last_long_number()?)),
    }
}

/// Reads `PLACE`.
fn remove(words: Words) -> Option<Command>
    ensures { result
        ≡ numbered (λ place. Command.Step (Step.Edit (Edit.Remove place))) words.entry }
{
    let place = words.last_number()?;
    Some(Command::Step(Step::Edit(Edit::Remove(place))))
}

/// Reads `AGGREGATE`.
fn unwatch(words: Words) -> Option<Command>
    ensures { result ≡ numbered (λ a. Command.Step (Step.Unwatch a)) words.entry }
{
    let aggregate = words.last_number()?;
    Some(Command::Step(Step::Unwatch(aggregate)))
}

/// Reads `AGGREGATE`.
fn ask(words: Words) -> Option<Command>
    ensures { result ≡ numbered (λ a. Command.Step (Step.Ask a)) words.entry }
{
    let aggregate = words.last_number()?;
    Some(Command::Step(Step::Ask(aggregate)))
}

/// Reads `FOLD COLUMN [by COLUMN] [if COLUMN OPERATOR CONSTANT]..`.
fn watch(alloc: Global, kinds: &[Kind], words: Words) -> Result<Option<Command>, AllocError>
    ensures command { IfOk result
        (λ command. command
        ≡ option_map (λ spec. Command.Step (Step.Watch spec)) (spec_of kinds.now words.entry)) }
{
    match spec(alloc, kinds, words)? {
        Some(spec) => Ok(Some(Command::Step(Step::Watch(spec)))),
        None => Ok(None),
    }
}

/// Returns the command that a word about objects or jobs spells with the rest of its line.
fn movement(verb: Movement, words: Words) -> Option<Command>
    ensures { result ≡ option_map Command.Step (movement_of verb words.entry) }
{
    let step = movement_step(verb, words)?;
    Some(Command::Step(step))
}

/// Returns the command that a verb spells with the rest of its line.
fn complete(
    alloc: Global,
    spare: Vec<Cell>,
    kinds: &[Kind],
    verb: Verb,
    words: Words,
) -> Result<Option<Command>, AllocError>
    ensures command { IfOk result (λ command. command ≡ command_by kinds.now verb words.entry) }
{
    match verb {
        Verb::Insert => insert(alloc, spare, kinds, words),
        Verb::Set => set(alloc, kinds, words),
        Verb::Remove => Ok(remove(words)),
        Verb::Watch => watch(alloc, kinds, words),
        Verb::Unwatch => Ok(unwatch(words)),
        Verb::Scan => Ok(scan(words)),
        Verb::Ask => Ok(ask(words)),
        Verb::Load => match words.last_number() {
            Some(bytes) => Ok(Some(Command::Load(bytes))),
            None => Ok(None),
        },
        Verb::Move(verb) => Ok(movement(verb, words)),
        Verb::Dump => Ok(if words.is_empty() {
            Some(Command::Dump)
        } else {
            None
        }),
        Verb::Renew => match words.last_number() {
            Some(capacity) => Ok(Some(Command::Renew(capacity))),
            None => Ok(None),
        },
        Verb::Recount => match words.last_number() {
            Some(aggregate) => Ok(Some(Command::Recount(aggregate))),
            None => Ok(None),
        },
    }
}

/// Returns the cells in whose memory a row can be made. Only a row needs them: for any other command they stay with the world.
fn spare_for<S: FarStore>(alloc: Global, world: &mut World<S>, verb: Verb) -> Vec<Cell>
    ensures { world.new ≡ world.old }
{
    match verb {
        Verb::Insert => world.spare_cells(),
        _ => Vec::new(alloc),
    }
}

/// Parses a line as a command over the world's table; `None` if it spells none. A row reuses the memory of the row before it.
pub fn parse<S: FarStore>(
    alloc: Global,
    world: &mut World<S>,
    line: &str,
) -> Result<Option<Command>, AllocError>
    ensures command { IfOk result
        (λ command. command ≡ command_of world.old.state.table.schema line.now) }
    ensures same { world.new ≡ world.old }
{
    let mut words = Words::new(line);
    let Some(word) = words.word() else {
        return Ok(None);
    };
    let Some(verb) = read_verb(word) else {
        return Ok(None);
    };
    let spare = spare_for(alloc, world, verb);
    complete(alloc, spare, world.frame().schema().as_slice(), verb, words)
}
