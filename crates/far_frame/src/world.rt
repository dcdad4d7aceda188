// A table with its store and jobs, on which lists of steps run.
ghost use Rattle.std.specs.Prelude.{◌≡◌, ℕ, ◌+◌, ◌<◌, ◌≤◌, ◌^◌, [], length, slice_get, IfOk, IfErr, OnOk, OnErr, IsOk};
ghost use Rattle.far_scopes.specs.Refusing.{refusal_in};
ghost use Rattle.far_rows.specs.Jobs.{AreAt};
ghost use Rattle.far_frame.specs.Lending.{IsReplyOf, lend_refusal, lent_part};
ghost use Rattle.far_frame.specs.Steps.{IsStep, IsRun};
ghost use Rattle.far_frame.specs.TableRefusals.{due};
ghost use Rattle.far_frame.specs.TableRuns.{IsTableStep, IsTableRun, FaultsOnlyIf};
ghost use Rattle.far_frame.specs.TableViews.{table_of};
ghost use Rattle.far_frame.specs.Worlds.{HasOwnTickets, IsSpent};

mod carrying;
mod delivering;
mod jobs;
mod lending;
mod recounting;
mod renewing;
mod serving;

use super::frame::Frame;
use super::step::{Reply, Step};
use super::waiting::Waiting;
use far_store::{FarStore, Meter};
use far_types::{Cell, Edit, Refusal};
use std::alloc::Global;
use std::marker::Model;

/// A table, the store for its objects, its jobs, and all else that a step can see or change.
///
/// Jobs are numbered 0, 1, 2, .. in the order in which they begin. The end of a job spends its number if the job is
/// accepted or stale.
///
/// Serves steps in order, with a reply to each, if few faults occurred before:
///
/// ```
/// fn run_few<S: FarStore>(world: &mut World<S>, steps: Vec<Step>) -> Result<Vec<Reply>, Refusal> {
///     if world.faults() < 9 && steps.len() < 99 {
///         run(world, steps)
///     } else {
///         Err(Refusal::FarFault)
///     }
/// }
/// ```
#[derive(Drop)]
pub struct World<S: FarStore> {
    alloc: Global,
    frame: Frame<S>,
    store: S,
    begun: u64,
    jobs: Waiting<S>,
    meter: Meter,
}

impl<S: FarStore> Model for World<S> {
    ghost use Rattle.far_frame.specs.Worlds.{World, IsWorld};

    ghost Value = { World S.Ticket };

    ghost view = { λ w. record {
      state = w.frame;
      store = S.store_id w.store;
      begun = w.begun;
      jobs = w.jobs;
      faults = w.meter;
    } };

    ghost invariant = { λ w. IsWorld S.is_of (S.store_id w.store) w.frame w.jobs };
}

impl<S: FarStore> World<S> {
    /// Makes a world of this table and this store, without jobs or faults. Allocates nothing, so it is never refused; an
    /// error would return the frame and the store, for those who match on both outcomes.
    pub fn new(alloc: Global, frame: Frame<S>, store: S) -> Result<World<S>, (Refusal, Frame<S>, S)>
        requires here { AreAt S.is_of (S.store_id store) frame.rows }
        ensures made { IsOk result }
        ensures new { IfOk result
            (λ world. world
            ≡ record
            { state = frame; store = S.store_id store; begun = 0; jobs = []; faults = 0 }) }
    {
        Ok(World {
            alloc,
            frame,
            store,
            begun: 0,
            jobs: Waiting::new(alloc),
            meter: Meter::new(),
        })
    }

    /// Returns the table. Allocates nothing.
    pub fn frame(&self) -> &Frame<S>
        ensures { result.now ≡ self.now.state }
    {
        &self.frame
    }

    /// Returns the store for the table's objects. All tickets of the rows are of this store. Allocates nothing.
    pub fn store(&self) -> &S
        ensures store_id { S.store_id result.now ≡ self.now.store }
        ensures here { AreAt S.is_of self.now.store self.now.state.rows }
    {
        &self.store
    }

    /// For the proof: shows that every ticket of the world is of its store. Does nothing.
    #[inline(always)]
    pub fn keeps(&self)
        ensures { HasOwnTickets S.is_of self.now }
    {
        let _store = &self.store;
    }

    /// Returns how many faults of its stores the world has counted since `new`. Allocates nothing.
    pub fn faults(&self) -> u64
        ensures { result ≡ self.now.faults }
    {
        self.meter.faults()
    }

    /// Takes cells that are no longer needed, whose memory the row of a later edit can reuse. Allocates nothing.
    pub fn spare_cells(&mut self) -> Vec<Cell>
        ensures { self.new ≡ self.old }
    {
        self.frame.spare_cells()
    }

    /// Serves an edit, as `serve` serves the step. No fault occurs.
    ///
    /// Inlined, so that a caller that knows the kind of its edit calls the code for that kind directly.
    #[inline(always)]
    pub fn edit(&mut self, edit: Edit) -> Reply
        ensures step { IsStep S.content S.number_of self.old (Step.Edit edit) result self.new }
        ensures table { IsTableStep (table_of self.old.state) (Step.Edit edit) result
            (table_of self.new.state) }
        ensures faults { self.new.faults ≡ self.old.faults }
    {
        // For the proof: shows the invariant of the table.
        self.frame.keeps();
        serving::edit(&mut self.frame, edit)
    }

    /// Has the same effect as the step `Lend`, without copying the values. Call it after reading the part through a view of
    /// the frame. Allocates nothing.
    ///
    /// Refused with the first of these that applies:
    ///
    /// - `NoColumn` (4): there is no such column.
    /// - `OutOfRange` (14): `from` is above `to`, or `to` is past the places.
    /// - `Absent` (16): the object of one of the row groups is away. The refusal names the first.
    ///
    /// A refused call changes nothing.
    pub fn record_lending(&mut self, column: u32, from: u32, to: u32) -> Result<(), Refusal>
        ensures ok { OnOk result
            ((given : Reply)
            × IsReplyOf (slice_get self.old.state.table.schema column)
            (lent_part self.old.state.table column from to) given
            × IsStep S.content S.number_of self.old (Step.Lend column from to) given self.new) }
        ensures refused { refusal_in result ≡ lend_refusal self.old.state.rows column from to }
        ensures due { refusal_in result ≡ due (table_of self.old.state) (Step.Lend column from to) }
        ensures err { OnErr result (self.new ≡ self.old) }
        ensures table { table_of self.new.state ≡ table_of self.old.state }
        ensures faults { self.new.faults ≡ self.old.faults }
    {
        // For the proof: shows the invariant of the table.
        self.frame.keeps();
        self.frame.record_lending(column, from, to)
    }

    /// Serves one step. It always has a reply. If that is a refusal, no row, column, aggregate or object changed. Every ticket
    /// is of the world's store, also one that a carry got.
    pub fn serve(&mut self, step: Step) -> Reply
        requires few { self.old.faults < 2 ^ 63 }
        ensures step { IsStep S.content S.number_of self.old step result self.new }
        ensures here { HasOwnTickets S.is_of self.new }
        ensures table { IsTableStep (table_of self.old.state) step result
            (table_of self.new.state) }
        ensures cause { FaultsOnlyIf S.may_fail step result }
        ensures faults { self.new.faults ≤ self.old.faults + 1 }
    {
        // For the proof: shows the invariant of the table.
        self.frame.keeps();
        let reply = self.serve_step(step);
        self.keeps();
        reply
    }

    /// Serves one step, by the function for its kind.
    #[inline(always)]
    fn serve_step(&mut self, step: Step) -> Reply
        requires few { self.old.faults < 2 ^ 63 }
        ensures step { IsStep S.content S.number_of self.old step result self.new }
        ensures cause { FaultsOnlyIf S.may_fail step result }
        ensures faults { self.new.faults ≤ self.old.faults + 1 }
    {
        match step {
            Step::Edit(edit) => self.edit(edit),
            Step::Watch(spec) => serving::watch(&mut self.frame, spec),
            Step::Unwatch(a) => serving::unwatch(&mut self.frame, a),
            Step::ScanGroup { aggregate, group } => {
                serving::scan_group(&mut self.frame, aggregate, group)
            }
            Step::Ask(a) => serving::ask(&self.frame, a),
            Step::Lend { column, from, to } => {
                lending::lend(&mut self.frame, self.alloc, column, from, to)
            }
            Step::Pin { column, group } => serving::pin(&mut self.frame, column, group),
            Step::Unpin { column, group } => serving::unpin(&mut self.frame, column, group),
            Step::BeginEvac { column, group } => self.begin_evac(column, group),
            Step::BeginFetch { column, group } => self.begin_fetch(column, group),
            Step::BeginOffload { aggregate, group } => self.begin_offload(aggregate, group),
            Step::Carry(n) => self.carry(n),
            Step::Commit(n) => self.commit(n),
            Step::Install(n) => self.install(n),
            Step::Merge(n) => self.merge(n),
            Step::Compact(kind, segment) => serving::compact(&mut self.frame, kind, segment),
            Step::Prefetch(column) => serving::prefetch(&self.frame, column),
        }
    }
}

/// Serves steps in order, with one reply to each. The replies and the new state are a run of the plain table from the old
/// one.
///
/// Edits, registrations, lendings, pins and every phase of evictions, fetches and offloaded builds may follow one another
/// in any order. After any list of steps:
///
/// - Each answer of an aggregate is its fold over the rows as they are.
/// - Each part that was lent is that part of its column.
/// - Each edit's reply is the plain list's.
/// - A refused step changes no row, column or answer.
/// - A spent number of a job stays spent.
/// - Every ticket is of the world's store.
///
/// Refused only with `NoMemory` (1), before any step. A refused call changes nothing.
pub fn run<S: FarStore>(world: &mut World<S>, steps: Vec<Step>) -> Result<Vec<Reply>, Refusal>
    requires few { world.old.faults + length steps.items < 2 ^ 63 }
    ensures run { IfOk result
        (λ replies. IsRun S.is_of S.content S.number_of world.old steps.items replies.items
        world.new) }
    ensures table { IfOk result
        (λ replies. IsTableRun (table_of world.old.state) steps.items replies.items
        (table_of world.new.state)) }
    ensures spent { (n : ℕ) → IsSpent n world.old → IsSpent n world.new }
    ensures unchanged { OnErr result (world.new ≡ world.old) }
    ensures memory { IfErr result (λ e. e ≡ Refusal.NoMemory) }
{
    let mut replies = Vec::with_capacity(*steps.allocator(), steps.len())?;
    for step in steps {
        let reply = world.serve(step);
        replies.push(reply).unwrap();
    }
    Ok(replies)
}
