// Jobs, and the contents that go to the calling program and come back.
ghost use Rattle.std.specs.Prelude.{◌≡◌, ◌+◌, ◌<◌, ◌≤◌, ◌^◌, [], ◌∷◌, None, Some, IfErr, IfOk, OnErr, OnOk, length};
ghost use Rattle.far_store.specs.Faults.{faults_in, faults_of};
ghost use Rattle.far_rows.specs.Moving.{object_refusal};
ghost use Rattle.far_table.specs.Recounting.{IsAnswerNow};
ghost use Rattle.far_frame.specs.Delivering.{HasNoCollision, IsContentOf, wanted_by};
ghost use Rattle.far_frame.specs.Ending.{IsColdestBegun};
ghost use Rattle.far_frame.specs.Lending.{AreObserved, lend_refusal};
ghost use Rattle.far_frame.specs.Waiting.{without_job};
ghost use Rattle.far_frame.specs.Worlds.{IsNotBegun};
ghost use Rattle.far_rows.specs.Copies.{copy_of};
ghost use Rattle.far_c.specs.Contents.{content, matches, number_of};
ghost use Rattle.far_c.specs.Numbering.{IsRenumbered};

use super::Table;
use super::making::empty_world;
use far_frame::{Reply, Step, World};
use far_host::HostStore;
use far_types::{Answer, Kind, Limits, Refusal, Schema};
use std::alloc::Global;
use std::mem;

impl Table {
    ghost use Rattle.far_c.specs.Carrying.{OnWorld};
    ghost use Rattle.far_c.specs.Delivering.{WhyNoCopy, WhyNotTaken};
    ghost use Rattle.far_c.specs.Parts.{IsPartLent};
    ghost use Rattle.far_c.specs.Outcomes.{IsServed};
    ghost use Rattle.far_c.specs.Replies.{GivesDone};

    /// Carries the job with this number.
    pub fn carry(&mut self, job: u64) -> Reply
        requires { self.old.world.faults < 2 ^ 62 }
        ensures served { IsServed (Step.Carry job) result self.old self.new }
        ensures fits { GivesDone result }
    {
        self.world.carry_delivered(job)
    }

    /// Begins to evict the coldest object, as [`World::begin_coldest`] does.
    pub fn begin_coldest(&mut self) -> Result<Option<u64>, Refusal>
        ensures begun { IfOk result
            (λ n. OnWorld (λ old new. IsColdestBegun old n new) self.old self.new) }
        ensures refused { IfErr result
            (λ why. OnWorld (λ old new. IsNotBegun None old why new) self.old self.new) }
    {
        self.world.begin_coldest()
    }

    /// Drops the job with this number, as [`World::give_up_delivered`] does.
    pub fn give_up(&mut self, job: u64) -> Result<(), Refusal>
        ensures given_up { OnOk result
            (OnWorld (λ old new. new ≡ record old { jobs = without_job old.jobs job })
            self.old self.new) }
        ensures refused { IfErr result (λ why. why ≡ Refusal.StaleJob) }
        ensures err { OnErr result (self.new ≡ self.old) }
    {
        self.world.give_up_delivered(job)
    }

    /// Counts a fault of the storage, as [`World::fault`] does.
    pub fn fault(&mut self, job: u64) -> Refusal
        requires { self.old.world.faults < 2 ^ 62 }
        ensures counted { OnWorld
            (λ old new. new ≡ record old { faults = old.faults + faults_of result })
            self.old self.new }
    {
        self.world.fault(job)
    }

    /// Takes a content for a job, as [`World::deliver`] does.
    pub fn deliver(&mut self, job: u64, number: u64, bytes: &[u8]) -> Result<(), Refusal>
        requires few { self.old.world.faults < 2 ^ 62 }
        requires no_collision { HasNoCollision matches content
            (wanted_by number_of self.old.world job number) bytes.now }
        ensures content { OnOk result
            (IsContentOf content (wanted_by number_of self.old.world job number) bytes.now) }
        ensures refused { IfErr result
            (WhyNotTaken (wanted_by number_of self.old.world job number) bytes.now) }
        ensures counted { OnWorld
            (λ old new. new ≡ record old { faults = old.faults + faults_in result })
            self.old self.new }
    {
        self.world.deliver(job, number, bytes)
    }

    /// Takes the content of an object that is away, as [`World::deliver_copy`] does.
    pub fn deliver_copy(&mut self, column: u32, group: u32, bytes: &[u8]) -> Result<(), Refusal>
        requires few { self.old.world.faults < 2 ^ 62 }
        requires no_collision { HasNoCollision matches content
            (copy_of self.old.world.state.rows column group) bytes.now }
        ensures content { OnOk result
            (IsContentOf content (copy_of self.old.world.state.rows column group) bytes.now) }
        ensures refused { IfErr result
            (WhyNoCopy self.old.world.state.rows column group bytes.now) }
        ensures counted { OnWorld
            (λ old new. new ≡ record old { faults = old.faults + faults_in result })
            self.old self.new }
    {
        self.world.deliver_copy(column, group, bytes)
    }

    /// Computes the answer of an aggregate from scratch, as [`World::recount_alone`] does.
    pub fn recount(&mut self, aggregate: u32) -> Result<Answer, Refusal>
        requires { self.old.world.faults < 2 ^ 62 }
        ensures answer { IfOk result (IsAnswerNow self.old.world.state.table aggregate) }
        ensures none { OnOk result (self.new ≡ self.old) }
        ensures world { OnWorld
            (λ old new. new ≡ record old { faults = new.faults }) self.old self.new }
    {
        self.world.recount_alone(aggregate)
    }

    /// Records an access to an object, as [`World::saw`] does.
    pub fn saw(&mut self, column: u32, group: u32) -> Result<(), Refusal>
        ensures accesses { OnOk result
            (AreObserved column (group ∷ []) self.old.world.state self.new.world.state) }
        ensures world { OnWorld
            (λ old new. new ≡ record old { state = new.state }) self.old self.new }
        ensures refused { IfErr result
            (λ why. object_refusal self.old.world.state.rows column group ≡ Some why) }
        ensures err { OnErr result (self.new ≡ self.old) }
    {
        self.world.saw(column, group)
    }

    /// Records that a part of a column was read, as [`World::record_lending`] does.
    pub fn record_lending(&mut self, column: u32, from: u32, to: u32) -> Result<(), Refusal>
        ensures lent { OnOk result (IsPartLent column from to self.old self.new) }
        ensures within { OnOk result (to ≤ length self.old.world.state.table.places) }
        ensures refused { IfErr result
            (λ why. lend_refusal self.old.world.state.rows column from to ≡ Some why) }
        ensures err { OnErr result (self.new ≡ self.old) }
    {
        self.world.record_lending(column, from, to)
    }

    /// Continues with new numbers below `capacity`, as [`World::migrate`] does.
    #[tactic(auto, using(crate::proofs::Faults::few_faults))]
    pub fn migrate(&mut self, capacity: u64) -> Result<(), Refusal>
        requires { self.old.world.faults < 2 ^ 62 }
        ensures migrated { OnOk result (OnWorld (IsRenumbered capacity) self.old self.new) }
        ensures back { IfErr result
            (λ why. OnWorld
            (λ old new. new ≡ record old { faults = old.faults + faults_of why })
            self.old self.new) }
    {
        let store = HostStore::new(self.alloc, capacity)?;
        let old = mem::replace(&mut self.world, stand_in(self.alloc)?);
        match old.migrate(store) {
            Ok(new) => {
                drop(mem::replace(&mut self.world, new));
                Ok(())
            }
            Err((refusal, old)) => {
                drop(mem::replace(&mut self.world, old));
                Err(refusal)
            }
        }
    }
}

// Returns an empty table, which replaces the table of the handle while that is changed.
fn stand_in(alloc: Global) -> Result<World<HostStore>, Refusal>
    ensures faults { IfOk result (λ world. world.faults ≡ 0) }
    ensures memory { IfErr result (λ why. why ≡ Refusal.NoMemory) }
{
    let schema = Schema::new(Vec::from_array(alloc, [Kind::Int])?)?;
    let limits = Limits {
        group: 1,
        places: 1,
        edits: 1,
        int_segments: 1,
        int_size: 1,
        text_segments: 1,
        text_size: 64,
    };
    empty_world(alloc, schema, limits, 0)
}
