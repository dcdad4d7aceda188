// The state that an open handle points to.
ghost use Rattle.std.specs.Prelude.{◌≡◌, ◌<◌, ◌≤◌, ◌^◌, ◌↔◌, [], None, Some, IfOk, IfErr, IsTrue, OnOk, OnErr, option_copied};
ghost use Rattle.far_types.specs.Refusals.{number_of as refusal_number};
ghost use Rattle.far_frame.specs.State.{empty_state};
ghost use Rattle.far_frame.specs.Steps.{IsStep};
ghost use Rattle.far_c.specs.Contents.{content, number_of};

mod carrying;
mod making;
mod reading_ahead;

use crate::code::{BAD_ARGUMENT, NO_UTF8, OK};
use crate::sorted_answer::SortedAnswer;
use crate::unread::Unread;
use far_frame::{Reply, Step, World};
use far_host::HostStore;
use far_types::{Answer, Cell, Edit, Limits, Refusal, Schema};
use making::empty_world;
use std::alloc::Global;
use std::marker::Model;

/// The number of counted faults after which no job is carried any more.
const MAX_FAULTS: u64 = 1 << 62;

/// A table with its jobs, over a store whose contents the calling program keeps; the answer whose lines may be read; and the last
/// refusal.
#[derive(Drop)]
pub struct Table {
    alloc: Global,
    world: World<HostStore>,
    answer: Option<SortedAnswer>,
    refusal: Option<Refusal>,
    // What `read_ahead` read, which is kept so that the compiler does not leave it out. Contracts do not see it.
    read: u64,
}

impl Model for Table {
    ghost use Rattle.std.specs.Prelude.{◌≤◌, ◌^◌};
    ghost use Rattle.far_c.specs.TableState.{TableState};

    ghost Value = { TableState };

    ghost view = { λ t. record { world = t.world; answer = t.answer; refusal = t.refusal } };

    ghost invariant = { λ t. t.world.faults ≤ 2 ^ 62 };
}

impl Table {
    ghost use Rattle.far_c.specs.Answering.{lines_in};
    ghost use Rattle.far_c.specs.TableState.{IsNew};
    ghost use Rattle.far_c.specs.Outcomes.{IsServed, IsRefusal, IsTurnedAway, refused_with};
    ghost use Rattle.far_c.specs.Keys.{Ascend, keys_of};
    ghost use Rattle.far_c.specs.Replies.{Fits, IsQuiet};

    /// Opens an empty table, with the numbers below `capacity` for its contents. Refused as [`Frame::open`] is.
    pub fn open(
        alloc: Global,
        schema: Schema,
        limits: Limits,
        capacity: u64,
    ) -> Result<Table, Refusal>
        ensures { IfOk result (IsNew schema limits capacity) }
    {
        let world = empty_world(alloc, schema, limits, capacity)?;
        Ok(Table {
            alloc,
            world,
            answer: None,
            refusal: None,
            read: 0,
        })
    }

    /// Borrows the table with its jobs.
    pub fn world(&self) -> &World<HostStore>
        ensures { result.now ≡ self.now.world }
    {
        &self.world
    }

    /// Serves a step that counts no fault.
    pub fn serve(&mut self, step: Step) -> Reply
        requires { IsQuiet step }
        ensures served { IsServed step result self.old self.new }
        ensures fits { Fits step result }
    {
        self.world.serve(step)
    }

    /// Serves an edit. It is inlined, so that a caller that knows the kind of its edit calls only the code for this kind.
    #[inline(always)]
    pub fn edit(&mut self, edit: Edit) -> Reply
        ensures served { IsServed (Step.Edit edit) result self.old self.new }
        ensures fits { Fits (Step.Edit edit) result }
    {
        self.world.edit(edit)
    }

    /// Returns the number of faults that were counted.
    pub fn faults(&self) -> u64
        ensures { result ≡ self.now.world.faults }
    {
        self.world.faults()
    }

    /// Returns whether a fault may still be counted.
    pub fn may_fault(&self) -> bool
        ensures { IsTrue result ↔ (self.now.world.faults < 2 ^ 62) }
    {
        self.world.faults() < MAX_FAULTS
    }

    /// Keeps a refusal, and returns its number.
    pub fn refuse(&mut self, refusal: Refusal) -> u32
        ensures code { result ≡ refusal_number refusal }
        ensures number { IsRefusal result }
        ensures kept { self.new ≡ refused_with self.old refusal }
    {
        self.refusal = Some(refusal);
        refusal.number()
    }

    /// Ends a call with this outcome: returns the number of a refusal, which is kept, or 0.
    pub fn end(&mut self, outcome: Result<(), Refusal>) -> u32
        ensures ok { OnOk outcome ((result ≡ 0) × (self.new ≡ self.old)) }
        ensures code { IfErr outcome (λ why. result ≡ refusal_number why) }
        ensures kept { IfErr outcome (λ why. self.new ≡ refused_with self.old why) }
        ensures number { OnErr outcome (IsRefusal result) }
    {
        match outcome {
            Ok(()) => OK,
            Err(refusal) => self.refuse(refusal),
        }
    }

    /// Ends a call with this outcome, as `end` does, and writes its value.
    pub fn give<T: Copy>(&mut self, outcome: Result<T, Refusal>, to: &mut T) -> u32
        ensures ok { IfOk outcome
            (λ given. (result ≡ 0) × (to.new ≡ given) × (self.new ≡ self.old)) }
        ensures code { IfErr outcome (λ why. result ≡ refusal_number why) }
        ensures kept { IfErr outcome (λ why. self.new ≡ refused_with self.old why) }
        ensures number { OnErr outcome (IsRefusal result × (to.new ≡ to.old)) }
    {
        let given = match outcome {
            Ok(given) => given,
            Err(refusal) => return self.refuse(refusal),
        };
        *to = given;
        OK
    }

    /// Ends a call whose arguments cannot be read.
    pub fn turn_away(&mut self, why: Unread) -> u32
        ensures { IsTurnedAway why result self.old self.new }
    {
        match why {
            Unread::BadArgument => BAD_ARGUMENT,
            Unread::NoUtf8 => NO_UTF8,
            Unread::NoMemory => self.refuse(Refusal::NoMemory),
        }
    }

    /// Returns cells that are no longer needed, whose memory the row of a later edit can reuse.
    pub fn spare_cells(&mut self) -> Vec<Cell>
        ensures { self.new ≡ self.old }
    {
        self.world.spare_cells()
    }

    /// Returns the last refusal, if there was one.
    pub fn refusal(&self) -> Option<Refusal>
        ensures { result ≡ self.now.refusal }
    {
        self.refusal
    }

    /// Borrows the answer in the handle.
    pub fn answer(&self) -> Option<&SortedAnswer>
        ensures { option_copied result ≡ self.now.answer }
    {
        self.answer.as_ref()
    }

    /// Keeps an answer in place of the earlier one, and returns the number of its lines.
    pub fn keep(&mut self, answer: Answer) -> usize
        requires { Ascend (keys_of answer) }
        ensures lines { result ≡ lines_in answer }
        ensures kept { self.new ≡ record self.old { answer = Some answer } }
    {
        let answer = SortedAnswer::new(answer);
        let lines = answer.len();
        self.answer = Some(answer);
        lines
    }
}
