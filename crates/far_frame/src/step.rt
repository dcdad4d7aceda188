// Steps of a table, and the replies to them.
ghost use Rattle.std.specs.Prelude.{◌≡◌};
ghost use Rattle.far_frame.specs.Effects.{done_or};

use super::piece::{IntPiece, TextPiece};
use far_types::{Answer, Edit, Kind, Refusal, Spec};

/// One request to a table.
#[derive(Drop, Debug)]
pub enum Step {
    /// Edits the rows.
    Edit(Edit),
    /// Registers an aggregate under the lowest free number.
    Watch(Spec),
    /// Forgets an aggregate, by its number.
    Unwatch(u32),
    /// Scans the rows of a row group into an aggregate.
    ScanGroup {
        /// The aggregate.
        aggregate: u32,
        /// The row group.
        group: u32,
    },
    /// Asks for the answer of an aggregate, by its number.
    Ask(u32),
    /// Copies the cells of some places in a column, and records the accesses.
    Lend {
        /// The column.
        column: u32,
        /// The first place.
        from: u32,
        /// The place after the last.
        to: u32,
    },
    /// Adds a pin to the object of a row group of a column, which then cannot be evicted.
    Pin {
        /// The column.
        column: u32,
        /// The row group.
        group: u32,
    },
    /// Removes a pin from an object.
    Unpin {
        /// The column.
        column: u32,
        /// The row group.
        group: u32,
    },
    /// Begins to evict an object, as a job with the next number.
    BeginEvac {
        /// The column.
        column: u32,
        /// The row group.
        group: u32,
    },
    /// Begins to fetch an object, as a job with the next number.
    BeginFetch {
        /// The column.
        column: u32,
        /// The row group.
        group: u32,
    },
    /// Begins to scan a row group into an aggregate from the far copies of its columns, as a job with the next number.
    BeginOffload {
        /// The aggregate.
        aggregate: u32,
        /// The row group.
        group: u32,
    },
    /// Carries a job, by its number.
    Carry(u64),
    /// Ends a carried eviction, by the job's number: its object is away.
    Commit(u64),
    /// Ends a carried fetch, by the job's number: its object is local.
    Install(u64),
    /// Ends a carried offloaded build, by the job's number: its row group is scanned.
    Merge(u64),
    /// Compacts a segment of the objects of a kind.
    Compact(Kind, u32),
    /// Asks which row groups of a column to fetch next.
    Prefetch(u32),
}

/// The reply to a step. Each step has one.
#[derive(Drop, Debug)]
pub enum Reply {
    /// The place of an inserted row.
    Place(u32),
    /// The step is done and returns nothing.
    Done,
    /// The number of a registered aggregate.
    Aggregate(u32),
    /// The answer of an aggregate.
    Answer(Answer),
    /// A part of a column of numbers, as one piece for each of its row groups.
    Ints(Vec<IntPiece>),
    /// A part of a column of texts, as one piece for each of its row groups.
    Texts(Vec<TextPiece>),
    /// The number of a begun job.
    Job(u64),
    /// The row groups to fetch next.
    Next(Vec<u32>),
    /// Why the step was refused. The table and its objects did not change.
    Refused(Refusal),
}

impl Reply {
    /// Returns the reply for a call without result.
    pub(crate) fn done_or(outcome: Result<(), Refusal>) -> Reply
        ensures { result ≡ done_or outcome }
    {
        match outcome {
            Ok(()) => Reply::Done,
            Err(refusal) => Reply::Refused(refusal),
        }
    }
}
