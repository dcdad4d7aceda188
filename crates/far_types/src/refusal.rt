// Why a call was refused.
ghost use Rattle.std.specs.Prelude.{◌≡◌, codes};
ghost use Rattle.far_types.specs.Refusals.{number_of, name_of};

use std::alloc::{AllocError, AllocFailed};
use std::fmt;
use thiserror::Error;

/// Why a call was refused. A refused call leaves rows, columns and answers as they were.
///
/// If several refusals apply, a call returns the first in this order: 2 to 10, 12 to 15, 20, 16, 11, 17 to 19, 21, 22, 24, 1. There is
/// no number 23. Two kinds of calls may return another refusal:
/// - A call of the lower layers that places several text objects (`push_texts`, `replace_all`) may return 1 before it checks for 17 or 24.
/// - An edit of a stripe returns 14 for the stripe before it checks the edit.
///
/// A refusal prints a sentence. This function returns `2: a table may not have this schema or these limits`:
///
/// ```
/// fn printed_of_no_column(alloc: Global) -> Result<String, Refusal> {
///     match Schema::new(Vec::new(alloc)) {
///         Ok(_) => Ok(String::new(alloc)),
///         Err(refusal) => Ok(format!(in alloc; "{}: {refusal}", refusal.number())?),
///     }
/// }
/// ```
#[derive(Debug, Drop, Clone, Copy, PartialEq, Eq, Error)]
pub enum Refusal {
    /// 1: out of memory: an allocation failed.
    NoMemory,
    /// 2: the schema or the limits are outside what a table may have.
    BadSchema,
    /// 3: more than 4 tests, a text constant of more than 4,096 bytes, or a gauge that is not totals without a key.
    BadSpec,
    /// 4: there is no such column.
    NoColumn,
    /// 5: a cell, a constant or a column is of the other kind.
    WrongKind,
    /// 6: a row has another number of cells than the schema.
    RowWidth,
    /// 7: a text cell has more than 4,096 bytes.
    TextTooLong,
    /// 8: there is no such place.
    NoRow,
    /// 9: the place is dead.
    RemovedRow,
    /// 10: the limit of places is reached.
    TableFull,
    /// 11: the far form of a text object would be longer than a text segment.
    ChunkFull,
    /// 12: no aggregate has this number.
    NoAggregate,
    /// 13: 32 aggregates are registered, or 2^32 registrations were made.
    TooManyAggregates,
    /// 14: an argument is out of range.
    OutOfRange,
    /// 15: this many row groups are still pending in the aggregate.
    Building(u32),
    /// 16: the object of this column and row group is not local.
    Absent { column: u32, group: u32 },
    /// 17: no segment of the local region has enough space; for a compaction: no other segment is empty.
    RegionFull,
    /// 18: the object has no pin.
    NotPinned,
    /// 19: the object has a pin.
    Pinned,
    /// 20: the conditions that the job or the scan depends on do not hold.
    StaleJob,
    /// 21: the far store failed in this call.
    FarFault,
    /// 22: the number drawn from the far store is not below its capacity.
    FarFull,
    /// 24: the limit of edits, of jobs, of writes to one object or of pins is reached.
    EditsUsedUp,
}

impl Refusal {
    /// Returns the number by which a script and its documentation name the refusal. Allocates nothing.
    pub fn number(&self) -> u32
        ensures { result ≡ number_of self.now }
    {
        match self {
            Refusal::NoMemory => 1,
            Refusal::BadSchema => 2,
            Refusal::BadSpec => 3,
            Refusal::NoColumn => 4,
            Refusal::WrongKind => 5,
            Refusal::RowWidth => 6,
            Refusal::TextTooLong => 7,
            Refusal::NoRow => 8,
            Refusal::RemovedRow => 9,
            Refusal::TableFull => 10,
            Refusal::ChunkFull => 11,
            Refusal::NoAggregate => 12,
            Refusal::TooManyAggregates => 13,
            Refusal::OutOfRange => 14,
            Refusal::Building(_) => 15,
            Refusal::Absent { .. } => 16,
            Refusal::RegionFull => 17,
            Refusal::NotPinned => 18,
            Refusal::Pinned => 19,
            Refusal::StaleJob => 20,
            Refusal::FarFault => 21,
            Refusal::FarFull => 22,
            Refusal::EditsUsedUp => 24,
        }
    }

    /// Returns the refusal's name, without what it carries. Allocates nothing.
    pub fn name(&self) -> &'static str
        ensures { result.now ≡ name_of self.now }
    {
        match self {
            Refusal::NoMemory => "NoMemory",
            Refusal::BadSchema => "BadSchema",
            Refusal::BadSpec => "BadSpec",
            Refusal::NoColumn => "NoColumn",
            Refusal::WrongKind => "WrongKind",
            Refusal::RowWidth => "RowWidth",
            Refusal::TextTooLong => "TextTooLong",
            Refusal::NoRow => "NoRow",
            Refusal::RemovedRow => "RemovedRow",
            Refusal::TableFull => "TableFull",
            Refusal::ChunkFull => "ChunkFull",
            Refusal::NoAggregate => "NoAggregate",
            Refusal::TooManyAggregates => "TooManyAggregates",
            Refusal::OutOfRange => "OutOfRange",
            Refusal::Building(_) => "Building",
            Refusal::Absent { .. } => "Absent",
            Refusal::RegionFull => "RegionFull",
            Refusal::NotPinned => "NotPinned",
            Refusal::Pinned => "Pinned",
            Refusal::StaleJob => "StaleJob",
            Refusal::FarFault => "FarFault",
            Refusal::FarFull => "FarFull",
            Refusal::EditsUsedUp => "EditsUsedUp",
        }
    }
}

/// Prints the refusal as a sentence, without a full stop. A script prints its number and its name instead.
impl fmt::Display for Refusal {
    ghost use Rattle.std.specs.Prelude.{Some};
    ghost use Rattle.far_types.specs.Sentences.{sentence_of};

    ghost output = { λ e. Some (sentence_of e) };

    fn fmt<W: fmt::Write>(&self, f: &mut fmt::Formatter<W>) -> fmt::Result {
        match self {
            Refusal::NoMemory => f.write_str("memory ran out"),
            Refusal::BadSchema => f.write_str("a table may not have this schema or these limits"),
            Refusal::BadSpec => f.write_str("the aggregate or the gauge is not an allowed one"),
            Refusal::NoColumn => f.write_str("there is no such column"),
            Refusal::WrongKind => f.write_str("a value is of another kind than its column"),
            Refusal::RowWidth => f.write_str("the row needs one cell for each column"),
            Refusal::TextTooLong => f.write_str("a text has more than 4,096 bytes"),
            Refusal::NoRow => f.write_str("there is no such place"),
            Refusal::RemovedRow => f.write_str("the row was removed"),
            Refusal::TableFull => f.write_str("the table has as many places as it may"),
            Refusal::ChunkFull => f.write_str("the row group's texts would not fit a segment"),
            Refusal::NoAggregate => f.write_str("no aggregate has this number"),
            Refusal::TooManyAggregates => f.write_str("no further aggregate may be registered"),
            Refusal::OutOfRange => f.write_str("a number is out of its range"),
            Refusal::Building(left) => write!(f, "row groups still to be scanned: {left}"),
            Refusal::Absent { column, group } => {
                write!(f, "column {column} of row group {group} is away")
            }
            Refusal::RegionFull => f.write_str("local memory has no room for the object"),
            Refusal::NotPinned => f.write_str("the object has no pin"),
            Refusal::Pinned => f.write_str("the object is pinned"),
            Refusal::StaleJob => f.write_str("what the job or the scan rests on does not hold"),
            Refusal::FarFault => f.write_str("the far store failed"),
            Refusal::FarFull => f.write_str("the far store is full"),
            Refusal::EditsUsedUp => f.write_str("no further edit, job, write or pin is allowed"),
        }
    }
}

impl From<AllocError> for Refusal {
    ghost use Rattle.far_types.specs.declared.refusal.Refusal.TheVariants.{NoMemory};

    ghost from_gives = { λ _ e. e ≡ NoMemory };

    fn from(_e: AllocError) -> Refusal {
        Refusal::NoMemory
    }
}

impl<T: Drop> From<AllocFailed<T>> for Refusal {
    ghost use Rattle.far_types.specs.declared.refusal.Refusal.TheVariants.{NoMemory};

    ghost from_gives = { λ _ e. e ≡ NoMemory };

    fn from(_e: AllocFailed<T>) -> Refusal {
        Refusal::NoMemory
    }
}
