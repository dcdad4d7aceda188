// Scripts: calls on objects with their replies.
use far_scopes::ObjectLimits;
use far_types::Refusal;

/// A call with its expected reply.
pub type Line = (Call, Result<(), Refusal>);

/// A script for an empty collection of objects of numbers.
pub struct Script {
    /// A sentence that says what the script shows.
    pub name: &'static str,
    pub limits: ObjectLimits,
    pub lines: &'static [Line],
}

/// A script without lines.
pub const SCRIPT: Script = Script {
    name: "",
    limits: TWO_OF_FOUR,
    lines: &[],
};

/// Two segments of four numbers. Each object may be written twice and leave once.
pub const TWO_OF_FOUR: ObjectLimits = ObjectLimits {
    segments: 2,
    size: 4,
    max_writes: 2,
    leavings: 1,
};

/// A call on objects, or a check.
pub enum Call {
    /// Makes an object with this list, of this row group of column 0. Objects are numbered from 0.
    Create(u32, &'static [i64]),
    /// Changes an object.
    On(u32, Change),
    /// Checks that a fact holds for an object.
    Find(u32, Fact),
    /// Pins these objects as a scope. Its close removes this many pins.
    PinTogether([u32; 3], u32),
    /// Does the same, but removes a pin of the first object before the close.
    PinAndUnpin([u32; 3], u32),
    Compact(u32),
    /// Checks that this object is the coldest.
    Coldest(Option<u32>),
}

/// A change of an object.
pub enum Change {
    /// Overwrites the object's list by one of the same length.
    Write(&'static [i64]),
    /// Replaces the object's list, by the call that can replace several.
    Give(&'static [i64]),
    /// Pins the object this many times.
    Pin(u32),
    Touch,
    Leave,
    Arrive,
}

/// A fact about an object.
pub enum Fact {
    /// It is local, with this list.
    List(&'static [i64]),
    Version(u64),
    Pins(u32),
    Dirty(bool),
    /// Its far copy was put before the copy of this other object.
    PutBefore(u32),
}

/// The refusal of a call that found something unexpected.
pub const WRONG: Refusal = Refusal::BadSpec;

/// Returns `Ok` if a check succeeded, and `WRONG` otherwise.
pub fn found(right: bool) -> Result<(), Refusal> {
    if right { Ok(()) } else { Err(WRONG) }
}
