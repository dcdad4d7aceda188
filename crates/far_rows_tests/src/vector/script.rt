// Scripts: calls on a vector with their replies.
use far_types::Refusal;

/// A call with its expected reply.
pub type Line = (Call, Result<(), Refusal>);

/// A call on a vector, or a check.
pub enum Call {
    Push(i64),
    /// Sets the element at a place.
    Set(usize, i64),
    /// Overwrites the first element of a part in place.
    Overwrite(usize, usize, i64),
    /// Checks the element at a place.
    Get(usize, i64),
    /// Checks the elements of a part.
    Part(usize, usize, &'static [i64]),
    /// Checks the lengths of the pieces of a part.
    Pieces(usize, usize, &'static [usize]),
}

/// The refusal of a call that found something unexpected.
pub const WRONG: Refusal = Refusal::BadSpec;

/// Returns `Ok` if a check succeeded, and `WRONG` otherwise.
pub fn found(right: bool) -> Result<(), Refusal> {
    if right { Ok(()) } else { Err(WRONG) }
}

/// Returns `Ok` if a call returned the expected value, and `WRONG` if another. A refusal stays.
pub fn finds<T: PartialEq + Drop>(reply: Result<T, Refusal>, due: T) -> Result<(), Refusal> {
    match reply {
        Ok(value) => found(value == due),
        Err(refusal) => Err(refusal),
    }
}
