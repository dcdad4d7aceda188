// The calls of cases.
use far_evacuator::Want;
use far_types::Refusal;

/// A call, with the list that it takes.
#[derive(Drop)]
pub enum Call<L> {
    Create(L),
    /// Changes one object.
    On(u32, Change<L>),
    Move(Phase),
}

/// A change of an object.
#[derive(Drop)]
pub enum Change<L> {
    /// Overwrites the object's list by one of the same length.
    Write(L),
    Replace(L),
    Pin,
    Unpin,
    Touch,
}

/// A phase of an eviction or of a fetch. A carry takes the job that was begun last, a commit or an install the one carried
/// last.
#[derive(Clone, Copy)]
pub enum Phase {
    Begin(Want),
    Carry,
    Commit,
    BeginFetch(u32),
    CarryFetch,
    Install,
}

/// Returns the reply of a call without result, with 0 for `Ok`.
pub fn done(reply: Result<(), Refusal>) -> Result<u32, Refusal> {
    match reply {
        Ok(()) => Ok(0),
        Err(refusal) => Err(refusal),
    }
}

/// Returns the refusal of a call on object `o` while it is away.
pub fn away(o: u32) -> Refusal {
    Refusal::Absent {
        column: 0,
        group: o,
    }
}
