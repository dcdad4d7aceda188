// What a pass knows of a history. These types exist only for proofs: no value of them is made.
use far_types::Edit;
use std::collections::LinkedList;

/// An edit of a history, and the number of the session that made it.
pub struct Entry {
    pub by: u64,
    pub edit: Edit,
}

/// What one pass knows: a pass may own the history, have a session, or both.
pub struct PassView {
    /// Whether the pass owns the history.
    pub keeps: bool,
    /// The history, if the pass owns it.
    pub all: LinkedList<Entry>,
    /// How many sessions were created, if the pass owns the history.
    pub given: u64,
    /// Whether the pass has a session.
    pub has_session: bool,
    /// The session's number.
    pub by: u64,
    /// The prefix of the history that the session has seen.
    pub seen: LinkedList<Entry>,
    /// The session's own entries.
    pub mine: LinkedList<Entry>,
}
