#![tactic(auto)]
//! The local region: lists of elements, called parts, in segments. Each part is appended after the one before it, as in a log.
//!
//! A `Region` allocates all its memory for elements when it is made:
//! - `place` appends a list to the lowest segment that has the space, after its last part.
//! - `part`, `part_mut` and `range_mut` borrow a part in place.
//! - `drop_at` drops a part. The space between parts is not reused until `compact` moves a segment's parts into an empty one.
//!
//! Contracts see a region as a list of segments. A segment has its parts (where each begins, and its elements) and its size:
//! `specs/RegionState.antt`. The changes of a region are defined in `specs/Effects.antt`.

mod block;
mod chunked_vec;
mod compaction;
mod extents;
mod fitting;
mod links;
mod part_entry;
mod region;
mod segments;
mod skip;
mod stacks;
mod table;

pub use compaction::Moved;
pub use region::Region;
