// An edit that the aggregates have begun.
ghost use Rattle.std.specs.Prelude.{◌≡◌, []};

use super::deltas::Delta;
use far_groups::Pair;
use std::alloc::Global;

/// The deltas that an edit applied, and the pairs to retract once the rows are changed. If the table refuses the edit, pass this
/// to `Aggregates::undo`. If the rows changed, pass it to `Aggregates::retract`. The result of `Aggregates::note_values` has no
/// deltas: pass it to `Aggregates::end` or to `Aggregates::replace`.
#[derive(Drop)]
pub struct Pending {
    pub(crate) group: u32,
    pub(crate) applied: Vec<Option<Delta>>,
    pub(crate) to_retract: Vec<Option<Pair>>,
}

impl Pending {
    /// Returns the row group of the edit. After `apply_deltas` it is 0 if no aggregate was ever registered, whatever row group
    /// the row is in. Allocates nothing.
    pub fn row_group(&self) -> u32
        ensures { result ≡ self.now.group }
    {
        self.group
    }

    /// Returns a `Pending` without a delta and without a pair. Allocates nothing.
    pub(crate) fn nothing(alloc: Global) -> Pending
        ensures applied { result.applied.items ≡ [] }
    {
        Pending {
            group: 0,
            applied: Vec::new(alloc),
            to_retract: Vec::new(alloc),
        }
    }
}
