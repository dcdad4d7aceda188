// Partial aggregates.

use far_extrema::GroupExtrema;
use far_groups::LiveTotals;

/// The aggregate of the live places of one row group, to be merged into a whole aggregate.
#[derive(Drop)]
pub enum PartialDone {
    /// Counts and sums by key. No row group is pending in these totals.
    Totals(LiveTotals),
    /// The least and the greatest value by key.
    Extrema(GroupExtrema),
}
