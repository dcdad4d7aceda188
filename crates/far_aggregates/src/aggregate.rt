// One aggregate that is kept up to date.
use super::known::KnownExtrema;
use super::pending_groups::PendingGroups;
use far_groups::LiveTotals;
use far_types::Spec;

/// The running value of an aggregate over the rows of the scanned row groups.
#[derive(Drop)]
pub enum Accumulator {
    Totals(LiveTotals),
    Extrema(KnownExtrema),
}

/// A registered aggregate.
#[derive(Drop)]
pub struct Aggregate {
    pub spec: Spec,
    /// How many registrations were made before this one.
    pub registration: u64,
    pub pending: PendingGroups,
    pub accumulator: Accumulator,
}
