#![tactic(auto)]
//! Keeps the aggregates of a table up to date under every edit. The crate does not know how rows are stored or where their
//! columns are. An edit passes its row. The owner of a row group's columns lends them.

mod aggregate;
pub mod aggregates;
mod answers;
mod changed;
mod deltas;
mod known;
pub mod laws;
mod leaving_out;
pub mod lend_group;
mod line;
mod needed;
mod pairs;
pub mod pending;
mod pending_groups;
mod readings;
mod recounting;
mod registrations;
mod replacing;
mod reserve;
mod retract;
mod scans;
mod spare_keys;
mod spare_lists;

pub use aggregates::Aggregates;
pub use lend_group::LendGroup;
pub use line::Line;
pub use pending::Pending;
pub use recounting::answer_of;
pub use registrations::group_count;
pub use scans::{observe_group, scan_totals};
