#![tactic(auto)]
//! Totals by key that are kept up to date: the count and the sum of the rows folded under each key.

mod by_key;
mod count_sum;
mod count_sums;
mod dense;
mod folds;
mod joins;
mod key_tree;
pub mod laws;
pub mod live_totals;
mod tree_key;

pub use count_sum::{CountSum, NO_VALUES};
pub use count_sums::CountSums;
pub use folds::Pair;
pub use live_totals::LiveTotals;
