#![tactic(auto)]
//! Extrema by key that are kept up to date: the least and the greatest value of the rows folded under each key.
//!
//! They are kept for each row group. So if a row group loses a row, only its rows are read again.

mod dense;
pub mod group_extrema;
mod holder;
mod holders;
pub mod laws;
mod lines;
pub mod live_extrema;
mod min_max;
mod min_maxes;
mod number_tree;
mod numbers;
pub mod rows_left;
mod run;
mod runs;
mod texts;

pub use group_extrema::GroupExtrema;
pub use live_extrema::LiveExtrema;
pub use min_max::MinMax;
pub use rows_left::RowsLeft;
