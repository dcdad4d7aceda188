#![tactic(auto)]
//! Proposes what to fetch next: for each column, the row groups that continue the stride in which it was read.

mod history;
pub mod prefetcher;

pub use prefetcher::Prefetcher;
