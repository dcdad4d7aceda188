#![tactic(auto)]
//! Computes aggregates over a row group whose columns are available, as lists of numbers or as far forms. `fold` and
//! `min_max_under` read the columns in place.
//!
//! If the columns are in the far store, an `OffloadJob` reads the contents of their tickets and folds the contents. Nothing
//! enters the local region.

mod column;
mod content;
mod filtering;
mod folding;
mod into;
mod job;
mod keys;
mod laws;
mod observing;
mod pairs;
mod partial;
mod plain;
mod under;

pub use column::Column;
pub use folding::fold;
pub use into::fold_into;
pub use job::OffloadJob;
pub use laws::columns_at_hand_give_the_pairs_of_their_places;
pub use observing::observe_into;
pub use partial::PartialDone;
pub use under::min_max_under;
