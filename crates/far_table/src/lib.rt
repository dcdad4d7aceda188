#![tactic(auto)]
//! The rows of a table in the plain table's words, over objects that may be away. The crate decides which edits they accept and why one
//! is refused, and makes the edits. It lends row groups to aggregates, local or from their far copies.

mod contents;
mod copies;
mod extrema;
mod far_group;
mod faults;
mod mixed_group;
mod offload_build;
mod piece;
mod recounting;
mod row_group;
mod table_rows;
mod totals;

pub use copies::{are_copied, are_still, copies_of};
pub use far_group::FarGroup;
pub use offload_build::{OffloadBuild, OffloadCarried};
pub use recounting::{recount_alone, recount_rows};
pub use row_group::RowGroup;
pub use table_rows::TableRows;
