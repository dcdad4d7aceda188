#![tactic(auto)]
//! The types that every crate of the table shares: cells, rows, schemas, edits, aggregates, answers and refusals.
//!
//! `specs` defines the plain table, to which the contracts of all dependent crates refer.

pub mod answer;
pub mod cell;
pub mod cell_ref;
pub mod edit;
pub mod filter;
pub mod key;
pub mod laws;
pub mod lend_cells;
pub mod lent_row;
pub mod limits;
pub mod name;
pub mod pair_ref;
pub mod pairs;
mod prefix;
pub mod reciprocal;
pub mod refusal;
pub mod row;
pub mod schema;
pub mod spec;
pub mod text;

pub use answer::{Answer, ExtremaLines, TotalLines};
pub use cell::{Cell, Kind};
pub use cell_ref::CellRef;
pub use edit::Edit;
pub use filter::{Filter, Op, Test};
pub use key::{Key, clone_key};
pub use lend_cells::LendCells;
pub use lent_row::LentRow;
pub use limits::Limits;
pub use name::Name;
pub use pair_ref::{PairRef, number_key};
pub use reciprocal::Reciprocal;
pub use refusal::Refusal;
pub use row::Row;
pub use schema::Schema;
pub use spec::{Fold, Spec};
pub use text::Text;
