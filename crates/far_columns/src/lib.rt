#![tactic(auto)]
//! Columns of numbers, and which places of a table are alive: vectors over far objects, with one object for each row group.

mod alive;
mod int_column;
pub mod laws;
mod lent;
mod pieces;
mod vector;

pub use alive::Alive;
pub use int_column::{
    IntColumn, fill_numbers, lend_numbers, may_push_numbers, push_numbers, unpush_numbers,
};
pub use lent::{Lent, Lents};
pub use pieces::Pieces;
pub use vector::FarVector;
