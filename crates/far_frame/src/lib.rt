#![tactic(auto)]
//! The table that programs use: its rows are in objects that can be evicted, its aggregates are kept up to date under every
//! edit, and whole lists of steps run on it.

pub mod frame;
pub mod job;
pub mod laws;
pub mod object;
pub mod piece;
pub mod space;
pub mod step;
pub mod view;
mod waiting;
pub mod world;

pub use frame::{Frame, READ_AHEAD, migrate};
pub use job::{Job, JobKind};
pub use object::ObjectState;
pub use piece::{IntPiece, TextPiece};
pub use space::Space;
pub use step::{Reply, Step};
pub use view::View;
pub use world::{World, run};
