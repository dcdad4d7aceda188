#![tactic(auto)]
//! Pointer words: 64 bits that say where an object's elements are and what state they are in.

pub mod pointer;
pub mod word;

pub use pointer::{At, Pointer};
pub use word::Word;
