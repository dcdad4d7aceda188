#![tactic(auto)]
//! Columns of texts: the texts of each row group are encoded as one far form, in an object that may be away.

pub mod laws;
mod text_column;

pub use text_column::{TextCell, TextCells, TextColumn, fill_texts, may_push_texts, push_texts};
