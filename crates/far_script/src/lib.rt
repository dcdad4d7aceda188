#![tactic(auto)]
//! The script language as text, without a table: reads a script line by line, parses words, numbers and fields, and prints
//! answers.

pub mod bounded;
pub mod cut;
mod fallible;
mod fault;
pub mod field;
mod input;
pub mod lines;
mod number;
pub mod opening;
mod output;
mod page;
pub mod print;
mod record;
mod sink;
mod source;
pub mod verb;
pub mod watch;
mod words;

pub use fallible::Fallible;
pub use fault::ShellFault;
pub use input::{ByteRange, Input, Line};
pub use opening::{FirstLine, Opening};
pub use output::Output;
pub use page::Page;
pub use sink::Sink;
pub use source::Source;
pub use words::Words;
