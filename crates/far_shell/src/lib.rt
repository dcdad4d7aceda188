#![tactic(auto)]
//! Whole scripts: the first line opens a table, or asks for sessions that share one; then the script runs to its end.
//!
//! `far_script` has the language as text, and `far_commands` its commands over a table. Here `serving` answers a script over a table: it
//! reads the first line, opens the table, and answers the lines after it. `sessions` runs sessions on threads over one shared table: each
//! inserts rows on its home stripe, while a background worker evicts objects. When all have ended, the gauges and the answer are read, and
//! the table is closed, whose stripes confirm the answer.

mod first_line;
pub mod laws;
mod lines;
mod opening;
mod script;
mod serving;
mod sessions;
mod threads;

pub use far_script::{Fallible, Input, ShellFault, Sink, Source};
pub use first_line::first_command;
pub use script::{run_input, run_script};
pub use serving::serve_table;
pub use sessions::{Differing, Evictions, GaveUp, Outcome, Stop, run_sessions};
