#![tactic(auto)]
//! The commands of the script language over a table: parses each line as a command, carries it out and prints the reply.

mod command;
mod lending;
mod listing;
mod loading;
mod opening;
mod pieces;
mod progress;
mod recounting;
mod renewing;
mod resources;
mod serve;

pub use command::Command;
pub use opening::open_table;
pub use progress::Progress;
pub use resources::{Agents, Resources};
pub use serve::answer_line;
