#![tactic(auto)]
//! Tests of the table, as scripts that one function plays call by call. Whatever a script of the shell can show is in
//! examples/, and tests/random-tables draws random scripts. A value that owns much is dropped by a call of `drop`: the
//! proof of a function that drops a table itself is long.

#[cfg(test)]
mod answers;
#[cfg(test)]
mod call;
#[cfg(test)]
mod migrating;
#[cfg(test)]
mod migrating_frames;
#[cfg(test)]
mod migrating_in_order;
#[cfg(test)]
mod moving;
#[cfg(test)]
mod opening;
#[cfg(test)]
mod over_a_log;
#[cfg(test)]
mod readers;
#[cfg(test)]
mod recounts;
#[cfg(test)]
mod repeating;
#[cfg(test)]
mod runs;
#[cfg(test)]
mod script;
#[cfg(test)]
mod two_tables;
#[cfg(test)]
mod worlds;
