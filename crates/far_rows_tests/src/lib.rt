#![tactic(auto)]
//! Tests of objects (far_scopes), of vectors over them (far_columns), of jobs that move them (far_evacuator), of columns
//! (far_columns, far_texts) and of rows (far_rows): that calls succeed, which no clause says, and worked examples.

#[cfg(test)]
mod cell;
#[cfg(test)]
mod columns;
#[cfg(test)]
mod evacuator;
#[cfg(test)]
mod fixtures;
#[cfg(test)]
mod rows;
#[cfg(test)]
mod scopes;
#[cfg(test)]
mod vector;
#[cfg(test)]
mod writing;
