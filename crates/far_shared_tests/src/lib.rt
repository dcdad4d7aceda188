#![tactic(auto)]
//! Tests of `far_shared`, of what no clause says: that calls are served, what threads see of one another, and that worked
//! examples have the expected results. A test names a scene: a table, a store and the role of each session, as data.
//! A job, a lock and a store are dropped by a call of `drop`: the proof of a function that drops one itself is long.

#[cfg(test)]
mod aggregates;
#[cfg(test)]
mod concurrent;
#[cfg(test)]
mod editing;
#[cfg(test)]
mod ending;
#[cfg(test)]
mod examples;
#[cfg(test)]
mod gates;
#[cfg(test)]
mod keyed;
#[cfg(test)]
mod lines;
#[cfg(test)]
mod looking;
#[cfg(test)]
mod objects;
#[cfg(test)]
mod opening;
#[cfg(test)]
mod phases;
#[cfg(test)]
mod plans;
#[cfg(test)]
mod playing;
#[cfg(test)]
mod refusals;
#[cfg(test)]
mod replies;
#[cfg(test)]
mod roles;
#[cfg(test)]
mod scenes;
#[cfg(test)]
mod serving;
#[cfg(test)]
mod signals;
#[cfg(test)]
mod stripes;
#[cfg(test)]
mod workers;
#[cfg(test)]
mod working;
