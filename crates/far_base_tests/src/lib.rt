#![tactic(auto)]
//! Tests of the crates without objects: the words of the table and quotients (far_types), pointer words (far_pointer), encodings
//! (far_codec), far stores (far_store), local memory (far_log), proposals of row groups (far_prefetcher), scripts as text
//! (far_script), accumulators (far_groups, far_extrema), partial aggregates (far_offload), and edits (far_aggregates).

#[cfg(test)]
mod accumulators;
#[cfg(test)]
mod cases;
#[cfg(test)]
mod codec;
#[cfg(test)]
mod edits;
#[cfg(test)]
mod lines;
#[cfg(test)]
mod log;
#[cfg(test)]
mod offload;
#[cfg(test)]
mod pointer;
#[cfg(test)]
mod prefetcher;
#[cfg(test)]
mod reciprocal;
#[cfg(test)]
mod script;
#[cfg(test)]
mod store;
#[cfg(test)]
mod types;
