// Tests of far_types: what no clause says, and that calls succeed with ample memory.
mod answers;
mod clones;
mod examples;
mod lent;
mod limits;
mod pairs;
mod refusals;
mod samples;
