// Tests of far_evacuator: that calls succeed, which no clause says, and worked examples.
mod call;
mod fixture;
mod jobs;
mod stores;
