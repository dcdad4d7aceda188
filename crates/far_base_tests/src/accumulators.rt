// Tests of far_groups and far_extrema: that calls succeed with ample memory, which no clause says, worked examples, and the
// state after a failed allocation.
//
// A value under test is made in one function and lent to another that plays the case, so that no return of that drops it.
mod extrema;
mod live_extrema;
mod totals;
