// Tests of far_columns and far_texts, of what no clause says: that calls succeed while there is memory. What is pushed and
// set reads back, in row groups of two places.
mod flags;
mod numbers;
mod texts;

use far_scopes::ObjectLimits;

/// Space for four objects, each of which may be written five times.
const LIMITS: ObjectLimits = ObjectLimits {
    segments: 4,
    size: 64,
    max_writes: 5,
    leavings: 1,
};
