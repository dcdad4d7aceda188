// Tests of far_offload: row groups that are folded from memory, and a job that is carried again after a fault.
mod cases;
mod folding;
mod jobs;
mod rows;
