// Tests of far_log: scripts of calls on a region of numbers, and a caller that writes to the parts that it borrows.
mod cases;
mod order;
mod script;
mod writing;
