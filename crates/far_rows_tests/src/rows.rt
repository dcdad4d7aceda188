// Tests of far_rows, of what no clause says: that calls succeed while there is memory. What is pushed and set reads back
// while objects are evicted and fetched, and after the table moves to another store.
mod callers;
mod cases;
mod fixture;
mod look;
mod script;
