// Tests of far_store: what no clause says, namely that calls are served, when a planned fault comes, and what threads see
// of one another.
mod agent;
mod carrying;
mod case;
mod engine;
mod faulty;
mod gate;
mod generic;
mod planned_engine;
mod script;
mod shelf_store;
mod threads;
