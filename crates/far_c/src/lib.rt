#![tactic(auto)]
//! The table for C: one handle, and a call for each thing that a table can do.

mod aggregates;
mod answer;
mod cell;
mod code;
mod columns;
mod delivering;
mod edits;
mod handle;
mod jobs;
mod key_line;
mod lines;
mod loose;
mod moving;
mod numbers;
mod opening;
mod readers;
mod reading;
mod replies;
mod setting;
mod sorted_answer;
mod spec;
mod table;
mod texts;
mod unread;
mod words;
