// Tests of vectors over far objects: that calls succeed, which no clause says, and a worked example.
mod calls;
mod play;
mod script;
mod scripts;
