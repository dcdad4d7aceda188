// Tests of far_scopes: that calls succeed, which no clause says, and worked examples.
mod calls;
mod play;
mod script;
mod scripts;
