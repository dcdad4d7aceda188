// Tests of far_codec: forms known from the description of the format, and bytes that differ slightly from them.
mod case;
mod changed;
mod changes;
mod forms;
mod no_forms;
mod numbers;
mod texts;
