// Tests of far_script: reading a script, and the sentences of faults.
use crate::cases::{Case, all_are_right, must_be};
use far_script::{Fallible, Input, Output, ShellFault, Sink, Source};
use far_types::Refusal;
use std::alloc::Global;
use std::io;

/// Two lines that one read brings.
const SCRIPT: &[u8] = b"schema 4 int\ninsert 1\n";

/// Returns how many reads and bytes are still allowed after two lines and the end of a script were read.
fn left_behind<R: Source + Drop, W: Sink>(
    input: &mut Input<R>,
    output: &mut Output<W>,
    replies: &mut W,
) -> Result<(u32, u32), ShellFault> {
    for _ in 0..3 {
        input.line(output, replies)?;
    }
    Ok((input.reads_left(), input.bytes_left()))
}

fn left_of(alloc: Global, script: &[u8]) -> Result<(u32, u32), ShellFault> {
    let mut input = Input::new(alloc, script)?;
    left_behind(&mut input, &mut Output::new(alloc), &mut io::sink())
}

#[test]
fn a_script_takes_its_reads_and_bytes_off_the_bounds(rt: HostRuntime) {
    let left = left_of(rt.alloc(), SCRIPT);
    must_be(&rt, left, Ok((1_048_574, 16_777_194)));
}

/// The prefix of two replies that a writer with space for 11 bytes takes.
const TAKEN: &[u8] = b"place 0\npla";

/// Writes two replies.
fn write_two<W: Sink>(alloc: Global, writer: &mut W) -> Result<(), ShellFault> {
    let mut output = Output::new(alloc);
    output.add_text("place 0\n")?;
    output.flush(writer)?;
    output.add_text("place 1\n")?;
    output.flush(writer)
}

#[test]
fn a_writer_that_takes_all_is_no_fault(rt: HostRuntime) {
    let ended = write_two(rt.alloc(), &mut io::sink());
    must_be(&rt, ended, Ok(()));
}

#[test]
fn a_writer_that_is_full_is_the_fault_output(rt: HostRuntime) {
    let mut bytes = [0; 11];
    let ended = write_two(rt.alloc(), &mut Fallible(&mut bytes[..]));
    must_be(&rt, ended, Err(ShellFault::Output));
    let taken = &bytes[..];
    assert!(&rt; taken == TAKEN);
}

/// A fault, and its sentence.
struct Printed(ShellFault, &'static str);

impl Case for Printed {
    fn is_right(&self, alloc: Global) -> Result<bool, Refusal> {
        let Printed(fault, text) = *self;
        let printed = format!(in alloc; "{fault}")?;
        Ok(printed.as_str() == text)
    }
}

static FAULTS: [Printed; 5] = [
    Printed(
        ShellFault::BadStart,
        "the first command opens no table and asks for no sessions",
    ),
    Printed(ShellFault::Input, "the script could not be read"),
    Printed(ShellFault::Output, "the replies could not be written"),
    Printed(ShellFault::Memory, "the shell is out of memory"),
    Printed(
        ShellFault::Turns,
        "sessions did not get their edits through",
    ),
];

#[test]
fn each_fault_says_what_it_is(rt: HostRuntime) {
    all_are_right(&rt, rt.alloc(), &FAULTS);
}
