#![tactic(auto)]
//! Runs a script from standard input, and writes its replies to standard output.
//!
//! The exit status is:
//!
//! - 0 at the end of the script, even if commands were refused;
//! - 2 if the first command opens no table and asks for no sessions;
//! - 3 if a read or a write fails, a line or a load is not valid UTF-8, or the script ends inside a load, is too long or
//!   needs too many reads;
//! - 4 if memory runs out;
//! - 5 if sessions give up on an edit.

use far_shell::{Fallible, run_script};
use std::io;
use std::process::ExitCode;

fn main(rt: HostRuntime) -> ExitCode {
    let mut writer = Fallible(io::writer(&rt));
    match run_script(&rt, Fallible(rt.reader()), &mut writer) {
        Ok(()) => ExitCode::SUCCESS,
        Err(fault) => ExitCode::from(fault.status()),
    }
}
