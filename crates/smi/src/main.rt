//! `smi`: the program of the control hierarchy.
//!
//! `main` has the runtime. What the words of its command line ask for is said and done by `smi_program`.
#![tactic(auto)]

use smi_commands::status::no_memory;
use smi_program::{LastLine, fill_standard_places, program, tell_help, tell_more, words_of};
use std::io::IsTerminal;
use std::process::ExitCode;

fn main(rt: HostRuntime) -> ExitCode {
    fill_standard_places();
    let is_terminal = rt.stderr().is_terminal();
    let mut faults = LastLine::new(rt.stderr());
    let status = match words_of(&rt) {
        Ok(words) => {
            let (reader, writer, aside) = (rt.reader(), rt.stdout(), rt.stderr());
            let status = program(&rt, &words, reader, writer, &mut faults, aside);
            tell_more(&rt, &words, status, is_terminal, &mut faults)
        }
        Err(_) => no_memory(&mut faults).code(),
    };
    // If that can't be written there is nowhere left to say so.
    let _ = tell_help(status, is_terminal, &mut faults);
    ExitCode::from(status)
}
