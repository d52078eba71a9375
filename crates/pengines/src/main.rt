//! Pengines: Prolog engines that serve clients, from the command line.
//!
//! `main` makes the real streams, hands them to [`run::run_plain`] and ends with the status that it
//! answers.
#![tactic(auto)]

mod checking;
mod command;
mod dialogue;
mod input;
mod leading;
mod output;
mod printing;
mod refusal;
mod run;
mod scripts;

use output::say;
use outside::{StdSink, StdSource};
use run::run_plain;
use std::env;
use std::io::ErrorKind;
use std::process::ExitCode;
use term_core::Memory;

/// The words after the program's name. Where they aren't text there are none, and no words are
/// refused.
fn words(rt: &HostRuntime) -> Result<Vec<String>, Memory> {
    match env::args(rt) {
        Ok(args) => Ok(args.skip(1).collect(rt.alloc())?),
        Err(error) if error.kind() == ErrorKind::OutOfMemory => Err(Memory),
        Err(_) => Ok(Vec::new(rt.alloc())),
    }
}

fn main(rt: HostRuntime) -> ExitCode {
    let mut src = StdSource::new(rt.stdin());
    let mut out = StdSink::new(rt.stdout());
    let mut err = StdSink::new(rt.stderr());
    let status = match words(&rt) {
        Ok(words) => run_plain(rt.alloc(), &words, &mut src, &mut out, &mut err),
        Err(Memory) => {
            say(&mut err, b"pengines: no memory\n");
            7
        }
    };
    ExitCode::from(status)
}

#[cfg(test)]
mod tests;
