//! The program `hept`: the commands over the real files, console and diagnostics. Invariant: the status is that of the top call. Used by people and scripts.
#![tactic(auto)]

use hp_driver::{Status, run_on_system};
use std::io::ErrorKind;
use std::process::ExitCode;
use std::rt::Env;
use std::{env, io};

/// The words behind the program's name.
fn words(rt: &(impl Env + AllocGlobal)) -> io::Result<Vec<String>> {
    let mut words = Vec::new(rt.alloc());
    for word in env::args(rt)?.skip(1) {
        words.push(word)?;
    }
    Ok(words)
}

fn main(rt: HostRuntime) -> ExitCode {
    let words = match words(&rt) {
        Ok(words) => words,
        Err(e) if e.kind() == ErrorKind::OutOfMemory => {
            return ExitCode::from(Status::NoMemory.code());
        }
        // Words that cannot be read are none of the forms.
        Err(_) => Vec::new(rt.alloc()),
    };
    ExitCode::from(run_on_system(rt.alloc(), words.as_slice(), &rt, &rt, rt.stderr()))
}
