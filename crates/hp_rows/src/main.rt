//! A program beside the tool: it runs tables of rows, calls of the tool over objects in memory and over the system, with what each must do (`data/README.md`). Invariant: a row passes where the call did just that. Used by the gate alone.
#![tactic(auto)]

mod bytes;
mod call;
mod fault;
mod fields;
mod malformed;
mod row;
mod stream;
mod table;

use crate::table::run_table;
use hp_io::RealFolder;
use std::process::ExitCode;
use std::rt::{Env, Files};
use std::{env, io};

/// Runs the tables that the words name. It answers whether all rows hold that are to hold.
fn run_tables(rt: &(impl Env + Files + Print + Eprint + AllocGlobal)) -> io::Result<bool> {
    let mut files = RealFolder::new(rt);
    let mut all_hold = true;
    for table in env::args(rt)?.skip(1) {
        if !run_table(rt, &mut files, table.as_str())? {
            all_hold = false;
        }
    }
    Ok(all_hold)
}

fn main(rt: HostRuntime) -> ExitCode {
    match run_tables(&rt) {
        Ok(true) => ExitCode::SUCCESS,
        Ok(false) | Err(_) => ExitCode::FAILURE,
    }
}
