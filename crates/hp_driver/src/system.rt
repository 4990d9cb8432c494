//! A call of the program over the system.
use crate::ordering::run_tool_with_order;
use hp_io::{RealConsole, RealFolder, RealSink};
use std::alloc::Global;
use std::rt::Files;

/// Answers a call of the program with these words: over the files, standard input and output, and standard error of the system, with natives for `min` and `max`. The result is the status of the program.
pub fn run_on_system<F: Files + Drop, C: Input + Print + Drop, E: Print + Drop>(
    alloc: Global,
    words: &[String],
    files: F,
    streams: C,
    errors: E,
) -> u8 {
    let mut files = RealFolder::new(files);
    let mut console = RealConsole::new(streams);
    let mut diagnostics = RealSink::new(errors);
    run_tool_with_order(alloc, words, &mut files, &mut console, &mut diagnostics)
}
