//! One call of the tool over objects in memory, or over the system.
use crate::bytes::add_text;
use crate::fields::{has_only, is_set, numbers_in, object_in, strings_in, text_in};
use crate::malformed::Malformed;
use crate::stream::Stream;
use hp_driver::{Answer, Extras, run_in_memory, run_on_system, run_tool, run_tool_with_order};
use hp_io::{MemConsole, MemFolder, MemSink};
use serde_json::Value;
use std::alloc::Global;
use std::rt::Files;

/// The fields of a row in which no call of the outside fails or is bounded.
const CALM_FIELDS: [&str; 3] = ["row", "files", "steps"];

/// The greatest number of bytes of each take.
fn gives(alloc: Global, row: &Value) -> Result<Vec<usize>, Malformed> {
    let mut gives = Vec::new(alloc);
    for number in numbers_in(alloc, row, "gives")? {
        gives.push(number as usize)?;
    }
    Ok(gives)
}

fn console(alloc: Global, row: &Value, step: &Value) -> Result<MemConsole, Malformed> {
    let gives = gives(alloc, row)?;
    let fails = numbers_in(alloc, row, "console_fails")?;
    Ok(MemConsole::new(text_in(alloc, step, "input")?, gives, fails))
}

fn file(alloc: Global, name: &str, text: &Value) -> Result<(String, Vec<u8>), Malformed> {
    let mut bytes = Vec::new(alloc);
    add_text(text, &mut bytes)?;
    Ok((String::from_str(alloc, name)?, bytes))
}

/// What a row's folder holds before its first step.
fn files(alloc: Global, row: &Value) -> Result<Vec<(String, Vec<u8>)>, Malformed> {
    let mut files = Vec::new(alloc);
    if let Some(held) = object_in(row, "files")? {
        for (name, text) in held.iter() {
            files.push(file(alloc, name.as_str(), text)?)?;
        }
    }
    Ok(files)
}

/// The folder of a row, before its first step.
pub fn folder(alloc: Global, row: &Value) -> Result<MemFolder, Malformed> {
    let fails = numbers_in(alloc, row, "folder_fails")?;
    Ok(MemFolder::new(files(alloc, row)?, fails))
}

/// Calls the tool over objects that may fail, or with natives.
fn call_over_objects(
    alloc: Global,
    row: &Value,
    step: &Value,
    words: &[String],
    files: &mut MemFolder,
) -> Result<Answer, Malformed> {
    let mut console = console(alloc, row, step)?;
    let mut sink = MemSink::new(numbers_in(alloc, row, "sink_fails")?);
    let status = if is_set(step, "natives") {
        run_tool_with_order(alloc, words, files, &mut console, &mut sink)
    } else {
        let extras = Extras::none(alloc);
        run_tool(&extras, words, files, &mut console, &mut sink)
    };
    Ok(Answer {
        said: console.said(alloc)?,
        diagnostics: Vec::from_slice(alloc, sink.bytes())?,
        status,
    })
}

/// Calls the tool as a step of a row says.
pub fn call(
    alloc: Global,
    row: &Value,
    step: &Value,
    files: &mut MemFolder,
) -> Result<Answer, Malformed> {
    let words = strings_in(alloc, step, "words")?;
    if is_set(step, "natives") || !has_only(row, &CALM_FIELDS) {
        return call_over_objects(alloc, row, step, words.as_slice(), files);
    }
    let input = text_in(alloc, step, "input")?;
    Ok(run_in_memory(alloc, words.as_slice(), files, input))
}

/// Calls the tool as a step of a row says, over the files of the system and streams that stand in for the standard ones.
pub fn call_on_system(rt: &(impl Files + AllocGlobal), step: &Value) -> Result<Answer, Malformed> {
    let alloc = rt.alloc();
    let words = strings_in(alloc, step, "words")?;
    let input = text_in(alloc, step, "input")?;
    let output = Stream::new(alloc, input.as_slice());
    let errors = Stream::new(alloc, &[]);
    let status = run_on_system(alloc, words.as_slice(), rt, &output, &errors);
    Ok(Answer {
        said: output.into_arrived(),
        diagnostics: errors.into_arrived(),
        status,
    })
}
