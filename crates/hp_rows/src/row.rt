//! Whether a row holds: its calls, one after the other over one folder, against what it wants of each.
use crate::bytes::add_text;
use crate::call::{call, call_on_system, folder};
use crate::fault::{Fault, differs};
use crate::fields::{has_only, is_set, items_in, number_in, object_in, text_in};
use crate::malformed::Malformed;
use hp_driver::Answer;
use hp_io::{Folder, MemFolder};
use serde_json::Value;
use std::alloc::Global;
use std::rt::Files;

const ROW_FIELDS: [&str; 7] = [
    "row",
    "files",
    "steps",
    "gives",
    "console_fails",
    "folder_fails",
    "sink_fails",
];

const STEP_FIELDS: [&str; 11] = [
    "words",
    "system",
    "natives",
    "input",
    "said",
    "diagnostics",
    "begins",
    "status",
    "held",
    "not_held",
    "keep_rest",
];

fn compare(alloc: Global, part: &str, wanted: &[u8], found: &[u8]) -> Result<(), Fault> {
    if wanted == found {
        return Ok(());
    }
    Err(differs(alloc, part, wanted, found))
}

fn compare_said(alloc: Global, step: &Value, said: &[u8]) -> Result<(), Fault> {
    let wanted = text_in(alloc, step, "said")?;
    compare(alloc, "what is said", wanted.as_slice(), said)
}

/// All of the diagnostics, or how they begin.
fn compare_diagnostics(alloc: Global, step: &Value, found: &[u8]) -> Result<(), Fault> {
    if step.get("begins").is_none() {
        let wanted = text_in(alloc, step, "diagnostics")?;
        return compare(alloc, "the diagnostics", wanted.as_slice(), found);
    }
    let wanted = text_in(alloc, step, "begins")?;
    let front = &found[..wanted.len().min(found.len())];
    compare(alloc, "how the diagnostics begin", wanted.as_slice(), front)
}

/// The digits of a status, of which there is none above 255.
fn compare_status(alloc: Global, step: &Value, found: u8) -> Result<(), Fault> {
    let wanted = number_in(step, "status")?;
    if wanted == u64::from(found) {
        return Ok(());
    }
    match format!(in alloc; "the status: wanted {wanted}, found {found}") {
        Ok(text) => Err(Fault::Differs(text)),
        Err(_) => Err(Fault::Malformed(Malformed::OutOfMemory)),
    }
}

fn compare_file(alloc: Global, name: &str, text: &Value, files: &MemFolder) -> Result<(), Fault> {
    let mut wanted = Vec::new(alloc);
    add_text(text, &mut wanted)?;
    match files.file(name) {
        None => Err(differs(alloc, name, wanted.as_slice(), b"no file")),
        Some(found) => compare(alloc, name, wanted.as_slice(), found),
    }
}

fn compare_held(alloc: Global, step: &Value, files: &MemFolder) -> Result<(), Fault> {
    if let Some(held) = object_in(step, "held")? {
        for (name, text) in held.iter() {
            compare_file(alloc, name.as_str(), text, files)?;
        }
    }
    Ok(())
}

fn compare_not_held(alloc: Global, step: &Value, files: &MemFolder) -> Result<(), Fault> {
    let field = "not_held";
    for item in items_in(step, field)? {
        let Some(name) = item.as_str() else {
            return Err(Fault::Malformed(Malformed::Field(field)));
        };
        if let Some(found) = files.file(name) {
            return Err(differs(alloc, name, b"", found));
        }
    }
    Ok(())
}

/// What stands behind the first newline.
fn behind_first_line(text: &[u8]) -> &[u8] {
    match text.iter().position(|byte| *byte == b'\n') {
        Some(end) => &text[end + 1..],
        None => &[],
    }
}

/// Holds the diagnostics behind their first line under the name that the step gives, if it gives one.
fn keep_rest(step: &Value, diagnostics: &[u8], files: &mut MemFolder) -> Result<(), Malformed> {
    let Some(name) = step.get("keep_rest").and_then(Value::as_str) else {
        return Ok(());
    };
    files.write(name, behind_first_line(diagnostics))?;
    Ok(())
}

fn compare_done(
    alloc: Global,
    step: &Value,
    done: &Answer,
    files: &MemFolder,
) -> Result<(), Fault> {
    compare_status(alloc, step, done.status)?;
    compare_diagnostics(alloc, step, done.diagnostics.as_slice())?;
    compare_said(alloc, step, done.said.as_slice())?;
    compare_held(alloc, step, files)?;
    compare_not_held(alloc, step, files)
}

fn run_step(
    rt: &(impl Files + AllocGlobal),
    row: &Value,
    step: &Value,
    files: &mut MemFolder,
) -> Result<(), Fault> {
    if !has_only(step, &STEP_FIELDS) {
        return Err(Fault::Malformed(Malformed::UnknownField));
    }
    let alloc = rt.alloc();
    let done = if is_set(step, "system") {
        call_on_system(rt, step)?
    } else {
        call(alloc, row, step, files)?
    };
    compare_done(alloc, step, &done, files)?;
    Ok(keep_rest(step, done.diagnostics.as_slice(), files)?)
}

fn run_steps(
    rt: &(impl Files + AllocGlobal),
    row: &Value,
    files: &mut MemFolder,
) -> Result<(), Fault> {
    let steps = items_in(row, "steps")?;
    if steps.is_empty() {
        return Err(Fault::Malformed(Malformed::NoStep));
    }
    for step in steps {
        run_step(rt, row, step, files)?;
    }
    Ok(())
}

/// Runs a row. It fails with the first thing in which the row does not hold.
pub fn run_row(rt: &(impl Files + AllocGlobal), row: &Value) -> Result<(), Fault> {
    if !has_only(row, &ROW_FIELDS) {
        return Err(Fault::Malformed(Malformed::UnknownField));
    }
    let mut files = folder(rt.alloc(), row)?;
    run_steps(rt, row, &mut files)
}
