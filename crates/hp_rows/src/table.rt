//! The rows of a table, and the line that is written for it.
use crate::fault::Fault;
use crate::fields::string_in;
use crate::malformed::Malformed;
use crate::row::run_row;
use hp_io::Folder;
use serde_json::Value;
use std::alloc::Global;
use std::io;
use std::rt::Files;

/// The most bytes of the file of a table.
const MAX_TABLE: usize = 16_777_216;

/// How many rows that do not hold are written at most.
const SHOWN: usize = 5;

/// How the file names of the tables begin whose rows the tool need not run yet.
const LATER: &str = "later";

/// How the file names of the tables begin whose rows must not hold: they show that the comparison can say no.
const REFUTED: &str = "refuted";

/// A row that does not hold, and why.
#[derive(Drop)]
struct Failure<'a> {
    row: &'a str,
    fault: Fault,
}

impl Failure<'_> {
    /// Whether the row cannot be run, whatever the tool does.
    fn is_malformed(&self) -> bool {
        matches!(self.fault, Fault::Malformed(_))
    }
}

fn read_table(alloc: Global, files: &mut impl Folder, table: &str) -> Result<Value, Malformed> {
    let name = format!(in alloc; "{table}.json")?;
    let mut text = Vec::new(alloc);
    files.read(name.as_str(), MAX_TABLE, &mut text)?;
    Ok(Value::from_slice(alloc, text.as_slice())?)
}

fn failures<'a>(
    rt: &(impl Files + AllocGlobal),
    rows: &'a [Value],
) -> Result<Vec<Failure<'a>>, Malformed> {
    let mut failures = Vec::new(rt.alloc());
    for row in rows {
        let name = string_in(row, "row")?;
        if let Err(fault) = run_row(rt, row) {
            failures.push(Failure { row: name, fault })?;
        }
    }
    Ok(failures)
}

fn report_failure(rt: &impl Eprint, table: &str, failure: &Failure<'_>) -> io::Result<()> {
    let row = failure.row;
    let fault = &failure.fault;
    eprintln!(rt; "{table}: the row `{row}` does not hold: {fault}")
}

fn report_failures(rt: &impl Eprint, table: &str, failures: &[Failure<'_>]) -> io::Result<()> {
    for failure in failures.iter().take(SHOWN) {
        report_failure(rt, table, failure)?;
    }
    let count = failures.len();
    eprintln!(rt; "{table}: rows that do not hold: {count}")
}

/// The line of a table whose rows the tool need not run yet: how many hold already.
fn report_later(
    rt: &(impl Print + Eprint),
    table: &str,
    count: usize,
    failures: &[Failure<'_>],
) -> io::Result<bool> {
    for failure in failures {
        if failure.is_malformed() {
            report_failure(rt, table, failure)?;
            return Ok(false);
        }
    }
    let held = count.saturating_sub(failures.len());
    println!(rt; "{table}: {held} of {count} rows hold already")?;
    Ok(true)
}

/// The line of a table whose rows must not hold.
fn report_refuted(
    rt: &(impl Print + Eprint),
    table: &str,
    count: usize,
    failures: &[Failure<'_>],
) -> io::Result<bool> {
    for failure in failures {
        if failure.is_malformed() {
            report_failure(rt, table, failure)?;
            return Ok(false);
        }
    }
    if failures.len() < count {
        eprintln!(rt; "{table}: a row holds that must not")?;
        return Ok(false);
    }
    println!(rt; "{table}: {count} rows are refuted")?;
    Ok(true)
}

/// The line of a table whose rows are to hold, or the first rows that do not.
fn report_rows(
    rt: &(impl Print + Eprint),
    table: &str,
    count: usize,
    failures: &[Failure<'_>],
) -> io::Result<bool> {
    if failures.is_empty() {
        println!(rt; "{table}: {count} rows hold")?;
        return Ok(true);
    }
    report_failures(rt, table, failures)?;
    Ok(false)
}

fn report_malformed(rt: &impl Eprint, table: &str, error: &Malformed) -> io::Result<bool> {
    eprintln!(rt; "{table}: {error}")?;
    Ok(false)
}

/// Whether the name of the file of the table at this path begins so.
fn is_named(table: &str, front: &str) -> bool {
    match table.rsplit_once('/') {
        Some((_, name)) => name.starts_with(front),
        None => table.starts_with(front),
    }
}

fn run_rows(
    rt: &(impl Files + Print + Eprint + AllocGlobal),
    table: &str,
    rows: &[Value],
) -> io::Result<bool> {
    match failures(rt, rows) {
        Ok(failures) if is_named(table, LATER) => {
            report_later(rt, table, rows.len(), failures.as_slice())
        }
        Ok(failures) if is_named(table, REFUTED) => {
            report_refuted(rt, table, rows.len(), failures.as_slice())
        }
        Ok(failures) => report_rows(rt, table, rows.len(), failures.as_slice()),
        Err(error) => report_malformed(rt, table, &error),
    }
}

/// Runs the table at this path, to which `.json` is added, and writes its line. It answers whether all of its rows hold that are to hold.
pub fn run_table(
    rt: &(impl Files + Print + Eprint + AllocGlobal),
    files: &mut impl Folder,
    table: &str,
) -> io::Result<bool> {
    let value = match read_table(rt.alloc(), files, table) {
        Ok(value) => value,
        Err(error) => return report_malformed(rt, table, &error),
    };
    match value.as_array() {
        Some(rows) if !rows.is_empty() => run_rows(rt, table, rows.as_slice()),
        _ => report_malformed(rt, table, &Malformed::NoTable),
    }
}
