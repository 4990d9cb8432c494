ghost use Rattle.std.specs.Prelude.{◌≡◌, ◌≢◌, ◌+◌, ◌<◌, ◌≤◌, ℕ, [], ◌++◌, length, take, codes, decimal, vec_len, vec_capacity, OnOk, OnErr};
ghost use Rattle.hp_io.specs.Faults.{Rose, Same};
ghost use Rattle.hp_io.specs.Told.{Grows};
ghost use Rattle.hp_driver.specs.BadLines.{bad_line_line};
ghost use Rattle.hp_driver.specs.Ran.{Reports};
ghost use Rattle.hp_driver.specs.Faults.{PutFaults};
ghost use Rattle.hp_driver.specs.Status.{code_of};

use crate::status::Status;
use crate::trace_limits::{BadLine, Fault};
use hp_io::{Failed, Sink};
use hp_lines::LineErr;
use itoa::Buffer;

/// The length that no line about a trace passes.
pub(crate) const LINE_ROOM: usize = 64;

/// Gives all of a text to the diagnostics, in as many puts as that takes.
fn tell<E: Sink>(diag: &mut E, text: &[u8]) -> Result<(), Failed>
    ensures ok { OnOk result (Grows (E.took diag.old) (E.took diag.new) text.now) }
    ensures err { OnErr result ((n : ℕ) × (n < length text.now) × Grows (E.took diag.old) (E.took diag.new) (take n text.now)) }
    ensures cause { OnErr result (Rose (E.faults diag.old) (E.faults diag.new)) }
    ensures no_cause { OnOk result (Same (E.faults diag.old) (E.faults diag.new)) }
{
    let mut done = 0;
    while done < text.len() {
        done += diag.put(&text[done..])?;
    }
    Ok(())
}

/// Gives a line to the diagnostics, and the status that goes with it.
pub(crate) fn report<E: Sink>(diag: &mut E, line: &[u8], status: Status) -> Status
    ensures reports { Reports (E.took diag.old) (E.took diag.new) line.now (code_of status) (code_of result) }
    ensures faults { code_of status ≢ 5 → PutFaults (code_of result) (E.faults diag.old) (E.faults diag.new) }
{
    match tell(diag, line) {
        Ok(()) => status,
        Err(_) => Status::WriteFailed,
    }
}

/// Reports that a line of the trace is refused. `line` has room for what is written, so no memory is taken.
pub(crate) fn report_bad_line<E: Sink>(diag: &mut E, line: &mut Vec<u8>, bad: BadLine) -> Status
    requires empty { line.old.items ≡ [] }
    requires room { LINE_ROOM ≤ vec_capacity line.old }
    ensures reports { Reports (E.took diag.old) (E.took diag.new) (bad_line_line bad) 3 (code_of result) }
    ensures faults { PutFaults (code_of result) (E.faults diag.old) (E.faults diag.new) }
{
    write_bad_line(line, bad);
    report(diag, line.as_slice(), Status::BadLine)
}

/// Writes the line of a line of the trace that is refused.
fn write_bad_line(into: &mut Vec<u8>, bad: BadLine)
    requires empty { into.old.items ≡ [] }
    requires room { LINE_ROOM ≤ vec_capacity into.old }
    ensures { into.new.items ≡ bad_line_line bad }
{
    match bad.fault {
        Fault::Line(LineErr::Word { word }) => {
            write_two(into, b"L1 ", bad.number, u64::from(word));
        }
        Fault::Line(LineErr::Count { found }) => write_two(into, b"L2 ", bad.number, found),
        Fault::Long => write_one(into, b"L3 ", bad.number),
        Fault::Many => write_one(into, b"L4 ", bad.number),
    }
}

/// Writes a line of a code and a number.
fn write_one(into: &mut Vec<u8>, code: &[u8], number: u64)
    requires { vec_len into.old + length code.now + 21 ≤ vec_capacity into.old }
    ensures { into.new.items ≡ into.old.items ++ (code.now ++ (decimal number ++ codes "\n")) }
{
    append(into, code);
    append_number(into, number);
    append(into, b"\n");
}

/// Writes a line of a code and two numbers.
fn write_two(into: &mut Vec<u8>, code: &[u8], first: u64, second: u64)
    requires { vec_len into.old + length code.now + 42 ≤ vec_capacity into.old }
    ensures { into.new.items ≡ into.old.items ++ (code.now ++ (decimal first ++ (codes " " ++ (decimal second ++ codes "\n")))) }
{
    append(into, code);
    append_number(into, first);
    append(into, b" ");
    append_number(into, second);
    append(into, b"\n");
}

/// Writes a number behind what a vector holds, where it has room.
fn append_number(into: &mut Vec<u8>, number: u64)
    requires { vec_len into.old + 20 ≤ vec_capacity into.old }
    ensures items { into.new.items ≡ into.old.items ++ decimal number }
    ensures len { vec_len into.new ≤ vec_len into.old + 20 }
    ensures capacity { vec_capacity into.old ≤ vec_capacity into.new }
{
    let mut digits = Buffer::new();
    append(into, digits.format(number).as_bytes());
}

/// Writes behind what a vector holds, where it has room.
fn append(into: &mut Vec<u8>, text: &[u8])
    requires { vec_len into.old + length text.now ≤ vec_capacity into.old }
    ensures items { into.new.items ≡ into.old.items ++ text.now }
    ensures len { vec_len into.new ≡ vec_len into.old + length text.now }
    ensures capacity { vec_capacity into.old ≤ vec_capacity into.new }
{
    if into.extend_from_slice(text).is_err() {
        unreachable!();
    }
}
