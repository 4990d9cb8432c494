//! A machine that is run on a trace, and the command `exec`, which reads a text of machines.
ghost use Rattle.std.specs.Prelude.{◌≢◌, ◌++◌, ℕ, List, codes};
ghost use Rattle.hp_io.specs.Told.{Grows};
ghost use Rattle.hp_obc.specs.Form.{TypesForm};
ghost use Rattle.hp_driver.specs.Diagnostics.{place_text, executor_line};
ghost use Rattle.hp_driver.specs.Follows.{ExecOf, MachinesOutcome, RefusedText, RefusedMachine};
ghost use Rattle.hp_driver.specs.Ran.{ReportsOrNot};
ghost use Rattle.hp_driver.specs.Faults.{TakeFaults, PutFaults, BothPutFaults};
ghost use Rattle.hp_driver.specs.Happened.{Happened};
ghost use Rattle.hp_driver.specs.Status.{code_of};

use crate::diagnostic::{executor_line, place_line};
use crate::execution::Execution;
use crate::refuse::{report_limit, report_no_node};
use crate::report::report;
use crate::resources::Resources;
use crate::run::run_trace;
use crate::status::Status;
use hp_base::{Limit, Span};
use hp_exec::ExecErr;
use hp_io::{Console, Sink};
use hp_native::{Answers, NativeExec};
use hp_obc::Obc;
use hp_obctext::{ObcErr, read_obc};
use std::alloc::Global;

/// Reports the place of the word for which a text is refused.
fn report_place<E: Sink>(alloc: Global, diag: &mut E, code: &[u8], at: Span) -> Status
    ensures reports { ReportsOrNot (E.took diag.old) (E.took diag.new) (code.now ++ (place_text at ++ codes "\n")) 8 (code_of result) }
    ensures faults { PutFaults (code_of result) (E.faults diag.old) (E.faults diag.new) }
{
    match place_line(alloc, code, at) {
        Ok(line) => report(diag, line.as_slice(), Status::NoMachines),
        Err(_) => Status::NoMemory,
    }
}

/// Reports why a text of machines is refused, or that there is no memory.
fn report_text<E: Sink>(alloc: Global, diag: &mut E, error: &ObcErr) -> Status
    ensures told { (line : List ℕ) × Grows (E.took diag.old) (E.took diag.new) line × RefusedText error.now line (code_of result) }
    ensures status { code_of result ≢ 4 }
    ensures faults { PutFaults (code_of result) (E.faults diag.old) (E.faults diag.new) }
{
    match error {
        ObcErr::Syntax { span } => report_place(alloc, diag, b"O1 ", *span),
        ObcErr::Form { span } => report_place(alloc, diag, b"O2 ", *span),
        ObcErr::Limit(limit) => report_limit(alloc, diag, *limit),
        ObcErr::OutOfMemory => Status::NoMemory,
    }
}

/// Reports that a machine passes a limit of what is executed.
pub(crate) fn report_large<E: Sink>(alloc: Global, diag: &mut E, limit: Limit) -> Status
    ensures reports { ReportsOrNot (E.took diag.old) (E.took diag.new) (executor_line limit) 1 (code_of result) }
    ensures faults { PutFaults (code_of result) (E.faults diag.old) (E.faults diag.new) }
{
    match executor_line(alloc, limit) {
        Ok(line) => report(diag, line.as_slice(), Status::Refused),
        Err(_) => Status::NoMemory,
    }
}

/// Reports why the machine of this name is not run, or that there is no memory.
pub(crate) fn report_machine<E: Sink>(
    alloc: Global,
    diag: &mut E,
    node: &str,
    error: ExecErr,
) -> Status
    ensures told { (line : List ℕ) × Grows (E.took diag.old) (E.took diag.new) line × RefusedMachine node.now error line (code_of result) }
    ensures fails { code_of result ≢ 0 }
    ensures status { code_of result ≢ 4 }
    ensures faults { PutFaults (code_of result) (E.faults diag.old) (E.faults diag.new) }
{
    match error {
        ExecErr::NoNode => report_no_node(alloc, diag, node),
        ExecErr::Limit(limit) => report_large(alloc, diag, limit),
        ExecErr::OutOfMemory => Status::NoMemory,
    }
}

/// Runs the machine of this name, among these machines, on the trace that the console gives.
pub(crate) fn run_machines<N: Answers, C: Console, E: Sink>(
    resources: &Resources<'_, N>,
    machines: &Obc,
    node: &str,
    console: &mut C,
    diag: &mut E,
) -> Status
    requires { TypesForm machines.now.types }
    ensures outcome { Happened (C.events console.old) (C.events console.new) (C.left console.old) (C.left console.new) (E.took diag.old) (E.took diag.new)
        (λ log line. MachinesOutcome machines.now node.now log line (code_of result)) }
    ensures takes { TakeFaults (code_of result) (C.take_faults console.old) (C.take_faults console.new) }
    ensures puts { BothPutFaults (code_of result) (C.put_faults console.old) (C.put_faults console.new) (E.faults diag.old) (E.faults diag.new) }
{
    let exec = match NativeExec::new(resources.alloc, machines, node, resources.natives) {
        Ok(exec) => exec,
        Err(error) => return report_machine(resources.alloc, diag, node, error),
    };
    let Ok(mut execution) = Execution::new(resources.alloc, exec) else {
        return Status::NoMemory;
    };
    run_trace(resources.alloc, &mut execution, console, diag)
}

/// Runs the machine of this name, of the text of machines that was read, on the trace that the console gives.
pub(crate) fn run_machine<N: Answers, C: Console, E: Sink>(
    resources: &Resources<'_, N>,
    text: &[u8],
    node: &str,
    console: &mut C,
    diag: &mut E,
) -> Status
    ensures outcome { Happened (C.events console.old) (C.events console.new) (C.left console.old) (C.left console.new) (E.took diag.old) (E.took diag.new)
        (λ log line. ExecOf text.now node.now log line (code_of result)) }
    ensures takes { TakeFaults (code_of result) (C.take_faults console.old) (C.take_faults console.new) }
    ensures puts { BothPutFaults (code_of result) (C.put_faults console.old) (C.put_faults console.new) (E.faults diag.old) (E.faults diag.new) }
{
    match read_obc(resources.alloc, text) {
        Ok(machines) => run_machines(resources, &machines, node, console, diag),
        Err(error) => report_text(resources.alloc, diag, &error),
    }
}
