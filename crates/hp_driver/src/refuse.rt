//! Reports of what is refused before a trace begins.
ghost use Rattle.std.specs.Prelude.{◌≡◌, ◌≢◌, ℕ, List, [], IfOk};
ghost use Rattle.hp_io.specs.Told.{Grows};
ghost use Rattle.hp_compile.specs.declared.refusal.Place.TheVariants.{Whole};
ghost use Rattle.hp_compile.specs.declared.refusal.Refusal.TheVariants.{OutOfMemory};
ghost use Rattle.hp_driver.specs.Command.{no_node_line};
ghost use Rattle.hp_driver.specs.Compiled.{HasCircuit};
ghost use Rattle.hp_driver.specs.CompileErrors.{TellsCause};
ghost use Rattle.hp_driver.specs.Diagnostics.{contract_line, limit_line, too_long_line, refusal_line};
ghost use Rattle.hp_driver.specs.Ran.{ReportsOrNot};
ghost use Rattle.hp_verdicts.specs.declared.error.ContractErr.TheVariants as contract;
ghost use Rattle.hp_driver.specs.Faults.{PutFaults};
ghost use Rattle.hp_driver.specs.Status.{code_of};

use crate::compile_error::CompileErr;
use crate::diagnostic::{contract_line, refusal_line};
use crate::report::report;
use crate::status::Status;
use hp_base::{Limit, What};
use hp_compile::{Place, Refusal};
use hp_io::Sink;
use hp_verdicts::ContractErr;
use std::alloc::{AllocError, Global};

fn no_node_line_of(alloc: Global, node: &str) -> Result<Vec<u8>, AllocError>
    ensures { IfOk result (λ line. line.items ≡ no_node_line node.now) }
{
    let mut line = Vec::from_slice(alloc, b"E12 ")?;
    line.extend_from_slice(node.as_bytes())?;
    line.extend_from_slice(b"\n")?;
    Ok(line)
}

/// Reports that the program has no node of this name.
pub(crate) fn report_no_node<E: Sink>(alloc: Global, diag: &mut E, node: &str) -> Status
    ensures reports { ReportsOrNot (E.took diag.old) (E.took diag.new) (no_node_line node.now) 1 (code_of result) }
    ensures faults { PutFaults (code_of result) (E.faults diag.old) (E.faults diag.new) }
{
    match no_node_line_of(alloc, node) {
        Ok(line) => report(diag, line.as_slice(), Status::Refused),
        Err(_) => Status::NoMemory,
    }
}

/// Reports why a text is refused, or that there is no memory.
pub(crate) fn report_refusal<E: Sink>(alloc: Global, diag: &mut E, refusal: &Refusal) -> Status
    ensures reports { ReportsOrNot (E.took diag.old) (E.took diag.new) (refusal_line refusal.now) 1 (code_of result) }
    ensures no_memory { refusal.now ≡ OutOfMemory → (code_of result ≡ 6) × Grows (E.took diag.old) (E.took diag.new) [] }
    ensures faults { PutFaults (code_of result) (E.faults diag.old) (E.faults diag.new) }
{
    if let Refusal::OutOfMemory = refusal {
        return Status::NoMemory;
    }
    match refusal_line(alloc, refusal) {
        Ok(line) => report(diag, line.as_slice(), Status::Refused),
        Err(_) => Status::NoMemory,
    }
}

/// Reports why a contract is refused, or that there is no memory.
pub(crate) fn report_contract<E: Sink>(alloc: Global, diag: &mut E, error: &ContractErr) -> Status
    requires { error.now ≢ contract.NotBuilt }
    ensures reports { ReportsOrNot (E.took diag.old) (E.took diag.new) (contract_line error.now) 1 (code_of result) }
    ensures no_memory { error.now ≡ contract.OutOfMemory → (code_of result ≡ 6) × Grows (E.took diag.old) (E.took diag.new) [] }
    ensures faults { PutFaults (code_of result) (E.faults diag.old) (E.faults diag.new) }
{
    if let ContractErr::OutOfMemory = error {
        return Status::NoMemory;
    }
    match contract_line(alloc, error) {
        Ok(line) => report(diag, line.as_slice(), Status::Refused),
        Err(_) => Status::NoMemory,
    }
}

/// Reports why a text is not compiled, or that there is no memory.
pub(crate) fn report_uncompiled<E: Sink>(alloc: Global, diag: &mut E, error: &CompileErr) -> Status
    requires { HasCircuit error.now }
    ensures told { (line : List ℕ) × Grows (E.took diag.old) (E.took diag.new) line × TellsCause error.now line (code_of result) }
    ensures fails { code_of result ≢ 0 }
    ensures status { code_of result ≢ 4 }
    ensures faults { PutFaults (code_of result) (E.faults diag.old) (E.faults diag.new) }
{
    match error {
        CompileErr::Refused(refusal) => report_refusal(alloc, diag, refusal),
        CompileErr::Contract(cause) => report_contract(alloc, diag, cause),
        CompileErr::OutOfMemory => Status::NoMemory,
    }
}

/// Reports that a limit of the language is passed by a text as a whole.
pub(crate) fn report_limit<E: Sink>(alloc: Global, diag: &mut E, limit: Limit) -> Status
    ensures reports { ReportsOrNot (E.took diag.old) (E.took diag.new) (limit_line Whole limit) 1 (code_of result) }
    ensures faults { PutFaults (code_of result) (E.faults diag.old) (E.faults diag.new) }
{
    let refusal = Refusal::Limit {
        place: Place::Whole,
        limit,
    };
    report_refusal(alloc, diag, &refusal)
}

/// Reports that a text has more bytes than it may have.
pub(crate) fn report_too_long<E: Sink>(alloc: Global, diag: &mut E, what: What) -> Status
    ensures reports { ReportsOrNot (E.took diag.old) (E.took diag.new) (too_long_line what) 1 (code_of result) }
    ensures faults { PutFaults (code_of result) (E.faults diag.old) (E.faults diag.new) }
{
    let found = what.most() + 1;
    report_limit(alloc, diag, Limit { what, found })
}
