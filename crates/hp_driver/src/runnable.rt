//! From a source text to the machine of a node that is to be run. What is refused is what `run` refuses.
ghost use Rattle.std.specs.Prelude.{◌≡◌, ◌≢◌, ℕ, List, [], Some, IfOk, IfErr};
ghost use Rattle.hp_compile.specs.Judged.{IsJudged};
ghost use Rattle.hp_controlled.specs.Chosen.{AreControlledMachines, IsChosen};
ghost use Rattle.hp_exec.specs.Answers.{Executes};
ghost use Rattle.hp_io.specs.Told.{Grows};
ghost use Rattle.hp_obc.specs.Form.{TypesForm};
ghost use Rattle.hp_tree.specs.Meaning.{node_among};
ghost use Rattle.hp_tree.specs.Programs as programs;
ghost use Rattle.hp_tree.specs.declared.program.Item.{Item};
ghost use Rattle.hp_verdicts.specs.Decided.{AreKept};
ghost use Rattle.hp_driver.specs.Faults.{PutFaults};
ghost use Rattle.hp_driver.specs.Follows.{DecidedOutcome, IsArrangedText, NodeRun, OrderedRun, OutcomeOf, ProgramOutcome};
ghost use Rattle.hp_driver.specs.Restoring.{Ends, RunDecided, RunProgram, RunText, ending};
ghost use Rattle.hp_driver.specs.Status.{code_of};
ghost use Rattle.hp_driver.specs.declared.words.Task.TheVariants as Task;

use crate::certificate::node_named;
use crate::choosing::report_choosing;
use crate::compiling::{machines_do_what_programs_say, machines_of};
use crate::refuse::{report_contract, report_no_node, report_refusal};
use crate::status::Status;
use hp_compile::{arrange, judge};
use hp_exec::Exec;
use hp_io::Sink;
use hp_obc::Obc;
use hp_tree::{Node, Program};
use hp_verdicts::decide;
use law_controlled::nodes_have_their_machines;
use law_decided::outcomes_are_so;
use std::alloc::Global;

/// A machine that is to be run, and the machines among which it stands.
#[derive(Drop)]
pub(crate) struct Runnable {
    pub machines: Obc,
    pub exec: Exec,
}

/// The machine of a node among these, or the status with which the call ends.
fn chosen_runnable<E: Sink>(
    alloc: Global,
    machines: Obc,
    node: &Node,
    name: &str,
    diag: &mut E,
) -> Result<Runnable, Status>
    requires { IsChosen name.now machines node.now }
    ensures runs { IfOk result (λ r. Executes r.machines name.now r.exec) }
    ensures machines { IfOk result (λ r. r.machines ≡ machines) }
    ensures chosen { IfOk result (λ r. IsChosen name.now machines node.now) }
    ensures told { (line : List ℕ) × Grows (E.took diag.old) (E.took diag.new) line × Ends (NodeRun machines node.now name.now []) result line }
    ensures fails { IfErr result (λ status. code_of status ≢ 0) }
    ensures status { IfErr result (λ status. code_of status ≢ 4) }
    ensures faults { PutFaults (ending result) (E.faults diag.old) (E.faults diag.new) }
{
    match Exec::new(alloc, &machines, name) {
        Ok(exec) => Ok(Runnable { machines, exec }),
        Err(error) => Err(report_choosing(alloc, diag, error)),
    }
}

/// The machine of the node of this name, in an ordered program whose contracts are kept, or the status with which the call ends.
fn choosing_runnable<E: Sink>(
    alloc: Global,
    ordered: &Program,
    node: &str,
    diag: &mut E,
) -> Result<Runnable, Status>
    requires arranged { (program : List Item) × IsArrangedText program ordered.now }
    requires kept { AreKept ordered.now ordered.now }
    ensures runs { IfOk result (λ r. Executes r.machines node.now r.exec) }
    ensures machines { IfOk result (λ r. AreControlledMachines ordered.now r.machines) }
    ensures chosen { IfOk result (λ r. (n : programs.Node) × (node_among ordered.now node.now ≡ Some n) × IsChosen node.now r.machines n) }
    ensures told { (line : List ℕ) × Grows (E.took diag.old) (E.took diag.new) line × Ends (OrderedRun node.now ordered.now []) result line }
    ensures fails { IfErr result (λ status. code_of status ≢ 0) }
    ensures status { IfErr result (λ status. code_of status ≢ 4) }
    ensures faults { PutFaults (ending result) (E.faults diag.old) (E.faults diag.new) }
{
    let Some(found) = node_named(ordered, node) else {
        return Err(report_no_node(alloc, diag, node));
    };
    // Laws: the machines do what the program says, and the node has a machine of its name.
    machines_do_what_programs_say();
    nodes_have_their_machines();
    match machines_of(alloc, ordered) {
        Ok(machines) => chosen_runnable(alloc, machines, found, node, diag),
        Err(_) => Err(Status::NoMemory),
    }
}

/// The machine of the node of this name, in a program, if its contracts are kept, or the status with which the call ends.
fn decided_runnable<E: Sink>(
    alloc: Global,
    program: &Program,
    ordered: &Program,
    node: &str,
    diag: &mut E,
) -> Result<Runnable, Status>
    requires { IsArrangedText program.now ordered.now }
    ensures runs { IfOk result (λ r. Executes r.machines node.now r.exec) }
    ensures form { IfOk result (λ r. TypesForm r.machines.types) }
    ensures are { IfOk result (λ r. RunDecided node.now program.now ordered.now r.machines) }
    ensures told { (line : List ℕ) × Grows (E.took diag.old) (E.took diag.new) line
        × Ends (DecidedOutcome (Task.Run node.entry) program.now ordered.now []) result line }
    ensures fails { IfErr result (λ status. code_of status ≢ 0) }
    ensures status { IfErr result (λ status. code_of status ≢ 4) }
    ensures faults { PutFaults (ending result) (E.faults diag.old) (E.faults diag.new) }
{
    // Laws: what is found of contracts says so of their games, and machines do what the program says.
    outcomes_are_so();
    machines_do_what_programs_say();
    if let Err(error) = decide(alloc, ordered) {
        return Err(report_contract(alloc, diag, &error));
    }
    choosing_runnable(alloc, ordered, node, diag)
}

/// The machine of the node of this name, in a program, if that can be arranged and its contracts are kept, or the status with which the call ends.
fn program_runnable<E: Sink>(
    alloc: Global,
    program: &Program,
    node: &str,
    diag: &mut E,
) -> Result<Runnable, Status>
    requires { (text : List ℕ) × IsJudged text program.now }
    ensures runs { IfOk result (λ r. Executes r.machines node.now r.exec) }
    ensures form { IfOk result (λ r. TypesForm r.machines.types) }
    ensures are { IfOk result (λ r. RunProgram node.now program.now r.machines) }
    ensures told { (line : List ℕ) × Grows (E.took diag.old) (E.took diag.new) line × Ends (ProgramOutcome (Task.Run node.entry) program.now []) result line }
    ensures fails { IfErr result (λ status. code_of status ≢ 0) }
    ensures status { IfErr result (λ status. code_of status ≢ 4) }
    ensures faults { PutFaults (ending result) (E.faults diag.old) (E.faults diag.new) }
{
    match arrange(alloc, program) {
        Ok(ordered) => decided_runnable(alloc, program, &ordered.program, node, diag),
        Err(refusal) => Err(report_refusal(alloc, diag, &refusal)),
    }
}

/// The machine of the node of this name, in the program of a source text, or the status with which the call ends.
pub(crate) fn runnable_of<E: Sink>(
    alloc: Global,
    text: &[u8],
    node: &str,
    diag: &mut E,
) -> Result<Runnable, Status>
    ensures runs { IfOk result (λ r. Executes r.machines node.now r.exec) }
    ensures form { IfOk result (λ r. TypesForm r.machines.types) }
    ensures are { IfOk result (λ r. RunText node.now text.now r.machines) }
    ensures told { (line : List ℕ) × Grows (E.took diag.old) (E.took diag.new) line × Ends (OutcomeOf (Task.Run node.entry) text.now []) result line }
    ensures fails { IfErr result (λ status. code_of status ≢ 0) }
    ensures status { IfErr result (λ status. code_of status ≢ 4) }
    ensures faults { PutFaults (ending result) (E.faults diag.old) (E.faults diag.new) }
{
    match judge(alloc, text) {
        Ok(program) => program_runnable(alloc, &program, node, diag),
        Err(refusal) => Err(report_refusal(alloc, diag, &refusal)),
    }
}
