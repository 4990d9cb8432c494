//! The machines of programs, whose nodes choose the values of their controllable variables: they are run on a trace, with or without the values of contracts.
ghost use Rattle.std.specs.Prelude.{◌≡◌, ◌≢◌, ◌++◌, ℕ, List, None, codes, is_some, IfOk, IsSome, IsTrue};
ghost use Rattle.std.specs.String.{string_bytes};
ghost use Rattle.hp_controlled.specs.Chosen.{IsChosen, IsToldBy};
ghost use Rattle.hp_exec.specs.declared.error.ExecErr.TheVariants.{NoNode};
ghost use Rattle.hp_io.specs.Told.{Grows};
ghost use Rattle.hp_obc.specs.Form.{TypesForm, machine_named};
ghost use Rattle.hp_tree.specs.declared.program.Item.{Item};
ghost use Rattle.hp_verdicts.specs.Decided.{AreKept};
ghost use Rattle.hp_driver.specs.Faults.{TakeFaults, PutFaults, BothPutFaults};
ghost use Rattle.hp_driver.specs.Follows.{IsArrangedText, OrderedRun, OrderedTell, ChosenOutcome, NodeRun, NodeTold, RefusedChosen};
ghost use Rattle.hp_driver.specs.Happened.{Happened};
ghost use Rattle.hp_driver.specs.Status.{code_of};
ghost use Rattle.hp_driver.specs.Systems.{of_machine, that_tells};
ghost use Rattle.hp_driver.specs.declared.telling.Ending.TheVariants.{Told};

use crate::certificate::node_named;
use crate::compiling::{machines_do_what_programs_say, machines_of};
use crate::execution::Execution;
use crate::machines::report_large;
use crate::refuse::report_no_node;
use crate::resources::Resources;
use crate::run::run_trace;
use crate::status::Status;
use crate::telling::{Ending, Telling};
use hp_exec::ExecErr;
use hp_io::{Console, Sink};
use hp_native::{Answers, NativeExec};
use hp_obc::Obc;
use hp_tree::{Node, Program};
use law_controlled::nodes_have_their_machines;
use std::alloc::{AllocError, Global};

/// The name of the machine that also tells what the contract of a node assumes and enforces.
fn contract_name(alloc: Global, node: &str) -> Result<String, AllocError>
    ensures { IfOk result (λ name. string_bytes name ≡ node.now ++ codes "$contract") }
{
    let mut name = String::new(alloc);
    name.push_str(node)?;
    name.push_str("$contract")?;
    Ok(name)
}

/// Reports why the machine of a node, which is there, is not run, or that there is no memory.
pub(crate) fn report_choosing<E: Sink>(alloc: Global, diag: &mut E, error: ExecErr) -> Status
    requires { error ≢ NoNode }
    ensures told { (line : List ℕ) × Grows (E.took diag.old) (E.took diag.new) line × ((name : List ℕ) → RefusedChosen name error line (code_of result)) }
    ensures fails { code_of result ≢ 0 }
    ensures status { code_of result ≢ 4 }
    ensures faults { PutFaults (code_of result) (E.faults diag.old) (E.faults diag.new) }
{
    match error {
        ExecErr::NoNode => unreachable!(),
        ExecErr::Limit(limit) => report_large(alloc, diag, limit),
        ExecErr::OutOfMemory => Status::NoMemory,
    }
}

/// Runs the machine of this name on the trace that the console gives.
fn run_chosen<N: Answers, C: Console, E: Sink>(
    resources: &Resources<'_, N>,
    machines: &Obc,
    name: &str,
    console: &mut C,
    diag: &mut E,
) -> Status
    requires form { TypesForm machines.now.types }
    requires there { IsSome (machine_named machines.now.machines name.now) }
    ensures outcome { Happened (C.events console.old) (C.events console.new) (C.left console.old) (C.left console.new) (E.took diag.old) (E.took diag.new)
        (λ log line. ChosenOutcome (of_machine machines.now name.now) machines.now name.now log line (code_of result)) }
    ensures takes { TakeFaults (code_of result) (C.take_faults console.old) (C.take_faults console.new) }
    ensures puts { BothPutFaults (code_of result) (C.put_faults console.old) (C.put_faults console.new) (E.faults diag.old) (E.faults diag.new) }
{
    let exec = match NativeExec::new(resources.alloc, machines, name, resources.natives) {
        Ok(exec) => exec,
        Err(error) => return report_choosing(resources.alloc, diag, error),
    };
    let Ok(mut execution) = Execution::new(resources.alloc, exec) else {
        return Status::NoMemory;
    };
    run_trace(resources.alloc, &mut execution, console, diag)
}

/// Runs the machine of this name on the trace, and tells behind its outputs what is assumed and enforced.
fn tell_chosen<N: Answers, C: Console, E: Sink>(
    resources: &Resources<'_, N>,
    machines: &Obc,
    name: &str,
    ending: Ending,
    console: &mut C,
    diag: &mut E,
) -> Status
    requires form { TypesForm machines.now.types }
    requires there { IsSome (machine_named machines.now.machines name.now) }
    ensures outcome { Happened (C.events console.old) (C.events console.new) (C.left console.old) (C.left console.new) (E.took diag.old) (E.took diag.new)
        (λ log line. ChosenOutcome (that_tells ending machines.now name.now) machines.now name.now log line (code_of result)) }
    ensures takes { TakeFaults (code_of result) (C.take_faults console.old) (C.take_faults console.new) }
    ensures puts { BothPutFaults (code_of result) (C.put_faults console.old) (C.put_faults console.new) (E.faults diag.old) (E.faults diag.new) }
{
    let exec = match NativeExec::new(resources.alloc, machines, name, resources.natives) {
        Ok(exec) => exec,
        Err(error) => return report_choosing(resources.alloc, diag, error),
    };
    let Ok(mut telling) = Telling::new(resources.alloc, exec, ending) else {
        return Status::NoMemory;
    };
    run_trace(resources.alloc, &mut telling, console, diag)
}

/// Runs the machine of a node, which is among these under this name, on the trace that the console gives.
fn run_node<N: Answers, C: Console, E: Sink>(
    resources: &Resources<'_, N>,
    machines: &Obc,
    node: &Node,
    name: &str,
    console: &mut C,
    diag: &mut E,
) -> Status
    requires form { TypesForm machines.now.types }
    requires own { IsChosen name.now machines.now node.now }
    ensures outcome { Happened (C.events console.old) (C.events console.new) (C.left console.old) (C.left console.new) (E.took diag.old) (E.took diag.new)
        (λ log line. NodeRun machines.now node.now name.now log line (code_of result)) }
    ensures takes { TakeFaults (code_of result) (C.take_faults console.old) (C.take_faults console.new) }
    ensures puts { BothPutFaults (code_of result) (C.put_faults console.old) (C.put_faults console.new) (E.faults diag.old) (E.faults diag.new) }
{
    run_chosen(resources, machines, name, console, diag)
}

/// Runs the node of this name, of an ordered program whose contracts are kept, on the trace that the console gives.
pub(crate) fn run_choosing<N: Answers, C: Console, E: Sink>(
    resources: &Resources<'_, N>,
    ordered: &Program,
    node: &str,
    console: &mut C,
    diag: &mut E,
) -> Status
    requires arranged { (program : List Item) × IsArrangedText program ordered.now }
    requires kept { AreKept ordered.now ordered.now }
    ensures outcome { Happened (C.events console.old) (C.events console.new) (C.left console.old) (C.left console.new) (E.took diag.old) (E.took diag.new)
        (λ log line. OrderedRun node.now ordered.now log line (code_of result)) }
    ensures takes { TakeFaults (code_of result) (C.take_faults console.old) (C.take_faults console.new) }
    ensures puts { BothPutFaults (code_of result) (C.put_faults console.old) (C.put_faults console.new) (E.faults diag.old) (E.faults diag.new) }
{
    let Some(found) = node_named(ordered, node) else {
        return report_no_node(resources.alloc, diag, node);
    };
    // Laws: the machines do what the program says, and the node has a machine of its name.
    machines_do_what_programs_say();
    nodes_have_their_machines();
    match machines_of(resources.alloc, ordered) {
        Ok(machines) => run_node(resources, &machines, found, node, console, diag),
        Err(_) => Status::NoMemory,
    }
}

/// Runs the machine that also tells what the contract of a node of this name assumes and enforces.
fn tell_contract<N: Answers, C: Console, E: Sink>(
    resources: &Resources<'_, N>,
    machines: &Obc,
    name: &str,
    console: &mut C,
    diag: &mut E,
) -> Status
    requires form { TypesForm machines.now.types }
    requires there { IsSome (machine_named machines.now.machines (name.now ++ codes "$contract")) }
    ensures outcome { Happened (C.events console.old) (C.events console.new) (C.left console.old) (C.left console.new) (E.took diag.old) (E.took diag.new)
        (λ log line. ChosenOutcome (that_tells Told machines.now (name.now ++ codes "$contract")) machines.now (name.now ++ codes "$contract") log line (code_of result)) }
    ensures takes { TakeFaults (code_of result) (C.take_faults console.old) (C.take_faults console.new) }
    ensures puts { BothPutFaults (code_of result) (C.put_faults console.old) (C.put_faults console.new) (E.faults diag.old) (E.faults diag.new) }
{
    let Ok(told) = contract_name(resources.alloc, name) else {
        return Status::NoMemory;
    };
    tell_chosen(
        resources,
        machines,
        told.as_str(),
        Ending::Told,
        console,
        diag,
    )
}

/// Runs the node on the trace, and tells behind its outputs what its contract assumes and enforces: true for both where it has none.
fn tell_node<N: Answers, C: Console, E: Sink>(
    resources: &Resources<'_, N>,
    machines: &Obc,
    node: &Node,
    name: &str,
    console: &mut C,
    diag: &mut E,
) -> Status
    requires form { TypesForm machines.now.types }
    requires own { IsChosen name.now machines.now node.now }
    requires told { IsTrue (is_some node.now.contract) → IsToldBy (name.now ++ codes "$contract") machines.now node.now }
    ensures outcome { Happened (C.events console.old) (C.events console.new) (C.left console.old) (C.left console.new) (E.took diag.old) (E.took diag.new)
        (λ log line. NodeTold machines.now node.now name.now log line (code_of result)) }
    ensures takes { TakeFaults (code_of result) (C.take_faults console.old) (C.take_faults console.new) }
    ensures puts { BothPutFaults (code_of result) (C.put_faults console.old) (C.put_faults console.new) (E.faults diag.old) (E.faults diag.new) }
{
    match &node.contract {
        None => tell_chosen(resources, machines, name, Ending::Kept, console, diag),
        Some(_) => tell_contract(resources, machines, name, console, diag),
    }
}

/// Runs the node of this name, of an ordered program whose contracts are kept, on the trace, and tells behind its outputs what its contract assumes and enforces.
pub(crate) fn tell_choosing<N: Answers, C: Console, E: Sink>(
    resources: &Resources<'_, N>,
    ordered: &Program,
    name: &str,
    console: &mut C,
    diag: &mut E,
) -> Status
    requires arranged { (program : List Item) × IsArrangedText program ordered.now }
    requires kept { AreKept ordered.now ordered.now }
    ensures outcome { Happened (C.events console.old) (C.events console.new) (C.left console.old) (C.left console.new) (E.took diag.old) (E.took diag.new)
        (λ log line. OrderedTell name.now ordered.now log line (code_of result)) }
    ensures takes { TakeFaults (code_of result) (C.take_faults console.old) (C.take_faults console.new) }
    ensures puts { BothPutFaults (code_of result) (C.put_faults console.old) (C.put_faults console.new) (E.faults diag.old) (E.faults diag.new) }
{
    let Some(node) = node_named(ordered, name) else {
        return report_no_node(resources.alloc, diag, name);
    };
    // Laws: the machines do what the program says, and the node has a machine of its name, as has its contract.
    machines_do_what_programs_say();
    nodes_have_their_machines();
    match machines_of(resources.alloc, ordered) {
        Ok(machines) => tell_node(resources, &machines, node, name, console, diag),
        Err(_) => Status::NoMemory,
    }
}
