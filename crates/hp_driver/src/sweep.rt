//! The command `sweep`: a program of some tasks of which one may be active at a time is made, compiled and run on a trace that is made too, and what was true is counted.
ghost use Rattle.std.specs.Prelude.{◌≡◌, ◌≢◌, ◌≤◌, ◌++◌, ◌+◌, ◌*◌, ℕ, List, [], length, take, drop, replicate, codes, decimal, IfOk, IsSome, MatchResult, OnOk};
ghost use Rattle.hp_exec.specs.Answers.{Executes};
ghost use Rattle.hp_exec.specs.Executors.{Runs, kept};
ghost use Rattle.hp_io.specs.Faults.{Same};
ghost use Rattle.hp_io.specs.Told.{Grows};
ghost use Rattle.hp_obc.specs.Form.{machine_named};
ghost use Rattle.hp_obc.specs.Steps.{Behaviour};
ghost use Rattle.hp_driver.specs.Command.{counted_line, spaced_numbers, summary_text};
ghost use Rattle.hp_driver.specs.Compiled.{IsCompiled};
ghost use Rattle.hp_driver.specs.Faults.{BothPutFaults, PutFaults};
ghost use Rattle.hp_driver.specs.Follows.{SweepOutcome};
ghost use Rattle.hp_driver.specs.Happened.{Happened};
ghost use Rattle.hp_driver.specs.Status.{code_of};
ghost use Rattle.hp_driver.specs.Stopping.{Stops, StopsAt};
ghost use Rattle.hp_driver.specs.Sweeping.{row, numbered, names_text, inputs_text, pair_text, apart_text, guarantee_text, results_text, call_text, task_text, outputs_text, heading_text, contract_text, body_text, tasks_text};
ghost use Rattle.hp_driver.specs.Sweeping.{is_input, inputs_at, one_more, counted, counts_behind, sweep_text, tasks_name, HasTasks};
ghost use Rattle.hp_driver.specs.Swept.{IsSwept};

use crate::compile_error::CompileErr;
use crate::compiling::compile;
use crate::machines::report_large;
use crate::refuse::report_uncompiled;
use crate::source::say_all;
use crate::status::Status;
use hp_base::{Limit, Value};
use hp_exec::{Exec, ExecErr};
use hp_io::{Console, Sink};
use hp_obc::Obc;
use itoa::Buffer;
use law_controlled::nodes_have_their_machines;
use std::alloc::{AllocError, Global};

/// How many tasks, and over how many instants.
#[derive(Clone, Copy, Debug)]
pub(crate) struct Sweep {
    pub tasks: u64,
    pub instants: u64,
}

/// A task: it waits where it is requested and not let run, and is active until it ends.
const TASK: &[u8] = b"node delayable(r, c, e : bool) returns (a, s : bool)
let
  automaton
    state Idle do a = false; s = r & c
      until r & c then Active | r & not c then Wait
    state Wait do a = false; s = c
      until c then Active
    state Active do a = true; s = false
      until e then Idle
  end
tel
";

/// The node that has the tasks, whose name is that of its machine.
const TASKS: &str = "tasks";

/// Why a sweep says nothing.
#[derive(Drop)]
pub(crate) enum Stop {
    /// The program of the tasks is not compiled.
    NotCompiled(CompileErr),
    /// The machine of the tasks passes a limit of what is executed.
    TooLarge(Limit),
    OutOfMemory,
}

impl From<AllocError> for Stop {
    ghost use Rattle.std.specs.Prelude.{◌≡◌};
    ghost use Rattle.hp_driver.specs.declared.sweep.Stop.TheVariants.{OutOfMemory};

    ghost from_gives = { λ _ e. e ≡ OutOfMemory };

    fn from(_error: AllocError) -> Stop {
        Stop::OutOfMemory
    }
}

impl From<CompileErr> for Stop {
    ghost use Rattle.std.specs.Prelude.{◌≡◌};
    ghost use Rattle.hp_driver.specs.declared.sweep.Stop.TheVariants.{NotCompiled};

    ghost from_gives = { λ cause e. e ≡ NotCompiled cause };

    fn from(cause: CompileErr) -> Stop {
        Stop::NotCompiled(cause)
    }
}

fn add(text: &mut Vec<u8>, piece: &[u8]) -> Result<(), AllocError>
    ensures { OnOk result (text.new.items ≡ text.old.items ++ piece.now) }
{
    text.extend_from_slice(piece)
}

fn add_number(text: &mut Vec<u8>, number: u64) -> Result<(), AllocError>
    ensures { OnOk result (text.new.items ≡ text.old.items ++ decimal number) }
{
    let mut buffer = Buffer::new();
    text.extend_from_slice(buffer.format(number).as_bytes())
}

/// Adds a name with the digit of a task.
fn add_name(text: &mut Vec<u8>, name: &[u8], task: u64) -> Result<(), AllocError>
    requires { task ≤ 9 }
    ensures { OnOk result (text.new.items ≡ text.old.items ++ numbered name.now task) }
{
    add(text, name)?;
    add_number(text, task)
}

/// Adds this name with the number of each task, with a comma between.
fn add_names(text: &mut Vec<u8>, name: &[u8], tasks: u64) -> Result<(), AllocError>
    requires some { 1 ≤ tasks }
    requires few { tasks ≤ 8 }
    ensures { OnOk result (text.new.items ≡ text.old.items ++ names_text name.now tasks) }
{
    add_name(text, name, 1)?;
    for i in 1..tasks {
        add(text, b", ")?;
        add_name(text, name, i + 1)?;
    }
    Ok(())
}

/// Adds the request and the end of a task.
fn add_pair_of_inputs(text: &mut Vec<u8>, task: u64) -> Result<(), AllocError>
    requires { task ≤ 8 }
    ensures { OnOk result (text.new.items ≡ text.old.items ++ inputs_text task) }
{
    add_name(text, b"r", task)?;
    add_name(text, b", e", task)
}

/// Adds the inputs: the request and the end of each task.
fn add_inputs(text: &mut Vec<u8>, tasks: u64) -> Result<(), AllocError>
    requires some { 1 ≤ tasks }
    requires few { tasks ≤ 8 }
    ensures { OnOk result (text.new.items ≡ text.old.items ++ row (codes ", ") inputs_text tasks) }
{
    add_pair_of_inputs(text, 1)?;
    for i in 1..tasks {
        add(text, b", ")?;
        add_pair_of_inputs(text, i + 1)?;
    }
    Ok(())
}

/// Adds that two tasks are not active at once.
fn add_pair(text: &mut Vec<u8>, other: u64, task: u64) -> Result<(), AllocError>
    requires other { other ≤ 9 }
    requires task { task ≤ 9 }
    ensures { OnOk result (text.new.items ≡ text.old.items ++ pair_text other task) }
{
    add_name(text, b"not (a", other)?;
    add_name(text, b" & a", task)?;
    add(text, b")")
}

/// Adds that the task behind so many others is active at once with none of them.
fn add_apart(text: &mut Vec<u8>, others: u64) -> Result<(), AllocError>
    requires some { 1 ≤ others }
    requires few { others ≤ 8 }
    ensures { OnOk result (text.new.items ≡ text.old.items ++ apart_text others) }
{
    add_pair(text, 1, others + 1)?;
    for i in 1..others {
        add(text, b" & ")?;
        add_pair(text, i + 1, others + 1)?;
    }
    Ok(())
}

/// Adds that no two tasks are active at once.
fn add_guarantee(text: &mut Vec<u8>, tasks: u64) -> Result<(), AllocError>
    requires some { 1 ≤ tasks }
    requires few { tasks ≤ 8 }
    ensures { OnOk result (text.new.items ≡ text.old.items ++ guarantee_text tasks) }
{
    if tasks < 2 {
        return add(text, b"true");
    }
    add_apart(text, 1)?;
    for i in 1..tasks - 1 {
        add(text, b" & ")?;
        add_apart(text, i + 1)?;
    }
    Ok(())
}

/// Adds what a task gives.
fn add_results(text: &mut Vec<u8>, task: u64) -> Result<(), AllocError>
    requires { task ≤ 8 }
    ensures { OnOk result (text.new.items ≡ text.old.items ++ results_text task) }
{
    add_name(text, b"  (a", task)?;
    add_name(text, b", s", task)?;
    add(text, b") = ")
}

/// Adds what a task takes.
fn add_call(text: &mut Vec<u8>, task: u64) -> Result<(), AllocError>
    requires { task ≤ 8 }
    ensures { OnOk result (text.new.items ≡ text.old.items ++ call_text task) }
{
    add_name(text, b"inlined delayable(r", task)?;
    add_name(text, b", c", task)?;
    add_name(text, b", e", task)?;
    add(text, b")")
}

/// Adds what a task does.
fn add_task(text: &mut Vec<u8>, task: u64) -> Result<(), AllocError>
    requires { task ≤ 8 }
    ensures { OnOk result (text.new.items ≡ text.old.items ++ task_text task) }
{
    add_results(text, task)?;
    add_call(text, task)
}

/// Adds what the tasks do.
fn add_tasks(text: &mut Vec<u8>, tasks: u64) -> Result<(), AllocError>
    requires some { 1 ≤ tasks }
    requires few { tasks ≤ 8 }
    ensures { OnOk result (text.new.items ≡ text.old.items ++ row (codes ";\n") task_text tasks) }
{
    add_task(text, 1)?;
    for i in 1..tasks {
        add(text, b";\n")?;
        add_task(text, i + 1)?;
    }
    Ok(())
}

/// Adds the outputs of the tasks: whether each is active, and whether each starts.
fn add_outputs(text: &mut Vec<u8>, tasks: u64) -> Result<(), AllocError>
    requires some { 1 ≤ tasks }
    requires few { tasks ≤ 8 }
    ensures { OnOk result (text.new.items ≡ text.old.items ++ outputs_text tasks) }
{
    add(text, b" : bool) returns (")?;
    add_names(text, b"a", tasks)?;
    add(text, b", ")?;
    add_names(text, b"s", tasks)?;
    add(text, b" : bool)\n")
}

/// Adds the inputs and outputs of the tasks.
fn add_heading(text: &mut Vec<u8>, tasks: u64) -> Result<(), AllocError>
    requires some { 1 ≤ tasks }
    requires few { tasks ≤ 8 }
    ensures { OnOk result (text.new.items ≡ text.old.items ++ heading_text tasks) }
{
    add(text, b"node tasks(")?;
    add_inputs(text, tasks)?;
    add_outputs(text, tasks)
}

/// Adds what is enforced, and by which variables.
fn add_contract(text: &mut Vec<u8>, tasks: u64) -> Result<(), AllocError>
    requires some { 1 ≤ tasks }
    requires few { tasks ≤ 8 }
    ensures { OnOk result (text.new.items ≡ text.old.items ++ contract_text tasks) }
{
    add(text, b"contract enforce ")?;
    add_guarantee(text, tasks)?;
    add(text, b" with (")?;
    add_names(text, b"c", tasks)?;
    add(text, b" : bool)\n")
}

/// Adds what all tasks do.
fn add_body(text: &mut Vec<u8>, tasks: u64) -> Result<(), AllocError>
    requires some { 1 ≤ tasks }
    requires few { tasks ≤ 8 }
    ensures { OnOk result (text.new.items ≡ text.old.items ++ body_text tasks) }
{
    add(text, b"let\n")?;
    add_tasks(text, tasks)?;
    add(text, b"\ntel\n")
}

/// Adds the program of so many tasks.
fn add_program(text: &mut Vec<u8>, tasks: u64) -> Result<(), AllocError>
    requires some { 1 ≤ tasks }
    requires few { tasks ≤ 8 }
    ensures { OnOk result (text.new.items ≡ text.old.items ++ tasks_text tasks) }
{
    add(text, TASK)?;
    add_heading(text, tasks)?;
    add_contract(text, tasks)?;
    add_body(text, tasks)
}

/// The program of so many tasks.
fn program_of(alloc: Global, tasks: u64) -> Result<Vec<u8>, AllocError>
    requires some { 1 ≤ tasks }
    requires few { tasks ≤ 8 }
    ensures { IfOk result (λ text. text.items ≡ tasks_text tasks) }
{
    let mut text = Vec::new(alloc);
    add_program(&mut text, tasks)?;
    Ok(text)
}

/// Whether a task is requested at an instant, or ends: every third, or every fourth instant.
fn is_input(place: usize, instant: u64) -> bool
    requires { instant ≤ 1000000 }
    ensures { result ≡ is_input place instant }
{
    let task = (place / 2) as u64 + 1;
    let every = if place % 2 == 0 { 3 } else { 4 };
    (instant + task) % every == 0
}

/// Fills in the inputs of an instant.
fn fill(instant: u64, inputs: &mut [Value])
    requires { instant ≤ 1000000 }
    ensures { inputs.new ≡ inputs_at instant (length inputs.old) }
{
    for i in 0..inputs.len() {
        inputs[i] = Value::B(is_input(i, instant));
    }
}

/// How often an output was true, behind one instant more.
fn one_more(count: u64, output: Value) -> u64
    ensures { result ≡ one_more count output }
{
    match output {
        Value::B(true) => count.saturating_add(1),
        _ => count,
    }
}

/// Counts which outputs are true.
#[tactic(auto, using(crate::proofs::SweepLaws::count_next))]
fn count(outputs: &[Value], counts: &mut [u64])
    requires { length counts.old ≡ length outputs.now }
    ensures { counts.new ≡ counted counts.old outputs.now }
{
    for i in 0..counts.len() {
        counts[i] = one_more(counts[i], outputs[i]);
    }
}

/// What the steps of a machine need, and how often each output was true.
#[derive(Drop)]
struct Room {
    inputs: Vec<Value>,
    outputs: Vec<Value>,
    counts: Vec<u64>,
}

impl Room {
    /// Room for so many inputs and outputs.
    fn new(alloc: Global, inputs: usize, outputs: usize) -> Result<Room, AllocError>
        ensures inputs { IfOk result (λ room. length room.inputs.items ≡ inputs) }
        ensures outputs { IfOk result (λ room. length room.outputs.items ≡ outputs) }
        ensures counts { IfOk result (λ room. room.counts.items ≡ replicate outputs 0) }
    {
        Ok(Room {
            inputs: vec![in alloc; Value::B(false); inputs]?,
            outputs: vec![in alloc; Value::B(false); outputs]?,
            counts: vec![in alloc; 0; outputs]?,
        })
    }

    /// Does one step of a machine, and counts which outputs are true.
    fn step(&mut self, exec: &mut Exec, instant: u64)
        requires inputs { length self.old.inputs.items ≡ length exec.old.signature.inputs }
        requires outputs { length self.old.outputs.items ≡ length exec.old.signature.outputs }
        requires counts { length self.old.counts.items ≡ length self.old.outputs.items }
        requires instant { instant ≤ 1000000 }
        ensures inputs { length self.new.inputs.items ≡ length self.old.inputs.items }
        ensures outputs { length self.new.outputs.items ≡ length self.old.outputs.items }
        ensures counts { length self.new.counts.items ≡ length self.old.counts.items }
        ensures signature { exec.new.signature ≡ exec.old.signature }
        ensures counted { (b : Behaviour) → Runs exec.old b
            → self.new.counts.items ≡ counted self.old.counts.items (b.step (kept exec.old) (inputs_at instant (length self.old.inputs.items))).outputs }
        ensures kept { (b : Behaviour) → Runs exec.old b → kept exec.new ≡ (b.step (kept exec.old) (inputs_at instant (length self.old.inputs.items))).kept }
        ensures runs { (b : Behaviour) → Runs exec.old b → Runs exec.new b }
    {
        fill(instant, &mut self.inputs);
        exec.step(&self.inputs, &mut self.outputs);
        count(&self.outputs, &mut self.counts);
    }
}

/// Runs a machine over so many instants, and counts how often each output was true.
fn run_instants(exec: &mut Exec, instants: u64, room: &mut Room)
    requires inputs { length room.old.inputs.items ≡ length exec.old.signature.inputs }
    requires outputs { length room.old.outputs.items ≡ length exec.old.signature.outputs }
    requires counts { length room.old.counts.items ≡ length room.old.outputs.items }
    requires instants { instants ≤ 1000000 }
    ensures { (b : Behaviour) → Runs exec.old b → kept exec.old ≡ b.reset → room.old.counts.items ≡ replicate (length room.old.outputs.items) 0
        → room.new.counts.items ≡ counts_behind b (length room.old.inputs.items) (length room.old.outputs.items) instants }
{
    for i in 0..instants {
        room.step(exec, i + 1);
    }
}

/// How many inputs a machine has.
fn input_count(exec: &Exec) -> usize
    ensures { result ≡ length exec.now.signature.inputs }
{
    exec.signature().inputs.len()
}

/// How many outputs a machine has.
fn output_count(exec: &Exec) -> usize
    ensures { result ≡ length exec.now.signature.outputs }
{
    exec.signature().outputs.len()
}

/// How often each output of a machine is true.
fn counts_by(alloc: Global, exec: &mut Exec, instants: u64) -> Result<Vec<u64>, AllocError>
    requires { instants ≤ 1000000 }
    ensures { (b : Behaviour) → Runs exec.old b → kept exec.old ≡ b.reset
        → IfOk result (λ counts. counts.items ≡ counts_behind b (length exec.old.signature.inputs) (length exec.old.signature.outputs) instants) }
{
    let mut room = Room::new(alloc, input_count(exec), output_count(exec))?;
    run_instants(exec, instants, &mut room);
    Ok(room.counts)
}

/// Adds a number with a space in front.
fn add_spaced(text: &mut Vec<u8>, number: u64) -> Result<(), AllocError>
    ensures { OnOk result (text.new.items ≡ text.old.items ++ (codes " " ++ decimal number)) }
{
    add(text, b" ")?;
    add_number(text, number)
}

/// Adds numbers, each with a space in front.
fn add_numbers(text: &mut Vec<u8>, numbers: &[u64]) -> Result<(), AllocError>
    ensures { OnOk result (text.new.items ≡ text.old.items ++ spaced_numbers numbers.now) }
{
    for i in 0..numbers.len() {
        add_spaced(text, numbers[i])?;
    }
    Ok(())
}

/// A line of numbers behind a letter.
fn add_line(text: &mut Vec<u8>, letter: &[u8], numbers: &[u64]) -> Result<(), AllocError>
    ensures { OnOk result (text.new.items ≡ text.old.items ++ counted_line letter.now numbers.now) }
{
    add(text, letter)?;
    add_numbers(text, numbers)?;
    add(text, b"\n")
}

/// The text of these numbers, of which the first so many stand in the first line.
fn text_of(alloc: Global, counts: &[u64], tasks: usize) -> Result<Vec<u8>, AllocError>
    ensures { IfOk result (λ text. text.items ≡ summary_text (take tasks counts.now) (drop tasks counts.now)) }
{
    let first = tasks.min(counts.len());
    let mut text = Vec::new(alloc);
    add_line(&mut text, b"a", &counts[..first])?;
    add_line(&mut text, b"s", &counts[first..])?;
    Ok(text)
}

/// The machines of the program of so many tasks.
fn machines_of_tasks(alloc: Global, tasks: u64) -> Result<Obc, Stop>
    requires some { 1 ≤ tasks }
    requires few { tasks ≤ 8 }
    ensures { MatchResult result (IsCompiled (tasks_text tasks)) (Stops tasks) }
{
    let text = program_of(alloc, tasks)?;
    let machines = compile(alloc, &text)?;
    Ok(machines)
}

/// The executor of the machine of the tasks, which is among these.
fn exec_of_tasks(alloc: Global, machines: &Obc) -> Result<Exec, Stop>
    requires { IsSome (machine_named machines.now.machines tasks_name) }
    ensures { MatchResult result (Executes machines.now tasks_name) (StopsAt machines.now) }
{
    match Exec::new(alloc, machines, TASKS) {
        Ok(exec) => Ok(exec),
        Err(ExecErr::NoNode) => unreachable!(),
        Err(ExecErr::Limit(limit)) => Err(Stop::TooLarge(limit)),
        Err(ExecErr::OutOfMemory) => Err(Stop::OutOfMemory),
    }
}

/// The summary of a run of these machines: how often each task was active, and how often each started.
fn summary_by(alloc: Global, sweep: Sweep, machines: &Obc) -> Result<Vec<u8>, Stop>
    requires instants { sweep.instants ≤ 1000000 }
    requires has { HasTasks (2 * sweep.tasks) machines.now }
    ensures { MatchResult result (λ text. text.items ≡ sweep_text machines.now sweep.tasks sweep.instants) (StopsAt machines.now) }
{
    let mut exec = exec_of_tasks(alloc, machines)?;
    let counts = counts_by(alloc, &mut exec, sweep.instants)?;
    let text = text_of(alloc, &counts, sweep.tasks as usize)?;
    Ok(text)
}

/// The summary of a run of the program of so many tasks.
fn summary_of(alloc: Global, sweep: Sweep) -> Result<Vec<u8>, Stop>
    requires some { 1 ≤ sweep.tasks }
    requires few { sweep.tasks ≤ 8 }
    requires instants { sweep.instants ≤ 1000000 }
    ensures { MatchResult result (λ text. IsSwept sweep.tasks sweep.instants text.items) (Stops sweep.tasks) }
{
    // A law: the node of the tasks has a machine of its name, with as many inputs and outputs.
    nodes_have_their_machines();
    let machines = machines_of_tasks(alloc, sweep.tasks)?;
    summary_by(alloc, sweep, &machines)
}

/// Reports why a sweep says nothing, or that there is no memory.
fn report_stop<E: Sink>(alloc: Global, diag: &mut E, stop: &Stop) -> Status
    requires { (tasks : ℕ) × Stops tasks stop.now }
    ensures told { (line : List ℕ) × Grows (E.took diag.old) (E.took diag.new) line
        × ((tasks instants : ℕ) → Stops tasks stop.now → SweepOutcome tasks instants [] line (code_of result)) }
    ensures status { code_of result ≢ 4 }
    ensures faults { PutFaults (code_of result) (E.faults diag.old) (E.faults diag.new) }
{
    match stop {
        Stop::NotCompiled(cause) => report_uncompiled(alloc, diag, cause),
        Stop::TooLarge(limit) => report_large(alloc, diag, *limit),
        Stop::OutOfMemory => Status::NoMemory,
    }
}

/// Says the summary of a sweep. No input is asked for, and no file is read or written.
pub(crate) fn run_sweep<C: Console, E: Sink>(
    alloc: Global,
    sweep: Sweep,
    console: &mut C,
    diag: &mut E,
) -> Status
    requires some { 1 ≤ sweep.tasks }
    requires few { sweep.tasks ≤ 8 }
    requires instants { sweep.instants ≤ 1000000 }
    ensures outcome { Happened (C.events console.old) (C.events console.new) (C.left console.old) (C.left console.new) (E.took diag.old) (E.took diag.new)
        (λ log line. SweepOutcome sweep.tasks sweep.instants log line (code_of result)) }
    ensures status { code_of result ≢ 4 }
    ensures takes { Same (C.take_faults console.old) (C.take_faults console.new) }
    ensures puts { BothPutFaults (code_of result) (C.put_faults console.old) (C.put_faults console.new) (E.faults diag.old) (E.faults diag.new) }
{
    match summary_of(alloc, sweep) {
        Ok(text) => say_all(console, &text),
        Err(stop) => report_stop(alloc, diag, &stop),
    }
}
