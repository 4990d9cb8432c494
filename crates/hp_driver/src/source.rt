//! The commands over a source text.
ghost use Rattle.std.specs.Prelude.{◌≡◌, ◌≢◌, ◌⊎◌, ℕ, List, [], IfOk};
ghost use Rattle.hp_io.specs.Events.{put_events};
ghost use Rattle.hp_io.specs.Faults.{Same};
ghost use Rattle.hp_io.specs.Reads.{NothingRead};
ghost use Rattle.hp_io.specs.Told.{Grows};
ghost use Rattle.hp_driver.specs.Command.{accepted_text};
ghost use Rattle.hp_compile.specs.Judged.{IsJudged};
ghost use Rattle.hp_driver.specs.Follows.{OutcomeOf, DecidedOutcome, ProgramOutcome, Accepts, IsArrangedText};
ghost use Rattle.hp_driver.specs.Leaving.{WritesText, WritesMachines, ProgramLeaves, LeavesBy, RoseInWrite};
ghost use Rattle.hp_driver.specs.declared.words.Task.TheVariants as Task;
ghost use Rattle.hp_driver.specs.Faults.{TakeFaults, PutFaults, BothPutFaults, WriteFaults, WriteOrPutFaults, OutputFaults};
ghost use Rattle.hp_driver.specs.Happened.{Happened};
ghost use Rattle.hp_driver.specs.Status.{code_of};

use crate::choosing::{run_choosing, tell_choosing};
use crate::compiling::compile_program;
use crate::follow::say;
use crate::refuse::{report_contract, report_refusal, report_uncompiled};
use crate::resources::Resources;
use crate::status::Status;
use crate::words::Task;
use hp_compile::{arrange, judge};
use hp_io::{Console, Folder, Sink, WriteErr};
use hp_native::Answers;
use hp_obc::Obc;
use hp_obctext::print_obc;
use hp_print::print;
use hp_tree::Program;
use hp_verdicts::decide;
use law_decided::outcomes_are_so;
use std::alloc::{AllocError, Global};

const ACCEPTED: &[u8] = b"accepted\n";

/// Says all of a text.
pub(crate) fn say_all<C: Console>(console: &mut C, text: &[u8]) -> Status
    ensures accepts { (out : List ℕ) × Grows (C.events console.old) (C.events console.new) (put_events out) × Accepts text.now out (code_of result) }
    ensures status { code_of result ≢ 4 }
    ensures left { C.left console.new ≡ C.left console.old }
    ensures puts { PutFaults (code_of result) (C.put_faults console.old) (C.put_faults console.new) }
    ensures takes { Same (C.take_faults console.old) (C.take_faults console.new) }
{
    match say(console, text) {
        Ok(()) => Status::Done,
        Err(_) => Status::WriteFailed,
    }
}

/// What is said of a program that is accepted: the word for it, or its canonical text.
fn acceptance(alloc: Global, program: &Program, is_printed: bool) -> Result<Vec<u8>, AllocError>
    ensures { IfOk result (λ text. text.items ≡ accepted_text is_printed program.now) }
{
    if is_printed {
        match print(alloc, program) {
            Ok(text) => Ok(text),
            Err(_) => Err(AllocError),
        }
    } else {
        Vec::from_slice(alloc, ACCEPTED)
    }
}

/// Says that the program is accepted, or its canonical text, if its contracts are kept.
fn check_ordered<C: Console, E: Sink>(
    alloc: Global,
    program: &Program,
    ordered: &Program,
    is_printed: bool,
    console: &mut C,
    diag: &mut E,
) -> Status
    requires { IsArrangedText program.now ordered.now }
    ensures outcome { Happened (C.events console.old) (C.events console.new) (C.left console.old) (C.left console.new) (E.took diag.old) (E.took diag.new)
        (λ log line. DecidedOutcome (Task.Check is_printed) program.now ordered.now log line (code_of result)) }
    ensures status { code_of result ≢ 4 }
    ensures takes { Same (C.take_faults console.old) (C.take_faults console.new) }
    ensures puts { BothPutFaults (code_of result) (C.put_faults console.old) (C.put_faults console.new) (E.faults diag.old) (E.faults diag.new) }
{
    // A law: what is found of contracts says so of their games.
    outcomes_are_so();
    if let Err(error) = decide(alloc, ordered) {
        return report_contract(alloc, diag, &error);
    }
    match acceptance(alloc, program, is_printed) {
        Ok(said) => say_all(console, said.as_slice()),
        Err(_) => Status::NoMemory,
    }
}

/// Says that the program is accepted, or its canonical text, if it can be arranged and its contracts are kept.
fn check_program<C: Console, E: Sink>(
    alloc: Global,
    program: &Program,
    is_printed: bool,
    console: &mut C,
    diag: &mut E,
) -> Status
    requires { (text : List ℕ) × IsJudged text program.now }
    ensures outcome { Happened (C.events console.old) (C.events console.new) (C.left console.old) (C.left console.new) (E.took diag.old) (E.took diag.new)
        (λ log line. ProgramOutcome (Task.Check is_printed) program.now log line (code_of result)) }
    ensures status { code_of result ≢ 4 }
    ensures takes { Same (C.take_faults console.old) (C.take_faults console.new) }
    ensures puts { BothPutFaults (code_of result) (C.put_faults console.old) (C.put_faults console.new) (E.faults diag.old) (E.faults diag.new) }
{
    match arrange(alloc, program) {
        Ok(ordered) => check_ordered(alloc, program, &ordered.program, is_printed, console, diag),
        Err(refusal) => report_refusal(alloc, diag, &refusal),
    }
}

/// Runs the node of this name, of a program, if its contracts are kept.
fn run_decided<N: Answers, C: Console, E: Sink>(
    resources: &Resources<'_, N>,
    program: &Program,
    ordered: &Program,
    node: &str,
    console: &mut C,
    diag: &mut E,
) -> Status
    requires { IsArrangedText program.now ordered.now }
    ensures outcome { Happened (C.events console.old) (C.events console.new) (C.left console.old) (C.left console.new) (E.took diag.old) (E.took diag.new)
        (λ log line. DecidedOutcome (Task.Run node.entry) program.now ordered.now log line (code_of result)) }
    ensures takes { TakeFaults (code_of result) (C.take_faults console.old) (C.take_faults console.new) }
    ensures puts { BothPutFaults (code_of result) (C.put_faults console.old) (C.put_faults console.new) (E.faults diag.old) (E.faults diag.new) }
{
    // A law: what is found of contracts says so of their games.
    outcomes_are_so();
    if let Err(error) = decide(resources.alloc, ordered) {
        return report_contract(resources.alloc, diag, &error);
    }
    run_choosing(resources, ordered, node, console, diag)
}

/// Runs the node of this name, in the program, on the trace that the console gives.
fn run_program<N: Answers, C: Console, E: Sink>(
    resources: &Resources<'_, N>,
    program: &Program,
    node: &str,
    console: &mut C,
    diag: &mut E,
) -> Status
    requires { (text : List ℕ) × IsJudged text program.now }
    ensures outcome { Happened (C.events console.old) (C.events console.new) (C.left console.old) (C.left console.new) (E.took diag.old) (E.took diag.new)
        (λ log line. ProgramOutcome (Task.Run node.entry) program.now log line (code_of result)) }
    ensures takes { TakeFaults (code_of result) (C.take_faults console.old) (C.take_faults console.new) }
    ensures puts { BothPutFaults (code_of result) (C.put_faults console.old) (C.put_faults console.new) (E.faults diag.old) (E.faults diag.new) }
{
    match arrange(resources.alloc, program) {
        Ok(ordered) => run_decided(resources, program, &ordered.program, node, console, diag),
        Err(refusal) => report_refusal(resources.alloc, diag, &refusal),
    }
}

/// Runs the node of this name, and tells what its contract assumes and enforces, of a program whose contracts are kept.
fn tell_decided<N: Answers, C: Console, E: Sink>(
    resources: &Resources<'_, N>,
    program: &Program,
    ordered: &Program,
    node: &str,
    console: &mut C,
    diag: &mut E,
) -> Status
    requires { IsArrangedText program.now ordered.now }
    ensures outcome { Happened (C.events console.old) (C.events console.new) (C.left console.old) (C.left console.new) (E.took diag.old) (E.took diag.new)
        (λ log line. DecidedOutcome (Task.Tell node.entry) program.now ordered.now log line (code_of result)) }
    ensures takes { TakeFaults (code_of result) (C.take_faults console.old) (C.take_faults console.new) }
    ensures puts { BothPutFaults (code_of result) (C.put_faults console.old) (C.put_faults console.new) (E.faults diag.old) (E.faults diag.new) }
{
    // A law: what is found of contracts says so of their games.
    outcomes_are_so();
    if let Err(error) = decide(resources.alloc, ordered) {
        return report_contract(resources.alloc, diag, &error);
    }
    tell_choosing(resources, ordered, node, console, diag)
}

/// Runs the node of this name, in the program, on the trace that the console gives, and tells what its contract assumes and enforces.
fn tell_program<N: Answers, C: Console, E: Sink>(
    resources: &Resources<'_, N>,
    program: &Program,
    node: &str,
    console: &mut C,
    diag: &mut E,
) -> Status
    requires { (text : List ℕ) × IsJudged text program.now }
    ensures outcome { Happened (C.events console.old) (C.events console.new) (C.left console.old) (C.left console.new) (E.took diag.old) (E.took diag.new)
        (λ log line. ProgramOutcome (Task.Tell node.entry) program.now log line (code_of result)) }
    ensures takes { TakeFaults (code_of result) (C.take_faults console.old) (C.take_faults console.new) }
    ensures puts { BothPutFaults (code_of result) (C.put_faults console.old) (C.put_faults console.new) (E.faults diag.old) (E.faults diag.new) }
{
    match arrange(resources.alloc, program) {
        Ok(ordered) => tell_decided(resources, program, &ordered.program, node, console, diag),
        Err(refusal) => report_refusal(resources.alloc, diag, &refusal),
    }
}

/// Writes a text to a file.
pub(crate) fn write_text<F: Folder>(text: &[u8], out: &str, files: &mut F) -> Status
    ensures status { (code_of result ≡ 0) ⊎ (code_of result ≡ 5) ⊎ (code_of result ≡ 6) }
    ensures leaves { WritesText text.now out.now (F.files files.old) (F.files files.new) (code_of result) }
    ensures writes { WriteFaults out.now (code_of result) (F.write_faults files.old) (F.write_faults files.new) }
    ensures reads { NothingRead (F.reads files.old) (F.reads files.new) }
{
    match files.write(out, text) {
        Ok(()) => Status::Done,
        Err(WriteErr::Failed) => Status::WriteFailed,
        Err(WriteErr::OutOfMemory) => Status::NoMemory,
    }
}

/// Writes the text of some machines to a file.
pub(crate) fn write_machines<F: Folder>(
    alloc: Global,
    machines: &Obc,
    out: &str,
    files: &mut F,
) -> Status
    ensures status { (code_of result ≡ 0) ⊎ (code_of result ≡ 5) ⊎ (code_of result ≡ 6) }
    ensures leaves { WritesMachines machines.now out.now (F.files files.old) (F.files files.new) (code_of result) }
    ensures writes { WriteFaults out.now (code_of result) (F.write_faults files.old) (F.write_faults files.new) }
    ensures reads { NothingRead (F.reads files.old) (F.reads files.new) }
{
    match print_obc(alloc, machines) {
        Ok(text) => write_text(text.as_slice(), out, files),
        Err(_) => Status::NoMemory,
    }
}

/// Writes the machines of the program to a file, if it can be arranged and its contracts are kept.
fn write_program<F: Folder, E: Sink>(
    alloc: Global,
    program: &Program,
    out: &str,
    files: &mut F,
    diag: &mut E,
) -> Status
    requires { (text : List ℕ) × IsJudged text program.now }
    ensures outcome { (line : List ℕ) × Grows (E.took diag.old) (E.took diag.new) line × ProgramOutcome (Task.Compile out.entry) program.now [] line (code_of result) }
    ensures leaves { ProgramLeaves out.now program.now (F.files files.old) (F.files files.new) (code_of result) }
    ensures status { code_of result ≢ 4 }
    ensures reads { NothingRead (F.reads files.old) (F.reads files.new) }
    ensures writes { WriteOrPutFaults out.now (code_of result) (F.write_faults files.old) (F.write_faults files.new) (E.faults diag.old) (E.faults diag.new) }
{
    match compile_program(alloc, program) {
        Ok(machines) => write_machines(alloc, &machines, out, files),
        Err(error) => report_uncompiled(alloc, diag, &error),
    }
}

/// Does the task with the source text that was read.
pub(crate) fn run_source<N: Answers, F: Folder, C: Console, E: Sink>(
    resources: &Resources<'_, N>,
    task: Task<'_>,
    text: &[u8],
    files: &mut F,
    console: &mut C,
    diag: &mut E,
) -> Status
    ensures outcome { Happened (C.events console.old) (C.events console.new) (C.left console.old) (C.left console.new) (E.took diag.old) (E.took diag.new)
        (λ log line. OutcomeOf task.entry text.now log line (code_of result)) }
    ensures leaves { LeavesBy task.entry text.now (F.files files.old) (F.files files.new) (code_of result) }
    ensures reads { NothingRead (F.reads files.old) (F.reads files.new) }
    ensures takes { TakeFaults (code_of result) (C.take_faults console.old) (C.take_faults console.new) }
    ensures writes { OutputFaults (RoseInWrite task.entry (F.write_faults files.old) (F.write_faults files.new))
        (code_of result) (F.write_faults files.old) (F.write_faults files.new) (C.put_faults console.old) (C.put_faults console.new) (E.faults diag.old) (E.faults diag.new) }
{
    let program = match judge(resources.alloc, text) {
        Ok(program) => program,
        Err(refusal) => return report_refusal(resources.alloc, diag, &refusal),
    };
    match task {
        Task::Run { node } => run_program(resources, &program, node, console, diag),
        Task::Tell { node } => tell_program(resources, &program, node, console, diag),
        Task::Check { print } => check_program(resources.alloc, &program, print, console, diag),
        Task::Compile { out } => write_program(resources.alloc, &program, out, files, diag),
    }
}
