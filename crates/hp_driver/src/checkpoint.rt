//! The commands `save` and `resume`: runs of a node that leave a checkpoint of the memory behind them.
ghost use Rattle.std.specs.Prelude.{◌≡◌, ◌≢◌, ◌≤◌, ◌++◌, ℕ, List, [], length, vec_capacity, IfOk, IfErr, OnOk};
ghost use Rattle.std.specs.Option.{option_copied};
ghost use Rattle.std.specs.String.{string_bytes};
ghost use Rattle.hp_exec.specs.Answers.{Executes};
ghost use Rattle.hp_exec.specs.Executors.{kept};
ghost use Rattle.hp_io.specs.Faults.{Rose, AllSame};
ghost use Rattle.hp_io.specs.Reads.{NothingRead};
ghost use Rattle.hp_io.specs.Told.{Grows};
ghost use Rattle.hp_obc.specs.Form.{TypesForm};
ghost use Rattle.hp_obctext.specs.MemoryKinds.{kinds_at, memory_bound};
ghost use Rattle.hp_driver.specs.Calls.{IsCall, moment};
ghost use Rattle.hp_driver.specs.Checkpoints.{IsCheckpointOf};
ghost use Rattle.hp_driver.specs.Commanded.{SpellsSegment};
ghost use Rattle.hp_driver.specs.Diagnostics.{checkpoint_line};
ghost use Rattle.hp_driver.specs.Faults.{InputFails, InputFaults, OutputFaults, PutFaults, ReadFaults, TakeFaults};
ghost use Rattle.hp_driver.specs.Given.{Gives};
ghost use Rattle.hp_driver.specs.Happened.{Happened};
ghost use Rattle.hp_driver.specs.Ran.{ReportsOrNot};
ghost use Rattle.hp_driver.specs.Restoring.{Ends, IsBegun, KeepsRun, NotBegun, NotRestored, NotRestoredFrom, ReadsFrom, RoseInRead, SegmentOfMachines, SegmentOfText, StandsFor, ending};
ghost use Rattle.hp_driver.specs.Status.{code_of};

use crate::diagnostic::checkpoint_line;
use crate::execution::Execution;
use crate::refuse::report_too_long;
use crate::report::report;
use crate::run::run_trace;
use crate::runnable::{Runnable, runnable_of};
use crate::source::write_text;
use crate::status::Status;
use crate::words::Segment;
use hp_base::What;
use hp_exec::Exec;
use hp_io::{Console, Folder, ReadErr, Sink};
use hp_obc::Obc;
use hp_obctext::{MemErr, memory_room, read_memory, write_memory};
use law_decided::machines_keep_contracts;
use law_history::streams::machines_run_the_nodes_of_texts;
use std::alloc::{AllocError, Global};

// ---- the memory with which a run begins

/// Reports why a checkpoint is refused.
fn report_checkpoint<E: Sink>(alloc: Global, diag: &mut E, error: MemErr) -> Status
    ensures reports { ReportsOrNot (E.took diag.old) (E.took diag.new) (checkpoint_line error) 9 (code_of result) }
    ensures faults { PutFaults (code_of result) (E.faults diag.old) (E.faults diag.new) }
{
    match checkpoint_line(alloc, error) {
        Ok(line) => report(diag, line.as_slice(), Status::NoCheckpoint),
        Err(_) => Status::NoMemory,
    }
}

/// Gives a machine the memory for which the text of a checkpoint stands, or the status with which the call ends.
fn restore_text<E: Sink>(
    alloc: Global,
    machines: &Obc,
    exec: &mut Exec,
    node: &str,
    text: &[u8],
    diag: &mut E,
) -> Result<(), Status>
    requires short { length text.now ≤ 67108864 }
    requires stands { StandsFor machines.now node.now exec.old }
    ensures stands { OnOk result (StandsFor machines.now node.now exec.new) }
    ensures memory { OnOk result (IsCheckpointOf machines.now node.now (kept exec.new) text.now) }
    ensures told { (line : List ℕ) × Grows (E.took diag.old) (E.took diag.new) line × Ends (NotRestoredFrom machines.now node.now text.now) result line }
    ensures fails { IfErr result (λ status. code_of status ≢ 0) }
    ensures status { IfErr result (λ status. code_of status ≢ 4) }
    ensures faults { PutFaults (ending result) (E.faults diag.old) (E.faults diag.new) }
{
    let Ok(mut values) = Vec::from_slice(alloc, exec.memory()) else {
        return Err(Status::NoMemory);
    };
    match read_memory(text, machines, node, exec.memory(), &mut values) {
        Ok(()) => {
            exec.load(&values);
            Ok(())
        }
        Err(error) => Err(report_checkpoint(alloc, diag, error)),
    }
}

/// Gives a machine the memory for which the checkpoint in a file stands, or the status with which the call ends.
fn restore<F: Folder, E: Sink>(
    alloc: Global,
    machines: &Obc,
    exec: &mut Exec,
    node: &str,
    mem: &str,
    files: &mut F,
    diag: &mut E,
) -> Result<(), Status>
    requires { StandsFor machines.now node.now exec.old }
    ensures stands { OnOk result (StandsFor machines.now node.now exec.new) }
    ensures memory { OnOk result ((text : List ℕ) × Gives (F.files files.old) mem.now text × IsCheckpointOf machines.now node.now (kept exec.new) text) }
    ensures told { (line : List ℕ) × Grows (E.took diag.old) (E.took diag.new) line × Ends (NotRestored (F.files files.old) machines.now node.now mem.now) result line }
    ensures fails { IfErr result (λ status. code_of status ≢ 0) }
    ensures faults { PutFaults (ending result) (E.faults diag.old) (E.faults diag.new) }
    ensures files { F.files files.new ≡ F.files files.old }
    ensures reads { ReadFaults mem.now (ending result) (F.reads files.old) (F.reads files.new) }
    ensures writes { AllSame (F.write_faults files.old) (F.write_faults files.new) }
{
    let mut text = Vec::new(alloc);
    match files.read(mem, What::Text.most() as usize, &mut text) {
        Ok(()) => restore_text(alloc, machines, exec, node, text.as_slice(), diag),
        Err(ReadErr::Failed) => Err(Status::ReadFailed),
        Err(ReadErr::TooLong { .. }) => Err(report_too_long(alloc, diag, What::Text)),
        Err(ReadErr::OutOfMemory) => Err(Status::NoMemory),
    }
}

/// Gives a machine, which has its memory after a reset, the one with which the run begins, or the status with which the call ends.
fn begin<F: Folder, E: Sink>(
    alloc: Global,
    machines: &Obc,
    exec: &mut Exec,
    segment: Segment<'_>,
    files: &mut F,
    diag: &mut E,
) -> Result<(), Status>
    requires { Executes machines.now segment.node.now exec.old }
    ensures stands { OnOk result (StandsFor machines.now segment.entry.node.now exec.new) }
    ensures memory { OnOk result (IsBegun (F.files files.old) machines.now segment.entry.node.now (option_copied segment.entry.from) exec.new) }
    ensures told { (line : List ℕ) × Grows (E.took diag.old) (E.took diag.new) line
        × Ends (NotBegun (F.files files.old) machines.now segment.entry.node.now (option_copied segment.entry.from)) result line }
    ensures fails { IfErr result (λ status. code_of status ≢ 0) }
    ensures faults { PutFaults (ending result) (E.faults diag.old) (E.faults diag.new) }
    ensures files { F.files files.new ≡ F.files files.old }
    ensures gave { ReadsFrom (option_copied segment.entry.from) (F.reads files.old).gave (F.reads files.new).gave }
    ensures reads { InputFails (ending result) (RoseInRead (option_copied segment.entry.from) (F.reads files.old).faults (F.reads files.new).faults) (AllSame (F.reads files.old).faults (F.reads files.new).faults) }
    ensures writes { AllSame (F.write_faults files.old) (F.write_faults files.new) }
{
    match segment.from {
        None => Ok(()),
        Some(mem) => restore(alloc, machines, exec, segment.node, mem, files, diag),
    }
}

// ---- the run, and the checkpoint behind it

/// Room for the longest checkpoint of a machine, so that no memory is taken behind the trace.
fn room_for_checkpoint(
    alloc: Global,
    machines: &Obc,
    node: &str,
    exec: &Exec,
) -> Result<Vec<u8>, AllocError>
    requires { StandsFor machines.now node.now exec.now }
    ensures empty { IfOk result (λ text. text.items ≡ []) }
    ensures room { IfOk result (λ text. memory_bound node.now (kinds_at machines.now.types exec.now.values) ≤ vec_capacity text) }
{
    let room = memory_room(machines, node, exec.memory());
    Vec::with_capacity(alloc, room as usize)
}

/// Runs a machine from its memory on the trace that the console gives, and writes the checkpoint of the memory behind it.
fn run_and_save<F: Folder, C: Console, E: Sink>(
    alloc: Global,
    machines: &Obc,
    exec: Exec,
    segment: Segment<'_>,
    files: &mut F,
    console: &mut C,
    diag: &mut E,
) -> Status
    requires form { TypesForm machines.now.types }
    requires stands { StandsFor machines.now segment.node.now exec }
    ensures outcome { Happened (C.events console.old) (C.events console.new) (C.left console.old) (C.left console.new) (E.took diag.old) (E.took diag.new)
        (λ log line. KeepsRun machines.now segment.entry.node.now exec segment.entry.out.now (F.files files.old) (F.files files.new) log line (code_of result)) }
    ensures reads { NothingRead (F.reads files.old) (F.reads files.new) }
    ensures takes { TakeFaults (code_of result) (C.take_faults console.old) (C.take_faults console.new) }
    ensures writes { OutputFaults (Rose (F.write_faults files.old segment.entry.out.now) (F.write_faults files.new segment.entry.out.now))
        (code_of result) (F.write_faults files.old) (F.write_faults files.new) (C.put_faults console.old) (C.put_faults console.new) (E.faults diag.old) (E.faults diag.new) }
{
    let Ok(mut text) = room_for_checkpoint(alloc, machines, segment.node, &exec) else {
        return Status::NoMemory;
    };
    let Ok(mut execution) = Execution::new(alloc, exec) else {
        return Status::NoMemory;
    };
    let status = run_trace(alloc, &mut execution, console, diag);
    if status.code() != 0 {
        return status;
    }
    write_memory(machines, segment.node, execution.memory(), &mut text);
    write_text(text.as_slice(), segment.out, files)
}

/// Runs a machine, which has its memory after a reset, on the trace, from the memory with which the run begins.
fn run_from<F: Folder, C: Console, E: Sink>(
    alloc: Global,
    runnable: Runnable,
    segment: Segment<'_>,
    files: &mut F,
    console: &mut C,
    diag: &mut E,
) -> Status
    requires form { TypesForm runnable.machines.types }
    requires runs { Executes runnable.machines segment.node.now runnable.exec }
    ensures outcome { Happened (C.events console.old) (C.events console.new) (C.left console.old) (C.left console.new) (E.took diag.old) (E.took diag.new)
        (λ log line. SegmentOfMachines runnable.machines segment.entry.node.now (option_copied segment.entry.from) segment.entry.out.now (F.files files.old) (F.files files.new) log line (code_of result)) }
    ensures gave { ReadsFrom (option_copied segment.entry.from) (F.reads files.old).gave (F.reads files.new).gave }
    ensures reads { InputFaults (RoseInRead (option_copied segment.entry.from) (F.reads files.old).faults (F.reads files.new).faults)
        (code_of result) (F.reads files.old).faults (F.reads files.new).faults (C.take_faults console.old) (C.take_faults console.new) }
    ensures writes { OutputFaults (Rose (F.write_faults files.old segment.entry.out.now) (F.write_faults files.new segment.entry.out.now))
        (code_of result) (F.write_faults files.old) (F.write_faults files.new) (C.put_faults console.old) (C.put_faults console.new) (E.faults diag.old) (E.faults diag.new) }
{
    // Laws: machines of a program run its nodes, and keep contracts.
    machines_run_the_nodes_of_texts();
    machines_keep_contracts();
    let Runnable { machines, mut exec } = runnable;
    // The types and the machines have form.
    let _types = machines.types();
    if let Err(status) = begin(alloc, &machines, &mut exec, segment, files, diag) {
        return status;
    }
    run_and_save(alloc, &machines, exec, segment, files, console, diag)
}

/// Does the run with the source text that was read.
fn run_text<F: Folder, C: Console, E: Sink>(
    alloc: Global,
    text: &[u8],
    segment: Segment<'_>,
    files: &mut F,
    console: &mut C,
    diag: &mut E,
) -> Status
    ensures outcome { Happened (C.events console.old) (C.events console.new) (C.left console.old) (C.left console.new) (E.took diag.old) (E.took diag.new)
        (λ log line. SegmentOfText text.now segment.entry.node.now (option_copied segment.entry.from) segment.entry.out.now (F.files files.old) (F.files files.new) log line (code_of result)) }
    ensures gave { ReadsFrom (option_copied segment.entry.from) (F.reads files.old).gave (F.reads files.new).gave }
    ensures reads { InputFaults (RoseInRead (option_copied segment.entry.from) (F.reads files.old).faults (F.reads files.new).faults)
        (code_of result) (F.reads files.old).faults (F.reads files.new).faults (C.take_faults console.old) (C.take_faults console.new) }
    ensures writes { OutputFaults (Rose (F.write_faults files.old segment.entry.out.now) (F.write_faults files.new segment.entry.out.now))
        (code_of result) (F.write_faults files.old) (F.write_faults files.new) (C.put_faults console.old) (C.put_faults console.new) (E.faults diag.old) (E.faults diag.new) }
{
    match runnable_of(alloc, text, segment.node, diag) {
        Ok(runnable) => run_from(alloc, runnable, segment, files, console, diag),
        Err(status) => status,
    }
}

/// Runs a node from its memory after a reset, or from that of a checkpoint, on the trace, and writes the checkpoint of the memory behind it.
pub(crate) fn run_segment<F: Folder, C: Console, E: Sink>(
    alloc: Global,
    segment: Segment<'_>,
    files: &mut F,
    console: &mut C,
    diag: &mut E,
) -> Status
    ensures { (words : List (List ℕ)) → SpellsSegment words segment.entry → IsCall words
        (moment (F.files files.old) (F.reads files.old) (F.write_faults files.old) (C.events console.old) (C.left console.old)
        (C.take_faults console.old) (C.put_faults console.old) (E.took diag.old) (E.faults diag.old))
        (moment (F.files files.new) (F.reads files.new) (F.write_faults files.new) (C.events console.new) (C.left console.new)
        (C.take_faults console.new) (C.put_faults console.new) (E.took diag.new) (E.faults diag.new))
        (code_of result) }
{
    let mut text = Vec::new(alloc);
    match files.read(segment.file, What::Size.most() as usize, &mut text) {
        Ok(()) => run_text(alloc, text.as_slice(), segment, files, console, diag),
        Err(ReadErr::Failed) => Status::ReadFailed,
        Err(ReadErr::TooLong { .. }) => report_too_long(alloc, diag, What::Size),
        Err(ReadErr::OutOfMemory) => Status::NoMemory,
    }
}
