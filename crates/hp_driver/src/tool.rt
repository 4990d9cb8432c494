//! The call of the tool.
ghost use Rattle.std.specs.Prelude.{◌≡◌, ◌≢◌, ◌⊎◌, ℕ, List, map};
ghost use Rattle.std.specs.String.{string_bytes};
ghost use Rattle.hp_io.specs.Faults.{Rose, Same, AllSame};
ghost use Rattle.hp_io.specs.Reads.{Reading};
ghost use Rattle.hp_io.specs.Told.{Grows};
ghost use Rattle.hp_io.specs.declared.console.Event.{Event};
ghost use Rattle.hp_driver.specs.Command.{IsNoSegment, IsSweepOf};
ghost use Rattle.hp_driver.specs.Commanded.{Spells, file_of};
ghost use Rattle.hp_driver.specs.GoodCalls.{AreCalm, IsGood, IsGoodCheck, IsGoodCompile, IsGoodPast, IsGoodProve, IsGoodResume, IsGoodRun, IsGoodSave, IsGoodVerify, IsRefused, IsResume};
ghost use Rattle.hp_driver.specs.Leaves.{Leaves, ReadRose, WriteRose};
ghost use Rattle.hp_driver.specs.Log.{HeardFrom};
ghost use Rattle.hp_driver.specs.Outcome.{Outcome, Gives};
ghost use Rattle.hp_driver.specs.Readings.{AreReadings, ReadsOn};
ghost use Rattle.hp_driver.specs.Segments.{CallOutcome};
ghost use Rattle.hp_driver.specs.Faults.{InputFaults, OutputFaults, OnePutFailed};
ghost use Rattle.hp_driver.specs.Happened.{Happened};
ghost use Rattle.hp_driver.specs.Status.{code_of};
ghost use Rattle.hp_driver.specs.Calls.{IsCall, moment};

use crate::certificate::{run_prove, run_verify};
use crate::checkpoint::run_segment;
use crate::machines::run_machine;
use crate::past::run_past;
use crate::refuse::report_too_long;
use crate::report::report;
use crate::resources::{Extras, Resources};
use crate::source::run_source;
use crate::status::Status;
use crate::sweep::run_sweep;
use crate::words::{Command, command_of, segment_of, sweep_of};
use hp_io::{Console, Folder, ReadErr, Sink};
use hp_native::Answers;
use std::alloc::Global;

const USAGE: &[u8] = b"usage: hept check run compile exec prove verify sweep past save resume\n";

/// Does what is asked for with the text that was read.
fn run_text<N: Answers, F: Folder, C: Console, E: Sink>(
    resources: &Resources<'_, N>,
    command: Command<'_>,
    text: &[u8],
    files: &mut F,
    console: &mut C,
    diag: &mut E,
) -> Status
    ensures outcome { Happened (C.events console.old) (C.events console.new) (C.left console.old) (C.left console.new) (E.took diag.old) (E.took diag.new)
        (λ log line. (words : List (List ℕ)) → Spells words command.entry → Gives (F.files files.old) (file_of command.entry) text.now →
        Outcome words (F.files files.old) log line (code_of result)) }
    ensures leaves { (words : List (List ℕ)) → Spells words command.entry → Gives (F.files files.old) (file_of command.entry) text.now →
        Leaves words (F.files files.old) (F.files files.new) (code_of result) }
    ensures readings { ReadsOn command.entry text.now (F.reads files.old).gave (F.reads files.new).gave }
    ensures reads { InputFaults ((words : List (List ℕ)) → Spells words command.entry → ReadRose words (F.reads files.old).faults (F.reads files.new).faults)
        (code_of result) (F.reads files.old).faults (F.reads files.new).faults (C.take_faults console.old) (C.take_faults console.new) }
    ensures writes { OutputFaults ((words : List (List ℕ)) → Spells words command.entry → WriteRose words (F.write_faults files.old) (F.write_faults files.new))
        (code_of result) (F.write_faults files.old) (F.write_faults files.new) (C.put_faults console.old) (C.put_faults console.new) (E.faults diag.old) (E.faults diag.new) }
{
    match command {
        Command::Source { task, .. } => run_source(resources, task, text, files, console, diag),
        Command::Past { out, .. } => run_past(resources.alloc, text, out, files, diag),
        Command::Exec { node, .. } => run_machine(resources, text, node, console, diag),
        Command::Prove { node, cert, .. } => run_prove(
            resources.alloc,
            text,
            node,
            cert,
            files,
            diag,
        ),
        Command::Verify { node, cert, .. } => {
            run_verify(resources.alloc, text, node, cert, files, console, diag)
        }
    }
}

/// Does what the words say, which ask for no sweep, and for no run that leaves a checkpoint.
fn perform_command<N: Answers, F: Folder, C: Console, E: Sink>(
    resources: &Resources<'_, N>,
    words: &[String],
    files: &mut F,
    console: &mut C,
    diag: &mut E,
) -> Status
    requires sweep { (tasks instants : ℕ) → IsSweepOf (map string_bytes words.now) tasks instants → ⊥ }
    requires segment { IsNoSegment (map string_bytes words.now) }
    ensures { IsCall (map string_bytes words.now)
        (moment (F.files files.old) (F.reads files.old) (F.write_faults files.old) (C.events console.old) (C.left console.old)
        (C.take_faults console.old) (C.put_faults console.old) (E.took diag.old) (E.faults diag.old))
        (moment (F.files files.new) (F.reads files.new) (F.write_faults files.new) (C.events console.new) (C.left console.new)
        (C.take_faults console.new) (C.put_faults console.new) (E.took diag.new) (E.faults diag.new))
        (code_of result) }
{
    let Ok(found) = command_of(resources.alloc, words) else {
        return Status::NoMemory;
    };
    let Some(command) = found else {
        return report(diag, USAGE, Status::NoCommand);
    };
    let mut text = Vec::new(resources.alloc);
    match files.read(command.file(), command.limit().most() as usize, &mut text) {
        Ok(()) => run_text(resources, command, text.as_slice(), files, console, diag),
        Err(ReadErr::Failed) => Status::ReadFailed,
        Err(ReadErr::TooLong { .. }) => report_too_long(resources.alloc, diag, command.limit()),
        Err(ReadErr::OutOfMemory) => Status::NoMemory,
    }
}

/// Does what the words say, which ask for no run that leaves a checkpoint.
fn perform_other<N: Answers, F: Folder, C: Console, E: Sink>(
    resources: &Resources<'_, N>,
    words: &[String],
    files: &mut F,
    console: &mut C,
    diag: &mut E,
) -> Status
    requires { IsNoSegment (map string_bytes words.now) }
    ensures { IsCall (map string_bytes words.now)
        (moment (F.files files.old) (F.reads files.old) (F.write_faults files.old) (C.events console.old) (C.left console.old)
        (C.take_faults console.old) (C.put_faults console.old) (E.took diag.old) (E.faults diag.old))
        (moment (F.files files.new) (F.reads files.new) (F.write_faults files.new) (C.events console.new) (C.left console.new)
        (C.take_faults console.new) (C.put_faults console.new) (E.took diag.new) (E.faults diag.new))
        (code_of result) }
{
    let Ok(swept) = sweep_of(resources.alloc, words) else {
        return Status::NoMemory;
    };
    match swept {
        None => perform_command(resources, words, files, console, diag),
        Some(sweep) => run_sweep(resources.alloc, sweep, console, diag),
    }
}

/// Does what the words say.
fn perform<N: Answers, F: Folder, C: Console, E: Sink>(
    resources: &Resources<'_, N>,
    words: &[String],
    files: &mut F,
    console: &mut C,
    diag: &mut E,
) -> Status
    ensures { IsCall (map string_bytes words.now)
        (moment (F.files files.old) (F.reads files.old) (F.write_faults files.old) (C.events console.old) (C.left console.old)
        (C.take_faults console.old) (C.put_faults console.old) (E.took diag.old) (E.faults diag.old))
        (moment (F.files files.new) (F.reads files.new) (F.write_faults files.new) (C.events console.new) (C.left console.new)
        (C.take_faults console.new) (C.put_faults console.new) (E.took diag.new) (E.faults diag.new))
        (code_of result) }
{
    let Ok(found) = segment_of(resources.alloc, words) else {
        return Status::NoMemory;
    };
    match found {
        None => perform_other(resources, words, files, console, diag),
        Some(segment) => run_segment(resources.alloc, segment, files, console, diag),
    }
}

/// Does what the words say, over these files, this console and these diagnostics, and gives the status of the call. In `run` and `exec` the natives of the extras
/// answer calls of their machines: what is said and what is left is the same, whatever extras there are.
pub fn run_tool<F: Folder, C: Console, E: Sink>(
    extras: &Extras,
    words: &[String],
    files: &mut F,
    console: &mut C,
    diag: &mut E,
) -> u8
    // What happened on the console and on the diagnostics, and why the call ended so; of a run that leaves a checkpoint also which memory that stands for.
    ensures outcome { (log : List Event) × (line : List ℕ) × Grows (C.events console.old) (C.events console.new) log
        × HeardFrom (C.left console.old) (C.left console.new) log
        × Grows (E.took diag.old) (E.took diag.new) line
        × CallOutcome (map string_bytes words.now) (F.files files.old) (F.files files.new) log line result }

    // No file is changed but the one that is to be written, which then holds the machines of the program, its text without the formulas of its contracts, a certificate, or a checkpoint.
    ensures leaves { Leaves (map string_bytes words.now) (F.files files.old) (F.files files.new) result }

    // What is read are the file, with the limit of its kind of text, and behind it, with its limit, the certificate of `verify`, where the contract of the node has a machine, or the checkpoint of `resume`.
    ensures readings { (gave : List Reading) × Grows (F.reads files.old).gave (F.reads files.new).gave gave × AreReadings (map string_bytes words.now) (F.files files.old) gave }

    // Where the status is 4 or 5 one call failed of those that the words ask for, and it was the last on its object. On each other object none failed, and where the status is another one none failed at all.
    ensures read_fault { result ≡ 4 → (ReadRose (map string_bytes words.now) (F.reads files.old).faults (F.reads files.new).faults × Same (C.take_faults console.old) (C.take_faults console.new))
        ⊎ (AllSame (F.reads files.old).faults (F.reads files.new).faults × Rose (C.take_faults console.old) (C.take_faults console.new)) }
    ensures write_fault { result ≡ 5 → (WriteRose (map string_bytes words.now) (F.write_faults files.old) (F.write_faults files.new)
        × Same (C.put_faults console.old) (C.put_faults console.new) × Same (E.faults diag.old) (E.faults diag.new))
        ⊎ (AllSame (F.write_faults files.old) (F.write_faults files.new) × OnePutFailed (C.put_faults console.old) (C.put_faults console.new) (E.faults diag.old) (E.faults diag.new)) }
    ensures no_read_fault { result ≢ 4 → AllSame (F.reads files.old).faults (F.reads files.new).faults
        × Same (C.take_faults console.old) (C.take_faults console.new) }
    ensures no_write_fault { result ≢ 5 → AllSame (F.write_faults files.old) (F.write_faults files.new)
        × Same (C.put_faults console.old) (C.put_faults console.new) × Same (E.faults diag.old) (E.faults diag.new) }

    // Over objects of which the calls that the words ask for never fail, nothing fails.
    ensures calm { AreCalm (map string_bytes words.now) (F.reads files.old).faults (F.write_faults files.old) (C.take_faults console.old) (C.put_faults console.old) (E.faults diag.old) →
        (result ≢ 4) × (result ≢ 5) }

    // A machine that is there is run over an input of good lines to its end, where nothing fails and there is memory.
    ensures complete { IsGood (map string_bytes words.now) (F.files files.old) (C.left console.old) → result ≢ 4 → result ≢ 5 → (result ≡ 0) ⊎ (result ≡ 6) }

    // A program that breaks no rule and of which no contract is refused is accepted, where nothing fails and there is memory.
    ensures complete_check { IsGoodCheck (map string_bytes words.now) (F.files files.old) → result ≢ 4 → result ≢ 5 → (result ≡ 0) ⊎ (result ≡ 6) }

    // Its machines are written,
    ensures complete_compile { IsGoodCompile (map string_bytes words.now) (F.files files.old) → result ≢ 4 → result ≢ 5 → (result ≡ 0) ⊎ (result ≡ 6) }

    // and where it has no controllable variables, each of its nodes is run over an input of good lines to its end.
    ensures complete_run { IsGoodRun (map string_bytes words.now) (F.files files.old) (C.left console.old) → result ≢ 4 → result ≢ 5 → (result ≡ 0) ⊎ (result ≡ 6) }

    // A run that leaves a checkpoint does so, too, behind the end of such an input: from the memory after a reset,
    ensures complete_save { IsGoodSave (map string_bytes words.now) (F.files files.old) (C.left console.old) → result ≢ 4 → result ≢ 5 → (result ≡ 0) ⊎ (result ≡ 6) }

    // and from a checkpoint of each machine that may be run for the node.
    ensures complete_resume { IsGoodResume (map string_bytes words.now) (F.files files.old) (C.left console.old) → result ≢ 4 → result ≢ 5 → (result ≡ 0) ⊎ (result ≡ 6) }

    // From any text that is not too long it ends so, or with 9, and then such a machine refuses it.
    ensures refused_resume { (r : IsResume (map string_bytes words.now) (F.files files.old) (C.left console.old)) → result ≢ 4 → result ≢ 5 →
        ((result ≡ 0) ⊎ (result ≡ 6)) ⊎ ((result ≡ 9) × IsRefused (F.files files.old) r.segment.file r.segment.node r.text) }

    // The text of a program without the formulas of its contracts is written, where it is no longer than a text may be, nothing fails and there is memory.
    ensures complete_past { IsGoodPast (map string_bytes words.now) (F.files files.old) → result ≢ 4 → result ≢ 5 → (result ≡ 0) ⊎ (result ≡ 6) }

    // The certificate of a contract that can be decided is written, where its text is no longer than it may be, nothing fails and there is memory,
    ensures complete_prove { IsGoodProve (map string_bytes words.now) (F.files files.old) → result ≢ 4 → result ≢ 5 → (result ≡ 0) ⊎ (result ≡ 6) }

    // and a text that proves something of it is verified, whoever wrote it.
    ensures complete_verify { IsGoodVerify (map string_bytes words.now) (F.files files.old) → result ≢ 4 → result ≢ 5 → (result ≡ 0) ⊎ (result ≡ 6) }
{
    let resources = Resources {
        alloc: extras.alloc,
        natives: extras.natives.as_slice(),
    };
    perform(&resources, words, files, console, diag).code()
}
