//! The words of a call.
ghost use Rattle.std.specs.Prelude.{◌≡◌, ◌↔◌, ◌≤◌, ◌<◌, ◌⊎◌, ℕ, List, [], ◌∷◌, map, take, IfOk, IsTrue, MatchOption};
ghost use Rattle.std.specs.String.{string_bytes};
ghost use Rattle.hp_driver.specs.Command.{IsOnTraceBy, IsOnCertBy, IsPlainCheckOf, IsPrintOf, IsNoSourceCommand, IsNoCertCommand, IsNoFileCommand, IsNoSegment, IsResumeOf, IsSweepOf, IsTellOf, SpellsNumber, with_digit};
ghost use Rattle.hp_driver.specs.Commanded.{AreBoth, SpellsSegment, SpellsTask, Spells, file_of, limit_of};

use crate::sweep::Sweep;
use hp_arguments::{is_argument, one_argument, three_arguments, two_arguments};
use hp_base::{What, is_digit_byte};
use std::alloc::{AllocError, Global};

const CHECK: &str = "check";

/// The option of `check` by which the canonical text is printed.
const PRINT: &str = "--print";

const RUN: &str = "run";

const RESUME: &str = "resume";

/// The option of `run` by which the values of the assumption and the guarantee are told too.
const CONTRACT: &str = "--contract";

/// The most tasks and instants of a sweep.
const MAX_TASKS: u64 = 8;

const MAX_INSTANTS: u64 = 1_000_000;

/// What is done with a source text.
#[derive(Clone, Copy, Debug)]
pub(crate) enum Task<'a> {
    /// `run FILE NODE`
    Run { node: &'a str },
    /// `run FILE NODE --contract`
    Tell { node: &'a str },
    /// `check FILE [--print]`
    Check { print: bool },
    /// `compile FILE OUT`
    Compile { out: &'a str },
}

/// A run of a node that leaves a checkpoint: `save FILE NODE MEM`, or `resume FILE NODE MEM OUT`.
#[derive(Clone, Copy, Debug)]
pub(crate) struct Segment<'a> {
    pub file: &'a str,
    pub node: &'a str,
    /// The file of the checkpoint with whose memory the run begins; none where it begins with the memory after a reset.
    pub from: Option<&'a str>,
    /// The file to which the checkpoint of the memory behind the run is written.
    pub out: &'a str,
}

/// What is asked for.
#[derive(Clone, Copy, Debug)]
pub(crate) enum Command<'a> {
    /// A command over a source text.
    Source {
        file: &'a str,
        task: Task<'a>,
    },
    /// `past FILE OUT`
    Past {
        file: &'a str,
        out: &'a str,
    },
    /// `exec FILE NODE`
    Exec {
        file: &'a str,
        node: &'a str,
    },
    /// `prove FILE NODE CERT`
    Prove {
        file: &'a str,
        node: &'a str,
        cert: &'a str,
    },
    /// `verify FILE NODE CERT`
    Verify {
        file: &'a str,
        node: &'a str,
        cert: &'a str,
    },
}

impl<'a> Command<'a> {
    /// The file that is read.
    pub(crate) fn file(self) -> &'a str
        ensures { result.now ≡ file_of self.entry }
    {
        match self {
            Command::Source { file, .. } => file,
            Command::Past { file, .. } => file,
            Command::Exec { file, .. } => file,
            Command::Prove { file, .. } => file,
            Command::Verify { file, .. } => file,
        }
    }

    /// The limit on the bytes of the file: that of a source text, or of a text of machines.
    pub(crate) fn limit(self) -> What
        ensures { result ≡ limit_of self.entry }
    {
        match self {
            Command::Exec { .. } => What::Text,
            _ => What::Size,
        }
    }
}

/// Whether the first of the words is this name.
fn are_named(words: &[String], name: &str) -> bool
    ensures { IsTrue result ↔ (take 1 (map string_bytes words.now) ≡ name.now ∷ []) }
{
    match words {
        [] => false,
        [command, ..] => command.as_str() == name,
    }
}

/// The words `NAME FILE NODE` or `NAME FILE OUT`: the file and what stands behind it.
fn command_with_two<'a>(
    alloc: Global,
    name: &str,
    words: &'a [String],
) -> Result<Option<(&'a str, &'a str)>, AllocError>
    ensures { IfOk result (λ found. MatchOption found ((file node : List ℕ) → IsOnTraceBy name.now (map string_bytes words.entry.now) file node → ⊥)
        (λ found. IsOnTraceBy name.now (map string_bytes words.entry.now) found.0.now found.1.now)) }
{
    if !are_named(words, name) {
        return Ok(None);
    }
    two_arguments(alloc, words)
}

/// The words `NAME FILE NODE CERT`, or `NAME FILE NODE MEM`: the file, the name of the node and the file of the certificate or the checkpoint.
fn command_with_three<'a>(
    alloc: Global,
    name: &str,
    words: &'a [String],
) -> Result<Option<(&'a str, &'a str, &'a str)>, AllocError>
    ensures { IfOk result (λ found. MatchOption found ((file node cert : List ℕ) → IsOnCertBy name.now (map string_bytes words.entry.now) file node cert → ⊥)
        (λ found. IsOnCertBy name.now (map string_bytes words.entry.now) found.0.now found.1.now found.2.now)) }
{
    if !are_named(words, name) {
        return Ok(None);
    }
    three_arguments(alloc, words)
}

/// What the words ask for, if they are of a command over a certificate.
fn cert_command<'a>(alloc: Global, words: &'a [String]) -> Result<Option<Command<'a>>, AllocError>
    ensures { IfOk result (λ found. MatchOption found (IsNoCertCommand (map string_bytes words.entry.now)) (λ command. Spells (map string_bytes words.entry.now) command)) }
{
    if let Some((file, node, cert)) = command_with_three(alloc, "prove", words)? {
        return Ok(Some(Command::Prove { file, node, cert }));
    }
    if let Some((file, node, cert)) = command_with_three(alloc, "verify", words)? {
        return Ok(Some(Command::Verify { file, node, cert }));
    }
    Ok(None)
}

/// The words `check FILE`: the file.
fn plain_check<'a>(alloc: Global, words: &'a [String]) -> Result<Option<&'a str>, AllocError>
    ensures { IfOk result (λ found. MatchOption found ((file : List ℕ) → IsPlainCheckOf (map string_bytes words.entry.now) file → ⊥)
        (λ file. IsPlainCheckOf (map string_bytes words.entry.now) file.now)) }
{
    if !are_named(words, CHECK) {
        return Ok(None);
    }
    one_argument(alloc, words)
}

/// The words `check FILE --print` or `check --print FILE`: the file.
fn printing_check<'a>(alloc: Global, words: &'a [String]) -> Result<Option<&'a str>, AllocError>
    ensures { IfOk result (λ found. MatchOption found ((file : List ℕ) → IsPrintOf (map string_bytes words.entry.now) file → ⊥)
        (λ file. IsPrintOf (map string_bytes words.entry.now) file.now)) }
{
    let [command, first, second] = words else {
        return Ok(None);
    };
    if command.as_str() != CHECK {
        return Ok(None);
    }
    if second.as_str() == PRINT {
        return one_argument(alloc, &words[..2]);
    }
    if first.as_str() == PRINT {
        return one_argument(alloc, &words[1..]);
    }
    Ok(None)
}

/// A file and the name of a node, if both words are arguments.
fn file_and_node<'a>(file: &'a str, node: &'a str) -> Option<(&'a str, &'a str)>
    ensures { AreBoth file.entry.now node.entry.now result }
{
    if is_argument(file) && is_argument(node) {
        Some((file, node))
    } else {
        None
    }
}

/// The words `run FILE NODE --contract`, the option anywhere behind `run`: the file and the name of the node.
fn telling_run<'a>(words: &'a [String]) -> Option<(&'a str, &'a str)>
    ensures { MatchOption result ((file node : List ℕ) → IsTellOf (map string_bytes words.entry.now) file node → ⊥)
        (λ found. IsTellOf (map string_bytes words.entry.now) found.0.now found.1.now) }
{
    let [command, first, second, third] = words else {
        return None;
    };
    if command.as_str() != RUN {
        return None;
    }
    if third.as_str() == CONTRACT {
        return file_and_node(first.as_str(), second.as_str());
    }
    if second.as_str() == CONTRACT {
        return file_and_node(first.as_str(), third.as_str());
    }
    if first.as_str() == CONTRACT {
        return file_and_node(second.as_str(), third.as_str());
    }
    None
}

/// What the words ask for, if they are of a command over a source text: the file and the task.
fn source_command<'a>(
    alloc: Global,
    words: &'a [String],
) -> Result<Option<(&'a str, Task<'a>)>, AllocError>
    ensures { IfOk result (λ found. MatchOption found (IsNoSourceCommand (map string_bytes words.entry.now))
        (λ found. SpellsTask (map string_bytes words.entry.now) found.0.now found.1)) }
{
    if let Some((file, node)) = command_with_two(alloc, RUN, words)? {
        return Ok(Some((file, Task::Run { node })));
    }
    if let Some((file, node)) = telling_run(words) {
        return Ok(Some((file, Task::Tell { node })));
    }
    if let Some((file, out)) = command_with_two(alloc, "compile", words)? {
        return Ok(Some((file, Task::Compile { out })));
    }
    if let Some(file) = plain_check(alloc, words)? {
        return Ok(Some((file, Task::Check { print: false })));
    }
    if let Some(file) = printing_check(alloc, words)? {
        return Ok(Some((file, Task::Check { print: true })));
    }
    Ok(None)
}

/// What the words ask for, if they are one of the forms.
pub(crate) fn command_of<'a>(
    alloc: Global,
    words: &'a [String],
) -> Result<Option<Command<'a>>, AllocError>
    requires { IsNoSegment (map string_bytes words.now) }
    ensures { IfOk result (λ found. MatchOption found (IsNoFileCommand (map string_bytes words.entry.now)) (λ command. Spells (map string_bytes words.entry.now) command)) }
{
    if let Some((file, node)) = command_with_two(alloc, "exec", words)? {
        return Ok(Some(Command::Exec { file, node }));
    }
    if let Some((file, out)) = command_with_two(alloc, "past", words)? {
        return Ok(Some(Command::Past { file, out }));
    }
    if let Some(command) = cert_command(alloc, words)? {
        return Ok(Some(command));
    }
    let Some((file, task)) = source_command(alloc, words)? else {
        return Ok(None);
    };
    Ok(Some(Command::Source { file, task }))
}

/// The words `resume FILE NODE MEM OUT`.
fn resumed_segment(words: &[String]) -> Option<Segment<'_>>
    ensures { MatchOption result ((file node mem out : List ℕ) → IsResumeOf (map string_bytes words.entry.now) file node mem out → ⊥)
        (λ segment. SpellsSegment (map string_bytes words.entry.now) segment) }
{
    let [command, file, node, mem, out] = words else {
        return None;
    };
    if command.as_str() != RESUME {
        return None;
    }
    let (file, node) = file_and_node(file.as_str(), node.as_str())?;
    let (mem, out) = file_and_node(mem.as_str(), out.as_str())?;
    Some(Segment {
        file,
        node,
        from: Some(mem),
        out,
    })
}

/// What the words ask for, if it is a run that leaves a checkpoint.
pub(crate) fn segment_of<'a>(
    alloc: Global,
    words: &'a [String],
) -> Result<Option<Segment<'a>>, AllocError>
    ensures { IfOk result (λ found. MatchOption found (IsNoSegment (map string_bytes words.entry.now)) (λ segment. SpellsSegment (map string_bytes words.entry.now) segment)) }
{
    if let Some((file, node, out)) = command_with_three(alloc, "save", words)? {
        return Ok(Some(Segment {
            file,
            node,
            from: None,
            out,
        }));
    }
    Ok(resumed_segment(words))
}

/// A number with one more digit behind it, if the byte is one.
fn with_digit(number: u64, byte: u8) -> Option<u64>
    requires { number ≤ 1000000 }
    ensures { result ≡ with_digit number byte }
{
    if is_digit_byte(byte) {
        Some(number * 10 + u64::from(byte - b'0'))
    } else {
        None
    }
}

/// The number that a word spells in decimal digits, if it is at most this one.
fn number_of(word: &str, most: u64) -> Option<u64>
    requires { most ≤ 1000000 }
    ensures { MatchOption result ((number : ℕ) → SpellsNumber word.now number → number ≤ most → ⊥) (λ number. SpellsNumber word.now number × (number ≤ most)) }
{
    let bytes = word.as_bytes();
    if bytes.is_empty() {
        return None;
    }
    let mut number: u64 = 0;
    for i in 0..bytes.len() {
        let Some(longer) = with_digit(number, bytes[i]) else {
            return None;
        };
        if longer > most {
            return None;
        }
        number = longer;
    }
    Some(number)
}

/// The words `sweep TASKS INSTANTS`.
pub(crate) fn sweep_of(alloc: Global, words: &[String]) -> Result<Option<Sweep>, AllocError>
    ensures { IfOk result (λ found. MatchOption found ((tasks instants : ℕ) → IsSweepOf (map string_bytes words.now) tasks instants → ⊥) (λ sweep. IsSweepOf (map string_bytes words.now) sweep.tasks sweep.instants)) }
{
    let Some((tasks, instants)) = command_with_two(alloc, "sweep", words)? else {
        return Ok(None);
    };
    let Some(tasks) = number_of(tasks, MAX_TASKS) else {
        return Ok(None);
    };
    let Some(instants) = number_of(instants, MAX_INSTANTS) else {
        return Ok(None);
    };
    if tasks == 0 {
        return Ok(None);
    }
    Ok(Some(Sweep { tasks, instants }))
}
