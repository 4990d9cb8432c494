//! The call over files and an input in memory.
ghost use Rattle.std.specs.Prelude.{◌≡◌, ◌⊎◌, ℕ, List, [], None, map, IfOk, IsTrue};
ghost use Rattle.std.specs.FinMap as finmap;
ghost use Rattle.std.specs.String.{string_bytes};
ghost use Rattle.hp_io.specs.Events.{said_bytes};
ghost use Rattle.hp_driver.specs.Claim.{Ends};
ghost use Rattle.hp_driver.specs.ClaimTerms.{LacksFile};
ghost use Rattle.hp_driver.specs.Commanded.{Spells, SpellsSegment};
ghost use Rattle.hp_driver.specs.Status.{code_of};
ghost use Rattle.hp_driver.specs.declared.status.Status.TheVariants.{ReadFailed, NoMemory};

use crate::resources::Extras;
use crate::status::Status;
use crate::tool::run_tool;
use crate::words::{Command, Segment, command_of, segment_of};
use hp_io::{MemConsole, MemFolder, MemSink};
use std::alloc::{AllocError, Global};

/// What a call says, the line of its diagnostics, and its status.
#[derive(Debug, Drop)]
pub struct Answer {
    pub said: Vec<u8>,
    pub diagnostics: Vec<u8>,
    pub status: u8,
}

impl Answer {
    /// Nothing is said.
    fn nothing(alloc: Global, status: Status) -> Answer
        ensures said { result.said.items ≡ [] }
        ensures diagnostics { result.diagnostics.items ≡ [] }
        ensures status { result.status ≡ code_of status }
    {
        Answer {
            said: Vec::new(alloc),
            diagnostics: Vec::new(alloc),
            status: status.code(),
        }
    }
}

/// What the objects took.
fn told(
    alloc: Global,
    console: &MemConsole,
    diag: &MemSink,
    status: u8,
) -> Result<Answer, AllocError>
    ensures said { IfOk result (λ answer. answer.said.items ≡ said_bytes console.now.events) }
    ensures diagnostics { IfOk result (λ answer. answer.diagnostics.items ≡ diag.now.took) }
    ensures status { IfOk result (λ answer. answer.status ≡ status) }
{
    Ok(Answer {
        said: console.said(alloc)?,
        diagnostics: Vec::from_slice(alloc, diag.bytes())?,
        status,
    })
}

/// Whether there is no file of this name.
fn is_absent(files: &MemFolder, name: &str) -> bool
    ensures { IsTrue result → finmap.get files.now.files name.now ≡ None }
{
    files.file(name).is_none()
}

/// Whether a file that the command reads is not there.
fn lacks_of_command(files: &MemFolder, command: Command<'_>) -> bool
    ensures { (words : List (List ℕ)) → Spells words command.entry → IsTrue result → LacksFile words files.now.files }
{
    match command {
        Command::Verify { file, cert, .. } => is_absent(files, file) || is_absent(files, cert),
        _ => is_absent(files, command.file()),
    }
}

/// Whether a file that the run reads is not there.
fn lacks_of_segment(files: &MemFolder, segment: Segment<'_>) -> bool
    ensures { (words : List (List ℕ)) → SpellsSegment words segment.entry → IsTrue result → LacksFile words files.now.files }
{
    match segment.from {
        Some(mem) => is_absent(files, segment.file) || is_absent(files, mem),
        None => is_absent(files, segment.file),
    }
}

/// Whether a file that is to be read is not there.
fn lacks_file(alloc: Global, words: &[String], files: &MemFolder) -> Result<bool, AllocError>
    ensures { IfOk result (λ lacks. IsTrue lacks → LacksFile (map string_bytes words.now) files.now.files) }
{
    if let Some(segment) = segment_of(alloc, words)? {
        return Ok(lacks_of_segment(files, segment));
    }
    match command_of(alloc, words)? {
        Some(command) => Ok(lacks_of_command(files, command)),
        None => Ok(false),
    }
}

/// Why a call ended with a read or a take that failed, where none is to fail: a file is not there, or there was no memory.
fn why_unread(alloc: Global, words: &[String], files: &MemFolder) -> Status
    ensures { (result ≡ NoMemory) ⊎ ((result ≡ ReadFailed) × LacksFile (map string_bytes words.now) files.now.files) }
{
    match lacks_file(alloc, words, files) {
        Ok(true) => Status::ReadFailed,
        Ok(false) | Err(_) => Status::NoMemory,
    }
}

/// Does what the words say, over these files and this input, where no call of the outside is to fail. What it wants of memory to hold what is said is want of memory too.
pub fn run_in_memory(
    alloc: Global,
    words: &[String],
    files: &mut MemFolder,
    input: Vec<u8>,
) -> Answer
    ensures { Ends (map string_bytes words.now) files.old.files input.items result.said.items result.diagnostics.items files.new.files result.status }
{
    let mut console = MemConsole::new(input, Vec::new(alloc), Vec::new(alloc));
    let mut diag = MemSink::new(Vec::new(alloc));
    let extras = Extras::none(alloc);
    let status = run_tool(&extras, words, files, &mut console, &mut diag);
    // A read or a take failed.
    if status == 4 {
        return Answer::nothing(alloc, why_unread(alloc, words, files));
    }
    // A put failed: nothing fails here but for want of memory.
    if status == 5 {
        return Answer::nothing(alloc, Status::NoMemory);
    }
    match told(alloc, &console, &diag, status) {
        Ok(answer) => answer,
        Err(_) => Answer::nothing(alloc, Status::NoMemory),
    }
}
