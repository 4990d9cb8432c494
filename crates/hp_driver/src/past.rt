//! The command `past`.
ghost use Rattle.std.specs.Prelude.{◌≡◌, ◌≢◌, ◌<◌, ◌^◌, List, ℕ, IfOk, IfErr, OnOk, MatchResult};
ghost use Rattle.hp_io.specs.Reads.{NothingRead};
ghost use Rattle.hp_io.specs.Told.{Grows};
ghost use Rattle.hp_tree.specs.declared.program.Item.{Item};
ghost use Rattle.hp_print.specs.ProgramTokens.{canonical_text};
ghost use Rattle.hp_compile.specs.Judged.{IsProgramOf};
ghost use Rattle.hp_compile.specs.Refusals.{IsRefused};
ghost use Rattle.hp_compile.specs.declared.refusal.Refusal.TheVariants.{OutOfMemory};
ghost use Rattle.hp_past.specs.Unfolding.{unfolded, next_number};
ghost use Rattle.hp_driver.specs.Faults.{WriteOrPutFaults};
ghost use Rattle.hp_driver.specs.Past.{UnfoldsText, UnfoldsProgram, WritesSource, LeavesOfText, LeavesOfProgram, LeavesSource};
ghost use Rattle.hp_driver.specs.Status.{code_of};

use crate::refuse::{report_refusal, report_too_long};
use crate::source::write_text;
use crate::status::Status;
use hp_base::What;
use hp_compile::Refusal;
use hp_io::{Folder, Sink};
use hp_lexer::lex;
use hp_parser::parse;
use hp_past::{unfold, unfolded_programs_are_read_back};
use hp_print::print;
use hp_tree::Program;
use law_past::unfolded_formulas_have_their_values;
use std::alloc::{AllocError, Global};

/// The program of a text by the grammar within its limits, whatever its names and types are.
#[tactic(auto, using(hp_compile::proofs::RefusalLaws::lexing_refuses, hp_compile::proofs::RefusalLaws::parsing_refuses))]
fn read(alloc: Global, text: &[u8]) -> Result<Program, Refusal>
    ensures program { IfOk result (IsProgramOf text.now) }
    ensures refused { IfErr result (IsRefused text.now) }
    ensures given { (p : List Item) → IsProgramOf text.now p → MatchResult result (λ found. found ≡ p) (λ e. e ≡ OutOfMemory) }
{
    let tokens = lex(alloc, text)?;
    let program = parse(alloc, text, tokens.as_slice())?;
    Ok(program)
}

/// The canonical text of the program without the formulas of its contracts.
fn unfolded_text(alloc: Global, program: &Program) -> Result<Vec<u8>, AllocError>
    ensures text { IfOk result (λ text. text.items ≡ canonical_text (unfolded program.now)) }
    ensures small { OnOk result (next_number program.now < 2 ^ 64) }
{
    match unfold(alloc, program) {
        Ok(unfolded) => print(alloc, &unfolded),
        Err(_) => Err(AllocError),
    }
}

/// Writes a source text to a file, if it is no longer than one may be.
fn write_source<F: Folder, E: Sink>(
    alloc: Global,
    text: &[u8],
    out: &str,
    files: &mut F,
    diag: &mut E,
) -> Status
    ensures outcome { (line : List ℕ) × Grows (E.took diag.old) (E.took diag.new) line × WritesSource text.now line (code_of result) }
    ensures leaves { LeavesSource out.now text.now (F.files files.old) (F.files files.new) (code_of result) }
    ensures status { code_of result ≢ 4 }
    ensures reads { NothingRead (F.reads files.old) (F.reads files.new) }
    ensures writes { WriteOrPutFaults out.now (code_of result) (F.write_faults files.old) (F.write_faults files.new) (E.faults diag.old) (E.faults diag.new) }
{
    if text.len() as u64 > What::Size.most() {
        return report_too_long(alloc, diag, What::Size);
    }
    write_text(text, out, files)
}

/// Writes the program without the formulas of its contracts to a file.
fn write_unfolded<F: Folder, E: Sink>(
    alloc: Global,
    program: &Program,
    out: &str,
    files: &mut F,
    diag: &mut E,
) -> Status
    ensures outcome { (line : List ℕ) × Grows (E.took diag.old) (E.took diag.new) line × UnfoldsProgram out.now program.now line (code_of result) }
    ensures leaves { LeavesOfProgram out.now program.now (F.files files.old) (F.files files.new) (code_of result) }
    ensures status { code_of result ≢ 4 }
    ensures reads { NothingRead (F.reads files.old) (F.reads files.new) }
    ensures writes { WriteOrPutFaults out.now (code_of result) (F.write_faults files.old) (F.write_faults files.new) (E.faults diag.old) (E.faults diag.new) }
{
    // Laws: what is written is read back, and tells the formulas.
    unfolded_programs_are_read_back();
    unfolded_formulas_have_their_values();
    match unfolded_text(alloc, program) {
        Ok(text) => write_source(alloc, text.as_slice(), out, files, diag),
        Err(_) => Status::NoMemory,
    }
}

/// Writes the program of the text that was read to a file, without the formulas of its contracts. Its names and types are not judged.
pub(crate) fn run_past<F: Folder, E: Sink>(
    alloc: Global,
    text: &[u8],
    out: &str,
    files: &mut F,
    diag: &mut E,
) -> Status
    ensures outcome { (line : List ℕ) × Grows (E.took diag.old) (E.took diag.new) line × UnfoldsText out.now text.now line (code_of result) }
    ensures leaves { LeavesOfText out.now text.now (F.files files.old) (F.files files.new) (code_of result) }
    ensures status { code_of result ≢ 4 }
    ensures reads { NothingRead (F.reads files.old) (F.reads files.new) }
    ensures writes { WriteOrPutFaults out.now (code_of result) (F.write_faults files.old) (F.write_faults files.new) (E.faults diag.old) (E.faults diag.new) }
{
    match read(alloc, text) {
        Ok(program) => write_unfolded(alloc, &program, out, files, diag),
        Err(refusal) => report_refusal(alloc, diag, &refusal),
    }
}
