ghost use Rattle.std.specs.Prelude.{◌≡◌, List, IfOk, IfErr, MatchResult};
ghost use Rattle.hp_tree.specs.declared.program.Item.{Item};
ghost use Rattle.hp_compile.specs.Judged.{IsProgramOf, IsJudged};
ghost use Rattle.hp_compile.specs.Refusals.{IsRefused};
ghost use Rattle.hp_compile.specs.declared.refusal.Refusal.TheVariants.{OutOfMemory};

use crate::refusal::Refusal;
use hp_lexer::lex;
use hp_names::resolve;
use hp_parser::parse;
use hp_tree::Program;
use hp_typing::check_types;
use std::alloc::Global;

/// The program of a text by the grammar within its limits.
#[tactic(auto, using(crate::proofs::RefusalLaws::lexing_refuses, crate::proofs::RefusalLaws::parsing_refuses))]
fn read(alloc: Global, text: &[u8]) -> Result<Program, Refusal>
    ensures program { IfOk result (IsProgramOf text.now) }
    ensures refused { IfErr result (IsRefused text.now) }
    ensures given { (p : List Item) → IsProgramOf text.now p → MatchResult result (λ found. found ≡ p) (λ e. e ≡ OutOfMemory) }
{
    let tokens = lex(alloc, text)?;
    let program = parse(alloc, text, tokens.as_slice())?;
    Ok(program)
}

/// The program of a text, if its names are well used and well defined and its types agree.
#[tactic(auto, using(crate::proofs::RefusalLaws::names_refuse, crate::proofs::RefusalLaws::types_refuse))]
pub fn judge(alloc: Global, text: &[u8]) -> Result<Program, Refusal>
    ensures judged { IfOk result (IsJudged text.now) }
    ensures refused { IfErr result (IsRefused text.now) }
    // A program that the text has is answered, unless memory runs out.
    ensures given { (p : List Item) → IsJudged text.now p → MatchResult result (λ found. found ≡ p) (λ e. e ≡ OutOfMemory) }
{
    let program = read(alloc, text)?;
    resolve(alloc, &program)?;
    check_types(alloc, &program)?;
    Ok(program)
}
