ghost use Rattle.std.specs.Prelude.{◌≡◌, ◌≢◌, ◌≤◌, ◌⊎◌, List, IfOk, IfErr, MatchResult};
ghost use Rattle.hp_lexer.specs.Lexing.{AreTokensOf};
ghost use Rattle.hp_tree.specs.declared.program.Item.{Item};
ghost use Rattle.hp_parser.specs.Lexemes.{lexemes};
ghost use Rattle.hp_parser.specs.Programs.{IsProgram};
ghost use Rattle.hp_parser.specs.Refusals.{IsRefused};
ghost use Rattle.hp_parser.specs.Seen.{IsRefusal};
ghost use Rattle.hp_parser.specs.declared.parsing.ParseErr.TheVariants.{OutOfMemory};

use crate::fault::{Fault, Stop};
use crate::reader::Reader;
use hp_base::{Limit, Span};
use hp_lexer::Token;
use hp_tree::Program;
use std::alloc::Global;
use thiserror::Error;

/// Why tokens are no program.
#[derive(Debug, Drop, Error)]
pub enum ParseErr {
    /// With the token at this place, or behind the text, the tokens before it begin no program.
    #[error("no program")]
    Bad { span: Span },
    /// With the token at this place they begin no program within the limits.
    #[error("a limit is passed")]
    Limit { span: Span, limit: Limit },
    #[error("out of memory")]
    OutOfMemory,
}

fn refusal(stop: Stop, place: Span) -> ParseErr
    ensures { IsRefusal stop place result }
{
    match stop {
        Stop::Memory => ParseErr::OutOfMemory,
        Stop::Fault(Fault::Bad) => ParseErr::Bad { span: place },
        Stop::Fault(Fault::Limit(what)) => ParseErr::Limit {
            span: place,
            limit: Limit {
                what,
                found: what.most() + 1,
            },
        },
    }
}

/// The program of a text, from its tokens.
pub fn parse(alloc: Global, text: &[u8], tokens: &[Token]) -> Result<Program, ParseErr>
    requires { AreTokensOf text.now tokens.now }
    // What is answered is the program of the tokens, or their refusal.
    ensures program { IfOk result (IsProgram (lexemes text.now tokens.now)) }
    ensures refused { IfErr result (IsRefused text.now (lexemes text.now tokens.now)) }
    // The program that the tokens have is answered, unless memory runs out.
    ensures given { (p : List Item) → IsProgram (lexemes text.now tokens.now) p
        → MatchResult result (λ found. found ≡ p) (λ e. e ≡ OutOfMemory) }
{
    let mut reader = Reader::new(alloc, text, tokens);
    match reader.program() {
        Ok(program) => {
            if reader.is_empty() {
                Ok(program)
            } else {
                Err(ParseErr::Bad {
                    span: reader.place(text),
                })
            }
        }
        Err(stop) => Err(refusal(stop, reader.place(text))),
    }
}
