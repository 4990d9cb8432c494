use hp_lexer::lex;
use hp_parser::parse;
use hp_tree::Program;
use std::alloc::Global;
use std::test::Fail;

/// The program of a text.
pub(crate) fn program_of(alloc: Global, text: &[u8]) -> Result<Program, Fail> {
    let Ok(tokens) = lex(alloc, text) else {
        return Err(Fail::from("no tokens"));
    };
    match parse(alloc, text, tokens.as_slice()) {
        Ok(program) => Ok(program),
        Err(_) => Err(Fail::from("no program")),
    }
}
