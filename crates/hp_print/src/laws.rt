//! What holds of every program that is parsed, as a function that does nothing.
ghost use Rattle.std.specs.Prelude.{◌≤◌, List, ℕ, length};
ghost use Rattle.hp_base.specs.Limits.{most};
ghost use Rattle.hp_base.specs.declared.limit.What.TheVariants.{Size};
ghost use Rattle.hp_lexer.specs.Lexing.{AreTokensOf};
ghost use Rattle.hp_lexer.specs.declared.token.Token.{Token};
ghost use Rattle.hp_parser.specs.Lexemes.{lexemes};
ghost use Rattle.hp_parser.specs.Programs.{IsProgram};
ghost use Rattle.hp_tree.specs.declared.program.Item.{Item};
ghost use Rattle.hp_print.specs.ProgramTokens.{canonical_text};
ghost use Rattle.hp_print.specs.ReadBack.{IsReadBack};

/// The canonical text of a program that is parsed is read back, where it is no longer than a text may be.
pub fn parsed_programs_are_read_back()
    ensures { (text : List ℕ) (tokens : List Token) (program : List Item)
        → AreTokensOf text tokens
        → IsProgram (lexemes text tokens) program
        → length (canonical_text program) ≤ most Size
        → IsReadBack program (canonical_text program) }
{}
