//! What holds of unfolded programs, as functions that do nothing.
ghost use Rattle.std.specs.Prelude.{◌≡◌, ◌<◌, ◌≤◌, ◌^◌, ℕ, List, [], ◌∷◌, length};
ghost use Rattle.hp_base.specs.Limits.{most};
ghost use Rattle.hp_base.specs.declared.limit.What.TheVariants.{Size};
ghost use Rattle.hp_base.specs.declared.value.Value.{Value};
ghost use Rattle.hp_lexer.specs.Lexing.{AreTokensOf};
ghost use Rattle.hp_lexer.specs.declared.token.Token.{Token};
ghost use Rattle.hp_parser.specs.Lexemes.{lexemes};
ghost use Rattle.hp_parser.specs.Programs.{IsProgram};
ghost use Rattle.hp_print.specs.ProgramTokens.{canonical_text};
ghost use Rattle.hp_print.specs.ReadBack.{IsReadBack};
ghost use Rattle.hp_tree.specs.declared.program.Item.{Item};
ghost use Rattle.hp_tree.specs.Instant.{Instant, Past, Observer, Named, parts};
ghost use Rattle.hp_tree.specs.Programs.{Contract};
ghost use Rattle.hp_tree.specs.Reaction.{Reaction};
ghost use Rattle.hp_past.specs.Unfolding.{unfolded, next_number};
ghost use Rattle.hp_past.specs.Remembering.{HasContract, Tells};
ghost use Rattle.hp_past.specs.Remembered.{Remembered, variable_of, Keeps, Says, AreBoolean, instants_of, ContractsExtend};

/// In an unfolded program each contract has new variables behind its own, and each of them that is declared `last` remembers a formula
/// of other variables of the contract. Nothing else changes.
pub fn unfolded_contracts_remember()
    ensures { (program : List Item) → next_number program < 2 ^ 64 → ContractsExtend program (unfolded program) }
{}

/// In each reaction of a node, a variable of its contract that remembers a formula is true exactly where the formula holds of the
/// instants of the contract's block so far, in its own past, if the variables of the formula are Boolean there. That past is all of it.
pub fn formulas_are_remembered()
    ensures value { (program : List Item) (f : List ℕ) (c : Contract) → HasContract program f c
        → (inputs : List (List Value)) (frees : List Instant) (now : Instant) (past : Past) → Reaction program f inputs frees (now ∷ past)
        → (m : Remembered) → Keeps c.body m → AreBoolean m (instants_of now past)
        → Tells (now (Observer ∷ Named (variable_of m) ∷ [])) (Says m (instants_of now past)) }
    ensures past { (program : List Item) (f : List ℕ) (c : Contract) → HasContract program f c
        → (inputs : List (List Value)) (frees : List Instant) (now : Instant) (past : Past) → Reaction program f inputs frees (now ∷ past)
        → instants_of now past ≡ parts Observer (now ∷ past) }
{}

/// The canonical text of the unfolded program of a text is read back as that program, but for places, where it is no longer than a text may be.
pub fn unfolded_programs_are_read_back()
    ensures { (text : List ℕ) (tokens : List Token) (program : List Item) → AreTokensOf text tokens → IsProgram (lexemes text tokens) program → next_number program < 2 ^ 64
        → length (canonical_text (unfolded program)) ≤ most Size → IsReadBack (unfolded program) (canonical_text (unfolded program)) }
{}
