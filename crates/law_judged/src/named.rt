//! What the passes behind the judgements may rely on: in a judged program each name is in its scope.
//!
//! The functions here do nothing: each is a law, which its contract states.
#![tactic(auto)]

ghost use Rattle.law_judged.specs.Named.Laws.{ClocksKeepLaw, NamedLaw, NamesLaw, ScopedLaw};

/// In a program whose names are well used and well defined each block declares names that are not seen around it, each once, and defines
/// each of them, and its equations define names that are to be defined there.
pub fn judged_names_are_in_scope()
    ensures scoped { ScopedLaw }
    ensures named { NamedLaw }
{}

/// So each local is declared once and has an equation, and each name that a control equation defines is declared around it.
pub fn names_in_scope_are_declared()
    ensures { NamesLaw }
{}

/// Writing clocks keeps names in their scopes.
pub fn clocks_keep_scopes()
    ensures { ClocksKeepLaw }
{}
