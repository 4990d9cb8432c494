//! Laws: names in their scopes, which are those of a program, are apart from the names that are made of them.
//!
//! The functions here do nothing: each is a law, which its contract states.
#![tactic(auto)]

ghost use Rattle.law_wellmade.specs.Apart.Apart.{LoweredLaw, ScopedLaw};

/// Names of a program in their scopes are apart as clocked equations ask for it, and so they are where automata are removed.
pub fn names_are_apart()
    ensures scoped { ScopedLaw }
    ensures lowered { LoweredLaw }
{}
