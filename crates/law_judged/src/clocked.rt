//! What a program has whose names are in their scopes, once its clocks are written.
//!
//! The function here does nothing: it is a law, which its contract states.
#![tactic(auto)]

ghost use Rattle.law_judged.specs.Clocked.Laws.{ClockedLaw, NamedLaw};

/// Where the names of a program are in their scopes, those of each node are right. With its clocks written names are still in their
/// scopes, the clocks are right, and none is too long.
pub fn written_programs_are_clocked()
    ensures named { NamedLaw }
    ensures clocked { ClockedLaw }
{}
