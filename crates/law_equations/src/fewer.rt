//! Clocked equations in another order, and without needless choices and copies and what nothing needs, keep their reactions; so the machines of ranked nodes answer as these do.
//!
//! The functions here do nothing: each is a law, which its contract states.
#![tactic(auto)]

ghost use Rattle.law_equations.specs.Fewer.Compiling.{CompiledLaw, KindsLaw, PassedLaw};
ghost use Rattle.law_equations.specs.Fewer.Keeping.{NormalLaw, OrderLaw, ReorderedLaw};

/// Ranked equations in the order of their ranks are scheduled, and any order has the same reactions.
pub fn order_keeps_reactions()
    ensures order { OrderLaw }
    ensures reactions { ReorderedLaw }
{}

/// Without needless choices and copies and what nothing needs equations keep their reactions.
pub fn fewer_copies_keep_reactions()
    ensures { NormalLaw }
{}

/// Ranked nodes give what machines ask for, and their machines answer as they do.
pub fn nodes_are_compiled()
    ensures kinds { KindsLaw }
    ensures nodes { PassedLaw }
    ensures programs { CompiledLaw }
{}
