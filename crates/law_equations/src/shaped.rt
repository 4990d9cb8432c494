//! Laws: machines of clocked equations whose kinds agree have form, and so have the machines of a program.
//!
//! The functions here do nothing: each is a law, which its contract states.
#![tactic(auto)]

ghost use Rattle.law_equations.specs.Shaped.Laws.{FormLaw, KeptLaw, ProgramFormLaw};

/// The machine of a node that has shape has form; so do the machines of nodes in order, each of which calls nodes before it.
pub fn machines_have_form()
    ensures node { FormLaw }
    ensures program { ProgramFormLaw }
{}

/// A node keeps its shape where some of its equations go.
pub fn shape_is_kept()
    ensures { KeptLaw }
{}
