//! Laws: the clocked equations that the nodes of a program become are what their machines ask for.
//!
//! The functions here do nothing: each is a law, which its contract states.
#![tactic(auto)]

ghost use Rattle.law_wellmade.specs.Suited.Suited.{ProgramLaw, SuitedLaw};

use hp_complete::flat_nodes_stand_for_flat_names;
use hp_form::regular::regular_equations_have_form;
use law_equations::fitting::{calls_are_kept, names_fit, targets_differ};

/// The equations of a node have the form that its machine asks for, and so have those of a program.
pub fn nodes_suit()
    ensures node { SuitedLaw }
    ensures program { ProgramLaw }
{
    names_fit();
    targets_differ();
    calls_are_kept();
    flat_nodes_stand_for_flat_names();
    regular_equations_have_form();
}
