//! Laws: what may be chosen in the game of a contract where an early value is not of its type, as a comparison of integers is Nil in a run when an operand is.
//!
//! The functions here do nothing: each is a law, which its contract states.
#![tactic(auto)]

ghost use Rattle.law_choices.specs.Chosen.Laws.{ComesLaw, MachineNilLaw, NilChoicesLaw, SeenAlikeLaw, SeenChoicesLaw};

use law_drawing::mirrors::machine_choices_are_kept;
use law_games::forced::choices_are_on_machines;

/// With early values of their types some instant comes after each history.
pub fn typed_early_values_come()
    ensures { ComesLaw }
{}

/// Each instant after a history looks at the same early places, so early values of the game are of their types wherever an instant looks at them. With such ones the same is permitted and chosen as with those that are made of them, of their types everywhere.
pub fn nil_choices_are_kept()
    ensures alike { SeenAlikeLaw }
    ensures seen { SeenChoicesLaw }
    ensures choices { NilChoicesLaw }
{}

/// So what may be chosen with them is what a machine that mirrors the node may choose, at the bits of those that are made of them.
pub fn nil_choices_are_on_machines()
    ensures { MachineNilLaw }
{
    choices_are_on_machines();
    machine_choices_are_kept();
}
