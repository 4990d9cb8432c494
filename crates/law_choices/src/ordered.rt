//! Laws: a program without its automata is ordered, as the program was before.
//!
//! The functions here do nothing: each is a law, which its contract states.
#![tactic(auto)]

ghost use Rattle.law_choices.specs.Ordered.Ordered.{DeclaredLaw, OrderedLaw, PointsLaw};
ghost use Rattle.law_choices.specs.Ordered.Written.{WrittenLaw};

use hp_meaning::causal::{ranks_of_points, sources_are_points};
use law_automata::classed::removing_automata_keeps_classes;
use law_automata::lowered::ranks_are_kept;
use law_automata::readied::{names_are_defined_once, programs_with_classes_are_accepted};

/// Where all places of a node have ranks, its points have, one each and in order.
pub fn points_have_ranks()
    ensures { PointsLaw }
{
    sources_are_points();
}

/// Names that control equations define are declared around them, also without automata.
pub fn names_stay_declared()
    ensures { DeclaredLaw }
{
    names_are_defined_once();
}

/// Where a clock is written at each declaration, so it is without automata.
pub fn clocks_stay_written()
    ensures { WrittenLaw }
{}

/// A ready program is ordered without its automata: names are declared, clocks are written and right, nodes have classes, and ranks of points fall along all that they depend on.
pub fn ready_programs_stay_ordered()
    ensures { OrderedLaw }
{
    clocks_stay_written();
    names_stay_declared();
    points_have_ranks();
    programs_with_classes_are_accepted();
    ranks_are_kept();
    ranks_of_points();
    removing_automata_keeps_classes();
}
