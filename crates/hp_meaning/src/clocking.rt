//! Which clocks a program may have, how they are solved, and what is written. The functions do nothing: each is a law, which its contract states.
#![tactic(auto)]

ghost use Rattle.hp_meaning.specs.Clocking.Laws.{AllWrittenLaw, InstanceLaw, JudgedLaw, KeptLaw, OneShortestLaw, PassedLaw, RightLaw, WrittenLaw};
ghost use Rattle.hp_meaning.specs.Clocking.EachExpression.{EachLaw, EachShorterLaw};

/// Solving names the first unit such that the units up to it allow no clocks, or gives the shortest clocks that are allowed.
pub fn first_clash_is_named()
    ensures { JudgedLaw }
{}

/// There is at most one shortest assignment.
pub fn one_shortest_assignment()
    ensures { OneShortestLaw }
{}

/// The clocks of a node in which allowed clocks are written are right, and each clock is written.
pub fn written_clocks_are_right()
    ensures right { WrittenLaw }
    ensures written { AllWrittenLaw }
{}

/// Right clocks are an allowed assignment, and where each clock is written nothing else is.
pub fn right_clocks_are_allowed()
    ensures allowed { RightLaw }
    ensures kept { KeptLaw }
    ensures instance { InstanceLaw }
{}

/// The meaning of the written program reads the shortest clocks.
pub fn shortest_clocks_are_read()
    ensures { PassedLaw }
{}

/// The clocks of the expressions in a right side are those that are passed down, and are shorter where it stands on a shorter clock.
pub fn clocks_are_passed_down()
    ensures each { EachLaw }
    ensures shorter { EachShorterLaw }
{}
