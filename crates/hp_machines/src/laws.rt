//! Laws of machines that are made. The functions do nothing.
ghost use Rattle.hp_machines.specs.Apart.{ApartLaw};
ghost use Rattle.hp_machines.specs.Copies.{NoneNeedlessLaw};
ghost use Rattle.hp_machines.specs.Needed.{NeededMachinesLaw};
ghost use Rattle.hp_machines.specs.One.{OneMachinesLaw};

/// A program has one list of machines.
pub fn programs_have_one_list_of_machines()
    ensures { OneMachinesLaw }
{}

/// In each machine whose neighbouring cases were joined, none are left to be joined.
pub fn no_neighbours_are_left_to_be_joined()
    ensures { ApartLaw }
{}

/// Among equations that stand behind those that define what they read, no needless copies are left.
pub fn no_needless_copies_are_left()
    ensures { NoneNeedlessLaw }
{}

/// Each equation that a machine is made of is needed.
pub fn machines_have_what_is_needed()
    ensures { NeededMachinesLaw }
{}
