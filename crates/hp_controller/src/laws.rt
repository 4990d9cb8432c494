//! Laws. The functions here do nothing: each is a law, which its contract states.
ghost use Rattle.hp_controller.specs.Controlled.{ControlledLaw};
ghost use Rattle.hp_controller.specs.Decoding.{ControlsLaw, DecodedLaw};
ghost use Rattle.hp_controller.specs.Extending.{ExtendedLaw};
ghost use Rattle.hp_controller.specs.Gates.{GatesLaw};
ghost use Rattle.hp_controller.specs.Steps.{AnswersLaw, SteeredLaw, StepsLaw};
ghost use Rattle.hp_controller.specs.Laws.{GivesLaw, WellMadeLaw};

/// The node of lines is well made, and at truth values of its inputs it gives their functions.
pub fn lines_give_their_functions()
    ensures gives { GivesLaw }
    ensures well_made { WellMadeLaw }
{}

/// Where the equations of gates hold, and the variables of their machine have bits, each gate has its value.
pub fn gates_have_their_values()
    ensures { GatesLaw }
{}

/// Where the equations of a machine's steps always hold, its registers begin with their first values and then take the next ones; and where its controller is asked,
/// the controls are the choice at these and the early bits.
pub fn registers_follow_their_machine()
    ensures registers { StepsLaw }
    ensures controls { SteeredLaw }
{}

/// Where a machine's controller is a node that answers with the outputs of a reaction, it answers with the choice.
pub fn controllers_answer_with_the_choice()
    ensures { AnswersLaw }
{}

/// A node may have its last inputs defined by equations that are added: each reaction is then one of the node as it was.
pub fn added_equations_give_inputs()
    ensures { ExtendedLaw }
{}

/// Where the equations that decode some bits hold, what they give is the value of the code, and control variables have the values of their bits.
pub fn codes_are_decoded()
    ensures value { DecodedLaw }
    ensures controls { ControlsLaw }
{}

/// A node that chooses the values of its last inputs itself does what the node does over these values, which are those of its controller's choice.
pub fn controlled_nodes_follow_their_controller()
    ensures { ControlledLaw }
{}
