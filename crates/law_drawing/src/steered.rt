//! What drawn wires read: a controllable variable only where the place that they are drawn of does. So it is of expressions, definitions, blocks with all control equations, contracts and nodes.
//!
//! The functions here do nothing: each is a law, which its contract states.
#![tactic(auto)]

ghost use Rattle.law_drawing.specs.Steered.Accepted.{ContractFitsLaw, NodeFitsLaw};
ghost use Rattle.law_drawing.specs.Steered.Laid.{AssumptionMarksLaw, EarlyKindsLaw, EarlySlotsLaw, SlotMarksLaw};
ghost use Rattle.law_drawing.specs.Steered.Nodes.{NodeMarksLaw};
ghost use Rattle.law_drawing.specs.Steered.Laws.{BlockMarksLaw, DefinitionMarksLaw, EnterMarksLaw, ExpressionMarksLaw, FreeMarksLaw, MarksLaw};

/// Marks bound what wires read: a wire that reads a controllable variable by some chain has a mark that leads to one, and a free slot that has such a wire stands for what leads to one.
pub fn marks_are_bounds()
    ensures leads { MarksLaw }
    ensures stands { FreeMarksLaw }
{}

/// Wherever an expression is drawn, its wire has a mark that leads to a controllable variable only where the expression reads one, or what stands around it; and so have the names that a definition defines.
pub fn expressions_are_marked()
    ensures marked { ExpressionMarksLaw }
    ensures defined { DefinitionMarksLaw }
{}

/// Where a block is entered the names that it defines have wires with their marks, and last values read what cuts the block.
pub fn blocks_are_entered()
    ensures entered { EnterMarksLaw }
{}

/// So it is of all that is drawn of a block: its definitions, the arms of a `switch`, the body of a `reset`, which reads its condition where memory does, and the states and transitions of an automaton.
pub fn blocks_are_marked()
    ensures marked { BlockMarksLaw }
{}

/// So in what is drawn of a node, where its slots stand for its places: a free slot whose wire reads a controllable variable by some chain is that of a place that depends on one. What the contract of a node brings that is called reads no more than the call.
///
/// The slots of a node do stand for its places, in their order, so a free slot has such a wire only where its own place depends on a controllable variable. None of an early place has one, so where it may be early by its role it is of the early kind. The wire of the assumption reads one only where the place of the assumption depends on one.
pub fn nodes_are_marked()
    ensures free { NodeMarksLaw }
    ensures slots { SlotMarksLaw }
    ensures early { EarlySlotsLaw }
    ensures kinds { EarlyKindsLaw }
    ensures assumed { AssumptionMarksLaw }
{}

/// What is asked of a node, and of the contracts of those that it calls, is met by sound ones in which each name has one equation in its block.
pub fn sound_nodes_fit()
    ensures contracts { ContractFitsLaw }
    ensures nodes { NodeFitsLaw }
{}
