//! What is known of the variables that stand for others, and of equations that are left.
ghost use Rattle.hp_normal.specs.Following.{EndsLaw, MeaningsLaw};
ghost use Rattle.hp_normal.specs.Needing.{NeededLaw};

use hp_flat::FlatNode;

/// In a node whose copies stand behind what they copy, each variable has one end, and stands for one thing that stands for itself.
pub fn copies_are_followed(node: &FlatNode)
    ensures ends { EndsLaw node.now }
    ensures meanings { MeaningsLaw node.now }
{
    let _inputs = node.inputs;
}

/// Each equation that is left in a node is needed.
pub fn what_is_left_is_needed(node: &FlatNode)
    ensures { NeededLaw node.now }
{
    let _inputs = node.inputs;
}
