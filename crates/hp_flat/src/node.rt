use crate::equation::FlatEqn;
use hp_base::Name;
use std::marker::Model;

/// The type of a variable; an enumeration by its number among the types of the program, from 0.
#[derive(Clone, Copy, Debug, PartialEq, Eq)]
pub enum FlatTy {
    Bool,
    Int,
    Enum(u16),
}

/// A variable of a node.
#[derive(Debug, Drop)]
pub struct Variable {
    pub name: Name,
    pub ty: FlatTy,
}

/// A node as clocked equations. Its variables are known by their numbers, from 0; the first ones are its inputs, in order.
#[derive(Debug, Drop)]
pub struct FlatNode {
    pub name: Name,
    pub variables: Vec<Variable>,
    /// How many inputs there are.
    pub inputs: usize,
    /// The variables of the outputs, in order.
    pub outputs: Vec<usize>,
    pub eqns: Vec<FlatEqn>,
}

impl Model for FlatNode {
    ghost use Rattle.hp_flat.specs.Nodes.{FlatNode};
    ghost use Rattle.hp_flat.specs.NodeCode.{node_code};

    ghost Value = { FlatNode };

    ghost coded = { node_code };

    ghost use Rattle.hp_flat.specs.NodeView.{node_seen};

    ghost view = { node_seen };
}

/// A node whose equations stand in the order of their places.
#[derive(Debug, Drop)]
pub struct Scheduled {
    pub node: FlatNode,
}
