use crate::name::Name;
use std::marker::Model;

/// The kind of the values of an input or an output.
#[derive(Debug, Drop)]
pub enum Kind {
    Bool,
    Int,
    /// An enumeration: the number of its type, and its constructors in declared order.
    Enum { number: u16, cons: Vec<Name> },
}

/// What a node takes and gives, each in declared order.
#[derive(Debug, Drop)]
pub struct Signature {
    pub name: Name,
    pub inputs: Vec<(Name, Kind)>,
    pub outputs: Vec<(Name, Kind)>,
    /// Whether the node has a contract.
    pub contract: bool,
}

impl Model for Signature {
    ghost use Rattle.hp_base.specs.Kinds.{SignatureData};

    ghost Value = { SignatureData };

    ghost use Rattle.hp_base.specs.SignatureView.{signature_seen};

    ghost view = { signature_seen };
}
