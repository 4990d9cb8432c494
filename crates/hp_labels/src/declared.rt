//! What a program declares, and the labels of the contracts of its nodes.

use crate::label::{Call, Label, Values};
use hp_base::{Const, Name, Ty};
use hp_tables::declarations::{Table, nodes_of};
use hp_tree::{Item, Node, Program};
use std::alloc::{AllocError, Global};

/// The types, constructors and nodes of a program by their names, and the labels of contracts.
#[derive(Drop)]
pub struct Declared<'a> {
    /// The constructors of each type.
    types: Table<'a, &'a [Name]>,
    /// The constructors of the type of each constructor.
    constructors: Table<'a, &'a [Name]>,
    pub nodes: Table<'a, &'a Node>,
    /// Where among the labels those of the contract of each node stand.
    contracts: Table<'a, (usize, usize)>,
    labels: Vec<Label<'a>>,
}

/// The values of a type; none where it is that of integers.
pub fn values_of_type<'a>(declared: &Declared<'a>, ty: &Ty) -> Option<Values<'a>> {
    match ty {
        Ty::Bool => Some(Values::Truth),
        Ty::Int => None,
        Ty::Enum(name) => match declared.types.find(name.bytes()) {
            None => Some(Values::Truth),
            Some(cons) => Some(Values::Constructors(cons)),
        },
    }
}

impl<'a> Declared<'a> {
    pub fn new(alloc: Global, program: &'a Program) -> Result<Declared<'a>, AllocError> {
        let mut declared = Declared {
            types: Table::new(alloc),
            constructors: Table::new(alloc),
            nodes: nodes_of(alloc, &program.items)?,
            contracts: Table::new(alloc),
            labels: Vec::new(alloc),
        };
        for item in &program.items {
            if let Item::TypeItem(decl) = item {
                declared.add_type(&decl.name, &decl.cons)?;
            }
        }
        Ok(declared)
    }

    fn add_type(&mut self, name: &'a Name, cons: &'a [Name]) -> Result<(), AllocError> {
        self.types.put(name.bytes(), cons)?;
        for constructor in cons {
            self.constructors.put(constructor.bytes(), cons)?;
        }
        Ok(())
    }

    /// Keeps the labels of a node's contract.
    pub fn keep(&mut self, node: &'a Name, labels: &[Label<'a>]) -> Result<(), AllocError> {
        let from = self.labels.len();
        for label in labels {
            self.labels.push(*label)?;
        }
        self.contracts.put(node.bytes(), (from, self.labels.len()))
    }

    /// Adds the labels of the contract of a node that is called.
    pub fn add_contract(
        &self,
        call: Call<'a>,
        into: &mut Vec<Label<'a>>,
    ) -> Result<(), AllocError> {
        let Some((from, to)) = self.contracts.find(call.node.bytes()) else {
            return Ok(());
        };
        for i in from..to {
            if let Some(label) = self.labels.get(i) {
                into.push(label.within(call))?;
            }
        }
        Ok(())
    }

    /// The values of a constant; none where it is an integer.
    pub fn values_of_constant(&self, constant: &Const) -> Option<Values<'a>> {
        match constant {
            Const::B(_) => Some(Values::Truth),
            Const::I(_) => None,
            Const::E(name) => match self.constructors.find(name.bytes()) {
                None => Some(Values::Truth),
                Some(cons) => Some(Values::Constructors(cons)),
            },
        }
    }

    /// The values of the first output of a node; none where it is an integer.
    pub fn values_of_call(&self, node: &Name) -> Option<Values<'a>> {
        let Some(callee) = self.nodes.find(node.bytes()) else {
            return Some(Values::Truth);
        };
        match callee.outputs.get(0) {
            None => Some(Values::Truth),
            Some(output) => values_of_type(self, &output.ty),
        }
    }
}
