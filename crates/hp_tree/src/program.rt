ghost use Rattle.std.specs.Prelude.{◌≡◌, ◌↔◌, IsTrue, IfOk};
ghost use Rattle.hp_tree.specs.Meaning.{controls_of};

use crate::block::Block;
use crate::decl::{Decl, same_decls};
use crate::expr::Expr;
use hp_base::{Name, Span, copy_names};
use std::alloc::{AllocError, Global};
use std::marker::Model;

/// A whole text: its types and nodes, in order.
#[derive(Debug, Drop)]
pub struct Program {
    pub items: Vec<Item>,
}

impl Model for Program {
    ghost use Rattle.std.specs.Prelude.{List};
    ghost use Rattle.std.specs.Coded.{coded_list};
    ghost use Rattle.hp_tree.specs.declared.program.Item.{Item};
    ghost use Rattle.hp_tree.specs.contracts.program.Item.{the_row};

    ghost Value = { List Item };

    ghost coded = { coded_list the_row.coded };

    ghost view = { λ program. program.items.items };
}

impl Program {
    /// Whether the two are the same program, at the same places.
    pub fn same(&self, other: &Program) -> bool
        ensures { IsTrue result ↔ (self.now ≡ other.now) }
    {
        if self.items.len() != other.items.len() {
            return false;
        }
        for i in 0..self.items.len() {
            if !self.items[i].same(&other.items[i]) {
                return false;
            }
        }
        true
    }
}

/// What a program is made of.
#[derive(Debug, Drop)]
pub enum Item {
    TypeItem(TypeDecl),
    NodeItem(Node),
}

impl Item {
    pub fn same(&self, other: &Item) -> bool
        ensures { IsTrue result ↔ (self.now ≡ other.now) }
    {
        match (self, other) {
            (Item::TypeItem(a), Item::TypeItem(b)) => a.same(b),
            (Item::NodeItem(a), Item::NodeItem(b)) => a.same(b),
            _ => false,
        }
    }
}

/// The declaration of an enumeration, with its constructors in order.
#[derive(Debug, Drop)]
pub struct TypeDecl {
    pub name: Name,
    pub cons: Vec<Name>,
    /// The place of the name.
    pub span: Span,
}

impl Model for TypeDecl {
    ghost use Rattle.hp_tree.specs.Programs.{TypeDecl};
    ghost use Rattle.hp_tree.specs.ProgramCodes.{type_code};

    ghost Value = { TypeDecl };

    ghost coded = { type_code };

    ghost use Rattle.hp_tree.specs.TypeView.{type_seen};

    ghost view = { type_seen };
}

impl TypeDecl {
    pub fn copy(&self, alloc: Global) -> Result<TypeDecl, AllocError>
        ensures { IfOk result (λ declared. declared ≡ self.now) }
    {
        Ok(TypeDecl {
            name: self.name.copy(alloc)?,
            cons: copy_names(alloc, &self.cons)?,
            span: self.span,
        })
    }

    pub fn same(&self, other: &TypeDecl) -> bool
        ensures { IsTrue result ↔ (self.now ≡ other.now) }
    {
        self.name.same(&other.name)
            && same_names(&self.cons, &other.cons)
            && self.span == other.span
    }
}

/// A node.
#[derive(Debug, Drop)]
pub struct Node {
    pub name: Name,
    /// The place of the name.
    pub span: Span,
    pub inputs: Vec<Decl>,
    pub outputs: Vec<Decl>,
    pub contract: Option<Contract>,
    pub body: Block,
}

impl Model for Node {
    ghost use Rattle.hp_tree.specs.Programs.{Node};
    ghost use Rattle.hp_tree.specs.ProgramCodes.{node_code};

    ghost Value = { Node };

    ghost coded = { node_code };

    ghost use Rattle.hp_tree.specs.NodeView.{node_seen};

    ghost view = { node_seen };
}

impl Node {
    pub fn same(&self, other: &Node) -> bool
        ensures { IsTrue result ↔ (self.now ≡ other.now) }
    {
        self.name.same(&other.name)
            && self.span == other.span
            && same_decls(&self.inputs, &other.inputs)
            && same_decls(&self.outputs, &other.outputs)
            && same_contract(&self.contract, &other.contract)
            && self.body.same(&other.body)
    }
}

/// What a node assumes of its inputs and is made to guarantee, by values for its controllable variables.
#[derive(Debug, Drop)]
pub struct Contract {
    /// What `assume` and `enforce` use.
    pub body: Block,
    pub assume: Option<Expr>,
    pub enforce: Option<Expr>,
    /// The controllable variables.
    pub controls: Vec<Decl>,
    /// It begins at the word `contract`.
    pub span: Span,
}

impl Model for Contract {
    ghost use Rattle.hp_tree.specs.Programs.{Contract};
    ghost use Rattle.hp_tree.specs.ProgramCodes.{contract_code};

    ghost Value = { Contract };

    ghost coded = { contract_code };

    ghost use Rattle.hp_tree.specs.ContractView.{contract_seen};

    ghost view = { contract_seen };
}

impl Contract {
    pub fn same(&self, other: &Contract) -> bool
        ensures { IsTrue result ↔ (self.now ≡ other.now) }
    {
        self.body.same(&other.body)
            && same_condition(&self.assume, &other.assume)
            && same_condition(&self.enforce, &other.enforce)
            && same_decls(&self.controls, &other.controls)
            && self.span == other.span
    }
}

/// The controllable variables of a contract.
pub fn controls_of(contract: &Option<Contract>) -> &[Decl]
    ensures { result.now ≡ controls_of contract.now }
{
    match contract {
        None => &[],
        Some(contract) => &contract.controls,
    }
}

fn same_condition(condition: &Option<Expr>, other: &Option<Expr>) -> bool
    ensures { IsTrue result ↔ (condition.now ≡ other.now) }
{
    match (condition, other) {
        (None, None) => true,
        (Some(a), Some(b)) => a.same(b),
        _ => false,
    }
}

fn same_contract(contract: &Option<Contract>, other: &Option<Contract>) -> bool
    ensures { IsTrue result ↔ (contract.now ≡ other.now) }
{
    match (contract, other) {
        (None, None) => true,
        (Some(a), Some(b)) => a.same(b),
        _ => false,
    }
}

fn same_names(names: &[Name], others: &[Name]) -> bool
    ensures { IsTrue result ↔ (names.now ≡ others.now) }
{
    if names.len() != others.len() {
        return false;
    }
    for i in 0..names.len() {
        if !names[i].same(&others[i]) {
            return false;
        }
    }
    true
}
