//! What replaces inlined calls of the nodes that are known.
ghost use Rattle.std.specs.Prelude.{◌≡◌, ◌+◌, ◌++◌, [], ◌∷◌, ℕ, List, map, true, if◌then◌else◌, Some, OnOk};
ghost use Rattle.std.specs.Str.{bytes_eq};
ghost use Rattle.hp_tree.specs.declared.program.Item.TheVariants.{TypeItem, NodeItem};
ghost use Rattle.hp_tree.specs.BlockView.{eqn_seen};
ghost use Rattle.hp_tree.specs.Blocks.{eqns_of};
ghost use Rattle.hp_expand.specs.Replacing.{locals_of, equations_of};
ghost use Rattle.hp_expand.specs.Numbering.{no_node, with_node};
ghost use Rattle.hp_expand.specs.Places.{is_below, place_of, node_at};
ghost use Rattle.hp_expand.specs.NodeTables.{node_in};

use crate::nodes::Nodes;
use hp_base::Name;
use hp_tree::{Decl, Eqn, Item, Node, TypeDecl};
use indexmap::IndexMap;
use std::alloc::{AllocError, Global};

/// What replaces an inlined call of a node.
#[derive(Clone, Copy)]
pub struct Callee<'t> {
    pub inputs: &'t [Decl],
    pub outputs: &'t [Decl],
    pub locals: &'t [Decl],
    pub eqns: &'t [Eqn],
}

/// Of a name that no node has.
fn nothing<'t>() -> Callee<'t>
    ensures inputs { result.inputs.now ≡ [] }
    ensures outputs { result.outputs.now ≡ [] }
    ensures locals { result.locals.now ≡ [] }
    ensures eqns { result.eqns.now ≡ [] }
{
    Callee {
        inputs: &[],
        outputs: &[],
        locals: &[],
        eqns: &[],
    }
}

fn callee_of(node: &Node) -> Callee<'_>
    ensures inputs { result.inputs.now ≡ node.now.inputs }
    ensures outputs { result.outputs.now ≡ node.now.outputs }
    ensures locals { result.locals.now ≡ locals_of node.now.body }
    ensures eqns { eqns_of (map eqn_seen result.eqns.now) ≡ equations_of node.now.body }
{
    Callee {
        inputs: &node.inputs,
        outputs: &node.outputs,
        locals: &node.body.locals,
        eqns: &node.body.eqns,
    }
}

fn find(names: &IndexMap<&[u8], usize>, name: &[u8]) -> Option<usize>
    ensures { result ≡ place_of names.now name.now }
{
    match names.get(name) {
        None => None,
        Some(index) => Some(*index),
    }
}

/// Notes the place of the name.
fn note<'a>(
    names: &mut IndexMap<&'a [u8], usize>,
    name: &'a [u8],
    place: usize,
) -> Result<(), AllocError>
    requires { (x : List ℕ) → is_below place (place_of names.old x) ≡ true }
    ensures below { (x : List ℕ) → is_below (place + 1) (place_of names.new x) ≡ true }
    ensures put { OnOk result ((x : List ℕ) → place_of names.new x ≡ (if bytes_eq name.now x then Some place else place_of names.old x)) }
{
    match names.insert(name, place) {
        Ok(_) => Ok(()),
        Err(_) => Err(AllocError),
    }
}

fn callee_at<'t>(items: &'t [Item], place: Option<usize>) -> Callee<'t>
    ensures inputs { (x : List ℕ) → result.inputs.now ≡ (node_at items.now x place).inputs }
    ensures outputs { (x : List ℕ) → result.outputs.now ≡ (node_at items.now x place).outputs }
    ensures locals { (x : List ℕ) → result.locals.now ≡ locals_of (node_at items.now x place).body }
    ensures eqns { (x : List ℕ) → eqns_of (map eqn_seen result.eqns.now) ≡ equations_of (node_at items.now x place).body }
{
    match place {
        None => nothing(),
        Some(index) => match items.get(index) {
            Some(Item::NodeItem(node)) => callee_of(node),
            _ => nothing(),
        },
    }
}

impl<'a> Nodes<'a> {
    pub fn new(alloc: Global) -> Nodes<'a>
        ensures nodes { node_in result ≡ no_node }
        ensures items { result.items.items ≡ [] }
    {
        Nodes {
            items: Vec::new(alloc),
            names: IndexMap::new(alloc),
        }
    }

    /// What replaces an inlined call of the node of the name.
    pub fn callee(&self, name: &Name) -> Callee<'_>
        ensures inputs { result.inputs.now ≡ (node_in self.now name.now).inputs }
        ensures outputs { result.outputs.now ≡ (node_in self.now name.now).outputs }
        ensures locals { result.locals.now ≡ locals_of (node_in self.now name.now).body }
        ensures eqns { eqns_of (map eqn_seen result.eqns.now) ≡ equations_of (node_in self.now name.now).body }
    {
        callee_at(&self.items, find(&self.names, name.bytes()))
    }

    /// Adds a node of the name.
    pub fn add_node(&mut self, name: &'a Name, node: Node) -> Result<(), AllocError>
        requires { node.name ≡ name.now }
        ensures nodes { OnOk result (node_in self.new ≡ with_node (node_in self.old) node) }
        ensures items { OnOk result (self.new.items.items ≡ self.old.items.items ++ NodeItem node ∷ []) }
    {
        let place = self.items.len();
        self.items.push(Item::NodeItem(node))?;
        note(&mut self.names, name.bytes(), place)?;
        Ok(())
    }

    pub fn add_type(&mut self, declared: TypeDecl) -> Result<(), AllocError>
        ensures nodes { OnOk result (node_in self.new ≡ node_in self.old) }
        ensures items { OnOk result (self.new.items.items ≡ self.old.items.items ++ TypeItem declared ∷ []) }
    {
        self.items.push(Item::TypeItem(declared))?;
        Ok(())
    }
}
