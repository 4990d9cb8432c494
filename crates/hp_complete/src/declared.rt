//! What a program declares: the numbers of types and constructors, and nodes.
ghost use Rattle.std.specs.Prelude.{◌≡◌, ◌++◌, ◌∷◌, [], map, IfOk, OnOk};
ghost use Rattle.hp_tables.specs.Declarations.Seen.{node_seen};
ghost use Rattle.hp_tables.specs.Declarations.Tables.{said_in};
ghost use Rattle.law_equations.specs.Made.Making.{cons_number, constant_value, flat_type, own_number, type_number};
ghost use Rattle.hp_complete.specs.Declaring.{known_of};
ghost use Rattle.hp_complete.specs.Signatures.{places_of, type_names};
ghost use Rattle.hp_complete.specs.Tables.{constructor_in, known_in};

use hp_base::{Const, Name, Ty, Value};
use hp_flat::FlatTy;
use hp_tables::declarations::{Table, constructors_of, nodes_of, numbers_of};
use hp_tree::{Cons, Item, Node, TypeDecl};
use std::alloc::{AllocError, Global};

/// The number of a type that is not declared.
const NO_TYPE: u16 = u16::MAX;

/// The number of the type at this place.
fn type_number(place: Option<usize>) -> u16
    ensures { result ≡ type_number place }
{
    match place {
        None => NO_TYPE,
        Some(place) => place.min(65_535) as u16,
    }
}

#[tactic(auto, using(crate::proofs::Rules::type_names))]
fn add_type_name<'a>(item: &'a Item, into: &mut Vec<&'a Name>) -> Result<(), AllocError>
    ensures { OnOk result (map (λ x. x.now) into.new.items ≡ map (λ x. x.now) into.old.items ++ type_names (item.now ∷ [])) }
{
    match item {
        Item::TypeItem(decl) => {
            into.push(&decl.name)?;
            Ok(())
        }
        Item::NodeItem(_) => Ok(()),
    }
}

/// The names of the types, in order.
#[tactic(auto, using(crate::proofs::Rules::type_names))]
fn type_names<'a>(alloc: Global, items: &'a [Item]) -> Result<Vec<&'a Name>, AllocError>
    ensures { IfOk result (λ names. map (λ x. x.now) names.items ≡ type_names items.now) }
{
    let mut names = Vec::new(alloc);
    for item in items {
        add_type_name(item, &mut names)?;
    }
    Ok(names)
}

fn number_types<'a>(alloc: Global, items: &'a [Item]) -> Result<Table<'a, usize>, AllocError>
    ensures { IfOk result (λ types. said_in types ≡ places_of items.now) }
{
    let names = type_names(alloc, items)?;
    numbers_of(alloc, &names)
}

/// What is known of the names of a program.
#[derive(Drop)]
pub struct Declared<'a> {
    pub types: Table<'a, usize>,
    /// Of a constructor the number of its type, and its own.
    pub constructors: Table<'a, (usize, usize)>,
    pub nodes: Table<'a, &'a Node>,
}

impl<'a> Declared<'a> {
    /// What the items declare.
    pub fn of(alloc: Global, items: &'a [Item]) -> Result<Declared<'a>, AllocError>
        ensures { IfOk result (λ declared. known_in declared ≡ known_of items.now) }
    {
        let types = number_types(alloc, items)?;
        let constructors = constructors_of(alloc, &types, NO_TYPE as usize, items)?;
        let nodes = nodes_of(alloc, items)?;
        Ok(Declared {
            types,
            constructors,
            nodes,
        })
    }

    /// The type by its number.
    pub fn ty(&self, ty: &Ty) -> FlatTy
        ensures { result ≡ flat_type (known_in self.now).types ty.now }
    {
        match ty {
            Ty::Bool => FlatTy::Bool,
            Ty::Int => FlatTy::Int,
            Ty::Enum(name) => FlatTy::Enum(type_number(self.types.find(name.bytes()))),
        }
    }

    /// The numbers of a constructor's type and its own.
    fn constructor(&self, name: &Name) -> Option<(u16, u8)>
        ensures { result ≡ (known_in self.now).constructors name.now }
    {
        match self.constructors.find(name.bytes()) {
            None => None,
            Some((ty, own)) => Some((ty.min(65_535) as u16, own.min(255) as u8)),
        }
    }

    /// The value of a constant; Absent for a constructor that is not declared.
    pub fn constant(&self, constant: &Const) -> Value
        ensures { result ≡ constant_value (known_in self.now) constant.now }
    {
        match constant {
            Const::B(b) => Value::B(*b),
            Const::I(n) => Value::I(*n),
            Const::E(name) => match self.constructor(name) {
                None => Value::Absent,
                Some((ty, own)) => Value::E(ty, own),
            },
        }
    }

    /// The number of what a clock or an arm compares with; 0 for a constructor that is not declared.
    pub fn number(&self, cons: &Cons) -> u8
        ensures { result ≡ cons_number (known_in self.now) cons.now }
    {
        match cons {
            Cons::False => 0,
            Cons::True => 1,
            Cons::Named(name) => match self.constructor(name) {
                None => 0,
                Some((_, own)) => own,
            },
        }
    }

    /// The node of a name.
    pub fn node(&self, name: &Name) -> Option<&'a Node>
        ensures { node_seen result ≡ (known_in self.now).nodes name.now }
    {
        self.nodes.find(name.bytes())
    }
}
