//! What a program says of its types and nodes.
ghost use Rattle.std.specs.Prelude.{◌≡◌, IfOk, OnOk};
ghost use Rattle.hp_tables.specs.Declarations.Seen.{node_seen};
ghost use Rattle.hp_tables.specs.Declarations.Tables.{said_in};
ghost use Rattle.hp_drawing.specs.DrawnExpressions as drawn;
ghost use Rattle.hp_drawing.specs.Seen.{sketch_of};
ghost use Rattle.hp_drawing.specs.Told.{constant_number, constant_shape, counts_of, or_none, told_of, type_shape, with_type};
ghost use Rattle.hp_abstract.specs.Seen.{told_in};

use hp_base::{Const, Name, Ty};
use hp_circuit::{Shape, Wire};
use hp_drawing::{Constructor, Draft, Value};
use hp_tables::declarations::{Table, constructors_of, nodes_of};
use hp_tree::{Cons, Item, Node, Program};
use std::alloc::{AllocError, Global};

fn put_count<'a>(item: &'a Item, counts: &mut Table<'a, usize>) -> Result<(), AllocError>
    ensures { OnOk result (said_in counts.new ≡ with_type item.now (said_in counts.old)) }
{
    match item {
        Item::TypeItem(decl) => counts.put(decl.name.bytes(), decl.cons.len()),
        Item::NodeItem(_) => Ok(()),
    }
}

/// How many constructors the types of the items have; of two of one name the first counts.
#[tactic(auto, using(crate::proofs::Rules::tables))]
fn counts_of<'a>(alloc: Global, items: &'a [Item]) -> Result<Table<'a, usize>, AllocError>
    ensures { IfOk result (λ counts. said_in counts ≡ counts_of items.now) }
{
    let mut counts = Table::new(alloc);
    let mut i = items.len();
    while i > 0 {
        i -= 1;
        put_count(&items[i], &mut counts)?;
    }
    Ok(counts)
}

/// The number of a count that may be missing.
fn or_none(count: Option<usize>) -> usize
    ensures { result ≡ or_none count }
{
    match count {
        None => 0,
        Some(count) => count,
    }
}

/// The types, constructors and nodes of a program by their names.
#[derive(Drop)]
pub struct Tables<'a> {
    pub alloc: Global,
    pub counts: Table<'a, usize>,
    /// How many constructors the type has, and which of them it is.
    pub constructors: Table<'a, (usize, usize)>,
    pub nodes: Table<'a, &'a Node>,
}

impl<'a> Tables<'a> {
    /// What the items declare.
    fn of(alloc: Global, items: &'a [Item]) -> Result<Tables<'a>, AllocError>
        ensures { IfOk result (λ tables. told_in tables ≡ told_of items.now) }
    {
        let counts = counts_of(alloc, items)?;
        let constructors = constructors_of(alloc, &counts, 0, items)?;
        let nodes = nodes_of(alloc, items)?;
        Ok(Tables {
            alloc,
            counts,
            constructors,
            nodes,
        })
    }

    pub fn new(alloc: Global, program: &'a Program) -> Result<Tables<'a>, AllocError>
        ensures { IfOk result (λ tables. told_in tables ≡ told_of program.now) }
    {
        let tables = Tables::of(alloc, &program.items)?;
        Ok(tables)
    }

    /// The node of this name.
    #[tactic(auto, unfolding(crate::specs::Seen::told_in))]
    pub fn node(&self, name: &Name) -> Option<&'a Node>
        ensures { node_seen result ≡ (told_in self.now).nodes name.now }
    {
        self.nodes.find(name.bytes())
    }

    #[tactic(auto, unfolding(crate::specs::Seen::told_in))]
    fn constructor(&self, name: &Name) -> Option<Constructor>
        ensures { result ≡ (told_in self.now).constructors name.now }
    {
        match self.constructors.find(name.bytes()) {
            None => None,
            Some((count, number)) => Some(Constructor { number, count }),
        }
    }

    #[tactic(auto, unfolding(crate::specs::Seen::told_in))]
    fn count(&self, name: &Name) -> usize
        ensures { result ≡ or_none ((told_in self.now).counts name.now) }
    {
        or_none(self.counts.find(name.bytes()))
    }

    /// What a variable of the type carries. A type that is not known has no constructors.
    pub fn shape(&self, ty: &Ty) -> Shape
        ensures { result ≡ type_shape (told_in self.now) ty.now }
    {
        match ty {
            Ty::Bool => Shape::Truth,
            Ty::Int => Shape::Mark,
            Ty::Enum(name) => Shape::Cons {
                count: self.count(name),
            },
        }
    }

    /// The shape of a constant, and its number. A constructor that is not known is as `false`.
    pub fn constant(&self, constant: &Const) -> (Shape, usize)
        ensures shape { result.0 ≡ constant_shape (told_in self.now) constant.now }
        ensures number { result.1 ≡ constant_number (told_in self.now) constant.now }
    {
        match constant {
            Const::B(false) => (Shape::Truth, 0),
            Const::B(true) => (Shape::Truth, 1),
            Const::I(_) => (Shape::Mark, 0),
            Const::E(name) => match self.constructor(name) {
                None => (Shape::Truth, 0),
                Some(found) => (Shape::Cons { count: found.count }, found.number),
            },
        }
    }

    /// The wire of a constant.
    #[tactic(auto, unfolding(hp_drawing::specs::DrawnExpressions::drawn_constant))]
    pub fn constant_wire(&self, constant: &Const, draft: &mut Draft) -> Result<Value, AllocError>
        ensures sketch { OnOk result (sketch_of draft.new ≡ (drawn.drawn_constant (told_in self.now) constant.now (sketch_of draft.old)).1) }
        ensures value { IfOk result (λ value. value ≡ (drawn.drawn_constant (told_in self.now) constant.now (sketch_of draft.old)).0) }
    {
        let (shape, number) = self.constant(constant);
        let wire = draft.push(Wire::Constant(number), shape)?;
        Ok(Value { wire, shape })
    }

    /// The number of a constructor; zero if there is none of the name.
    fn number(&self, cons: &Cons) -> usize
        ensures { result ≡ drawn.cons_number (told_in self.now) cons.now }
    {
        match cons {
            Cons::False => 0,
            Cons::True => 1,
            Cons::Named(name) => match self.constructor(name) {
                None => 0,
                Some(found) => found.number,
            },
        }
    }

    /// Whether a wire has this constructor.
    #[tactic(auto, unfolding(hp_drawing::specs::DrawnExpressions::has_cons))]
    pub fn is(&self, wire: usize, cons: &Cons, draft: &mut Draft) -> Result<usize, AllocError>
        ensures sketch { OnOk result (sketch_of draft.new ≡ (drawn.has_cons (told_in self.now) wire cons.now (sketch_of draft.old)).1) }
        ensures wire { IfOk result (λ w. w ≡ (drawn.has_cons (told_in self.now) wire cons.now (sketch_of draft.old)).0) }
    {
        draft.is(wire, self.number(cons))
    }
}
