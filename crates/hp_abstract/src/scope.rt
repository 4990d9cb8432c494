//! The wires of names.
ghost use Rattle.std.specs.Prelude.{◌≡◌, [], length, slice_get, MatchOption, OnOk};
ghost use Rattle.hp_drawing.specs.Scopes as scopes;
ghost use Rattle.hp_drawing.specs.Told.{or_none};
ghost use Rattle.hp_abstract.specs.Seen.{inner_first, layer_of, layer_or_none, named_seen, put_back, scope_of};

use hp_base::Name;
use hp_circuit::Shape;
use hp_drawing::{Entry, FALSE, Value};
use indexmap::IndexMap;
use std::alloc::{AllocError, Global};

/// What a block, a control equation or a node says of names.
#[derive(Drop)]
pub struct Layer<'a> {
    names: IndexMap<&'a [u8], Entry>,
}

impl<'a> Layer<'a> {
    #[tactic(auto, unfolding(crate::specs::Seen::layer_of))]
    pub fn new(alloc: Global) -> Layer<'a>
        ensures { layer_of result ≡ [] }
    {
        Layer {
            names: IndexMap::new(alloc),
        }
    }

    #[tactic(auto, unfolding(crate::specs::Seen::layer_of))]
    pub fn put(&mut self, name: &'a [u8], entry: Entry) -> Result<(), AllocError>
        ensures { OnOk result (layer_of self.new ≡ scopes.put (layer_of self.old) name.now entry) }
    {
        self.names.insert(name, entry)?;
        Ok(())
    }

    #[tactic(auto, unfolding(crate::specs::Seen::layer_of))]
    pub fn of(&self, name: &[u8]) -> Option<Entry>
        ensures { result ≡ scopes.entry_in (layer_of self.now) name.now }
    {
        match self.names.get(name) {
            None => None,
            Some(entry) => Some(*entry),
        }
    }

    /// Says this of the name, if nothing is said of it yet.
    pub fn add(&mut self, name: &'a [u8], entry: Entry) -> Result<(), AllocError>
        ensures { OnOk result (layer_of self.new ≡ scopes.add (layer_of self.old) name.now entry) }
    {
        match self.of(name) {
            Some(_) => Ok(()),
            None => {
                self.put(name, entry)?;
                Ok(())
            }
        }
    }

    #[tactic(auto, unfolding(crate::specs::Seen::layer_of), using(crate::proofs::Rules::layers))]
    pub fn len(&self) -> usize
        ensures { result ≡ length (layer_of self.now) }
    {
        self.names.len()
    }

    /// The name of this number, and what is said of it.
    #[tactic(auto, unfolding(crate::specs::Seen::layer_of))]
    pub fn at(&self, number: usize) -> Option<(&'a [u8], Entry)>
        ensures { named_seen result ≡ slice_get (layer_of self.now) number }
    {
        match self.names.get_index(number) {
            None => None,
            Some((name, entry)) => Some((*name, *entry)),
        }
    }

    /// Says which wire of the name of this number is to be said next.
    #[tactic(auto, unfolding(crate::specs::Seen::layer_of))]
    pub fn set_hole(&mut self, number: usize, hole: usize)
        ensures { layer_of self.new ≡ scopes.set_hole (layer_of self.old) number hole }
    {
        match self.names.get_index_mut(number) {
            None => {}
            Some(entry) => entry.hole = hole,
        }
    }
}

/// The names at a place: their wires, and those of their last values, the outermost layer first.
#[derive(Drop)]
pub struct Scope<'a> {
    pub values: Vec<Layer<'a>>,
    pub lasts: Vec<Layer<'a>>,
}

/// What the innermost layer that knows the name says of it.
fn found(layers: &[Layer], name: &[u8]) -> Option<Entry>
    ensures { result ≡ scopes.found (inner_first layers.now) name.now }
{
    let mut i = layers.len();
    while i > 0 {
        i -= 1;
        let layer = &layers[i];
        if let Some(entry) = layer.of(name) {
            return Some(entry);
        }
    }
    None
}

/// The wire that may be missing: the one that is always false, if it is.
pub fn wire_or_false(wire: Option<usize>) -> usize
    ensures { result ≡ or_none wire }
{
    match wire {
        None => FALSE,
        Some(wire) => wire,
    }
}

/// The wire of an entry. A name of which nothing is said is false.
fn value_of(entry: Option<Entry>) -> Value
    ensures { result ≡ scopes.value_by entry }
{
    match entry {
        None => Value {
            wire: FALSE,
            shape: Shape::Truth,
        },
        Some(entry) => Value {
            wire: wire_or_false(entry.wire),
            shape: entry.shape,
        },
    }
}

impl<'a> Scope<'a> {
    #[tactic(auto, unfolding(crate::specs::Seen::scope_of), using(crate::proofs::Rules::layers))]
    pub fn new(alloc: Global) -> Scope<'a>
        ensures { scope_of result ≡ scopes.no_scope }
    {
        Scope {
            values: Vec::new(alloc),
            lasts: Vec::new(alloc),
        }
    }

    /// Enters what a layer says of names.
    #[tactic(auto, unfolding(crate::specs::Seen::scope_of, hp_drawing::specs::Scopes::push_values), using(crate::proofs::Rules::layers))]
    pub fn push(&mut self, layer: Layer<'a>) -> Result<(), AllocError>
        ensures { OnOk result (scope_of self.new ≡ scopes.push_values (layer_of layer.entry) (scope_of self.old)) }
    {
        self.values.push(layer)?;
        Ok(())
    }

    /// Leaves the innermost layer of names, which is given back, if there is one.
    #[tactic(auto, unfolding(crate::specs::Seen::scope_of, hp_drawing::specs::Scopes::pop_values, hp_drawing::specs::Scopes::push_values, hp_drawing::specs::Scopes::top_layer), using(crate::proofs::Rules::layers))]
    pub fn pop(&mut self) -> Option<Layer<'a>>
        ensures gone { scope_of self.new ≡ scopes.pop_values (scope_of self.old) }
        ensures layer { MatchOption result ((scope_of self.old).values ≡ []) (λ layer. layer_of layer ≡ scopes.top_layer (scope_of self.old)) }
        ensures back { put_back result (scope_of self.new) ≡ scope_of self.old }
    {
        self.values.pop()
    }

    /// Enters a layer that was left, if there was one.
    pub fn put_back(&mut self, layer: Option<Layer<'a>>) -> Result<(), AllocError>
        ensures { OnOk result (scope_of self.new ≡ put_back layer.entry (scope_of self.old)) }
    {
        match layer {
            None => Ok(()),
            Some(layer) => self.push(layer),
        }
    }

    /// The innermost layer of names.
    #[tactic(auto, unfolding(crate::specs::Seen::scope_of, hp_drawing::specs::Scopes::top_layer), using(crate::proofs::Rules::layers))]
    pub fn top(&self) -> Option<&Layer<'a>>
        ensures { layer_or_none result ≡ scopes.top_layer (scope_of self.now) }
    {
        self.values.last()
    }

    /// Leaves the innermost layer of names.
    #[tactic(auto, unfolding(crate::specs::Seen::scope_of, hp_drawing::specs::Scopes::pop_values), using(crate::proofs::Rules::layers))]
    pub fn leave(&mut self)
        ensures { scope_of self.new ≡ scopes.pop_values (scope_of self.old) }
    {
        self.values.pop();
    }

    /// Leaves the innermost layer of last values.
    #[tactic(auto, unfolding(crate::specs::Seen::scope_of, hp_drawing::specs::Scopes::pop_lasts), using(crate::proofs::Rules::layers))]
    pub fn leave_lasts(&mut self)
        ensures { scope_of self.new ≡ scopes.pop_lasts (scope_of self.old) }
    {
        self.lasts.pop();
    }

    /// Enters what a layer says of last values.
    #[tactic(auto, unfolding(crate::specs::Seen::scope_of, hp_drawing::specs::Scopes::push_lasts), using(crate::proofs::Rules::layers))]
    pub fn push_lasts(&mut self, layer: Layer<'a>) -> Result<(), AllocError>
        ensures { OnOk result (scope_of self.new ≡ scopes.push_lasts (layer_of layer.entry) (scope_of self.old)) }
    {
        self.lasts.push(layer)?;
        Ok(())
    }

    /// The wire of a name.
    #[tactic(auto, unfolding(crate::specs::Seen::scope_of, hp_drawing::specs::Scopes::value_in))]
    pub fn value(&self, name: &Name) -> Value
        ensures { result ≡ scopes.value_in (scope_of self.now) name.now }
    {
        value_of(found(&self.values, name.bytes()))
    }

    /// The wire of the last value of a name.
    #[tactic(auto, unfolding(crate::specs::Seen::scope_of, hp_drawing::specs::Scopes::last_in))]
    pub fn last(&self, name: &Name) -> Value
        ensures { result ≡ scopes.last_in (scope_of self.now) name.now }
    {
        value_of(found(&self.lasts, name.bytes()))
    }

    /// The wire of the last value of a name, if it has one.
    #[tactic(auto, unfolding(crate::specs::Seen::scope_of, hp_drawing::specs::Scopes::last_wire))]
    pub fn last_wire(&self, name: &[u8]) -> Option<usize>
        ensures { result ≡ scopes.last_wire (scope_of self.now) name.now }
    {
        match found(&self.lasts, name) {
            None => None,
            Some(entry) => entry.wire,
        }
    }

    /// What a name carries. One of which nothing is said carries a truth value.
    #[tactic(auto, unfolding(crate::specs::Seen::scope_of, hp_drawing::specs::Scopes::shapes_in))]
    pub fn shape(&self, name: &[u8]) -> Shape
        ensures { result ≡ scopes.shapes_in (scope_of self.now) name.now }
    {
        match found(&self.values, name) {
            None => Shape::Truth,
            Some(entry) => entry.shape,
        }
    }

    /// What the innermost layer says of a name.
    #[tactic(auto, unfolding(crate::specs::Seen::scope_of, hp_drawing::specs::Scopes::own_entry), using(crate::proofs::Rules::layers))]
    pub fn own(&self, name: &[u8]) -> Option<Entry>
        ensures { result ≡ scopes.own_entry (scope_of self.now) name.now }
    {
        let count = self.values.len();
        if count == 0 {
            return None;
        }
        self.values[count - 1].of(name)
    }
}
