//! What the names of the tree stand for.
ghost use Rattle.std.specs.Prelude.{◌≡◌, OnOk};
ghost use Rattle.law_equations.specs.Made.Making.{no_entry, put, unknown};
ghost use Rattle.hp_complete.specs.Layers.{inner_first, says, seen, seen_if, sight};

use hp_flat::FlatTy;
use indexmap::IndexMap;
use std::alloc::{AllocError, Global};

/// What a name stands for at a place, by numbers of variables.
#[derive(Clone, Copy)]
pub struct Entry {
    pub ty: FlatTy,
    /// The variable as which it is read.
    pub value: Option<usize>,
    /// The variable of its last value.
    pub last: Option<usize>,
    /// Whether the block of the layer declares it.
    pub is_local: bool,
}

/// The entry of a name that is not known.
fn unknown(name: &[u8]) -> Entry
    ensures { seen result ≡ unknown name.now }
{
    Entry {
        ty: FlatTy::Bool,
        value: None,
        last: None,
        is_local: false,
    }
}

/// What a block, or a control equation, says of names.
#[derive(Drop)]
pub struct Layer<'a> {
    pub names: IndexMap<&'a [u8], Entry>,
}

impl<'a> Layer<'a> {
    pub fn new(alloc: Global) -> Layer<'a>
        ensures { says result ≡ no_entry }
    {
        Layer {
            names: IndexMap::new(alloc),
        }
    }

    /// What it says of the name.
    pub fn of(&self, name: &[u8]) -> Option<Entry>
        ensures { seen_if result ≡ says self.now name.now }
    {
        match self.names.get(name) {
            None => None,
            Some(entry) => Some(*entry),
        }
    }

    pub fn put(&mut self, name: &'a [u8], entry: Entry) -> Result<(), AllocError>
        ensures { OnOk result (says self.new ≡ put name.now (seen entry) (says self.old)) }
    {
        self.names.insert(name, entry)?;
        Ok(())
    }
}

/// What the name stands for where these layers are, the outermost first.
pub fn sight(layers: &[Layer], name: &[u8]) -> Entry
    ensures { seen result ≡ sight (inner_first layers.now) name.now }
{
    let mut i = layers.len();
    while i > 0 {
        i -= 1;
        let layer = &layers[i];
        if let Some(entry) = layer.of(name) {
            return entry;
        }
    }
    unknown(name)
}
