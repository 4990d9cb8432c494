//! What blocks and control equations say of names: their numbers.
ghost use Rattle.std.specs.Prelude.{◌≡◌, ◌+◌, ◌<◌, ◌^◌, length, map, IfOk, OnOk};
ghost use Rattle.hp_tree.specs.Meaning.{names_of as declared_names};
ghost use Rattle.hp_tables.specs.Defining.Layers.{put_at, no_entry, says, says_numbers, says_seen, sight, own_of};
ghost use Rattle.hp_tables.specs.Defining.Seen.{names_seen, with_more};

use crate::defining::names::push;
use hp_base::Name;
use hp_tree::Decl;
use indexmap::IndexMap;
use std::alloc::{AllocError, Global};

/// What a block, or a control equation, says of names: their numbers, or that they have none.
#[derive(Drop)]
pub struct Layer<'a> {
    pub names: IndexMap<&'a [u8], Option<usize>>,
}

impl<'a> Layer<'a> {
    pub fn new(alloc: Global) -> Layer<'a>
        ensures { says result ≡ no_entry }
    {
        Layer {
            names: IndexMap::new(alloc),
        }
    }

    /// What it says of the name.
    pub fn of(&self, name: &[u8]) -> Option<Option<usize>>
        ensures { result ≡ says self.now name.now }
    {
        match self.names.get(name) {
            None => None,
            Some(number) => Some(*number),
        }
    }

    /// The number that it says the name has.
    pub fn number_of(&self, name: &[u8]) -> Option<usize>
        ensures { result ≡ own_of self.now name.now }
    {
        match self.of(name) {
            None => None,
            Some(number) => number,
        }
    }

    fn put(&mut self, name: &'a [u8], number: Option<usize>) -> Result<(), AllocError>
        ensures { OnOk result (says self.new ≡ put_at (says self.old) name.now number) }
    {
        self.names.insert(name, number)?;
        Ok(())
    }

    /// Numbers the names from `first` on; of two equal ones the first counts.
    pub fn numbered(
        alloc: Global,
        names: &[&'a Name],
        first: usize,
    ) -> Result<Layer<'a>, AllocError>
        requires { first + length names.now < 2 ^ 64 }
        ensures { IfOk result (λ layer. says layer ≡ says_numbers first (names_seen names.now)) }
    {
        let mut layer = Layer::new(alloc);
        let mut i = names.len();
        while i > 0 {
            i -= 1;
            let name = names[i].bytes();
            layer.put(name, Some(first + i))?;
        }
        Ok(layer)
    }

    /// Numbers the variables that are declared from `first` on; of two with one name the first counts.
    pub fn declared(alloc: Global, decls: &'a [Decl], first: usize) -> Result<Layer<'a>, AllocError>
        requires { first + length decls.now < 2 ^ 64 }
        ensures { IfOk result (λ layer. says layer ≡ says_numbers first (declared_names decls.now)) }
    {
        let names = declared_names(alloc, decls)?;
        Layer::numbered(alloc, &names, first)
    }

    /// The names, as they are seen where these layers are.
    pub fn seen(
        alloc: Global,
        names: &[&'a Name],
        layers: &[Layer],
    ) -> Result<Layer<'a>, AllocError>
        ensures { IfOk result (λ layer. says layer ≡ says_seen (names_seen names.now) (sight layers.now)) }
    {
        let mut layer = Layer::new(alloc);
        let mut i = names.len();
        while i > 0 {
            i -= 1;
            let name = names[i].bytes();
            layer.put(name, sight(layers, name))?;
        }
        Ok(layer)
    }
}

/// The number of the name where these layers are, the outermost first.
pub fn sight(layers: &[Layer], name: &[u8]) -> Option<usize>
    ensures { result ≡ sight layers.now name.now }
{
    let mut i = layers.len();
    while i > 0 {
        i -= 1;
        let layer = &layers[i];
        if let Some(number) = layer.of(name) {
            return number;
        }
    }
    None
}

#[tactic(auto, using(crate::proofs::DefiningLemmas::Rules::names))]
fn add_declared<'a>(decls: &'a [Decl], into: &mut Vec<&'a Name>) -> Result<(), AllocError>
    ensures { OnOk result (names_seen into.new.items ≡ with_more (names_seen into.old.items) (declared_names decls.now)) }
{
    for decl in decls {
        push(&decl.name, into)?;
    }
    Ok(())
}

/// The names of declarations.
#[tactic(auto, using(crate::proofs::DefiningLemmas::Rules::names))]
pub fn declared_names<'a>(alloc: Global, decls: &'a [Decl]) -> Result<Vec<&'a Name>, AllocError>
    ensures { IfOk result (λ names. names_seen names.items ≡ declared_names decls.now) }
{
    let mut names = Vec::new(alloc);
    add_declared(decls, &mut names)?;
    Ok(names)
}
