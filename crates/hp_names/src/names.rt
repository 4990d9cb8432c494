ghost use Rattle.std.specs.Prelude.{◌≡◌, ◌≤◌, [], length, take, OnOk};
ghost use Rattle.hp_names.specs.Names.{has, with_name};

use hp_base::Name;
use indexmap::IndexSet;
use std::alloc::{AllocError, Global};
use std::marker::Model;

/// Names that are known, each once, in the order in which they came.
#[derive(Drop)]
pub struct Names<'a> {
    texts: IndexSet<&'a [u8]>,
}

impl<'a> Model for Names<'a> {
    ghost use Rattle.std.specs.Prelude.{List, ℕ, map};

    ghost Value = { List (List ℕ) };

    ghost view = { λ n. map (λ text. text.now) n.texts.keys };
}

impl<'a> Names<'a> {
    pub fn new(alloc: Global) -> Names<'a>
        ensures { result ≡ [] }
    {
        Names {
            texts: IndexSet::new(alloc),
        }
    }

    /// Whether the name is among them.
    pub fn has(&self, name: &Name) -> bool
        ensures { result ≡ has self.now name.now }
    {
        self.texts.contains(name.bytes())
    }

    /// Adds the name, where it is not there yet.
    pub fn add(&mut self, name: &'a Name) -> Result<(), AllocError>
        ensures { OnOk result (self.new ≡ with_name self.old name.now) }
    {
        self.texts.insert(name.bytes())?;
        Ok(())
    }

    pub fn len(&self) -> usize
        ensures { result ≡ length self.now }
    {
        self.texts.len()
    }

    /// Keeps the first `len` names.
    pub fn shrink(&mut self, len: usize)
        ensures { self.new ≡ take len self.old }
    {
        while self.texts.len() > len {
            self.texts.pop();
        }
    }
}
