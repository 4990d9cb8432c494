ghost use Rattle.std.specs.Prelude.{◌≡◌, ◌≤◌, [], length, take, option_map, is_some, OnOk};
ghost use Rattle.hp_base.specs.Known.Known.{lookup, with_entry};

use crate::Name;
use indexmap::IndexMap;
use std::alloc::{AllocError, Global};
use std::marker::Model;

/// What is known of names, in the order in which they came. Of two entries of one name the first is kept.
#[derive(Drop)]
pub struct Known<'a, T> {
    entries: IndexMap<&'a [u8], &'a T>,
}

impl<'a, T> Model for Known<'a, T> {
    ghost use Rattle.std.specs.Prelude.{List, ℕ, map};

    ghost Value = { List (List ℕ × T) };

    ghost view = { λ k. map (λ e. (e.0.now, e.1.now)) k.entries.entries };
}

impl<'a, T> Known<'a, T> {
    pub fn new(alloc: Global) -> Known<'a, T>
        ensures { result ≡ [] }
    {
        Known {
            entries: IndexMap::new(alloc),
        }
    }

    /// What is known of the name.
    pub fn get(&self, name: &Name) -> Option<&'a T>
        ensures { option_map (λ x. x.now) result ≡ lookup self.now name.now }
    {
        match self.entries.get(name.bytes()) {
            None => None,
            Some(entry) => Some(*entry),
        }
    }

    /// Whether something is known of the name.
    pub fn has(&self, name: &Name) -> bool
        ensures { result ≡ is_some (lookup self.now name.now) }
    {
        match self.get(name) {
            None => false,
            Some(_) => true,
        }
    }

    /// Adds an entry, where the name has none yet.
    pub fn add(&mut self, name: &'a Name, value: &'a T) -> Result<(), AllocError>
        ensures { OnOk result (self.new ≡ with_entry self.old name.now value.now) }
    {
        let text = name.bytes();
        if !self.entries.contains_key(text) {
            self.entries.insert(text, value)?;
        }
        Ok(())
    }

    pub fn len(&self) -> usize
        ensures { result ≡ length self.now }
    {
        self.entries.len()
    }

    /// Keeps the first `len` entries.
    pub fn shrink(&mut self, len: usize)
        ensures { self.new ≡ take len self.old }
    {
        while self.entries.len() > len {
            self.entries.pop();
        }
    }
}
