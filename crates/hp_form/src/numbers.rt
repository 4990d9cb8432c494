//! Numbers by names.
ghost use Rattle.std.specs.Prelude.{◌≡◌, ◌++◌, ◌∷◌, [], true, false, Ok, IfOk};
ghost use Rattle.std.specs.Bool.{Decides};
ghost use Rattle.hp_obc.specs.Form.{has_name};
ghost use Rattle.hp_base.specs.Known.Known.{lookup};
ghost use Rattle.hp_form.specs.Declaring.{keys};

use hp_base::Name;
use indexmap::IndexMap;
use std::alloc::{AllocError, Global};
use std::marker::Model;

/// What numbers names have, in the order in which they came.
#[derive(Drop)]
pub struct Numbers<'a> {
    entries: IndexMap<&'a [u8], usize>,
}

impl<'a> Model for Numbers<'a> {
    ghost use Rattle.std.specs.Prelude.{List, ℕ, map};

    ghost Value = { List (List ℕ × ℕ) };

    ghost view = { λ n. map (λ e. (e.0.now, e.1)) n.entries.entries };
}

impl<'a> Numbers<'a> {
    pub fn new(alloc: Global) -> Numbers<'a>
        ensures { result ≡ [] }
    {
        Numbers {
            entries: IndexMap::new(alloc),
        }
    }

    /// The number of the name.
    pub fn get(&self, name: &Name) -> Option<usize>
        ensures { result ≡ lookup self.now name.now }
    {
        match self.entries.get(name.bytes()) {
            None => None,
            Some(number) => Some(*number),
        }
    }

    /// Gives the name a number, where it has none, and answers whether it had none.
    pub fn add(&mut self, name: &'a Name, number: usize) -> Result<bool, AllocError>
        ensures fresh { IfOk result (λ b. Decides b (has_name (keys self.old) name.now ≡ false)) }
        ensures added { result ≡ Ok true → self.new ≡ self.old ++ (name.now, number) ∷ [] }
    {
        let text = name.bytes();
        if self.entries.contains_key(text) {
            return Ok(false);
        }
        self.entries.insert(text, number)?;
        Ok(true)
    }
}
