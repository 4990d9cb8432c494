//! What is in the nodes of some names.
ghost use Rattle.std.specs.Prelude.{◌≡◌, OnOk};
ghost use Rattle.hp_expand.specs.Sizes.{with_node, nothing_known};
ghost use Rattle.hp_expand.specs.Tables.{size_in};

use crate::size::Size;
use hp_base::Name;
use indexmap::IndexMap;
use std::alloc::{AllocError, Global};

/// How much there is in the nodes of some names.
#[derive(Drop)]
pub struct Sizes<'a> {
    pub names: IndexMap<&'a [u8], Size>,
}

impl<'a> Sizes<'a> {
    pub fn new(alloc: Global) -> Sizes<'a>
        ensures { size_in result ≡ nothing_known }
    {
        Sizes {
            names: IndexMap::new(alloc),
        }
    }

    /// What is in the node of the name.
    pub fn of(&self, name: &Name) -> Size
        ensures { result ≡ size_in self.now name.now }
    {
        match self.names.get(name.bytes()) {
            None => Size::none(),
            Some(size) => *size,
        }
    }

    pub fn put(&mut self, name: &'a Name, size: Size) -> Result<(), AllocError>
        ensures { OnOk result (size_in self.new ≡ with_node (size_in self.old) name.now size) }
    {
        self.names.insert(name.bytes(), size)?;
        Ok(())
    }
}
