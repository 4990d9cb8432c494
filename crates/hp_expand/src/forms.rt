//! The forms of the nodes of some names.
ghost use Rattle.std.specs.Prelude.{◌≡◌, OnOk};
ghost use Rattle.hp_expand.specs.Shapes.{with_form, nothing_known};
ghost use Rattle.hp_expand.specs.Tables.{form_in};

use hp_base::{Name, Span};
use indexmap::IndexMap;
use std::alloc::{AllocError, Global};

/// What shapes ask of a node that is called.
#[derive(Clone, Copy, Debug)]
pub struct Form {
    pub has_contract: bool,
    /// The first plain call in the text that its body makes once its inlined calls are replaced.
    pub plain: Option<Span>,
}

/// The forms of the nodes of some names.
#[derive(Drop)]
pub struct Forms<'a> {
    pub names: IndexMap<&'a [u8], Form>,
}

impl<'a> Forms<'a> {
    pub fn new(alloc: Global) -> Forms<'a>
        ensures { form_in result ≡ nothing_known }
    {
        Forms {
            names: IndexMap::new(alloc),
        }
    }

    /// The form of the node of the name.
    pub fn of(&self, name: &Name) -> Form
        ensures { result ≡ form_in self.now name.now }
    {
        match self.names.get(name.bytes()) {
            None => Form {
                has_contract: false,
                plain: None,
            },
            Some(form) => *form,
        }
    }

    pub fn put(&mut self, name: &'a Name, form: Form) -> Result<(), AllocError>
        ensures { OnOk result (form_in self.new ≡ with_form (form_in self.old) name.now form) }
    {
        self.names.insert(name.bytes(), form)?;
        Ok(())
    }
}
