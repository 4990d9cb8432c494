ghost use Rattle.std.specs.Prelude.{◌≡◌, ◌≤◌, length, OnOk};
ghost use Rattle.hp_names.specs.Scopes.{nothing, with_variable, left};

use crate::names::Names;
use hp_tree::Decl;
use std::alloc::{AllocError, Global};

/// What is known at a place of a program.
#[derive(Drop)]
pub struct Scope<'a> {
    pub types: Names<'a>,
    pub constructors: Names<'a>,
    pub nodes: Names<'a>,
    /// The variables in scope.
    pub variables: Names<'a>,
    /// Those of them that are declared `last`.
    pub lasts: Names<'a>,
}

/// How many variables were in scope when a block was entered.
#[derive(Clone, Copy, Debug)]
pub struct Mark {
    pub variables: usize,
    pub lasts: usize,
}

impl<'a> Scope<'a> {
    pub fn new(alloc: Global) -> Scope<'a>
        ensures { result ≡ nothing }
    {
        Scope {
            types: Names::new(alloc),
            constructors: Names::new(alloc),
            nodes: Names::new(alloc),
            variables: Names::new(alloc),
            lasts: Names::new(alloc),
        }
    }

    /// Puts the variable in scope.
    pub fn add_variable(&mut self, decl: &'a Decl) -> Result<(), AllocError>
        ensures { OnOk result (self.new ≡ with_variable self.old decl.now decl.now.last) }
    {
        self.variables.add(&decl.name)?;
        match &decl.last {
            None => Ok(()),
            Some(_) => self.lasts.add(&decl.name),
        }
    }

    pub fn mark(&self) -> Mark
        ensures variables { result.variables ≡ length self.now.variables }
        ensures lasts { result.lasts ≡ length self.now.lasts }
    {
        Mark {
            variables: self.variables.len(),
            lasts: self.lasts.len(),
        }
    }

    /// Takes out of scope what was put there since the mark.
    pub fn leave(&mut self, mark: Mark)
        ensures { self.new ≡ left mark.variables mark.lasts self.old }
    {
        self.variables.shrink(mark.variables);
        self.lasts.shrink(mark.lasts);
    }
}
