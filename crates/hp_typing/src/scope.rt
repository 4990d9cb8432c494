ghost use Rattle.std.specs.Prelude.{◌≡◌, ◌≤◌, length, OnOk, option_map};
ghost use Rattle.hp_base.specs.Known.Known.{lookup, with_entry};
ghost use Rattle.hp_typing.specs.Scopes.{nothing, left};
ghost use Rattle.hp_typing.specs.Seen.{kind_told};
ghost use Rattle.hp_typing.specs.Types.{constant_type, cons_type, enum_of};

use crate::kind::Kind;
use hp_base::Name;
use hp_base::known::Known;
use hp_tree::{Cons, Const, Decl, Node, Ty, TypeDecl};
use std::alloc::{AllocError, Global};

/// What is known of the names at a place of a program.
#[derive(Drop)]
pub struct Scope<'a> {
    pub types: Known<'a, TypeDecl>,
    /// The name of the type of each constructor.
    pub constructors: Known<'a, Name>,
    pub nodes: Known<'a, Node>,
    /// The types of the variables in scope.
    pub variables: Known<'a, Ty>,
}

impl<'a> Scope<'a> {
    pub fn new(alloc: Global) -> Scope<'a>
        ensures { result ≡ nothing }
    {
        Scope {
            types: Known::new(alloc),
            constructors: Known::new(alloc),
            nodes: Known::new(alloc),
            variables: Known::new(alloc),
        }
    }

    /// The type of the variable.
    pub fn variable_kind(&self, name: &Name) -> Option<Kind<'a>>
        ensures { kind_told result ≡ lookup self.now.variables name.now }
    {
        match self.variables.get(name) {
            None => None,
            Some(ty) => Some(Kind::of(ty)),
        }
    }

    fn constructor_kind(&self, name: &Name) -> Option<Kind<'a>>
        ensures { kind_told result ≡ enum_of (lookup self.now.constructors name.now) }
    {
        match self.constructors.get(name) {
            None => None,
            Some(ty) => Some(Kind::Enum(ty)),
        }
    }

    pub fn constant_kind(&self, constant: &Const) -> Option<Kind<'a>>
        ensures { kind_told result ≡ constant_type self.now constant.now }
    {
        match constant {
            Const::B(_) => Some(Kind::Bool),
            Const::I(_) => Some(Kind::Int),
            Const::E(name) => self.constructor_kind(name),
        }
    }

    pub fn cons_kind(&self, cons: &Cons) -> Option<Kind<'a>>
        ensures { kind_told result ≡ cons_type self.now cons.now }
    {
        match cons {
            Cons::False => Some(Kind::Bool),
            Cons::True => Some(Kind::Bool),
            Cons::Named(name) => self.constructor_kind(name),
        }
    }

    /// How many variables are in scope.
    pub fn mark(&self) -> usize
        ensures { result ≡ length self.now.variables }
    {
        self.variables.len()
    }

    /// Takes out of scope what was put there since the mark.
    pub fn leave(&mut self, mark: usize)
        ensures { self.new ≡ left mark self.old }
    {
        self.variables.shrink(mark);
    }
}
