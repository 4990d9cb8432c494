ghost use Rattle.std.specs.Prelude.{◌≡◌, ◌↔◌, IsTrue, IfOk};

use crate::name::Name;
use std::alloc::{AllocError, Global};

/// The type of a variable.
#[derive(Debug, Drop)]
pub enum Ty {
    Bool,
    Int,
    /// An enumeration that is declared.
    Enum(Name),
}

impl Ty {
    pub fn copy(&self, alloc: Global) -> Result<Ty, AllocError>
        ensures { IfOk result (λ ty. ty ≡ self.now) }
    {
        match self {
            Ty::Bool => Ok(Ty::Bool),
            Ty::Int => Ok(Ty::Int),
            Ty::Enum(name) => Ok(Ty::Enum(name.copy(alloc)?)),
        }
    }

    pub fn same(&self, other: &Ty) -> bool
        ensures { IsTrue result ↔ (self.now ≡ other.now) }
    {
        match (self, other) {
            (Ty::Bool, Ty::Bool) => true,
            (Ty::Int, Ty::Int) => true,
            (Ty::Enum(x), Ty::Enum(y)) => x.same(y),
            _ => false,
        }
    }
}

/// A constant as it is written.
#[derive(Debug, Drop)]
pub enum Const {
    B(bool),
    I(i32),
    /// A constructor of an enumeration.
    E(Name),
}

impl Const {
    pub fn copy(&self, alloc: Global) -> Result<Const, AllocError>
        ensures { IfOk result (λ constant. constant ≡ self.now) }
    {
        match self {
            Const::B(b) => Ok(Const::B(*b)),
            Const::I(n) => Ok(Const::I(*n)),
            Const::E(name) => Ok(Const::E(name.copy(alloc)?)),
        }
    }

    pub fn same(&self, other: &Const) -> bool
        ensures { IsTrue result ↔ (self.now ≡ other.now) }
    {
        match (self, other) {
            (Const::B(b), Const::B(c)) => b == c,
            (Const::I(m), Const::I(n)) => m == n,
            (Const::E(x), Const::E(y)) => x.same(y),
            _ => false,
        }
    }
}
