//! Whether parts of machines are the same.
ghost use Rattle.std.specs.Prelude.{◌≡◌};
ghost use Rattle.std.specs.Bool.{Decides};

use hp_base::{Const, Name, Ty};
use hp_obc::{Arg, Mem, Var};

/// What is compared with another of its type. It takes no memory.
pub trait Same {
    fn same(&self, other: &Self) -> bool
        ensures { Decides result (self.now ≡ other.now) };
}

/// Whether these are the same things, one by one.
pub fn are_same<T: Same>(these: &[T], others: &[T]) -> bool
    ensures { Decides result (these.now ≡ others.now) }
{
    if these.len() != others.len() {
        return false;
    }
    for i in 0..these.len() {
        let this = &these[i];
        let other = &others[i];
        if !this.same(other) {
            return false;
        }
    }
    true
}

impl Same for Name {
    fn same(&self, other: &Name) -> bool {
        self.bytes() == other.bytes()
    }
}

impl Same for Ty {
    fn same(&self, other: &Ty) -> bool {
        match self {
            Ty::Bool => matches!(other, Ty::Bool),
            Ty::Int => matches!(other, Ty::Int),
            Ty::Enum(name) => match other {
                Ty::Enum(another) => Same::same(name, another),
                _ => false,
            },
        }
    }
}

impl Same for Const {
    fn same(&self, other: &Const) -> bool {
        match self {
            Const::B(value) => match other {
                Const::B(another) => value == another,
                _ => false,
            },
            Const::I(value) => match other {
                Const::I(another) => value == another,
                _ => false,
            },
            Const::E(name) => match other {
                Const::E(another) => Same::same(name, another),
                _ => false,
            },
        }
    }
}

impl Same for Arg {
    fn same(&self, other: &Arg) -> bool {
        match self {
            Arg::Name(name) => match other {
                Arg::Name(another) => Same::same(name, another),
                Arg::Const(_) => false,
            },
            Arg::Const(constant) => match other {
                Arg::Const(another) => Same::same(constant, another),
                Arg::Name(_) => false,
            },
        }
    }
}

impl Same for Var {
    fn same(&self, other: &Var) -> bool {
        Same::same(&self.name, &other.name) && Same::same(&self.ty, &other.ty)
    }
}

impl Same for Mem {
    fn same(&self, other: &Mem) -> bool {
        Same::same(&self.name, &other.name)
            && Same::same(&self.ty, &other.ty)
            && Same::same(&self.first, &other.first)
    }
}

/// The name of an instance, and that of its machine.
impl Same for (Name, Name) {
    fn same(&self, other: &(Name, Name)) -> bool {
        Same::same(&self.0, &other.0) && Same::same(&self.1, &other.1)
    }
}
