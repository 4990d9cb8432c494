ghost use Rattle.std.specs.Prelude.{◌≡◌};
ghost use Rattle.hp_typing.specs.Types.{same_type, agrees, chooses};
ghost use Rattle.hp_typing.specs.Breaches.{same_is};
ghost use Rattle.hp_typing.specs.Definitions.{same_cons};
ghost use Rattle.hp_typing.specs.Seen.{kind_seen, kind_told, shape_seen, cons_seen};

use hp_base::Name;
use hp_tree::{Cons, Ty};

/// A type, by the name of its enumeration.
#[derive(Clone, Copy)]
pub enum Kind<'a> {
    Bool,
    Int,
    Enum(&'a Name),
}

/// What is wanted or found: a type, or so many values.
#[derive(Clone, Copy)]
pub enum Shape<'a> {
    Type(Kind<'a>),
    Row(u64),
}

/// A constructor of a type.
#[derive(Clone, Copy)]
pub enum Constructor<'a> {
    False,
    True,
    Named(&'a Name),
}

impl<'a> Constructor<'a> {
    pub fn is(self, cons: &Cons) -> bool
        ensures { result ≡ same_cons (cons_seen self.entry) cons.now }
    {
        match (self, cons) {
            (Constructor::False, Cons::False) => true,
            (Constructor::True, Cons::True) => true,
            (Constructor::Named(name), Cons::Named(other)) => name.bytes() == other.bytes(),
            _ => false,
        }
    }
}

impl<'a> Kind<'a> {
    pub fn of(ty: &'a Ty) -> Kind<'a>
        ensures { kind_seen result ≡ ty.now }
    {
        match ty {
            Ty::Bool => Kind::Bool,
            Ty::Int => Kind::Int,
            Ty::Enum(name) => Kind::Enum(name),
        }
    }

    pub fn same(self, other: Kind<'a>) -> bool
        ensures { result ≡ same_type (kind_seen self.entry) (kind_seen other.entry) }
    {
        match (self, other) {
            (Kind::Bool, Kind::Bool) => true,
            (Kind::Int, Kind::Int) => true,
            (Kind::Enum(name), Kind::Enum(other_name)) => name.bytes() == other_name.bytes(),
            _ => false,
        }
    }
}

impl<'a> Shape<'a> {
    pub fn same(self, other: Shape<'a>) -> bool
        ensures { result ≡ same_is (shape_seen self.entry) (shape_seen other.entry) }
    {
        match (self, other) {
            (Shape::Type(kind), Shape::Type(other_kind)) => kind.same(other_kind),
            (Shape::Row(count), Shape::Row(other_count)) => count == other_count,
            _ => false,
        }
    }
}

/// Whether a `switch` or a `merge` may be over the type.
pub fn chooses<'a>(kind: Option<Kind<'a>>) -> bool
    ensures { result ≡ chooses (kind_told kind.entry) }
{
    match kind {
        None => false,
        Some(Kind::Int) => false,
        Some(Kind::Bool) => true,
        Some(Kind::Enum(_)) => true,
    }
}
