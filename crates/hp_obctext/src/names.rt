//! What is known of names while form is checked.
ghost use Rattle.std.specs.Prelude.{◌≡◌, List, ℕ, Some, option_map, IfSome};
ghost use Rattle.hp_base.specs.Known.Known.{lookup};
ghost use Rattle.hp_obctext.specs.NamesView.{types_seen, names_seen, kind_seen, maybe_kind_seen};
ghost use Rattle.hp_obctext.specs.Rules.{is_known, same_ty, agree, const_ty, arg_ty};
ghost use Rattle.std.specs.Str.{bytes_eq};

use crate::text::Text;
use hp_base::known::Known;
use hp_base::{Const, Name, Ty};
use hp_obc::{Arg, ObcType};

/// The types by their names, and by their constructors.
#[derive(Drop)]
pub(crate) struct Types<'a> {
    pub names: Known<'a, ObcType>,
    pub cons: Known<'a, ObcType>,
}

/// The names of a machine: those that a step may read, those that it may write, and its instances with their machines.
#[derive(Drop)]
pub(crate) struct Names<'t, 'a> {
    pub types: &'t Types<'a>,
    pub vars: Known<'a, Ty>,
    pub written: Known<'a, Ty>,
    pub insts: Known<'a, Text>,
}

/// The type of a value.
#[derive(Clone, Copy, Debug)]
pub(crate) enum Kind<'a> {
    Bool,
    Int,
    Enum(&'a Name),
}

/// The kind of a type.
pub(crate) fn kind_of(ty: &Ty) -> Kind<'_>
    ensures { kind_seen result ≡ ty.now }
{
    match ty {
        Ty::Bool => Kind::Bool,
        Ty::Int => Kind::Int,
        Ty::Enum(name) => Kind::Enum(name),
    }
}

fn maybe_kind_of(ty: Option<&Ty>) -> Option<Kind<'_>>
    ensures { maybe_kind_seen result ≡ option_map (λ t. t.now) ty.entry }
{
    match ty {
        None => None,
        Some(ty) => Some(kind_of(ty)),
    }
}

fn same_name(a: &Name, b: &Name) -> bool
    ensures { result ≡ bytes_eq a.now b.now }
{
    a.bytes() == b.bytes()
}

fn is_same(a: Kind<'_>, b: Kind<'_>) -> bool
    ensures { result ≡ same_ty (kind_seen a.entry) (kind_seen b.entry) }
{
    match (a, b) {
        (Kind::Bool, Kind::Bool) => true,
        (Kind::Int, Kind::Int) => true,
        (Kind::Enum(x), Kind::Enum(y)) => same_name(x, y),
        _ => false,
    }
}

/// Whether there are both kinds, and they are the same.
pub(crate) fn agree(a: Option<Kind<'_>>, b: Option<Kind<'_>>) -> bool
    ensures { result ≡ agree (maybe_kind_seen a.entry) (maybe_kind_seen b.entry) }
{
    match (a, b) {
        (Some(a), Some(b)) => is_same(a, b),
        _ => false,
    }
}

impl<'a> Types<'a> {
    pub fn is_known(&self, ty: &Ty) -> bool
        ensures { result ≡ is_known (types_seen self.now) ty.now }
    {
        match ty {
            Ty::Bool | Ty::Int => true,
            Ty::Enum(name) => self.names.has(name),
        }
    }

    /// The kind of a constant, if it has one.
    #[tactic(auto, using(crate::proofs::Integers::integer_typed))]
    pub fn kind(&self, constant: &Const) -> Option<Kind<'_>>
        ensures { maybe_kind_seen result ≡ const_ty (types_seen self.now) constant.now }
    {
        match constant {
            Const::B(_) => Some(Kind::Bool),
            Const::I(n) => {
                let _integer = *n;
                Some(Kind::Int)
            }
            Const::E(name) => match self.cons.get(name) {
                None => None,
                Some(ty) => Some(Kind::Enum(&ty.name)),
            },
        }
    }
}

impl<'t, 'a> Names<'t, 'a> {
    /// The kind of a name that may be read.
    pub fn kind(&self, name: &Name) -> Option<Kind<'_>>
        ensures { maybe_kind_seen result ≡ lookup self.now.vars name.now }
    {
        maybe_kind_of(self.vars.get(name))
    }

    /// The kind of a name that may be written.
    pub fn target(&self, name: &Name) -> Option<Kind<'_>>
        ensures { maybe_kind_seen result ≡ lookup self.now.written name.now }
    {
        maybe_kind_of(self.written.get(name))
    }

    pub fn arg(&self, arg: &Arg) -> Option<Kind<'_>>
        ensures { maybe_kind_seen result ≡ arg_ty (names_seen self.now) arg.now }
    {
        match arg {
            Arg::Name(name) => self.kind(name),
            Arg::Const(constant) => self.types.kind(constant),
        }
    }
}
