//! The types of declarations.
ghost use Rattle.std.specs.Prelude.{◌≡◌, OnOk};
ghost use Rattle.hp_tree.specs.DeclView.{clock_seen};
ghost use Rattle.hp_typing.specs.Scopes.{with_variables};
ghost use Rattle.hp_typing.specs.Claims.{in_first, in_path, in_clock, in_decl, in_decls};
ghost use Rattle.hp_typing.specs.Breaches.{found_after};

use crate::breach::{Breach, want};
use crate::kind::Kind;
use crate::scope::Scope;
use hp_base::{Name, Span};
use hp_tree::{Cons, Const, Decl, Ty};
use std::alloc::AllocError;

/// A first value has to be of the declared type.
#[tactic(auto, using(crate::proofs::Rules::found))]
fn check_first<'a>(
    scope: &Scope<'a>,
    at: Span,
    ty: &'a Ty,
    first: &'a Option<Const>,
    found: &mut Option<Breach<'a>>,
)
    ensures { found.new ≡ found_after found.old (in_first scope.now at ty.now first.now) }
{
    match first {
        None => {}
        Some(constant) => {
            let wanted = Some(Kind::of(ty));
            want(found, at, wanted, scope.constant_kind(constant));
        }
    }
}

/// The constructors of a clock have to be of the types of its names.
#[tactic(auto, using(crate::proofs::Rules::found_in_paths))]
fn check_path<'a>(
    scope: &Scope<'a>,
    at: Span,
    path: &'a [(Cons, Name)],
    found: &mut Option<Breach<'a>>,
)
    ensures { found.new ≡ found_after found.old (in_path scope.now at path.now) }
{
    for (cons, name) in path {
        let wanted = scope.variable_kind(name);
        want(found, at, wanted, scope.cons_kind(cons));
    }
}

#[tactic(auto, using(crate::proofs::Rules::found))]
fn check_clock<'a>(
    scope: &Scope<'a>,
    at: Span,
    clock: &'a Option<Vec<(Cons, Name)>>,
    found: &mut Option<Breach<'a>>,
)
    ensures { found.new ≡ found_after found.old (in_clock scope.now at (clock_seen clock.now)) }
{
    match clock {
        None => {}
        Some(path) => check_path(scope, at, path, found),
    }
}

#[tactic(auto, using(crate::proofs::Rules::found))]
fn check_decl<'a>(scope: &Scope<'a>, decl: &'a Decl, found: &mut Option<Breach<'a>>)
    ensures { found.new ≡ found_after found.old (in_decl scope.now decl.now) }
{
    let at = decl.span;
    check_first(scope, at, &decl.ty, &decl.last, found);
    check_clock(scope, at, &decl.clock, found);
}

#[tactic(auto, using(crate::proofs::Rules::found_in_decls))]
pub fn check_decls<'a>(scope: &Scope<'a>, decls: &'a [Decl], found: &mut Option<Breach<'a>>)
    ensures { found.new ≡ found_after found.old (in_decls scope.now decls.now) }
{
    for decl in decls {
        check_decl(scope, decl, found);
    }
}

/// Puts the variables in scope.
#[tactic(auto, using(crate::proofs::Rules::found_in_decls))]
pub fn add_variables<'a>(scope: &mut Scope<'a>, decls: &'a [Decl]) -> Result<(), AllocError>
    ensures { OnOk result (scope.new ≡ with_variables scope.old decls.now) }
{
    for decl in decls {
        scope.variables.add(&decl.name, &decl.ty)?;
    }
    Ok(())
}
