//! The names of declarations.
ghost use Rattle.std.specs.Prelude.{◌≡◌, OnOk};
ghost use Rattle.hp_tree.specs.DeclView.{clock_seen};
ghost use Rattle.hp_names.specs.Breaches.{found_after};
ghost use Rattle.hp_names.specs.Names.{declared_names};
ghost use Rattle.hp_names.specs.Scopes.{with_variables};
ghost use Rattle.hp_names.specs.Claims.{new_names, in_type, in_first, in_path, in_clock, in_decl, in_decls, in_variables};

use crate::breach::{Breach, declare_name, use_name};
use crate::expressions::{check_cons, check_constant};
use crate::scope::Scope;
use hp_base::{Name, Span};
use hp_tree::{Cons, Const, Decl, Ty};
use std::alloc::AllocError;

#[tactic(auto, using(crate::proofs::Rules::found))]
fn check_type<'a>(scope: &Scope<'a>, at: Span, ty: &'a Ty, found: &mut Option<Breach<'a>>)
    ensures { found.new ≡ found_after found.old (in_type scope.now at ty.now) }
{
    match ty {
        Ty::Bool => {}
        Ty::Int => {}
        Ty::Enum(name) => use_name(found, &scope.types, name, at),
    }
}

#[tactic(auto, using(crate::proofs::Rules::found))]
fn check_first<'a>(
    scope: &Scope<'a>,
    at: Span,
    first: &'a Option<Const>,
    found: &mut Option<Breach<'a>>,
)
    ensures { found.new ≡ found_after found.old (in_first scope.now at first.now) }
{
    match first {
        None => {}
        Some(constant) => check_constant(scope, constant, at, found),
    }
}

#[tactic(auto, using(crate::proofs::Rules::found_in_paths))]
fn check_path<'a>(
    scope: &Scope<'a>,
    at: Span,
    path: &'a [(Cons, Name)],
    found: &mut Option<Breach<'a>>,
)
    ensures { found.new ≡ found_after found.old (in_path scope.now at path.now) }
{
    for (cons, name) in path {
        check_cons(scope, cons, at, found);
        use_name(found, &scope.variables, name, at);
    }
}

#[tactic(auto, using(crate::proofs::Rules::found))]
fn check_clock<'a>(
    scope: &Scope<'a>,
    at: Span,
    clock: &'a Option<Vec<(Cons, Name)>>,
    found: &mut Option<Breach<'a>>,
)
    ensures { found.new ≡ found_after found.old (in_clock scope.now at (clock_seen clock.now)) }
{
    match clock {
        None => {}
        Some(path) => check_path(scope, at, path, found),
    }
}

#[tactic(auto, using(crate::proofs::Rules::found))]
fn check_decl<'a>(scope: &Scope<'a>, decl: &'a Decl, found: &mut Option<Breach<'a>>)
    ensures { found.new ≡ found_after found.old (in_decl scope.now decl.now) }
{
    let at = decl.span;
    check_type(scope, at, &decl.ty, found);
    check_first(scope, at, &decl.last, found);
    check_clock(scope, at, &decl.clock, found);
}

/// What the declarations are made of.
#[tactic(auto, using(crate::proofs::Rules::found_in_decls))]
pub fn check_decls<'a>(scope: &Scope<'a>, decls: &'a [Decl], found: &mut Option<Breach<'a>>)
    ensures { found.new ≡ found_after found.old (in_decls scope.now decls.now) }
{
    for decl in decls {
        check_decl(scope, decl, found);
    }
}

/// Puts the variables in scope.
#[tactic(auto, using(crate::proofs::Rules::found_in_decls))]
pub fn declare_variables<'a>(
    scope: &mut Scope<'a>,
    decls: &'a [Decl],
    found: &mut Option<Breach<'a>>,
) -> Result<(), AllocError>
    ensures scope { OnOk result (scope.new ≡ with_variables scope.old decls.now) }
    ensures found { OnOk result (found.new ≡ found_after found.old (new_names scope.old.variables (declared_names decls.now))) }
{
    for decl in decls {
        declare_name(found, &scope.variables, &decl.name, decl.span);
        scope.add_variable(decl)?;
    }
    Ok(())
}

/// Puts the variables in scope, and checks what their declarations are made of.
#[tactic(auto, using(crate::proofs::Rules::found))]
pub fn check_variables<'a>(
    scope: &mut Scope<'a>,
    decls: &'a [Decl],
    found: &mut Option<Breach<'a>>,
) -> Result<(), AllocError>
    ensures scope { OnOk result (scope.new ≡ with_variables scope.old decls.now) }
    ensures found { OnOk result (found.new ≡ found_after found.old (in_variables scope.old decls.now)) }
{
    declare_variables(scope, decls, found)?;
    check_decls(scope, decls, found);
    Ok(())
}
