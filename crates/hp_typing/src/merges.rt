//! The constructors of each `merge`.
ghost use Rattle.std.specs.Prelude.{◌≡◌, OnOk};
ghost use Rattle.hp_tree.specs.Expressions.{exprs_of, parts_of};
ghost use Rattle.hp_typing.specs.Definedness.{conses_of_parts, in_constructors, in_expr, in_exprs, in_parts, in_transitions, in_condition};
ghost use Rattle.hp_base.specs.Known.Known.{lookup};
ghost use Rattle.hp_typing.specs.Breaches.{found_after};
ghost use Rattle.hp_typing.specs.Types.{constructors_of};

use crate::breach::Breach;
use crate::constructors::{check_constructors, conses_of_parts};
use crate::scope::Scope;
use hp_base::{Name, Span};
use hp_tree::{Cons, Expr, ExprKind, Trans};
use std::alloc::{AllocError, Global};

/// Each `merge` in the expression has to name each constructor of its type once.
#[cycle(merges)]
#[tactic(auto, using(crate::proofs::Rules::found))]
pub fn check_merges<'a>(
    alloc: Global,
    scope: &Scope<'a>,
    expr: &'a Expr,
    found: &mut Option<Breach<'a>>,
) -> Result<(), AllocError>
    ensures { OnOk result (found.new ≡ found_after found.old (in_expr scope.now expr.now)) }
{
    match &*expr.kind {
        ExprKind::Const(_) | ExprKind::Name(_) | ExprKind::Last(_) => Ok(()),
        ExprKind::One(_, a) | ExprKind::Pre(a) | ExprKind::When(a, _, _) => {
            check_merges(alloc, scope, a, found)
        }
        ExprKind::Two(_, a, b) | ExprKind::Fby(a, b) | ExprKind::Arrow(a, b) => {
            check_merges(alloc, scope, a, found)?;
            check_merges(alloc, scope, b, found)
        }
        ExprKind::If(a, b, c) => {
            check_merges(alloc, scope, a, found)?;
            check_merges(alloc, scope, b, found)?;
            check_merges(alloc, scope, c, found)
        }
        ExprKind::Merge(name, parts) => {
            check_choices(alloc, scope, expr.span, name, parts, found)?;
            check_parts(alloc, scope, parts, found)
        }
        ExprKind::Call {
            node: _,
            inlined: _,
            args,
        } => check_args(alloc, scope, args, found),
    }
}

/// The parts of a `merge` have to name each constructor of the variable's type once.
fn check_choices<'a>(
    alloc: Global,
    scope: &Scope<'a>,
    at: Span,
    name: &'a Name,
    parts: &'a [(Cons, Expr)],
    found: &mut Option<Breach<'a>>,
) -> Result<(), AllocError>
    ensures { OnOk result (found.new ≡ found_after found.old (in_constructors at (constructors_of scope.now (lookup scope.now.variables name.now)) (conses_of_parts (parts_of parts.now)))) }
{
    let given = conses_of_parts(alloc, parts)?;
    check_constructors(scope, at, scope.variable_kind(name), &given, found);
    Ok(())
}

#[cycle(merges)]
#[tactic(auto, using(crate::proofs::Rules::found_in_merges))]
fn check_parts<'a>(
    alloc: Global,
    scope: &Scope<'a>,
    parts: &'a [(Cons, Expr)],
    found: &mut Option<Breach<'a>>,
) -> Result<(), AllocError>
    ensures { OnOk result (found.new ≡ found_after found.old (in_parts scope.now (parts_of parts.now))) }
{
    for (_, right) in parts {
        check_merges(alloc, scope, right, found)?;
    }
    Ok(())
}

#[cycle(merges)]
#[tactic(auto, using(crate::proofs::Rules::found_in_merges))]
fn check_args<'a>(
    alloc: Global,
    scope: &Scope<'a>,
    args: &'a [Expr],
    found: &mut Option<Breach<'a>>,
) -> Result<(), AllocError>
    ensures { OnOk result (found.new ≡ found_after found.old (in_exprs scope.now (exprs_of args.now))) }
{
    for arg in args {
        check_merges(alloc, scope, arg, found)?;
    }
    Ok(())
}

#[tactic(auto, using(crate::proofs::Rules::found_in_merges))]
pub fn check_transitions<'a>(
    alloc: Global,
    scope: &Scope<'a>,
    transitions: &'a [Trans],
    found: &mut Option<Breach<'a>>,
) -> Result<(), AllocError>
    ensures { OnOk result (found.new ≡ found_after found.old (in_transitions scope.now transitions.now)) }
{
    for transition in transitions {
        check_merges(alloc, scope, &transition.cond, found)?;
    }
    Ok(())
}

#[tactic(auto, using(crate::proofs::Rules::found))]
pub fn check_condition<'a>(
    alloc: Global,
    scope: &Scope<'a>,
    condition: &'a Option<Expr>,
    found: &mut Option<Breach<'a>>,
) -> Result<(), AllocError>
    ensures { OnOk result (found.new ≡ found_after found.old (in_condition scope.now condition.now)) }
{
    match condition {
        None => Ok(()),
        Some(expr) => check_merges(alloc, scope, expr, found),
    }
}
