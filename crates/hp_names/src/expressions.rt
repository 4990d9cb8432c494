//! The names of expressions.
ghost use Rattle.std.specs.Prelude.{◌≡◌};
ghost use Rattle.hp_tree.specs.Expressions.{exprs_of, parts_of};
ghost use Rattle.hp_names.specs.Breaches.{found_after};
ghost use Rattle.hp_names.specs.Claims.{in_constant, in_cons, in_expr, in_exprs, in_parts};

use crate::breach::{Breach, use_name};
use crate::scope::Scope;
use hp_base::Span;
use hp_tree::{Cons, Const, Expr, ExprKind};

#[tactic(auto, using(crate::proofs::Rules::found))]
pub fn check_constant<'a>(
    scope: &Scope<'a>,
    constant: &'a Const,
    at: Span,
    found: &mut Option<Breach<'a>>,
)
    ensures { found.new ≡ found_after found.old (in_constant scope.now at constant.now) }
{
    match constant {
        Const::B(_) => {}
        Const::I(_) => {}
        Const::E(name) => use_name(found, &scope.constructors, name, at),
    }
}

#[tactic(auto, using(crate::proofs::Rules::found))]
pub fn check_cons<'a>(scope: &Scope<'a>, cons: &'a Cons, at: Span, found: &mut Option<Breach<'a>>)
    ensures { found.new ≡ found_after found.old (in_cons scope.now at cons.now) }
{
    match cons {
        Cons::False => {}
        Cons::True => {}
        Cons::Named(name) => use_name(found, &scope.constructors, name, at),
    }
}

/// Finds the first name of the expression that is not known in the scope.
#[cycle(check)]
#[tactic(auto, using(crate::proofs::Rules::found))]
pub fn check_expr<'a>(scope: &Scope<'a>, expr: &'a Expr, found: &mut Option<Breach<'a>>)
    ensures { found.new ≡ found_after found.old (in_expr scope.now expr.now) }
{
    let at = expr.span;
    match &*expr.kind {
        ExprKind::Const(constant) => check_constant(scope, constant, at, found),
        ExprKind::Name(name) => use_name(found, &scope.variables, name, at),
        ExprKind::Last(name) => use_name(found, &scope.lasts, name, at),
        ExprKind::One(_, a) => check_expr(scope, a, found),
        ExprKind::Two(_, a, b) => {
            check_expr(scope, a, found);
            check_expr(scope, b, found);
        }
        ExprKind::If(a, b, c) => {
            check_expr(scope, a, found);
            check_expr(scope, b, found);
            check_expr(scope, c, found);
        }
        ExprKind::Pre(a) => check_expr(scope, a, found),
        ExprKind::Fby(a, b) => {
            check_expr(scope, a, found);
            check_expr(scope, b, found);
        }
        ExprKind::Arrow(a, b) => {
            check_expr(scope, a, found);
            check_expr(scope, b, found);
        }
        ExprKind::When(a, cons, name) => {
            check_expr(scope, a, found);
            check_cons(scope, cons, at, found);
            use_name(found, &scope.variables, name, at);
        }
        ExprKind::Merge(name, parts) => {
            use_name(found, &scope.variables, name, at);
            check_parts(scope, at, parts, found);
        }
        ExprKind::Call {
            node,
            inlined: _,
            args,
        } => {
            use_name(found, &scope.nodes, node, at);
            check_args(scope, args, found);
        }
    }
}

#[cycle(check)]
#[tactic(auto, using(crate::proofs::Rules::found_in_lists))]
fn check_args<'a>(scope: &Scope<'a>, args: &'a [Expr], found: &mut Option<Breach<'a>>)
    ensures { found.new ≡ found_after found.old (in_exprs scope.now (exprs_of args.now)) }
{
    for arg in args {
        check_expr(scope, arg, found);
    }
}

#[cycle(check)]
#[tactic(auto, using(crate::proofs::Rules::found_in_lists))]
fn check_parts<'a>(
    scope: &Scope<'a>,
    at: Span,
    parts: &'a [(Cons, Expr)],
    found: &mut Option<Breach<'a>>,
)
    ensures { found.new ≡ found_after found.old (in_parts scope.now at (parts_of parts.now)) }
{
    for (cons, right) in parts {
        check_cons(scope, cons, at, found);
        check_expr(scope, right, found);
    }
}
