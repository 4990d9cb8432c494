//! The clocks of expressions, as their names tell them.
ghost use Rattle.std.specs.Prelude.{◌≡◌};
ghost use Rattle.hp_tree.specs.Expressions.{exprs_of};
ghost use Rattle.hp_tables.specs.Telling.Seen.{told_seen};
ghost use Rattle.hp_tables.specs.Telling.Tellings.{tells, tells_in_all, tells_of};

use hp_base::{Name, Span};
use hp_tree::{Cons, Expr, ExprKind};

/// How an expression tells its clock.
#[derive(Clone, Copy)]
pub enum Telling<'t> {
    /// It is the base clock.
    Base,
    /// It is that of a name.
    Of(&'t Name),
    /// It is the clock of a name with one step more, where the name has this value.
    On(&'t Cons, &'t Name),
}

/// What the expression's names tell of its clock.
#[cycle(telling)]
#[tactic(auto, using(crate::proofs::TellingLemmas::Rules::telling))]
fn told(expr: &Expr) -> Option<Telling<'_>>
    ensures { told_seen result ≡ tells expr.now }
{
    match &*expr.kind {
        ExprKind::Const(_) => None,
        ExprKind::Name(name) | ExprKind::Merge(name, _) => Some(Telling::Of(name)),
        ExprKind::Last(_) => Some(Telling::Base),
        ExprKind::One(_, a) | ExprKind::Pre(a) => told(a),
        ExprKind::Two(_, a, b) | ExprKind::Fby(a, b) | ExprKind::Arrow(a, b) => {
            match told(a) {
                None => told(b),
                Some(telling) => Some(telling),
            }
        }
        ExprKind::If(a, b, c) => match told(a) {
            Some(telling) => Some(telling),
            None => match told(b) {
                None => told(c),
                Some(telling) => Some(telling),
            },
        },
        ExprKind::When(_, cons, name) => Some(Telling::On(cons, name)),
        ExprKind::Call {
            node: _,
            inlined: _,
            args,
        } => told_by_some(args),
    }
}

#[cycle(telling)]
#[tactic(auto, using(crate::proofs::TellingLemmas::Rules::telling))]
fn told_by_some(exprs: &[Expr]) -> Option<Telling<'_>>
    ensures { told_seen result ≡ tells_in_all (exprs_of exprs.now) }
{
    for expr in exprs {
        if let Some(telling) = told(expr) {
            return Some(telling);
        }
    }
    None
}

/// How the clock of a definition of these names is told.
pub fn told_by<'t>(names: &'t [(Name, Span)], right: &'t Expr) -> Option<Telling<'t>>
    ensures { told_seen result ≡ tells_of names.now right.now }
{
    match names {
        [] => told(right),
        [(name, _), ..] => Some(Telling::Of(name)),
    }
}
