//! Expressions of a contract.
ghost use Rattle.std.specs.Prelude.{◌≡◌, false, IfOk, OnOk};
ghost use Rattle.hp_base.specs.declared.span.Span.{Span};
ghost use Rattle.hp_tree.specs.Expressions.{call, exprs_of, parts_of};
ghost use Rattle.hp_tree.specs.ExpressionView.{expr_at};
ghost use Rattle.hp_past.specs.Formulas.{formula_of};
ghost use Rattle.hp_past.specs.Unfolding.{in_expr, in_exprs, in_parts, once_of, historically_of, since_of, with_one, with_two, formula_or_call};
ghost use Rattle.hp_past.specs.Made.{added_of};

use crate::additions::Additions;
use crate::formula::Formula;
use crate::text::Text;
use hp_base::{Name, Span};
use hp_tree::{Cons, Expr, ExprKind};
use std::alloc::AllocError;

/// A call of a node.
fn call(text: &Text<'_>, node: &Name, args: Vec<Expr>) -> Result<ExprKind, AllocError>
    ensures { IfOk result (λ other. (span : Span) → expr_at span other ≡ call span node.now false (exprs_of args.items)) }
{
    Ok(ExprKind::Call {
        node: node.copy(text.alloc)?,
        inlined: false,
        args,
    })
}

/// The formula `once`, where it has one argument.
#[tactic(auto, using(crate::proofs::Rules::one_argument))]
fn once_or_call(
    text: &Text<'_>,
    span: Span,
    node: &Name,
    args: Vec<Expr>,
    added: &mut Additions,
) -> Result<ExprKind, AllocError>
    ensures kind { IfOk result (λ other. expr_at span other ≡ (with_one (once_of text.now.names span) span node.now (exprs_of args.items) (added_of added.old)).0) }
    ensures added { OnOk result (added_of added.new ≡ (with_one (once_of text.now.names span) span node.now (exprs_of args.items) (added_of added.old)).1) }
{
    if args.len() == 1 {
        let name = added.add_once(text, span, &args[0])?;
        return Ok(ExprKind::Name(name));
    }
    call(text, node, args)
}

/// The formula `historically`, where it has one argument.
#[tactic(auto, using(crate::proofs::Rules::one_argument))]
fn historically_or_call(
    text: &Text<'_>,
    span: Span,
    node: &Name,
    args: Vec<Expr>,
    added: &mut Additions,
) -> Result<ExprKind, AllocError>
    ensures kind { IfOk result (λ other. expr_at span other ≡ (with_one (historically_of text.now.names span) span node.now (exprs_of args.items) (added_of added.old)).0) }
    ensures added { OnOk result (added_of added.new ≡ (with_one (historically_of text.now.names span) span node.now (exprs_of args.items) (added_of added.old)).1) }
{
    if args.len() == 1 {
        let name = added.add_historically(text, span, &args[0])?;
        return Ok(ExprKind::Name(name));
    }
    call(text, node, args)
}

/// The formula `since`, where it has two arguments.
#[tactic(auto, using(crate::proofs::Rules::two_arguments))]
fn since_or_call(
    text: &Text<'_>,
    span: Span,
    node: &Name,
    args: Vec<Expr>,
    added: &mut Additions,
) -> Result<ExprKind, AllocError>
    ensures kind { IfOk result (λ other. expr_at span other ≡ (with_two (since_of text.now.names span) span node.now (exprs_of args.items) (added_of added.old)).0) }
    ensures added { OnOk result (added_of added.new ≡ (with_two (since_of text.now.names span) span node.now (exprs_of args.items) (added_of added.old)).1) }
{
    if args.len() == 2 {
        let name = added.add_since(text, span, &args[0], &args[1])?;
        return Ok(ExprKind::Name(name));
    }
    call(text, node, args)
}

/// A call that is not inlined, whose arguments are unfolded: of a formula with its number of arguments, or of a node.
fn formula_or_call(
    text: &Text<'_>,
    span: Span,
    node: &Name,
    args: Vec<Expr>,
    added: &mut Additions,
) -> Result<ExprKind, AllocError>
    ensures kind { IfOk result (λ other. expr_at span other ≡ (formula_or_call text.now.names (formula_of text.now.formulas node.now) span node.now (exprs_of args.items) (added_of added.old)).0) }
    ensures added { OnOk result (added_of added.new ≡ (formula_or_call text.now.names (formula_of text.now.formulas node.now) span node.now (exprs_of args.items) (added_of added.old)).1) }
{
    match text.formulas.called(node) {
        None => call(text, node, args),
        Some(Formula::Once) => once_or_call(text, span, node, args, added),
        Some(Formula::Historically) => historically_or_call(text, span, node, args, added),
        Some(Formula::Since) => since_or_call(text, span, node, args, added),
    }
}

/// An expression. The variables of its formulas are added.
#[cycle(unfold)]
#[tactic(auto, using(crate::proofs::Rules::kinds))]
pub fn unfold_expr(text: &Text<'_>, expr: &Expr, added: &mut Additions) -> Result<Expr, AllocError>
    ensures expr { IfOk result (λ other. other ≡ (in_expr text.now.formulas text.now.names expr.now (added_of added.old)).0) }
    ensures added { OnOk result (added_of added.new ≡ (in_expr text.now.formulas text.now.names expr.now (added_of added.old)).1) }
{
    let kind = unfold_kind(text, expr.span, &expr.kind, added)?;
    Expr::new(text.alloc, expr.span, kind)
}

#[cycle(unfold)]
#[tactic(auto, using(crate::proofs::Rules::kinds))]
fn unfold_kind(
    text: &Text<'_>,
    span: Span,
    kind: &ExprKind,
    added: &mut Additions,
) -> Result<ExprKind, AllocError>
    ensures kind { IfOk result (λ other. expr_at span other ≡ (in_expr text.now.formulas text.now.names (expr_at span kind.now) (added_of added.old)).0) }
    ensures added { OnOk result (added_of added.new ≡ (in_expr text.now.formulas text.now.names (expr_at span kind.now) (added_of added.old)).1) }
{
    let alloc = text.alloc;
    match kind {
        ExprKind::Const(c) => Ok(ExprKind::Const(c.copy(alloc)?)),
        ExprKind::Name(x) => Ok(ExprKind::Name(x.copy(alloc)?)),
        ExprKind::Last(x) => Ok(ExprKind::Last(x.copy(alloc)?)),
        ExprKind::One(op, a) => Ok(ExprKind::One(*op, unfold_expr(text, a, added)?)),
        ExprKind::Two(op, a, b) => Ok(ExprKind::Two(
            *op,
            unfold_expr(text, a, added)?,
            unfold_expr(text, b, added)?,
        )),
        ExprKind::If(a, b, c) => Ok(ExprKind::If(
            unfold_expr(text, a, added)?,
            unfold_expr(text, b, added)?,
            unfold_expr(text, c, added)?,
        )),
        ExprKind::Pre(a) => Ok(ExprKind::Pre(unfold_expr(text, a, added)?)),
        ExprKind::Fby(a, b) => Ok(ExprKind::Fby(
            unfold_expr(text, a, added)?,
            unfold_expr(text, b, added)?,
        )),
        ExprKind::Arrow(a, b) => Ok(ExprKind::Arrow(
            unfold_expr(text, a, added)?,
            unfold_expr(text, b, added)?,
        )),
        ExprKind::When(a, c, x) => Ok(ExprKind::When(
            unfold_expr(text, a, added)?,
            c.copy(alloc)?,
            x.copy(alloc)?,
        )),
        ExprKind::Merge(x, parts) => Ok(ExprKind::Merge(
            x.copy(alloc)?,
            unfold_parts(text, parts, added)?,
        )),
        ExprKind::Call {
            node,
            inlined,
            args,
        } => unfold_call(text, span, node, *inlined, args, added),
    }
}

#[cycle(unfold)]
#[tactic(auto, using(crate::proofs::Rules::kinds))]
fn unfold_call(
    text: &Text<'_>,
    span: Span,
    node: &Name,
    inlined: bool,
    args: &[Expr],
    added: &mut Additions,
) -> Result<ExprKind, AllocError>
    ensures kind { IfOk result (λ other. expr_at span other ≡ (in_expr text.now.formulas text.now.names (call span node.now inlined (exprs_of args.now)) (added_of added.old)).0) }
    ensures added { OnOk result (added_of added.new ≡ (in_expr text.now.formulas text.now.names (call span node.now inlined (exprs_of args.now)) (added_of added.old)).1) }
{
    let args = unfold_args(text, args, added)?;
    if inlined {
        return Ok(ExprKind::Call {
            node: node.copy(text.alloc)?,
            inlined,
            args,
        });
    }
    formula_or_call(text, span, node, args, added)
}

#[cycle(unfold)]
#[tactic(auto, using(crate::proofs::Rules::lists))]
fn unfold_args(
    text: &Text<'_>,
    args: &[Expr],
    added: &mut Additions,
) -> Result<Vec<Expr>, AllocError>
    ensures args { IfOk result (λ others. exprs_of others.items ≡ (in_exprs text.now.formulas text.now.names (exprs_of args.now) (added_of added.old)).0) }
    ensures added { OnOk result (added_of added.new ≡ (in_exprs text.now.formulas text.now.names (exprs_of args.now) (added_of added.old)).1) }
{
    let mut others = Vec::new(text.alloc);
    for arg in args {
        others.push(unfold_expr(text, arg, added)?)?;
    }
    Ok(others)
}

#[cycle(unfold)]
#[tactic(auto, using(crate::proofs::Rules::lists))]
fn unfold_parts(
    text: &Text<'_>,
    parts: &[(Cons, Expr)],
    added: &mut Additions,
) -> Result<Vec<(Cons, Expr)>, AllocError>
    ensures parts { IfOk result (λ others. parts_of others.items ≡ (in_parts text.now.formulas text.now.names (parts_of parts.now) (added_of added.old)).0) }
    ensures added { OnOk result (added_of added.new ≡ (in_parts text.now.formulas text.now.names (parts_of parts.now) (added_of added.old)).1) }
{
    let mut others = Vec::new(text.alloc);
    for (cons, expr) in parts {
        let cons = cons.copy(text.alloc)?;
        let expr = unfold_expr(text, expr, added)?;
        others.push((cons, expr))?;
    }
    Ok(others)
}
