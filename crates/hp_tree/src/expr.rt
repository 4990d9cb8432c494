ghost use Rattle.std.specs.Prelude.{◌≡◌, ◌↔◌, IsTrue, IfOk};
ghost use Rattle.hp_base.specs.declared.span.Span.{Span};
ghost use Rattle.hp_tree.specs.ExpressionView.{expr_at};

use crate::decl::Cons;
use hp_base::{Const, Name, Span};
use std::alloc::{AllocError, Global};
use std::marker::Model;

/// The operators of one operand.
#[derive(Clone, Copy, Debug, PartialEq, Eq)]
pub enum Op1 {
    Not,
    Neg,
}

/// The operators of two operands.
#[derive(Clone, Copy, Debug, PartialEq, Eq)]
pub enum Op2 {
    And,
    Or,
    Xor,
    /// `=>`
    Imp,
    Eq,
    Ne,
    Lt,
    Le,
    Gt,
    Ge,
    Add,
    Sub,
    Mul,
    Div,
    Rem,
}

/// An expression.
#[cycle(expr)]
#[derive(Debug, Drop)]
pub struct Expr {
    /// It begins at the first token; parentheses around the expression do not count.
    pub span: Span,
    pub kind: Box<ExprKind>,
}

/// What an expression is, and its parts in the order in which they are written.
#[cycle(expr)]
#[derive(Debug, Drop)]
pub enum ExprKind {
    Const(Const),
    Name(Name),
    /// `last x`
    Last(Name),
    One(Op1, Expr),
    Two(Op2, Expr, Expr),
    /// The condition, the value where it is true, and the value where it is false.
    If(Expr, Expr, Expr),
    Pre(Expr),
    Fby(Expr, Expr),
    Arrow(Expr, Expr),
    /// `e when c(x)`
    When(Expr, Cons, Name),
    /// `merge x (c -> e) ..`
    Merge(Name, Vec<(Cons, Expr)>),
    Call {
        node: Name,
        inlined: bool,
        args: Vec<Expr>,
    },
}

impl Model for Expr {
    ghost use Rattle.hp_tree.specs.Expressions.{Expr};
    ghost use Rattle.hp_tree.specs.ExpressionCode.{expr_code};

    ghost Value = { Expr };

    ghost coded = { expr_code };

    ghost use Rattle.hp_tree.specs.ExpressionView.{expr_seen};

    ghost view = { expr_seen };

    ghost use Rattle.hp_tree.specs.Sizes.{nodes};

    ghost size = { nodes };

    ghost use Rattle.hp_tree.specs.ExpressionFalls.{children_smaller};

    ghost size_decreases = { λ a h. children_smaller a };
}

impl Expr {
    /// The expression of this kind at this place.
    pub fn new(alloc: Global, span: Span, kind: ExprKind) -> Result<Expr, AllocError>
        ensures { IfOk result (λ expr. expr ≡ expr_at span kind) }
    {
        Ok(Expr {
            span,
            kind: Box::new(alloc, kind)?,
        })
    }

    #[cycle(copy)]
    #[tactic(auto, using(crate::proofs::Rules::kinds))]
    pub fn copy(&self, alloc: Global) -> Result<Expr, AllocError>
        ensures { IfOk result (λ expr. expr ≡ self.now) }
    {
        Expr::new(alloc, self.span, self.kind.copy(alloc)?)
    }

    /// Whether the two are the same expression, at the same places.
    #[cycle(same)]
    #[tactic(auto, using(crate::proofs::Rules::expression_lists))]
    pub fn same(&self, other: &Expr) -> bool
        ensures { IsTrue result ↔ (self.now ≡ other.now) }
    {
        if self.span != other.span {
            return false;
        }
        match (&*self.kind, &*other.kind) {
            (ExprKind::Const(c), ExprKind::Const(d)) => c.same(d),
            (ExprKind::Name(x), ExprKind::Name(y)) => x.same(y),
            (ExprKind::Last(x), ExprKind::Last(y)) => x.same(y),
            (ExprKind::One(op, a), ExprKind::One(other_op, b)) => op == other_op && a.same(b),
            (ExprKind::Two(op, a, b), ExprKind::Two(other_op, c, d)) => op == other_op
                && a.same(c)
                && b.same(d),
            (ExprKind::If(a, b, c), ExprKind::If(d, e, f)) => a.same(d) && b.same(e) && c.same(f),
            (ExprKind::Pre(a), ExprKind::Pre(b)) => a.same(b),
            (ExprKind::Fby(a, b), ExprKind::Fby(c, d)) => a.same(c) && b.same(d),
            (ExprKind::Arrow(a, b), ExprKind::Arrow(c, d)) => a.same(c) && b.same(d),
            (ExprKind::When(a, c, x), ExprKind::When(b, d, y)) => a.same(b)
                && c.same(d)
                && x.same(y),
            (ExprKind::Merge(x, parts), ExprKind::Merge(y, others)) => x.same(y)
                && same_parts(parts, others),
            (
                ExprKind::Call {
                    node,
                    inlined,
                    args,
                },
                ExprKind::Call {
                    node: other_node,
                    inlined: other_inlined,
                    args: others,
                },
            ) => node.same(other_node) && *inlined == *other_inlined && all_same(args, others),
            _ => false,
        }
    }
}

impl ExprKind {
    #[cycle(copy)]
    pub fn copy(&self, alloc: Global) -> Result<ExprKind, AllocError>
        ensures { IfOk result (λ kind. (span : Span) → expr_at span kind ≡ expr_at span self.now) }
    {
        match self {
            ExprKind::Const(c) => Ok(ExprKind::Const(c.copy(alloc)?)),
            ExprKind::Name(x) => Ok(ExprKind::Name(x.copy(alloc)?)),
            ExprKind::Last(x) => Ok(ExprKind::Last(x.copy(alloc)?)),
            ExprKind::One(op, a) => Ok(ExprKind::One(*op, a.copy(alloc)?)),
            ExprKind::Two(op, a, b) => Ok(ExprKind::Two(*op, a.copy(alloc)?, b.copy(alloc)?)),
            ExprKind::If(a, b, c) => Ok(ExprKind::If(
                a.copy(alloc)?,
                b.copy(alloc)?,
                c.copy(alloc)?,
            )),
            ExprKind::Pre(a) => Ok(ExprKind::Pre(a.copy(alloc)?)),
            ExprKind::Fby(a, b) => Ok(ExprKind::Fby(a.copy(alloc)?, b.copy(alloc)?)),
            ExprKind::Arrow(a, b) => Ok(ExprKind::Arrow(a.copy(alloc)?, b.copy(alloc)?)),
            ExprKind::When(a, c, x) => Ok(ExprKind::When(
                a.copy(alloc)?,
                c.copy(alloc)?,
                x.copy(alloc)?,
            )),
            ExprKind::Merge(x, parts) => Ok(ExprKind::Merge(
                x.copy(alloc)?,
                copy_parts(alloc, parts)?,
            )),
            ExprKind::Call {
                node,
                inlined,
                args,
            } => Ok(ExprKind::Call {
                node: node.copy(alloc)?,
                inlined: *inlined,
                args: copy_all(alloc, args)?,
            }),
        }
    }
}

#[cycle(same)]
#[tactic(auto, using(crate::proofs::Rules::parts_of_expressions))]
fn all_same(args: &[Expr], others: &[Expr]) -> bool
    ensures { IsTrue result ↔ (args.now ≡ others.now) }
{
    if args.len() != others.len() {
        return false;
    }
    for i in 0..args.len() {
        if !args[i].same(&others[i]) {
            return false;
        }
    }
    true
}

#[cycle(same)]
#[tactic(auto, using(crate::proofs::Rules::parts_of_expressions))]
fn same_parts(parts: &[(Cons, Expr)], others: &[(Cons, Expr)]) -> bool
    ensures { IsTrue result ↔ (parts.now ≡ others.now) }
{
    if parts.len() != others.len() {
        return false;
    }
    for i in 0..parts.len() {
        let (cons, right) = &parts[i];
        let (other_cons, other_right) = &others[i];
        if !(cons.same(other_cons) && right.same(other_right)) {
            return false;
        }
    }
    true
}

#[cycle(copy)]
#[tactic(auto, using(crate::proofs::Rules::parts_of_expressions))]
fn copy_all(alloc: Global, args: &[Expr]) -> Result<Vec<Expr>, AllocError>
    ensures { IfOk result (λ copies. copies.items ≡ args.now) }
{
    let mut copies = Vec::new(alloc);
    for arg in args {
        copies.push(arg.copy(alloc)?)?;
    }
    Ok(copies)
}

#[cycle(copy)]
#[tactic(auto, using(crate::proofs::Rules::parts_of_expressions))]
fn copy_parts(alloc: Global, parts: &[(Cons, Expr)]) -> Result<Vec<(Cons, Expr)>, AllocError>
    ensures { IfOk result (λ copies. copies.items ≡ parts.now) }
{
    let mut copies = Vec::new(alloc);
    for (cons, right) in parts {
        copies.push((cons.copy(alloc)?, right.copy(alloc)?))?;
    }
    Ok(copies)
}
