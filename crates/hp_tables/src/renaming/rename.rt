//! Names, and the parts of a program that hold them.
ghost use Rattle.std.specs.Prelude.{◌≡◌, map, option_map, IfOk};
ghost use Rattle.hp_base.specs.declared.span.Span.{Span};
ghost use Rattle.hp_tree.specs.ExpressionView.{expr_at};
ghost use Rattle.hp_tree.specs.DeclView.{clock_seen};
ghost use Rattle.hp_tables.specs.Renaming.Renaming.{renamed, renamed_part, renamed_path, renamed_decl, renamed_decls, renamed_left};

use hp_base::{Name, Span};
use hp_tree::{Cons, Decl, Expr, ExprKind, copy_last};
use std::alloc::{AllocError, Global};

/// What stands for names at a place of a program.
pub trait Renaming {
    ghost use Rattle.std.specs.Prelude.{ℕ, List};

    /// What is read there for a name.
    ghost reads: { Self → List ℕ → List ℕ };

    /// What is declared there for a name that is declared.
    ghost declares: { Self → List ℕ → List ℕ };

    /// What is read there for the name.
    fn read(&self, alloc: Global, name: &Name) -> Result<Name, AllocError>
        ensures { IfOk result (λ other. other ≡ reads self.now name.now) };

    /// What is declared there for the name. It stands behind `last` too.
    fn declared(&self, alloc: Global, name: &Name) -> Result<Name, AllocError>
        ensures { IfOk result (λ other. other ≡ declares self.now name.now) };
}

/// The expression under other names.
#[cycle(rename)]
#[tactic(auto, using(crate::proofs::RenamingLemmas::Rules::renamed_kinds))]
pub fn rename_expr<R: Renaming>(alloc: Global, naming: &R, expr: &Expr) -> Result<Expr, AllocError>
    ensures { IfOk result (λ other. other ≡ renamed (R.reads naming.now) (R.declares naming.now) expr.now) }
{
    Expr::new(alloc, expr.span, rename_kind(alloc, naming, &expr.kind)?)
}

#[cycle(rename)]
#[tactic(auto, using(crate::proofs::RenamingLemmas::Rules::renamed_exprs))]
fn rename_kind<R: Renaming>(
    alloc: Global,
    naming: &R,
    kind: &ExprKind,
) -> Result<ExprKind, AllocError>
    ensures { IfOk result (λ other. (span : Span) → expr_at span other ≡ renamed (R.reads naming.now) (R.declares naming.now) (expr_at span kind.now)) }
{
    match kind {
        ExprKind::Const(c) => Ok(ExprKind::Const(c.copy(alloc)?)),
        ExprKind::Name(x) => Ok(ExprKind::Name(naming.read(alloc, x)?)),
        ExprKind::Last(x) => Ok(ExprKind::Last(naming.declared(alloc, x)?)),
        ExprKind::One(op, a) => Ok(ExprKind::One(*op, rename_expr(alloc, naming, a)?)),
        ExprKind::Two(op, a, b) => Ok(ExprKind::Two(
            *op,
            rename_expr(alloc, naming, a)?,
            rename_expr(alloc, naming, b)?,
        )),
        ExprKind::If(a, b, c) => Ok(ExprKind::If(
            rename_expr(alloc, naming, a)?,
            rename_expr(alloc, naming, b)?,
            rename_expr(alloc, naming, c)?,
        )),
        ExprKind::Pre(a) => Ok(ExprKind::Pre(rename_expr(alloc, naming, a)?)),
        ExprKind::Fby(a, b) => Ok(ExprKind::Fby(
            rename_expr(alloc, naming, a)?,
            rename_expr(alloc, naming, b)?,
        )),
        ExprKind::Arrow(a, b) => Ok(ExprKind::Arrow(
            rename_expr(alloc, naming, a)?,
            rename_expr(alloc, naming, b)?,
        )),
        ExprKind::When(a, c, x) => Ok(ExprKind::When(
            rename_expr(alloc, naming, a)?,
            c.copy(alloc)?,
            naming.read(alloc, x)?,
        )),
        ExprKind::Merge(x, parts) => Ok(ExprKind::Merge(
            naming.read(alloc, x)?,
            rename_parts(alloc, naming, parts)?,
        )),
        ExprKind::Call {
            node,
            inlined,
            args,
        } => Ok(ExprKind::Call {
            node: node.copy(alloc)?,
            inlined: *inlined,
            args: rename_args(alloc, naming, args)?,
        }),
    }
}

#[cycle(rename)]
#[tactic(auto, using(crate::proofs::RenamingLemmas::Rules::renamed_in_exprs))]
fn rename_args<R: Renaming>(
    alloc: Global,
    naming: &R,
    args: &[Expr],
) -> Result<Vec<Expr>, AllocError>
    ensures { IfOk result (λ others. others.items ≡ map (renamed (R.reads naming.now) (R.declares naming.now)) args.now) }
{
    let mut others = Vec::new(alloc);
    for arg in args {
        others.push(rename_expr(alloc, naming, arg)?)?;
    }
    Ok(others)
}

#[cycle(rename)]
#[tactic(auto, using(crate::proofs::RenamingLemmas::Rules::renamed_in_exprs))]
fn rename_parts<R: Renaming>(
    alloc: Global,
    naming: &R,
    parts: &[(Cons, Expr)],
) -> Result<Vec<(Cons, Expr)>, AllocError>
    ensures { IfOk result (λ others. others.items ≡ map (renamed_part (R.reads naming.now) (R.declares naming.now)) parts.now) }
{
    let mut others = Vec::new(alloc);
    for (cons, right) in parts {
        others.push((cons.copy(alloc)?, rename_expr(alloc, naming, right)?))?;
    }
    Ok(others)
}

#[tactic(auto, using(crate::proofs::RenamingLemmas::Rules::more))]
fn rename_path<R: Renaming>(
    alloc: Global,
    naming: &R,
    path: &[(Cons, Name)],
) -> Result<Vec<(Cons, Name)>, AllocError>
    ensures { IfOk result (λ others. others.items ≡ renamed_path (R.reads naming.now) (R.declares naming.now) path.now) }
{
    let mut others = Vec::new(alloc);
    for (cons, name) in path {
        others.push((cons.copy(alloc)?, naming.read(alloc, name)?))?;
    }
    Ok(others)
}

fn rename_clock<R: Renaming>(
    alloc: Global,
    naming: &R,
    clock: &Option<Vec<(Cons, Name)>>,
) -> Result<Option<Vec<(Cons, Name)>>, AllocError>
    ensures { IfOk result (λ other. clock_seen other ≡ option_map (renamed_path (R.reads naming.now) (R.declares naming.now)) (clock_seen clock.now)) }
{
    match clock {
        None => Ok(None),
        Some(path) => Ok(Some(rename_path(alloc, naming, path)?)),
    }
}

fn rename_decl<R: Renaming>(alloc: Global, naming: &R, decl: &Decl) -> Result<Decl, AllocError>
    ensures { IfOk result (λ other. other ≡ renamed_decl (R.reads naming.now) (R.declares naming.now) decl.now) }
{
    Ok(Decl {
        name: naming.declared(alloc, &decl.name)?,
        ty: decl.ty.copy(alloc)?,
        last: copy_last(alloc, &decl.last)?,
        clock: rename_clock(alloc, naming, &decl.clock)?,
        span: decl.span,
    })
}

/// The declarations, whose clocks are read where they stand.
#[tactic(auto, using(crate::proofs::RenamingLemmas::Rules::more))]
pub fn rename_decls<R: Renaming>(
    alloc: Global,
    naming: &R,
    decls: &[Decl],
) -> Result<Vec<Decl>, AllocError>
    ensures { IfOk result (λ others. others.items ≡ renamed_decls (R.reads naming.now) (R.declares naming.now) decls.now) }
{
    let mut others = Vec::new(alloc);
    for decl in decls {
        others.push(rename_decl(alloc, naming, decl)?)?;
    }
    Ok(others)
}

/// The names on the left of an equation.
#[tactic(auto, using(crate::proofs::RenamingLemmas::Rules::more))]
pub fn rename_left<R: Renaming>(
    alloc: Global,
    naming: &R,
    names: &[(Name, Span)],
) -> Result<Vec<(Name, Span)>, AllocError>
    ensures { IfOk result (λ others. others.items ≡ renamed_left (R.reads naming.now) names.now) }
{
    let mut others = Vec::new(alloc);
    for (name, span) in names {
        others.push((naming.read(alloc, name)?, *span))?;
    }
    Ok(others)
}
