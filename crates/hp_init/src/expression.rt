//! What expressions ask of the classes of names.
ghost use Rattle.std.specs.Prelude.{◌≡◌, map, OnOk};
ghost use Rattle.hp_init.specs.declared.ask.Ask.TheVariants.{Follows};
ghost use Rattle.hp_tree.specs.Expressions.{exprs_of, parts_of};
ghost use Rattle.hp_tables.specs.Defining.Layers.{sight};
ghost use Rattle.hp_init.specs.Asks.{tell, tell_name, of_expr, of_exprs, of_parts, of_test, of_tests};
ghost use Rattle.hp_init.specs.Goals.{goal_of, with_more};

use crate::ask::{Ask, Source};
use hp_base::Span;
use hp_tables::defining::{Layer, sight};
use hp_tree::{Cons, Expr, ExprKind, Trans};
use std::alloc::AllocError;

/// Where the sources of an expression go: whether the unit wants each to be First, and to which variables, by their numbers.
#[derive(Clone, Copy)]
pub struct Goes<'t> {
    pub is_wanted: bool,
    pub targets: &'t [usize],
}

pub const WANTED: Goes<'static> = Goes {
    is_wanted: true,
    targets: &[],
};

const IGNORED: Goes<'static> = Goes {
    is_wanted: false,
    targets: &[],
};

/// The variables follow the source.
#[tactic(auto, using(crate::proofs::Rules::told))]
fn tell_targets(source: Source, targets: &[usize], asks: &mut Vec<Ask>) -> Result<(), AllocError>
    ensures { OnOk result (asks.new.items ≡ with_more asks.old.items (map (Follows source) targets.now)) }
{
    for target in targets {
        asks.push(Ask::Follows(source, *target))?;
    }
    Ok(())
}

#[tactic(auto, using(crate::proofs::Rules::told))]
fn tell(unit: Span, goes: Goes, source: Source, asks: &mut Vec<Ask>) -> Result<(), AllocError>
    ensures { OnOk result (asks.new.items ≡ with_more asks.old.items (tell unit (goal_of goes.entry) source)) }
{
    if goes.is_wanted {
        asks.push(Ask::First(source, unit))?;
    }
    tell_targets(source, goes.targets, asks)
}

#[tactic(auto, using(crate::proofs::Rules::gathered))]
pub fn gather_name(
    layers: &[Layer],
    unit: Span,
    goes: Goes,
    name: &[u8],
    asks: &mut Vec<Ask>,
) -> Result<(), AllocError>
    ensures { OnOk result (asks.new.items ≡ with_more asks.old.items (tell_name (sight layers.now) unit (goal_of goes.entry) name.now)) }
{
    match sight(layers, name) {
        None => Ok(()),
        Some(number) => tell(unit, goes, Source::Class(number), asks),
    }
}

#[cycle(gather)]
#[tactic(auto, using(crate::proofs::Rules::gathered_in_lists))]
pub fn gather_expr(
    layers: &[Layer],
    unit: Span,
    goes: Goes,
    expr: &Expr,
    asks: &mut Vec<Ask>,
) -> Result<(), AllocError>
    ensures { OnOk result (asks.new.items ≡ with_more asks.old.items (of_expr (sight layers.now) unit (goal_of goes.entry) expr.now)) }
{
    match &*expr.kind {
        ExprKind::Const(_) | ExprKind::Last(_) => Ok(()),
        ExprKind::Name(name) => gather_name(layers, unit, goes, name.bytes(), asks),
        ExprKind::One(_, a) => gather_expr(layers, unit, goes, a, asks),
        ExprKind::Two(_, a, b) => {
            gather_expr(layers, unit, goes, a, asks)?;
            gather_expr(layers, unit, goes, b, asks)
        }
        ExprKind::If(a, b, c) => {
            gather_expr(layers, unit, goes, a, asks)?;
            gather_expr(layers, unit, goes, b, asks)?;
            gather_expr(layers, unit, goes, c, asks)
        }
        ExprKind::Pre(a) => {
            tell(unit, goes, Source::Always, asks)?;
            gather_expr(layers, unit, WANTED, a, asks)
        }
        ExprKind::Fby(a, b) => {
            gather_expr(layers, unit, goes, a, asks)?;
            gather_expr(layers, unit, WANTED, b, asks)
        }
        ExprKind::Arrow(a, b) => {
            gather_expr(layers, unit, goes, a, asks)?;
            gather_expr(layers, unit, IGNORED, b, asks)
        }
        ExprKind::When(a, _, name) => {
            gather_expr(layers, unit, goes, a, asks)?;
            gather_name(layers, unit, WANTED, name.bytes(), asks)
        }
        ExprKind::Merge(name, parts) => {
            gather_name(layers, unit, WANTED, name.bytes(), asks)?;
            gather_parts(layers, unit, parts, asks)
        }
        ExprKind::Call {
            node: _,
            inlined: _,
            args,
        } => gather_args(layers, unit, args, asks),
    }
}

/// Arguments are wanted First.
#[cycle(gather)]
#[tactic(auto, using(crate::proofs::Rules::gathered_in_lists))]
fn gather_args(
    layers: &[Layer],
    unit: Span,
    args: &[Expr],
    asks: &mut Vec<Ask>,
) -> Result<(), AllocError>
    ensures { OnOk result (asks.new.items ≡ with_more asks.old.items (of_exprs (sight layers.now) unit (exprs_of args.now))) }
{
    for arg in args {
        gather_expr(layers, unit, WANTED, arg, asks)?;
    }
    Ok(())
}

/// The operands of a `merge` are wanted First.
#[cycle(gather)]
#[tactic(auto, using(crate::proofs::Rules::gathered_in_lists))]
fn gather_parts(
    layers: &[Layer],
    unit: Span,
    parts: &[(Cons, Expr)],
    asks: &mut Vec<Ask>,
) -> Result<(), AllocError>
    ensures { OnOk result (asks.new.items ≡ with_more asks.old.items (of_parts (sight layers.now) unit (parts_of parts.now))) }
{
    for (_, expr) in parts {
        gather_expr(layers, unit, WANTED, expr, asks)?;
    }
    Ok(())
}

/// A condition is wanted First.
pub fn gather_test(layers: &[Layer], expr: &Expr, asks: &mut Vec<Ask>) -> Result<(), AllocError>
    ensures { OnOk result (asks.new.items ≡ with_more asks.old.items (of_test (sight layers.now) expr.now)) }
{
    gather_expr(layers, expr.span, WANTED, expr, asks)
}

#[tactic(auto, using(crate::proofs::Rules::gathered_in_lists))]
pub fn gather_tests(
    layers: &[Layer],
    transitions: &[Trans],
    asks: &mut Vec<Ask>,
) -> Result<(), AllocError>
    ensures { OnOk result (asks.new.items ≡ with_more asks.old.items (of_tests (sight layers.now) transitions.now)) }
{
    for transition in transitions {
        gather_test(layers, &transition.cond, asks)?;
    }
    Ok(())
}
