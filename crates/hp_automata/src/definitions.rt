//! Single expressions, equations and declarations.
ghost use Rattle.std.specs.Prelude.{◌≡◌, ◌+◌, [], ◌∷◌, Some, map, IfOk, OnOk};
ghost use Rattle.hp_tree.specs.Expressions.{variable, last_of, constant, two, choose};
ghost use Rattle.hp_tree.specs.declared.expr.Op2.TheVariants.{Or, Eq};
ghost use Rattle.hp_tree.specs.BlockView.{eqn_seen};
ghost use Rattle.hp_automata.specs.Lowering.{number, code, goes_to, defining, on_base};
ghost use Rattle.hp_automata.specs.Lists.{with_more};

use hp_base::{Const, Name, Span, Ty};
use hp_tree::{Decl, Eqn, Expr, ExprKind, Op2};
use std::alloc::{AllocError, Global};

pub fn variable(alloc: Global, span: Span, name: Name) -> Result<Expr, AllocError>
    ensures { IfOk result (λ expr. expr ≡ variable span name) }
{
    Expr::new(alloc, span, ExprKind::Name(name))
}

pub fn last_value(alloc: Global, span: Span, name: Name) -> Result<Expr, AllocError>
    ensures { IfOk result (λ expr. expr ≡ last_of span name) }
{
    Expr::new(alloc, span, ExprKind::Last(name))
}

pub fn constant(alloc: Global, span: Span, value: Const) -> Result<Expr, AllocError>
    ensures { IfOk result (λ expr. expr ≡ constant span value) }
{
    Expr::new(alloc, span, ExprKind::Const(value))
}

/// A number. One of more than 31 bits counts as want of memory.
pub fn number(alloc: Global, span: Span, value: u64) -> Result<Expr, AllocError>
    ensures { IfOk result (λ expr. expr ≡ number span value) }
{
    if value > 2_147_483_647 {
        return Err(AllocError);
    }
    constant(alloc, span, Const::I(value as i32))
}

/// The next number.
pub fn following(number: u64) -> Result<u64, AllocError>
    ensures { IfOk result (λ next. next ≡ number + 1) }
{
    match number.checked_add(1) {
        None => Err(AllocError),
        Some(next) => Ok(next),
    }
}

/// The number of a jump to the state with this number.
pub fn code(state: u64, restart: bool) -> Result<u64, AllocError>
    ensures { IfOk result (λ number. number ≡ code state restart) }
{
    if state > 1_073_741_823 {
        return Err(AllocError);
    }
    Ok(if restart {
        state + state + 1
    } else {
        state + state
    })
}

/// Whether the jump is to that state in this way.
pub fn is_jump(
    alloc: Global,
    span: Span,
    jump: &Expr,
    state: u64,
    restart: bool,
) -> Result<Expr, AllocError>
    ensures { IfOk result (λ expr. expr ≡ two span Eq jump.now (number span (code state restart))) }
{
    let wanted = number(alloc, span, code(state, restart)?)?;
    Expr::new(
        alloc,
        span,
        ExprKind::Two(Op2::Eq, jump.copy(alloc)?, wanted),
    )
}

/// Whether the jump is to that state.
pub fn goes_to(alloc: Global, span: Span, jump: &Expr, state: u64) -> Result<Expr, AllocError>
    ensures { IfOk result (λ expr. expr ≡ goes_to span jump.now state) }
{
    let plain = is_jump(alloc, span, jump, state, false)?;
    let afresh = is_jump(alloc, span, jump, state, true)?;
    Expr::new(alloc, span, ExprKind::Two(Op2::Or, plain, afresh))
}

pub fn choose(
    alloc: Global,
    span: Span,
    condition: Expr,
    left: Expr,
    right: Expr,
) -> Result<Expr, AllocError>
    ensures { IfOk result (λ expr. expr ≡ choose span condition left right) }
{
    Expr::new(alloc, span, ExprKind::If(condition, left, right))
}

#[tactic(auto, using(crate::proofs::Rules::pushed))]
pub fn push_eqn(eqns: &mut Vec<Eqn>, eqn: Eqn) -> Result<(), AllocError>
    ensures { OnOk result (map eqn_seen eqns.new.items ≡ with_more (map eqn_seen eqns.old.items) (eqn_seen eqn ∷ [])) }
{
    eqns.push(eqn)?;
    Ok(())
}

/// Adds an equation of one name.
pub fn add_definition(
    alloc: Global,
    span: Span,
    name: Name,
    right: Expr,
    into: &mut Vec<Eqn>,
) -> Result<(), AllocError>
    ensures { OnOk result (map eqn_seen into.new.items ≡ with_more (map eqn_seen into.old.items) (defining span name right ∷ [])) }
{
    let mut names = Vec::new(alloc);
    names.push((name, span))?;
    push_eqn(into, Eqn::Def { span, names, right })
}

/// A variable on the base clock.
pub fn on_base(alloc: Global, span: Span, name: Name, ty: Ty, last: Option<Const>) -> Decl
    ensures { result ≡ on_base span name ty last }
{
    Decl {
        name,
        ty,
        last,
        clock: Some(Vec::new(alloc)),
        span,
    }
}
