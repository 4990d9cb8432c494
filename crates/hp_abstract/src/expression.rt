//! The wires of expressions.
ghost use Rattle.std.specs.Prelude.{◌≡◌, IfOk, OnOk};
ghost use Rattle.hp_tree.specs.Expressions as tree;
ghost use Rattle.hp_drawing.specs.DrawnExpressions as drawn;
ghost use Rattle.hp_drawing.specs.Seen.{sketch_of};
ghost use Rattle.hp_abstract.specs.Seen.{scope_of, told_in};

use crate::call::{Callees, begin_call};
use crate::clock::step;
use crate::scope::Scope;
use crate::shape::{compares_integers, is_mark, shape_of};
use crate::table::Tables;
use hp_base::Name;
use hp_circuit::{Role, Shape};
use hp_drawing::operator::{choose, one, truth, two};
use hp_drawing::{Callee, Draft, Place, Register, TRUE, Value, chain};
use hp_tree::{Cons, Expr, ExprKind, Op2};
use std::alloc::AllocError;

/// The wire of an expression.
#[cycle(draw)]
#[tactic(auto, using(crate::proofs::Rules::nodes))]
pub fn draw<'a, C: Callees>(
    callees: &C,
    tables: &Tables<'a>,
    scope: &Scope<'a>,
    place: Place,
    expr: &'a Expr,
    draft: &mut Draft,
) -> Result<Value, AllocError>
    ensures sketch { OnOk result (sketch_of draft.new ≡ (drawn.drawn (told_in tables.now) C.brings (scope_of scope.now) place expr.now (sketch_of draft.old)).1) }
    ensures value { IfOk result (λ v. v ≡ (drawn.drawn (told_in tables.now) C.brings (scope_of scope.now) place expr.now (sketch_of draft.old)).0) }
{
    match &*expr.kind {
        ExprKind::Const(constant) => tables.constant_wire(constant, draft),
        ExprKind::Name(name) => Ok(scope.value(name)),
        ExprKind::Last(name) => Ok(scope.last(name)),
        ExprKind::One(op, a) => {
            let value = draw(callees, tables, scope, place, a, draft)?;
            one(draft, *op, value)
        }
        ExprKind::Two(op, a, b) => draw_two(callees, tables, scope, place, *op, a, b, draft),
        ExprKind::If(a, b, c) => draw_if(callees, tables, scope, place, a, b, c, draft),
        ExprKind::Pre(a) => draw_pre(callees, tables, scope, place, a, draft),
        ExprKind::Fby(a, b) => draw_fby(callees, tables, scope, place, a, b, draft),
        ExprKind::Arrow(a, b) => draw_arrow(callees, tables, scope, place, a, b, draft),
        ExprKind::When(a, _, name) => draw_when(callees, tables, scope, place, a, name, draft),
        ExprKind::Merge(name, parts) => draw_merge(
            callees, tables, scope, place, name, parts, draft,
        ),
        ExprKind::Call {
            node,
            inlined: _,
            args,
        } => {
            let callee = draw_call(callees, tables, scope, place, node, args, draft)?;
            callee.output(0, draft)
        }
    }
}

#[cycle(draw)]
#[tactic(auto, using(crate::proofs::Rules::nodes))]
fn draw_if<'a, C: Callees>(
    callees: &C,
    tables: &Tables<'a>,
    scope: &Scope<'a>,
    place: Place,
    a: &'a Expr,
    b: &'a Expr,
    c: &'a Expr,
    draft: &mut Draft,
) -> Result<Value, AllocError>
    ensures sketch { OnOk result (sketch_of draft.new ≡ (drawn.drawn_if (told_in tables.now) C.brings (scope_of scope.now) place a.now b.now c.now (sketch_of draft.old)).1) }
    ensures value { IfOk result (λ v. v ≡ (drawn.drawn_if (told_in tables.now) C.brings (scope_of scope.now) place a.now b.now c.now (sketch_of draft.old)).0) }
{
    let condition = draw(callees, tables, scope, place, a, draft)?;
    let first = draw(callees, tables, scope, place, b, draft)?;
    let second = draw(callees, tables, scope, place, c, draft)?;
    choose(draft, condition.wire, first, second)
}

/// A comparison of integers is free, and stands before what it compares.
#[cycle(draw)]
#[tactic(auto, using(crate::proofs::Rules::nodes))]
fn draw_two<'a, C: Callees>(
    callees: &C,
    tables: &Tables<'a>,
    scope: &Scope<'a>,
    place: Place,
    op: Op2,
    a: &'a Expr,
    b: &'a Expr,
    draft: &mut Draft,
) -> Result<Value, AllocError>
    ensures sketch { OnOk result (sketch_of draft.new ≡ (drawn.drawn_operands (told_in tables.now) C.brings (scope_of scope.now) place op a.now b.now (sketch_of draft.old)).1) }
    ensures value { IfOk result (λ v. v ≡ (drawn.drawn_operands (told_in tables.now) C.brings (scope_of scope.now) place op a.now b.now (sketch_of draft.old)).0) }
{
    if compares_integers(tables, scope, op, a) {
        let may_be_early = place.may_be_early();
        let wire = draft.slot(Role::Free { may_be_early }, Shape::Truth)?;
        let first = draw(callees, tables, scope, place, a, draft)?;
        let second = draw(callees, tables, scope, place, b, draft)?;
        draft.read(wire, first.wire)?;
        draft.read(wire, second.wire)?;
        return Ok(truth(wire));
    }
    let first = draw(callees, tables, scope, place, a, draft)?;
    let second = draw(callees, tables, scope, place, b, draft)?;
    two(draft, op, first, second)
}

/// A delayed value is that of a register. A delayed integer reads nothing.
#[cycle(draw)]
#[tactic(auto, using(crate::proofs::Rules::nodes))]
fn draw_pre<'a, C: Callees>(
    callees: &C,
    tables: &Tables<'a>,
    scope: &Scope<'a>,
    place: Place,
    a: &'a Expr,
    draft: &mut Draft,
) -> Result<Value, AllocError>
    ensures sketch { OnOk result (sketch_of draft.new ≡ (drawn.drawn_pre (told_in tables.now) C.brings (scope_of scope.now) place a.now (sketch_of draft.old)).1) }
    ensures value { IfOk result (λ v. v ≡ (drawn.drawn_pre (told_in tables.now) C.brings (scope_of scope.now) place a.now (sketch_of draft.old)).0) }
{
    let shape = shape_of(tables, scope, a);
    if is_mark(shape) {
        draw(callees, tables, scope, place, a, draft)?;
        let wire = draft.mark()?;
        return Ok(Value { wire, shape });
    }
    let register = Register::new(place, 0, shape, draft)?;
    let value = draw(callees, tables, scope, place, a, draft)?;
    register.takes(place, value.wire, draft)?;
    Ok(Value {
        wire: register.read,
        shape,
    })
}

#[cycle(draw)]
#[tactic(auto, using(crate::proofs::Rules::nodes))]
fn draw_fby<'a, C: Callees>(
    callees: &C,
    tables: &Tables<'a>,
    scope: &Scope<'a>,
    place: Place,
    a: &'a Expr,
    b: &'a Expr,
    draft: &mut Draft,
) -> Result<Value, AllocError>
    ensures sketch { OnOk result (sketch_of draft.new ≡ (drawn.drawn_fby (told_in tables.now) C.brings (scope_of scope.now) place a.now b.now (sketch_of draft.old)).1) }
    ensures value { IfOk result (λ v. v ≡ (drawn.drawn_fby (told_in tables.now) C.brings (scope_of scope.now) place a.now b.now (sketch_of draft.old)).0) }
{
    let shape = shape_of(tables, scope, a);
    if is_mark(shape) {
        let past = Register::new(place, 0, Shape::Truth, draft)?;
        let first = draw(callees, tables, scope, place, a, draft)?;
        draw(callees, tables, scope, place, b, draft)?;
        past.takes(place, TRUE, draft)?;
        let wire = draft.mark_of(first.wire)?;
        return Ok(Value { wire, shape });
    }
    let register = Register::new(place, 0, shape, draft)?;
    let past = Register::new(place, 0, Shape::Truth, draft)?;
    let first = draw(callees, tables, scope, place, a, draft)?;
    let second = draw(callees, tables, scope, place, b, draft)?;
    register.takes(place, second.wire, draft)?;
    past.takes(place, TRUE, draft)?;
    let held = Value {
        wire: register.read,
        shape,
    };
    choose(draft, past.read, held, first)
}

#[cycle(draw)]
#[tactic(auto, using(crate::proofs::Rules::nodes))]
fn draw_arrow<'a, C: Callees>(
    callees: &C,
    tables: &Tables<'a>,
    scope: &Scope<'a>,
    place: Place,
    a: &'a Expr,
    b: &'a Expr,
    draft: &mut Draft,
) -> Result<Value, AllocError>
    ensures sketch { OnOk result (sketch_of draft.new ≡ (drawn.drawn_arrow (told_in tables.now) C.brings (scope_of scope.now) place a.now b.now (sketch_of draft.old)).1) }
    ensures value { IfOk result (λ v. v ≡ (drawn.drawn_arrow (told_in tables.now) C.brings (scope_of scope.now) place a.now b.now (sketch_of draft.old)).0) }
{
    let past = Register::new(place, 0, Shape::Truth, draft)?;
    let first = draw(callees, tables, scope, place, a, draft)?;
    let second = draw(callees, tables, scope, place, b, draft)?;
    past.takes(place, TRUE, draft)?;
    choose(draft, past.read, second, first)
}

/// A sampled value, which reads the name of its condition.
#[cycle(draw)]
#[tactic(auto, using(crate::proofs::Rules::nodes))]
fn draw_when<'a, C: Callees>(
    callees: &C,
    tables: &Tables<'a>,
    scope: &Scope<'a>,
    place: Place,
    a: &'a Expr,
    name: &Name,
    draft: &mut Draft,
) -> Result<Value, AllocError>
    ensures sketch { OnOk result (sketch_of draft.new ≡ (drawn.drawn_when (told_in tables.now) C.brings (scope_of scope.now) place a.now name.now (sketch_of draft.old)).1) }
    ensures value { IfOk result (λ v. v ≡ (drawn.drawn_when (told_in tables.now) C.brings (scope_of scope.now) place a.now name.now (sketch_of draft.old)).0) }
{
    let outer = place.on(draft.outer_clock(place.clock));
    let value = draw(callees, tables, scope, outer, a, draft)?;
    let condition = scope.value(name);
    let wire = draft.copy(value)?;
    draft.read(wire, condition.wire)?;
    Ok(Value {
        wire,
        shape: value.shape,
    })
}

/// The value of the part for the name's constructor.
#[cycle(draw)]
#[tactic(auto, using(crate::proofs::Rules::nodes))]
fn draw_merge<'a, C: Callees>(
    callees: &C,
    tables: &Tables<'a>,
    scope: &Scope<'a>,
    place: Place,
    name: &'a Name,
    parts: &'a [(Cons, Expr)],
    draft: &mut Draft,
) -> Result<Value, AllocError>
    ensures sketch { OnOk result (sketch_of draft.new ≡ (drawn.drawn_merge (told_in tables.now) C.brings (scope_of scope.now) place name.now (tree.parts_of parts.now) (sketch_of draft.old)).1) }
    ensures value { IfOk result (λ v. v ≡ (drawn.drawn_merge (told_in tables.now) C.brings (scope_of scope.now) place name.now (tree.parts_of parts.now) (sketch_of draft.old)).0) }
{
    let shape = match parts.get(0) {
        None => Shape::Truth,
        Some((_, expr)) => shape_of(tables, scope, expr),
    };
    let condition = scope.value(name);
    let wire = draft.hole(shape)?;
    draft.read(wire, condition.wire)?;
    let mut hole = wire;
    for (cons, expr) in parts {
        hole = draw_part(callees, tables, scope, place, name, cons, expr, hole, draft)?;
    }
    if !is_mark(shape) {
        chain::end(draft, hole)?;
    }
    Ok(Value { wire, shape })
}

/// A part of a merge, and the wire of the parts behind it.
#[cycle(draw)]
#[tactic(auto, using(crate::proofs::Rules::nodes))]
fn draw_part<'a, C: Callees>(
    callees: &C,
    tables: &Tables<'a>,
    scope: &Scope<'a>,
    place: Place,
    name: &'a Name,
    cons: &'a Cons,
    expr: &'a Expr,
    hole: usize,
    draft: &mut Draft,
) -> Result<usize, AllocError>
    ensures sketch { OnOk result (sketch_of draft.new ≡ (drawn.drawn_part (told_in tables.now) C.brings (scope_of scope.now) place name.now cons.now expr.now hole (sketch_of draft.old)).1) }
    ensures wire { IfOk result (λ w. w ≡ (drawn.drawn_part (told_in tables.now) C.brings (scope_of scope.now) place name.now cons.now expr.now hole (sketch_of draft.old)).0) }
{
    let condition = scope.value(name);
    let is = tables.is(condition.wire, cons, draft)?;
    let inner = step(tables, scope, place.clock, cons, name, draft)?;
    let value = draw(callees, tables, scope, place.on(inner), expr, draft)?;
    chain::add(draft, hole, is, value)
}

/// A call, whose arguments stand behind its outputs and its contract.
#[cycle(draw)]
#[tactic(auto, using(crate::proofs::Rules::nodes))]
pub fn draw_call<'a, C: Callees>(
    callees: &C,
    tables: &Tables<'a>,
    scope: &Scope<'a>,
    place: Place,
    name: &Name,
    args: &'a [Expr],
    draft: &mut Draft,
) -> Result<Callee, AllocError>
    ensures sketch { OnOk result (sketch_of draft.new ≡ (drawn.drawn_call (told_in tables.now) C.brings (scope_of scope.now) place name.now (tree.exprs_of args.now) (sketch_of draft.old)).1) }
    ensures callee { IfOk result (λ c. c ≡ (drawn.drawn_call (told_in tables.now) C.brings (scope_of scope.now) place name.now (tree.exprs_of args.now) (sketch_of draft.old)).0) }
{
    let callee = begin_call(callees, tables, place, name, draft)?;
    draw_args(callees, tables, scope, place, callee, args, draft)?;
    Ok(callee)
}

/// The arguments of a call.
#[cycle(draw)]
#[tactic(auto, using(crate::proofs::Rules::nodes))]
fn draw_args<'a, C: Callees>(
    callees: &C,
    tables: &Tables<'a>,
    scope: &Scope<'a>,
    place: Place,
    callee: Callee,
    args: &'a [Expr],
    draft: &mut Draft,
) -> Result<(), AllocError>
    ensures { OnOk result (sketch_of draft.new ≡ drawn.drawn_args (told_in tables.now) C.brings (scope_of scope.now) place callee 0 (tree.exprs_of args.now) (sketch_of draft.old)) }
{
    for i in 0..args.len() {
        let arg = &args[i];
        let value = draw(callees, tables, scope, place, arg, draft)?;
        callee.takes(i, value, draft)?;
    }
    Ok(())
}
