//! What expressions carry.
ghost use Rattle.std.specs.Prelude.{◌≡◌, ◌&&◌};
ghost use Rattle.hp_tree.specs.Operators.{is_comparison};
ghost use Rattle.hp_drawing.specs.Kept.{is_mark};
ghost use Rattle.hp_drawing.specs.Planned.{first_shape, outputs_by, shape_in, two_shape};
ghost use Rattle.hp_drawing.specs.Scopes.{shapes_in};
ghost use Rattle.hp_abstract.specs.Seen.{scope_of, told_in};

use crate::scope::Scope;
use crate::table::Tables;
use hp_base::Name;
use hp_circuit::Shape;
use hp_tree::{Expr, ExprKind, Op2};

/// Whether two operands are compared.
fn is_comparison(op: Op2) -> bool
    ensures { result ≡ is_comparison op }
{
    match op {
        Op2::Eq | Op2::Ne | Op2::Lt | Op2::Le | Op2::Gt | Op2::Ge => true,
        _ => false,
    }
}

/// What an operator of two operands gives.
fn shape_of_two(op: Op2) -> Shape
    ensures { result ≡ two_shape op }
{
    match op {
        Op2::Add | Op2::Sub | Op2::Mul | Op2::Div | Op2::Rem => Shape::Mark,
        _ => Shape::Truth,
    }
}

pub fn is_mark(shape: Shape) -> bool
    ensures { result ≡ is_mark shape }
{
    match shape {
        Shape::Mark => true,
        _ => false,
    }
}

/// What the first output of a node carries.
fn shape_of_call(tables: &Tables, node: &Name) -> Shape
    ensures { result ≡ first_shape (told_in tables.now) (outputs_by ((told_in tables.now).nodes node.now)) }
{
    let Some(callee) = tables.node(node) else {
        return Shape::Truth;
    };
    match callee.outputs.get(0) {
        None => Shape::Truth,
        Some(output) => tables.shape(&output.ty),
    }
}

/// What the expression carries.
pub fn shape_of(tables: &Tables, scope: &Scope, expr: &Expr) -> Shape
    ensures { result ≡ shape_in (told_in tables.now) expr.now (shapes_in (scope_of scope.now)) }
{
    match &*expr.kind {
        ExprKind::Const(constant) => {
            let (shape, _) = tables.constant(constant);
            shape
        }
        ExprKind::Name(name) | ExprKind::Last(name) => scope.shape(name.bytes()),
        ExprKind::Two(op, _, _) => shape_of_two(*op),
        ExprKind::One(_, a)
        | ExprKind::If(_, a, _)
        | ExprKind::Pre(a)
        | ExprKind::Fby(a, _)
        | ExprKind::Arrow(a, _)
        | ExprKind::When(a, _, _) => shape_of(tables, scope, a),
        ExprKind::Merge(_, parts) => match parts.get(0) {
            None => Shape::Truth,
            Some((_, a)) => shape_of(tables, scope, a),
        },
        ExprKind::Call {
            node,
            inlined: _,
            args: _,
        } => shape_of_call(tables, node),
    }
}

/// Whether the operator compares integers, by its first operand.
pub fn compares_integers(tables: &Tables, scope: &Scope, op: Op2, a: &Expr) -> bool
    ensures { result ≡ (is_comparison op && is_mark (shape_in (told_in tables.now) a.now (shapes_in (scope_of scope.now)))) }
{
    is_comparison(op) && is_mark(shape_of(tables, scope, a))
}
