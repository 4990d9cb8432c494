//! The wires of operators.
ghost use Rattle.std.specs.Prelude.{◌≡◌, IfOk, OnOk};
ghost use Rattle.hp_circuit.specs.declared.circuit.Shape.TheVariants.{Truth};
ghost use Rattle.hp_drawing.specs.DrawnExpressions as drawn;
ghost use Rattle.hp_drawing.specs.Seen.{sketch_of};
ghost use Rattle.hp_drawing.specs.Sketch as sketch;

use crate::draft::Draft;
use crate::parts::Value;
use hp_circuit::{Shape, Wire};
use hp_tree::{Op1, Op2};
use std::alloc::AllocError;

/// A wire with a truth value.
pub fn truth(wire: usize) -> Value
    ensures { result ≡ sketch.truth wire }
{
    Value {
        wire,
        shape: Shape::Truth,
    }
}

/// An integer that reads two values.
#[tactic(auto, unfolding(crate::specs::DrawnExpressions::mark_of_two))]
fn mark_of_two(draft: &mut Draft, a: Value, b: Value) -> Result<Value, AllocError>
    ensures sketch { OnOk result (sketch_of draft.new ≡ (drawn.mark_of_two a b (sketch_of draft.old)).1) }
    ensures value { IfOk result (λ v. v ≡ (drawn.mark_of_two a b (sketch_of draft.old)).0) }
{
    let wire = draft.mark_of(a.wire)?;
    draft.read(wire, b.wire)?;
    Ok(Value {
        wire,
        shape: Shape::Mark,
    })
}

#[tactic(auto, unfolding(crate::specs::DrawnExpressions::mark_of_three))]
fn mark_of_three(draft: &mut Draft, a: Value, b: Value, c: Value) -> Result<Value, AllocError>
    ensures sketch { OnOk result (sketch_of draft.new ≡ (drawn.mark_of_three a b c (sketch_of draft.old)).1) }
    ensures value { IfOk result (λ v. v ≡ (drawn.mark_of_three a b c (sketch_of draft.old)).0) }
{
    let mark = mark_of_two(draft, a, b)?;
    draft.read(mark.wire, c.wire)?;
    Ok(mark)
}

#[tactic(auto, unfolding(crate::specs::DrawnExpressions::drawn_one))]
pub fn one(draft: &mut Draft, op: Op1, a: Value) -> Result<Value, AllocError>
    ensures sketch { OnOk result (sketch_of draft.new ≡ (drawn.drawn_one op a (sketch_of draft.old)).1) }
    ensures value { IfOk result (λ v. v ≡ (drawn.drawn_one op a (sketch_of draft.old)).0) }
{
    match op {
        Op1::Not => {
            let wire = draft.truth(Wire::Not(a.wire))?;
            Ok(truth(wire))
        }
        Op1::Neg => {
            let wire = draft.mark_of(a.wire)?;
            Ok(Value {
                wire,
                shape: Shape::Mark,
            })
        }
    }
}

fn negated(draft: &mut Draft, wire: Wire) -> Result<Value, AllocError>
    ensures sketch { OnOk result (sketch_of draft.new ≡ (drawn.negated (sketch.push wire Truth (sketch_of draft.old))).1) }
    ensures value { IfOk result (λ v. v ≡ (drawn.negated (sketch.push wire Truth (sketch_of draft.old))).0) }
{
    let inner = draft.truth(wire)?;
    let outer = draft.truth(Wire::Not(inner))?;
    Ok(truth(outer))
}

fn gate(draft: &mut Draft, wire: Wire) -> Result<Value, AllocError>
    ensures sketch { OnOk result (sketch_of draft.new ≡ (drawn.gate (sketch.push wire Truth (sketch_of draft.old))).1) }
    ensures value { IfOk result (λ v. v ≡ (drawn.gate (sketch.push wire Truth (sketch_of draft.old))).0) }
{
    let number = draft.truth(wire)?;
    Ok(truth(number))
}

/// An operator of two operands, where it is no comparison of integers.
#[tactic(auto, unfolding(crate::specs::DrawnExpressions::drawn_two))]
pub fn two(draft: &mut Draft, op: Op2, a: Value, b: Value) -> Result<Value, AllocError>
    ensures sketch { OnOk result (sketch_of draft.new ≡ (drawn.drawn_two op a b (sketch_of draft.old)).1) }
    ensures value { IfOk result (λ v. v ≡ (drawn.drawn_two op a b (sketch_of draft.old)).0) }
{
    match op {
        Op2::And => gate(draft, Wire::And(a.wire, b.wire)),
        Op2::Or => gate(draft, Wire::Or(a.wire, b.wire)),
        Op2::Xor => gate(draft, Wire::Xor(a.wire, b.wire)),
        Op2::Imp => {
            let not = draft.truth(Wire::Not(a.wire))?;
            gate(draft, Wire::Or(not, b.wire))
        }
        Op2::Eq => gate(draft, Wire::Equal(a.wire, b.wire)),
        Op2::Ne => negated(draft, Wire::Equal(a.wire, b.wire)),
        _ => mark_of_two(draft, a, b),
    }
}

/// The first where the condition holds, else the second.
#[tactic(auto, unfolding(crate::specs::DrawnExpressions::drawn_choice))]
pub fn choose(draft: &mut Draft, condition: usize, a: Value, b: Value) -> Result<Value, AllocError>
    ensures sketch { OnOk result (sketch_of draft.new ≡ (drawn.drawn_choice condition a b (sketch_of draft.old)).1) }
    ensures value { IfOk result (λ v. v ≡ (drawn.drawn_choice condition a b (sketch_of draft.old)).0) }
{
    match a.shape {
        Shape::Mark => mark_of_three(draft, truth(condition), a, b),
        shape => {
            let wire = draft.push(Wire::If(condition, a.wire, b.wire), shape)?;
            Ok(Value { wire, shape })
        }
    }
}
