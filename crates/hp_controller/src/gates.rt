//! The clocked equations of a machine's gates.
ghost use Rattle.std.specs.Prelude.{◌≡◌, ◌+◌, ◌^◌, ◌<◌, ◌++◌, ◌∷◌, [], length, IfOk, OnOk};
ghost use Rattle.hp_controller.specs.Gates as made;

use crate::node::equation;
use hp_base::Value;
use hp_boolx::Gate;
use hp_flat::{Atom, FlatEqn};
use hp_obc::ObcOp;
use std::alloc::{AllocError, Global};

/// Where the variable of a machine is found.
fn variable_at(places: &[usize], variable: u16) -> Atom
    ensures { result ≡ made.variable_at places.now variable }
{
    match places.get(usize::from(variable)) {
        None => Atom::Value(Value::B(false)),
        Some(place) => Atom::Variable(*place),
    }
}

/// A gate of a number, where so many gates stand before.
pub fn gate_at(first: usize, count: usize, gate: usize) -> Atom
    requires { first + count < 2 ^ 64 }
    ensures { result ≡ made.gate_at first count gate }
{
    if gate < count {
        Atom::Variable(first + gate)
    } else {
        Atom::Value(Value::B(false))
    }
}

/// The operator of a gate.
fn gate_op(gate: Gate) -> ObcOp
    ensures { result ≡ made.gate_op gate }
{
    match gate {
        Gate::Const(_) | Gate::Var(_) => ObcOp::Copy,
        Gate::Not(_) => ObcOp::Not,
        Gate::And(_, _) => ObcOp::And,
        Gate::Or(_, _) => ObcOp::Or,
        Gate::Xor(_, _) => ObcOp::Xor,
        Gate::Ite(_, _, _) => ObcOp::Mux,
    }
}

/// What one value, or two or three, are read from.
fn one(alloc: Global, a: Atom) -> Result<Vec<Atom>, AllocError>
    ensures { IfOk result (λ args. args.items ≡ a ∷ []) }
{
    let mut args = Vec::new(alloc);
    args.push(a)?;
    Ok(args)
}

fn two(alloc: Global, a: Atom, b: Atom) -> Result<Vec<Atom>, AllocError>
    ensures { IfOk result (λ args. args.items ≡ a ∷ b ∷ []) }
{
    let mut args = one(alloc, a)?;
    args.push(b)?;
    Ok(args)
}

fn three(alloc: Global, a: Atom, b: Atom, c: Atom) -> Result<Vec<Atom>, AllocError>
    ensures { IfOk result (λ args. args.items ≡ a ∷ b ∷ c ∷ []) }
{
    let mut args = two(alloc, a, b)?;
    args.push(c)?;
    Ok(args)
}

/// What a gate reads.
fn gate_args(
    alloc: Global,
    places: &[usize],
    first: usize,
    at: usize,
    gate: Gate,
) -> Result<Vec<Atom>, AllocError>
    requires { first + at < 2 ^ 64 }
    ensures { IfOk result (λ args. args.items ≡ made.gate_args places.now first at gate) }
{
    match gate {
        Gate::Const(b) => one(alloc, Atom::Value(Value::B(b))),
        Gate::Var(x) => one(alloc, variable_at(places, x)),
        Gate::Not(i) => one(alloc, gate_at(first, at, i)),
        Gate::And(i, j) | Gate::Or(i, j) | Gate::Xor(i, j) => {
            two(alloc, gate_at(first, at, i), gate_at(first, at, j))
        }
        Gate::Ite(i, j, k) => three(
            alloc,
            gate_at(first, at, i),
            gate_at(first, at, j),
            gate_at(first, at, k),
        ),
    }
}

/// Adds the equations of gates. The variables of the machine are found at these places, and the gates are the variables from the first one on.
#[tactic(auto, using(crate::proofs::Rules::added))]
pub fn add_gates(
    alloc: Global,
    places: &[usize],
    first: usize,
    gates: &[Gate],
    eqns: &mut Vec<FlatEqn>,
) -> Result<(), AllocError>
    requires { first + length gates.now < 2 ^ 64 }
    ensures { OnOk result (eqns.new.items ≡ eqns.old.items ++ made.gate_eqns places.now first 0 gates.now) }
{
    for i in 0..gates.len() {
        let gate = gates[i];
        let args = gate_args(alloc, places, first, i, gate)?;
        let eqn = equation(alloc, i, first + i, gate_op(gate), args)?;
        eqns.push(eqn)?;
    }
    Ok(())
}
