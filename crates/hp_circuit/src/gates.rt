//! Gates of single bits. The first gate is false and the second true, and what is known by these is not made.
ghost use Rattle.std.specs.Prelude.{ℕ, ◌≡◌, ◌<◌, ◌+◌, [], ◌∷◌, true, false, not, ◌&&◌, ◌||◌, if◌then◌else◌, length, IfOk, OnOk};
ghost use Rattle.hp_boolx.specs.declared.gate.Gate.TheVariants.{Const};
ghost use Rattle.hp_boolx.specs.Machine.{AreFit, GateFits, gate_value, values};
ghost use Rattle.hp_circuit.specs.Adding.{at, named, HasFirst, Adds};
ghost use Rattle.hp_circuit.specs.Wiring.{with_and, with_gate, with_ite, with_not, with_or, with_xor};

use hp_boolx::Gate;
use std::alloc::{AllocError, Global};

/// The gates that are there from the start.
pub fn first_gates(alloc: Global) -> Result<Vec<Gate>, AllocError>
    ensures first { IfOk result (λ gates. HasFirst gates.items) }
    ensures fit { IfOk result (λ gates. (all : ℕ) → AreFit all 0 gates.items) }
    ensures are { IfOk result (λ gates. gates.items ≡ Const false ∷ Const true ∷ []) }
{
    let mut gates = Vec::new(alloc);
    gates.push(Gate::Const(false))?;
    gates.push(Gate::Const(true))?;
    Ok(gates)
}

/// Adds a gate. The answer is its number.
pub fn put(gates: &mut Vec<Gate>, gate: Gate) -> Result<usize, AllocError>
    requires { GateFits (named gate) (length gates.old.items) gate }
    ensures number { IfOk result (λ r. r ≡ length gates.old.items) }
    ensures made { IfOk result (λ r. (gates.new.items, r) ≡ with_gate gates.old.items gate) }
    ensures long { OnOk result (length gates.new.items ≡ length gates.old.items + 1) }
    ensures adds { IfOk result (λ r. Adds (named gate) gates.old.items gates.new.items r (λ v. gate_value v (values v [] gates.old.items) gate)) }
{
    let number = gates.len();
    gates.push(gate)?;
    Ok(number)
}

pub fn not(gates: &mut Vec<Gate>, a: usize) -> Result<usize, AllocError>
    requires first { HasFirst gates.old.items }
    requires a { a < length gates.old.items }
    ensures adds { IfOk result (λ r. Adds 0 gates.old.items gates.new.items r (λ v. not (at gates.old.items v a))) }
    ensures made { IfOk result (λ r. (gates.new.items, r) ≡ with_not gates.old.items a) }
{
    match a {
        0 => Ok(1),
        1 => Ok(0),
        _ => put(gates, Gate::Not(a)),
    }
}

pub fn and(gates: &mut Vec<Gate>, a: usize, b: usize) -> Result<usize, AllocError>
    requires first { HasFirst gates.old.items }
    requires a { a < length gates.old.items }
    requires b { b < length gates.old.items }
    ensures adds { IfOk result (λ r. Adds 0 gates.old.items gates.new.items r (λ v. at gates.old.items v a && at gates.old.items v b)) }
    ensures made { IfOk result (λ r. (gates.new.items, r) ≡ with_and gates.old.items a b) }
{
    match (a, b) {
        (0, _) | (_, 0) => Ok(0),
        (1, _) => Ok(b),
        (_, 1) => Ok(a),
        _ => put(gates, Gate::And(a, b)),
    }
}

pub fn or(gates: &mut Vec<Gate>, a: usize, b: usize) -> Result<usize, AllocError>
    requires first { HasFirst gates.old.items }
    requires a { a < length gates.old.items }
    requires b { b < length gates.old.items }
    ensures adds { IfOk result (λ r. Adds 0 gates.old.items gates.new.items r (λ v. at gates.old.items v a || at gates.old.items v b)) }
    ensures made { IfOk result (λ r. (gates.new.items, r) ≡ with_or gates.old.items a b) }
{
    match (a, b) {
        (1, _) | (_, 1) => Ok(1),
        (0, _) => Ok(b),
        (_, 0) => Ok(a),
        _ => put(gates, Gate::Or(a, b)),
    }
}

pub fn xor(gates: &mut Vec<Gate>, a: usize, b: usize) -> Result<usize, AllocError>
    requires first { HasFirst gates.old.items }
    requires a { a < length gates.old.items }
    requires b { b < length gates.old.items }
    ensures adds { IfOk result (λ r. Adds 0 gates.old.items gates.new.items r (λ v. if at gates.old.items v a then not (at gates.old.items v b) else at gates.old.items v b)) }
    ensures made { IfOk result (λ r. (gates.new.items, r) ≡ with_xor gates.old.items a b) }
{
    match (a, b) {
        (0, _) => Ok(b),
        (_, 0) => Ok(a),
        _ => put(gates, Gate::Xor(a, b)),
    }
}

/// The second where the first holds, else the third.
pub fn ite(gates: &mut Vec<Gate>, test: usize, a: usize, b: usize) -> Result<usize, AllocError>
    requires first { HasFirst gates.old.items }
    requires test { test < length gates.old.items }
    requires a { a < length gates.old.items }
    requires b { b < length gates.old.items }
    ensures adds { IfOk result (λ r. Adds 0 gates.old.items gates.new.items r (λ v. if at gates.old.items v test then at gates.old.items v a else at gates.old.items v b)) }
    ensures made { IfOk result (λ r. (gates.new.items, r) ≡ with_ite gates.old.items test a b) }
{
    match test {
        0 => Ok(b),
        1 => Ok(a),
        _ => put(gates, Gate::Ite(test, a, b)),
    }
}
