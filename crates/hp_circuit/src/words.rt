//! Gates of numbers: those of the bits, the most significant first, stand one behind the other.
ghost use Rattle.std.specs.Prelude.{◌≡◌, ◌≤◌, ◌<◌, ◌+◌, ℕ, Bool, false, not, if◌then◌else◌, length, IfOk};
ghost use Rattle.hp_circuit.specs.Numbers.{pow2, to_bits, are_same, compared};
ghost use Rattle.hp_circuit.specs.Adding.{at, row, word, HasFirst, Adds, AddsRow};
ghost use Rattle.hp_circuit.specs.Wiring.{choice_gates, constant_gates, variable_gates, with_choice, with_compared, with_compared_bit, with_constant, with_gates, with_same, with_same_bit};

use crate::bits::bits;
use crate::gates::{ite, put, xor};
use hp_boolx::Gate;
use std::alloc::{AllocError, Global};

/// The variables from a place on, as gates. The answer is the first of these.
pub fn variables(gates: &mut Vec<Gate>, place: u16, width: usize) -> Result<usize, AllocError>
    requires { place + width ≤ 65535 }
    ensures adds { IfOk result (λ r. AddsRow (place + width) gates.old.items gates.new.items r width (λ v. row v place width)) }
    ensures made { IfOk result (λ r. (gates.new.items, r) ≡ with_gates gates.old.items (variable_gates place width)) }
{
    let start = gates.len();
    for i in 0..width {
        let _number = put(gates, Gate::Var(place + i as u16))?;
    }
    Ok(start)
}

/// Bits as gates. The answer is the first of these.
fn constants(gates: &mut Vec<Gate>, bits: &[bool]) -> Result<usize, AllocError>
    ensures adds { IfOk result (λ r. AddsRow 0 gates.old.items gates.new.items r (length bits.now) (λ v. bits.now)) }
    ensures made { IfOk result (λ r. (gates.new.items, r) ≡ with_gates gates.old.items (constant_gates bits.now)) }
{
    let start = gates.len();
    for i in 0..bits.len() {
        let _number = put(gates, Gate::Const(bits[i]))?;
    }
    Ok(start)
}

/// A number in bits. The answer is the first of its gates.
pub fn constant(
    alloc: Global,
    gates: &mut Vec<Gate>,
    width: usize,
    number: usize,
) -> Result<usize, AllocError>
    requires first { HasFirst gates.old.items }
    requires within { width ≤ 64 }
    requires number { number < pow2 width }
    ensures adds { IfOk result (λ r. AddsRow 0 gates.old.items gates.new.items r width (λ v. to_bits width number)) }
    ensures made { IfOk result (λ r. (gates.new.items, r) ≡ with_constant gates.old.items width number) }
{
    if width <= 1 {
        return Ok(number);
    }
    let bits = bits(alloc, width, number)?;
    constants(gates, &bits)
}

/// Bit by bit, of two numbers the first where the test holds, else the second.
fn choices(
    gates: &mut Vec<Gate>,
    test: usize,
    a: usize,
    b: usize,
    width: usize,
) -> Result<usize, AllocError>
    requires test { test < length gates.old.items }
    requires a { a + width ≤ length gates.old.items }
    requires b { b + width ≤ length gates.old.items }
    ensures adds { IfOk result (λ r. AddsRow 0 gates.old.items gates.new.items r width (λ v. if at gates.old.items v test then word gates.old.items v a width else word gates.old.items v b width)) }
    ensures made { IfOk result (λ r. (gates.new.items, r) ≡ with_gates gates.old.items (choice_gates test a b width)) }
{
    let start = gates.len();
    for i in 0..width {
        let _number = put(gates, Gate::Ite(test, a + i, b + i))?;
    }
    Ok(start)
}

/// Of two numbers the first where the test holds, else the second.
pub fn choice(
    gates: &mut Vec<Gate>,
    test: usize,
    a: usize,
    b: usize,
    width: usize,
) -> Result<usize, AllocError>
    requires first { HasFirst gates.old.items }
    requires test { test < length gates.old.items }
    requires a { a + width ≤ length gates.old.items }
    requires b { b + width ≤ length gates.old.items }
    ensures adds { IfOk result (λ r. AddsRow 0 gates.old.items gates.new.items r width (λ v. if at gates.old.items v test then word gates.old.items v a width else word gates.old.items v b width)) }
    ensures made { IfOk result (λ r. (gates.new.items, r) ≡ with_choice gates.old.items test a b width) }
{
    match test {
        0 => Ok(b),
        1 => Ok(a),
        _ => choices(gates, test, a, b, width),
    }
}

/// Whether two bits are the same, and what is found of those behind them.
fn same_bit(gates: &mut Vec<Gate>, a: usize, b: usize, found: usize) -> Result<usize, AllocError>
    requires first { HasFirst gates.old.items }
    requires a { a < length gates.old.items }
    requires b { b < length gates.old.items }
    requires found { found < length gates.old.items }
    ensures adds { IfOk result (λ r. Adds 0 gates.old.items gates.new.items r (λ v. if (if at gates.old.items v a then not (at gates.old.items v b) else at gates.old.items v b) then false else at gates.old.items v found)) }
    ensures made { IfOk result (λ r. (gates.new.items, r) ≡ with_same_bit a b (gates.old.items, found)) }
{
    let differs = xor(gates, a, b)?;
    ite(gates, differs, 0, found)
}

/// Whether two numbers are the same.
pub fn same(gates: &mut Vec<Gate>, a: usize, b: usize, width: usize) -> Result<usize, AllocError>
    requires first { HasFirst gates.old.items }
    requires a { a + width ≤ length gates.old.items }
    requires b { b + width ≤ length gates.old.items }
    ensures adds { IfOk result (λ r. Adds 0 gates.old.items gates.new.items r (λ v. are_same (word gates.old.items v a width) (word gates.old.items v b width))) }
    ensures made { IfOk result (λ r. (gates.new.items, r) ≡ with_same gates.old.items a b width) }
{
    let mut found = 1;
    for i in (0..width).rev() {
        found = same_bit(gates, a + i, b + i, found)?;
    }
    Ok(found)
}

/// Compares a bit with a given one, where `found` is what is found of those behind it.
fn compared_bit(
    gates: &mut Vec<Gate>,
    a: usize,
    bit: bool,
    less: usize,
    found: usize,
) -> Result<usize, AllocError>
    requires first { HasFirst gates.old.items }
    requires a { a < length gates.old.items }
    requires less { less < length gates.old.items }
    requires found { found < length gates.old.items }
    ensures adds { IfOk result (λ r. Adds 0 gates.old.items gates.new.items r (λ v. if bit then (if at gates.old.items v a then at gates.old.items v found else at gates.old.items v less) else (if at gates.old.items v a then false else at gates.old.items v found))) }
    ensures made { IfOk result (λ r. (gates.new.items, r) ≡ with_compared_bit a bit less (gates.old.items, found)) }
{
    if bit {
        ite(gates, a, found, less)
    } else {
        ite(gates, a, 0, found)
    }
}

/// Compares a number with given bits: `less` says what is found where it is below theirs, and `equal` where it is theirs.
pub fn compared(
    gates: &mut Vec<Gate>,
    a: usize,
    bits: &[bool],
    less: usize,
    equal: usize,
) -> Result<usize, AllocError>
    requires first { HasFirst gates.old.items }
    requires a { a + length bits.now ≤ length gates.old.items }
    requires less { less < length gates.old.items }
    requires equal { equal < length gates.old.items }
    ensures adds { IfOk result (λ r. Adds 0 gates.old.items gates.new.items r (λ v. compared (at gates.old.items v less) (at gates.old.items v equal) (word gates.old.items v a (length bits.now)) bits.now)) }
    ensures made { IfOk result (λ r. (gates.new.items, r) ≡ with_compared gates.old.items a bits.now less equal) }
{
    let mut found = equal;
    for i in (0..bits.len()).rev() {
        found = compared_bit(gates, a + i, bits[i], less, found)?;
    }
    Ok(found)
}
