//! Values on the base clock, and their bits.
ghost use Rattle.std.specs.Prelude.{◌≡◌, ◌+◌, ◌<◌, ◌≤◌, ◌++◌, ◌∷◌, [], length, IfOk, OnOk};
ghost use Rattle.std.specs.List.{range_with_len};
ghost use Rattle.hp_watch.specs.Adding.{next_variable};
ghost use Rattle.hp_watch.specs.Lifting as made;

use crate::adding::{add_eqn, add_operator, add_variable, operator_eqn, some_value, type_at};
use hp_base::Value;
use hp_flat::{Atom, FlatEqn, FlatNode, FlatTy};
use hp_obc::{ObcOp, ObcType};
use std::alloc::{AllocError, Global};

/// How many codes so many bits have.
const POWERS: [usize; 8] = [1, 2, 4, 8, 16, 32, 64, 128];

/// How many values a type has of which clocks and bits speak; a constructor has a number of one byte.
fn count_of(types: &[ObcType], ty: FlatTy) -> usize
    ensures is { result ≡ made.count_of types.now ty }
    ensures within { result ≤ 256 }
{
    match ty {
        FlatTy::Bool => 2,
        FlatTy::Int => 0,
        FlatTy::Enum(number) => match types.get(usize::from(number)) {
            None => 0,
            Some(ty) => ty.cons.len().min(256),
        },
    }
}

/// A step of a clock that is taken away: on what clock it stands, of what variable it takes which constructor, and what has its value on the target.
#[derive(Clone, Copy)]
struct Step<'c> {
    clock: &'c [(usize, u8)],
    tested: usize,
    taken: u8,
    value: usize,
}

/// The equation of a constructor of what is tested: the value if the step takes it, and else some value.
fn case_eqn(
    alloc: Global,
    target: usize,
    ty: FlatTy,
    step: Step<'_>,
    constructor: u8,
) -> Result<FlatEqn, AllocError>
    ensures { IfOk result (λ eqn. eqn ≡ made.case_eqn target ty step.entry.clock.now (step.entry.tested, step.entry.taken) step.entry.value constructor) }
{
    let atom = if constructor == step.taken {
        Atom::Variable(step.value)
    } else {
        Atom::Value(some_value(ty))
    };
    let mut on = Vec::from_slice(alloc, step.clock)?;
    on.push((step.tested, constructor))?;
    operator_eqn(alloc, target, &on, ObcOp::Copy, &[atom])
}

/// Adds the equations of so many constructors.
#[tactic(auto, using(crate::proofs::Rules::eachwise))]
fn add_cases(
    alloc: Global,
    target: usize,
    ty: FlatTy,
    step: Step<'_>,
    count: usize,
    node: &mut FlatNode,
) -> Result<(), AllocError>
    requires { count ≤ 256 }
    ensures { OnOk result (node.new ≡ made.with_cases target ty step.entry.clock.now (step.entry.tested, step.entry.taken) step.entry.value count node.old) }
{
    for constructor in 0..count {
        let eqn = case_eqn(alloc, target, ty, step, constructor as u8)?;
        add_eqn(eqn, node)?;
    }
    Ok(())
}

/// Adds a variable that has a value on a step of its clock, and else some value. The value is on the steps before and this one.
fn add_step(
    alloc: Global,
    types: &[ObcType],
    step: Step<'_>,
    node: &mut FlatNode,
) -> Result<usize, AllocError>
    ensures value { IfOk result (λ value. value ≡ next_variable node.old) }
    ensures node { OnOk result (node.new ≡ made.with_step types.now step.entry.clock.now (step.entry.tested, step.entry.taken) step.entry.value node.old) }
{
    let ty = type_at(node, step.value);
    let count = count_of(types, type_at(node, step.tested));
    let target = add_variable(alloc, ty, node)?;
    add_cases(alloc, target, ty, step, count, node)?;
    Ok(target)
}

/// The variable on the base clock that has the value of this one where its clock is there, and else some value. The steps are taken away innermost first.
#[tactic(auto, using(crate::proofs::Rules::lifting))]
pub fn lift(
    alloc: Global,
    types: &[ObcType],
    variable: usize,
    clock: &[(usize, u8)],
    node: &mut FlatNode,
) -> Result<usize, AllocError>
    ensures value { IfOk result (λ value. value ≡ (made.lifted types.now [] clock.now variable node.old).value) }
    ensures node { OnOk result (node.new ≡ (made.lifted types.now [] clock.now variable node.old).node) }
{
    let mut value = variable;
    let mut left = clock.len();
    while left > 0 {
        left -= 1;
        let (tested, taken) = clock[left];
        let step = Step {
            clock: &clock[..left],
            tested,
            taken,
            value,
        };
        value = add_step(alloc, types, step, node)?;
    }
    Ok(value)
}

/// Adds the variable that says whether a value on the base clock is this constructor.
fn add_test(
    alloc: Global,
    number: u16,
    constructor: u8,
    value: usize,
    node: &mut FlatNode,
) -> Result<usize, AllocError>
    ensures value { IfOk result (λ test. test ≡ next_variable node.old) }
    ensures node { OnOk result (node.new ≡ made.with_test number value constructor node.old) }
{
    let args = [
        Atom::Variable(value),
        Atom::Value(Value::E(number, constructor)),
    ];
    add_operator(alloc, FlatTy::Bool, ObcOp::Eq, &args, node)
}

/// Adds for each constructor whether a value on the base clock is it.
#[tactic(auto, using(crate::proofs::Rules::eachwise))]
fn add_tests(
    alloc: Global,
    number: u16,
    count: usize,
    value: usize,
    node: &mut FlatNode,
) -> Result<Vec<usize>, AllocError>
    requires { count ≤ 256 }
    ensures tests { IfOk result (λ tests. tests.items ≡ range_with_len (next_variable node.old) count) }
    ensures node { OnOk result (node.new ≡ made.with_each (made.with_test number value) count node.old) }
{
    let mut tests = Vec::new(alloc);
    for constructor in 0..count {
        let test = add_test(alloc, number, constructor as u8, value, node)?;
        tests.push(test)?;
    }
    Ok(tests)
}

/// Whether a number has the bit of this place, from the least significant on.
fn has_bit(number: usize, place: u32) -> bool
    requires { place < 8 }
    ensures { result ≡ made.has_bit number place }
{
    (number >> place) % 2 == 1
}

/// Adds whether one of two variables is true, if the number of the second one's constructor has the bit of this place; gives the variable of this, or the first one.
fn add_either(
    alloc: Global,
    constructor: usize,
    place: u32,
    bit: usize,
    test: usize,
    node: &mut FlatNode,
) -> Result<usize, AllocError>
    requires { place < 8 }
    ensures value { IfOk result (λ value. value ≡ (made.with_either constructor place bit test node.old).value) }
    ensures node { OnOk result (node.new ≡ (made.with_either constructor place bit test node.old).node) }
{
    if !has_bit(constructor, place) {
        return Ok(bit);
    }
    let args = [Atom::Variable(bit), Atom::Variable(test)];
    add_operator(alloc, FlatTy::Bool, ObcOp::Or, &args, node)
}

/// Adds the bit of this place of a value's code, of which the tests say which constructor it is.
#[tactic(auto, using(crate::proofs::Rules::eithers))]
fn add_bit(
    alloc: Global,
    tests: &[usize],
    place: u32,
    node: &mut FlatNode,
) -> Result<usize, AllocError>
    requires { place < 8 }
    ensures value { IfOk result (λ value. value ≡ (made.with_bit tests.now place node.old).value) }
    ensures node { OnOk result (node.new ≡ (made.with_bit tests.now place node.old).node) }
{
    let nothing = [Atom::Value(Value::B(false))];
    let mut bit = add_operator(alloc, FlatTy::Bool, ObcOp::Copy, &nothing, node)?;
    for i in 0..tests.len() {
        bit = add_either(alloc, i, place, bit, tests[i], node)?;
    }
    Ok(bit)
}

/// The place of the first power that is not below a number, and of none how many there are.
#[tactic(auto, using(crate::proofs::Rules::widths))]
fn least_width(powers: &[usize], count: usize) -> usize
    ensures is { result ≡ made.least_width powers.now count }
    ensures within { result ≤ length powers.now }
{
    for width in 0..powers.len() {
        if count <= powers[width] {
            return width;
        }
    }
    powers.len()
}

/// The least number of bits that give each of so many constructors a code.
fn width_of(count: usize) -> u32
    ensures is { result ≡ made.width_of count }
    ensures within { result ≤ 8 }
{
    least_width(&POWERS, count) as u32
}

/// Adds so many bits of a value's code, the most significant first, of which the tests say which constructor it is.
#[tactic(auto, using(crate::proofs::Rules::spelling))]
fn add_code(
    alloc: Global,
    tests: &[usize],
    width: u32,
    node: &mut FlatNode,
    bits: &mut Vec<usize>,
) -> Result<(), AllocError>
    requires { width ≤ 8 }
    ensures bits { OnOk result (bits.new.items ≡ bits.old.items ++ (made.with_bits tests.now width node.old).bits) }
    ensures node { OnOk result (node.new ≡ (made.with_bits tests.now width node.old).node) }
{
    let mut place = width;
    while place > 0 {
        place -= 1;
        let bit = add_bit(alloc, tests, place, node)?;
        bits.push(bit)?;
    }
    Ok(())
}

/// Adds the bits of a value on the base clock, the most significant first.
pub fn add_bits(
    alloc: Global,
    types: &[ObcType],
    value: usize,
    node: &mut FlatNode,
    bits: &mut Vec<usize>,
) -> Result<(), AllocError>
    ensures bits { OnOk result (bits.new.items ≡ bits.old.items ++ (made.spelled types.now value node.old).bits) }
    ensures node { OnOk result (node.new ≡ (made.spelled types.now value node.old).node) }
{
    match type_at(node, value) {
        FlatTy::Bool => {
            bits.push(value)?;
            Ok(())
        }
        FlatTy::Int => Ok(()),
        FlatTy::Enum(number) => {
            let count = count_of(types, FlatTy::Enum(number));
            let tests = add_tests(alloc, number, count, value, node)?;
            add_code(alloc, &tests, width_of(count), node, bits)
        }
    }
}
