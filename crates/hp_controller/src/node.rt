//! The clocked equations of lines.
ghost use Rattle.std.specs.Prelude.{◌≡◌, ◌+◌, ◌^◌, ◌<◌, ◌≤◌, ◌++◌, length, map, IfOk, OnOk};
ghost use Rattle.std.specs.List.{range_with_len};
ghost use Rattle.hp_controller.specs.Controllers as made;

use hp_base::{Name, Value};
use hp_flat::{Atom, FlatEqn, FlatNode, FlatRight, FlatTy, Variable};
use hp_obc::ObcOp;
use hp_quant::Line;
use itoa::Buffer;
use smallvec::SmallVec;
use std::alloc::{AllocError, Global};

/// What a number of the lines is, behind so many inputs, where so many lines stand before.
fn atom_at(inputs: usize, count: usize, number: usize) -> Atom
    requires { inputs + count < 2 ^ 64 }
    ensures { result ≡ made.atom_at inputs count number }
{
    match number {
        0 => Atom::Value(Value::B(false)),
        1 => Atom::Value(Value::B(true)),
        _ if number - 2 < count => Atom::Variable(inputs + (number - 2)),
        _ => Atom::Value(Value::B(false)),
    }
}

/// What a line tests.
fn test_at(inputs: usize, variable: u16) -> Atom
    ensures { result ≡ made.test_at inputs variable }
{
    let variable = usize::from(variable);
    if variable < inputs {
        Atom::Variable(variable)
    } else {
        Atom::Value(Value::B(false))
    }
}

/// The equation of a variable, on the base clock.
pub fn equation(
    alloc: Global,
    at: usize,
    target: usize,
    op: ObcOp,
    args: Vec<Atom>,
) -> Result<FlatEqn, AllocError>
    ensures { IfOk result (λ eqn. eqn ≡ made.equation at target op args.items) }
{
    let mut targets = Vec::new(alloc);
    targets.push(target)?;
    Ok(FlatEqn {
        targets,
        clock: SmallVec::new(alloc),
        right: FlatRight::Op(op, args),
        restart: Vec::new(alloc),
        at,
    })
}

/// The equation of a line.
fn line_eqn(alloc: Global, inputs: usize, at: usize, line: Line) -> Result<FlatEqn, AllocError>
    requires target { inputs + at < 2 ^ 64 }
    ensures { IfOk result (λ eqn. eqn ≡ made.line_eqn inputs at line) }
{
    let mut args = Vec::new(alloc);
    args.push(test_at(inputs, line.var))?;
    args.push(atom_at(inputs, at, line.high))?;
    args.push(atom_at(inputs, at, line.low))?;
    equation(alloc, at, inputs + at, ObcOp::Mux, args)
}

/// The equation of an output.
fn output_eqn(
    alloc: Global,
    inputs: usize,
    lines: usize,
    at: usize,
    number: usize,
) -> Result<FlatEqn, AllocError>
    requires target { inputs + at < 2 ^ 64 }
    requires lines { inputs + lines < 2 ^ 64 }
    ensures { IfOk result (λ eqn. eqn ≡ made.output_eqn inputs lines at number) }
{
    let mut args = Vec::new(alloc);
    args.push(atom_at(inputs, lines, number))?;
    equation(alloc, at, inputs + at, ObcOp::Copy, args)
}

/// Adds the equations of the lines.
#[tactic(auto, using(crate::proofs::Rules::added))]
fn add_lines(
    alloc: Global,
    inputs: usize,
    lines: &[Line],
    eqns: &mut Vec<FlatEqn>,
) -> Result<(), AllocError>
    requires { inputs + length lines.now < 2 ^ 64 }
    ensures { OnOk result (eqns.new.items ≡ eqns.old.items ++ made.line_eqns inputs 0 lines.now) }
{
    for i in 0..lines.len() {
        let line = lines[i];
        eqns.push(line_eqn(alloc, inputs, i, line)?)?;
    }
    Ok(())
}

/// Adds the equations of the outputs, which stand behind so many lines.
#[tactic(auto, using(crate::proofs::Rules::added))]
fn add_outputs(
    alloc: Global,
    inputs: usize,
    lines: usize,
    numbers: &[usize],
    eqns: &mut Vec<FlatEqn>,
) -> Result<(), AllocError>
    requires { inputs + lines + length numbers.now < 2 ^ 64 }
    ensures { OnOk result (eqns.new.items ≡ eqns.old.items ++ made.output_eqns inputs lines lines numbers.now) }
{
    for i in 0..numbers.len() {
        let number = numbers[i];
        eqns.push(output_eqn(alloc, inputs, lines, lines + i, number)?)?;
    }
    Ok(())
}

/// A variable, named by its number.
fn bit_variable(alloc: Global, number: usize) -> Result<Variable, AllocError>
    ensures { IfOk result (λ variable. variable ≡ made.bit_variable number) }
{
    let mut bytes = Vec::from_slice(alloc, b"b")?;
    let mut buffer = Buffer::new();
    bytes.extend_from_slice(buffer.format(number).as_bytes())?;
    let name = Name::new(alloc, &bytes)?;
    Ok(Variable {
        name,
        ty: FlatTy::Bool,
    })
}

/// So many variables, each named by its number.
#[tactic(auto, using(crate::proofs::Rules::numbered))]
fn bit_variables(alloc: Global, count: usize) -> Result<Vec<Variable>, AllocError>
    ensures { IfOk result (λ variables. variables.items ≡ map made.bit_variable (range_with_len 0 count)) }
{
    let mut variables = Vec::new(alloc);
    for number in 0..count {
        variables.push(bit_variable(alloc, number)?)?;
    }
    Ok(variables)
}

/// So many numbers, from the first on.
#[tactic(auto, using(crate::proofs::Rules::numbered))]
pub fn numbers_from(alloc: Global, first: usize, count: usize) -> Result<Vec<usize>, AllocError>
    requires { first + count < 2 ^ 64 }
    ensures { IfOk result (λ numbers. numbers.items ≡ range_with_len first count) }
{
    let mut numbers = Vec::new(alloc);
    for i in 0..count {
        numbers.push(first + i)?;
    }
    Ok(numbers)
}

/// How many variables there are. There is no memory for so many that they have no number.
fn variables(inputs: usize, lines: usize, outputs: usize) -> Result<usize, AllocError>
    ensures { IfOk result (λ count. count ≡ inputs + lines + outputs) }
{
    let behind = lines.checked_add(outputs).ok_or(AllocError)?;
    inputs.checked_add(behind).ok_or(AllocError)
}

/// A node in memory has no more variables than numbers tell apart.
pub fn has_few_variables(node: &FlatNode)
    ensures { length node.now.variables ≤ 2 ^ 64 }
{
    let _count = node.variables.len();
}

/// The node that gives the functions of these numbers of lines: a line behind the inputs is one equation, and so is an output. Its variables are truth values, named by
/// their numbers. What refers to no earlier line counts as false, and so does a test of what is no input.
pub fn node_of_lines(
    alloc: Global,
    name: &Name,
    inputs: u16,
    lines: &[Line],
    numbers: &[usize],
) -> Result<FlatNode, AllocError>
    ensures { IfOk result (λ node. node ≡ made.node_of_lines name.now inputs lines.now numbers.now) }
{
    let inputs = usize::from(inputs);
    let count = variables(inputs, lines.len(), numbers.len())?;
    let mut eqns = Vec::new(alloc);
    add_lines(alloc, inputs, lines, &mut eqns)?;
    add_outputs(alloc, inputs, lines.len(), numbers, &mut eqns)?;
    Ok(FlatNode {
        name: name.copy(alloc)?,
        variables: bit_variables(alloc, count)?,
        inputs,
        outputs: numbers_from(alloc, inputs + lines.len(), numbers.len())?,
        eqns,
    })
}
