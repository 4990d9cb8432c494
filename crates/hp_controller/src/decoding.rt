//! The clocked equations that make a value of a control variable's bits.
ghost use Rattle.std.specs.Prelude.{◌≡◌, ◌+◌, ◌++◌, ◌∷◌, [], IfOk, OnOk};
ghost use Rattle.hp_flat.specs.declared.equation.Atom.TheVariants.{Variable as Read};
ghost use Rattle.hp_obc.specs.declared.command.ObcOp.TheVariants.{Mux};
ghost use Rattle.hp_controller.specs.Controllers.{equation, added_variable};
ghost use Rattle.hp_controller.specs.Decoding as made;

use crate::node::equation;
use hp_base::{Name, Value};
use hp_flat::{Atom, FlatEqn, FlatTy, Variable};
use hp_obc::ObcOp;
use itoa::Buffer;
use std::alloc::{AllocError, Global};

/// An enumeration, by its number, and how many constructors it has.
#[derive(Clone, Copy)]
pub struct Enumeration {
    pub number: u16,
    pub constructors: u8,
}

/// What a control variable is: a truth value, or a constructor.
#[derive(Clone, Copy)]
pub enum ControlKind {
    Truth,
    Constructor(Enumeration),
}

/// A control variable, with as many bits.
#[derive(Clone, Copy)]
pub struct Control {
    pub kind: ControlKind,
    pub width: u16,
}

/// The value of a code, which counts as the first constructor where it is none.
fn value_of(ty: Enumeration, code: usize) -> Value
    ensures { result ≡ made.value_of ty.number ty.constructors code }
{
    match u8::try_from(code) {
        Ok(constructor) if constructor < ty.constructors => Value::E(ty.number, constructor),
        _ => Value::E(ty.number, 0),
    }
}

/// What is added to a node: variables and equations, and the number of the next variable.
#[derive(Drop)]
pub struct Added {
    pub variables: Vec<Variable>,
    pub eqns: Vec<FlatEqn>,
    pub next: usize,
}

/// A variable that is added to a node, named by its number.
pub fn added_variable(alloc: Global, number: usize, ty: FlatTy) -> Result<Variable, AllocError>
    ensures { IfOk result (λ variable. variable ≡ added_variable number ty) }
{
    let mut bytes = Vec::from_slice(alloc, b"b$x")?;
    let mut buffer = Buffer::new();
    bytes.extend_from_slice(buffer.format(number).as_bytes())?;
    let name = Name::new(alloc, &bytes)?;
    Ok(Variable { name, ty })
}

/// Adds the choice between two values by a bit.
fn add_choice(
    alloc: Global,
    target: usize,
    bit: usize,
    high: Atom,
    low: Atom,
    eqns: &mut Vec<FlatEqn>,
) -> Result<(), AllocError>
    ensures { OnOk result (eqns.new.items ≡ eqns.old.items ++ equation 0 target Mux (Read bit ∷ high ∷ low ∷ []) ∷ []) }
{
    let mut args = Vec::new(alloc);
    args.push(Atom::Variable(bit))?;
    args.push(high)?;
    args.push(low)?;
    let eqn = equation(alloc, 0, target, ObcOp::Mux, args)?;
    eqns.push(eqn)?;
    Ok(())
}

/// One more. There is no memory for so many variables that one has no number.
fn more(number: usize) -> Result<usize, AllocError>
    ensures { IfOk result (λ next. next ≡ number + 1) }
{
    number.checked_add(1).ok_or(AllocError)
}

/// Twice a code; of a code that is too large no machine has the bits.
fn twice(code: usize) -> Result<usize, AllocError>
    ensures { IfOk result (λ twice. twice ≡ code + code) }
{
    code.checked_add(code).ok_or(AllocError)
}

/// Adds what makes the value that so many bits, from a variable on, have behind a code, with variables of its own; and gives what has the value. Its depth is that of
/// the bits, of which a machine has few.
fn add_value(
    alloc: Global,
    ty: Enumeration,
    bit: usize,
    width: u16,
    code: usize,
    added: &mut Added,
) -> Result<Atom, AllocError>
    ensures atom { IfOk result (λ atom. atom ≡ (made.tree ty.number ty.constructors bit width code added.old.next).atom) }
    ensures next { OnOk result (added.new.next ≡ (made.tree ty.number ty.constructors bit width code added.old.next).next) }
    ensures variables { OnOk result (added.new.variables.items ≡ added.old.variables.items ++ (made.tree ty.number ty.constructors bit width code added.old.next).variables) }
    ensures eqns { OnOk result (added.new.eqns.items ≡ added.old.eqns.items ++ (made.tree ty.number ty.constructors bit width code added.old.next).eqns) }
{
    if width == 0 {
        return Ok(Atom::Value(value_of(ty, code)));
    }
    let later = more(bit)?;
    let even = twice(code)?;
    let odd = more(even)?;
    let high = add_value(alloc, ty, later, width - 1, odd, added)?;
    let low = add_value(alloc, ty, later, width - 1, even, added)?;
    let target = added.next;
    let variable = added_variable(alloc, target, FlatTy::Enum(ty.number))?;
    added.variables.push(variable)?;
    add_choice(alloc, target, bit, high, low, &mut added.eqns)?;
    added.next = more(target)?;
    Ok(Atom::Variable(target))
}

/// Adds the equations of a control variable, whose bits stand from a variable on.
fn add_control(
    alloc: Global,
    target: usize,
    bit: usize,
    control: Control,
    added: &mut Added,
) -> Result<(), AllocError>
    ensures next { OnOk result (added.new.next ≡ (made.control_eqns target bit added.old.next control.width control.kind).next) }
    ensures variables { OnOk result (added.new.variables.items ≡ added.old.variables.items ++ (made.control_eqns target bit added.old.next control.width control.kind).variables) }
    ensures eqns { OnOk result (added.new.eqns.items ≡ added.old.eqns.items ++ (made.control_eqns target bit added.old.next control.width control.kind).eqns) }
{
    let value = match control.kind {
        ControlKind::Truth => Atom::Variable(bit),
        ControlKind::Constructor(ty) => add_value(alloc, ty, bit, control.width, 0, added)?,
    };
    let mut args = Vec::new(alloc);
    args.push(value)?;
    let eqn = equation(alloc, 0, target, ObcOp::Copy, args)?;
    added.eqns.push(eqn)?;
    Ok(())
}

/// Adds the equations of control variables in a row from a target on, whose bits stand in a row from a variable on.
#[tactic(auto, using(crate::proofs::Rules::decoded))]
pub fn add_controls(
    alloc: Global,
    target: usize,
    bit: usize,
    controls: &[Control],
    added: &mut Added,
) -> Result<(), AllocError>
    ensures next { OnOk result (added.new.next ≡ (made.controls_eqns target bit added.old.next controls.now).next) }
    ensures variables { OnOk result (added.new.variables.items ≡ added.old.variables.items ++ (made.controls_eqns target bit added.old.next controls.now).variables) }
    ensures eqns { OnOk result (added.new.eqns.items ≡ added.old.eqns.items ++ (made.controls_eqns target bit added.old.next controls.now).eqns) }
{
    let mut at = target;
    let mut from = bit;
    for i in 0..controls.len() {
        let control = controls[i];
        add_control(alloc, at, from, control, added)?;
        at = more(at)?;
        from = from
            .checked_add(usize::from(control.width))
            .ok_or(AllocError)?;
    }
    Ok(())
}
