//! Variables and equations that are added to a node.
ghost use Rattle.std.specs.Prelude.{◌≡◌, ◌∷◌, [], IfOk, OnOk};
ghost use Rattle.hp_flat.specs.declared.equation.Atom.TheVariants.{Variable as Read};
ghost use Rattle.hp_watch.specs.Adding as made;
ghost use Rattle.hp_watch.specs.Adding.{with_copy, with_eqn, with_operator, with_variable, next_variable};

use hp_base::{Name, Value};
use hp_flat::{Atom, FlatEqn, FlatNode, FlatRight, FlatTy, Variable};
use hp_obc::ObcOp;
use itoa::Buffer;
use smallvec::SmallVec;
use std::alloc::{AllocError, Global};

/// The type of a variable; of one that is not there that of no value that is given.
pub fn type_at(node: &FlatNode, variable: usize) -> FlatTy
    ensures { result ≡ made.type_at node.now variable }
{
    match node.variables.get(variable) {
        None => FlatTy::Int,
        Some(variable) => variable.ty,
    }
}

/// A variable that is added, named by its number. No other variable of the node has the name, since each that was added before has another number, and no source name has
/// the sign.
fn added_variable(alloc: Global, number: usize, ty: FlatTy) -> Result<Variable, AllocError>
    ensures { IfOk result (λ variable. variable ≡ made.added_variable number ty) }
{
    let mut bytes = Vec::from_slice(alloc, b"w$x")?;
    let mut buffer = Buffer::new();
    bytes.extend_from_slice(buffer.format(number).as_bytes())?;
    let name = Name::new(alloc, &bytes)?;
    Ok(Variable { name, ty })
}

/// Adds a variable, and gives its number.
#[tactic(auto, unfolding(crate::specs::Adding::with_variable))]
pub fn add_variable(alloc: Global, ty: FlatTy, node: &mut FlatNode) -> Result<usize, AllocError>
    ensures number { IfOk result (λ number. number ≡ next_variable node.old) }
    ensures node { OnOk result (node.new ≡ with_variable ty node.old) }
{
    let number = node.variables.len();
    let variable = added_variable(alloc, number, ty)?;
    node.variables.push(variable)?;
    Ok(number)
}

/// Adds an equation.
#[tactic(auto, unfolding(crate::specs::Adding::with_eqn))]
pub fn add_eqn(eqn: FlatEqn, node: &mut FlatNode) -> Result<(), AllocError>
    ensures { OnOk result (node.new ≡ with_eqn eqn node.old) }
{
    node.eqns.push(eqn)?;
    Ok(())
}

/// The equation of an operator on some atoms, on a clock.
pub fn operator_eqn(
    alloc: Global,
    target: usize,
    clock: &[(usize, u8)],
    op: ObcOp,
    args: &[Atom],
) -> Result<FlatEqn, AllocError>
    ensures { IfOk result (λ eqn. eqn ≡ made.operator_eqn target clock.now op args.now) }
{
    let mut targets = Vec::new(alloc);
    targets.push(target)?;
    let args = Vec::from_slice(alloc, args)?;
    let clock = SmallVec::from_slice(alloc, clock)?;
    Ok(FlatEqn {
        targets,
        clock,
        right: FlatRight::Op(op, args),
        restart: Vec::new(alloc),
        at: 0,
    })
}

/// Adds a variable that an operator on the base clock gives its value, and gives its number.
pub fn add_operator(
    alloc: Global,
    ty: FlatTy,
    op: ObcOp,
    args: &[Atom],
    node: &mut FlatNode,
) -> Result<usize, AllocError>
    ensures number { IfOk result (λ number. number ≡ next_variable node.old) }
    ensures node { OnOk result (node.new ≡ with_operator ty op args.now node.old) }
{
    let number = add_variable(alloc, ty, node)?;
    let eqn = operator_eqn(alloc, number, &[], op, args)?;
    add_eqn(eqn, node)?;
    Ok(number)
}

/// Adds a truth value on the base clock that has the value of another one, and gives its variable.
pub fn add_copy(alloc: Global, variable: usize, node: &mut FlatNode) -> Result<usize, AllocError>
    ensures number { IfOk result (λ number. number ≡ next_variable node.old) }
    ensures node { OnOk result (node.new ≡ with_copy variable node.old) }
{
    let args = [Atom::Variable(variable)];
    add_operator(alloc, FlatTy::Bool, ObcOp::Copy, &args, node)
}

/// A value of a type: what a variable holds where its clock is not there.
pub fn some_value(ty: FlatTy) -> Value
    ensures { result ≡ made.some_value ty }
{
    match ty {
        FlatTy::Bool => Value::B(false),
        FlatTy::Int => Value::I(0),
        FlatTy::Enum(number) => Value::E(number, 0),
    }
}
