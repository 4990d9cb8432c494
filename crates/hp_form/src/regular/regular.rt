//! Tests of clocked equations.
ghost use Rattle.std.specs.Prelude.{◌↔◌, ◌<◌, ◌∷◌, [], length, IsTrue};
ghost use Rattle.std.specs.List.{AllByRecursion};
ghost use Rattle.hp_flat.specs.EquationView.{right_seen};
ghost use Rattle.law_equations.specs.Followed.Premises.{IsOfTypes, constants_in, constants_of};
ghost use Rattle.law_equations.specs.Fewer.Compiling.{CopyAgrees};
ghost use Rattle.hp_normal.specs.Reading.{copy_of};
ghost use Rattle.hp_form.specs.Regular.Regular.{EqnIsRegular, EqnsRegular, IsSmall};
ghost use Rattle.hp_toobc.specs.Stepping.{AreWide};
ghost use Rattle.hp_toobc.specs.Tables.{type_at};

use hp_base::Value;
use hp_flat::{Atom, FlatEqn, FlatNode, FlatRight};
use hp_normal::copy_of;
use hp_obc::ObcType;
use hp_toobc::Tables;

/// The most equations, and variables, that names of memories and instances tell apart.
const MOST: u64 = 10_000_000_000_000;

/// Whether each variable of a clock has a type with the constructor of its number.
fn is_wide(tables: &Tables<'_>, clock: &[(usize, u8)]) -> bool
    ensures { IsTrue result ↔ AreWide tables.now.types.now tables.now.variables.now clock.now }
{
    for i in 0..clock.len() {
        let (variable, number) = clock[i];
        if usize::from(number) >= tables.width(variable) {
            return false;
        }
    }
    true
}

/// Whether a value is one of the types.
fn is_of_types(types: &[ObcType], value: Value) -> bool
    ensures { IsTrue result ↔ IsOfTypes types.now value }
{
    match value {
        Value::B(_) => true,
        // An integer is one of 32 bits by its type.
        Value::I(_) => true,
        Value::E(number, place) => has_constructor(types, number, place),
        Value::Absent | Value::Nil | Value::Star => false,
    }
}

fn has_constructor(types: &[ObcType], number: u16, place: u8) -> bool
    ensures { IsTrue result ↔ (place < length (type_at types.now number).cons) }
{
    let number = usize::from(number);
    if number < types.len() {
        let ty = &types[number];
        usize::from(place) < ty.cons.len()
    } else {
        false
    }
}

/// Whether what is read is a variable, or a value of the types.
fn is_told(types: &[ObcType], atom: Atom) -> bool
    ensures { IsTrue result ↔ AllByRecursion (IsOfTypes types.now) (constants_in (atom ∷ [])) }
{
    match atom {
        Atom::Variable(_) => true,
        Atom::Value(value) => is_of_types(types, value),
    }
}

fn are_told(types: &[ObcType], atoms: &[Atom]) -> bool
    ensures { IsTrue result ↔ AllByRecursion (IsOfTypes types.now) (constants_in atoms.now) }
{
    for i in 0..atoms.len() {
        if !is_told(types, atoms[i]) {
            return false;
        }
    }
    true
}

/// Whether the constants of a right side are of the types.
fn has_told_constants(types: &[ObcType], right: &FlatRight) -> bool
    ensures { IsTrue result ↔ AllByRecursion (IsOfTypes types.now) (constants_of (right_seen right.now)) }
{
    match right {
        FlatRight::Op(_, args) => are_told(types, args),
        FlatRight::Register { first, next } => is_of_types(types, *first) && is_told(types, *next),
        FlatRight::Call { node: _, args } => are_told(types, args),
    }
}

/// Whether a copy has the type of what it copies.
fn copy_agrees(tables: &Tables<'_>, copy: Option<(usize, Atom)>) -> bool
    ensures { IsTrue result ↔ CopyAgrees tables.now.variables.now copy }
{
    match copy {
        Some((target, Atom::Variable(source))) => {
            tables.variable_type(target) == tables.variable_type(source)
        }
        _ => true,
    }
}

fn eqn_is_regular(tables: &Tables<'_>, eqn: &FlatEqn) -> bool
    ensures { IsTrue result ↔ EqnIsRegular tables.now.types.now tables.now.variables.now eqn.now }
{
    is_wide(tables, &eqn.clock)
        && has_told_constants(tables.types, &eqn.right)
        && copy_agrees(tables, copy_of(eqn))
}

fn all_regular(tables: &Tables<'_>, eqns: &[FlatEqn]) -> bool
    ensures { IsTrue result ↔ AllByRecursion (EqnIsRegular tables.now.types.now tables.now.variables.now) eqns.now }
{
    for i in 0..eqns.len() {
        if !eqn_is_regular(tables, &eqns[i]) {
            return false;
        }
    }
    true
}

/// Whether the equations of a node are regular, over these types: clocks name constructors that types have, constants are of the types, and copies have the types of
/// what they copy. It takes no memory.
pub fn is_regular(node: &FlatNode, types: &[ObcType]) -> bool
    ensures { IsTrue result ↔ EqnsRegular types.now node.now }
{
    let tables = Tables {
        types,
        variables: &node.variables,
    };
    all_regular(&tables, &node.eqns)
}

/// Whether the equations and variables of a node are no more than names of memories and instances tell apart. There is no memory for more: an address has 47 bits, and each equation takes some
/// tens of bytes.
pub fn is_small(node: &FlatNode) -> bool
    ensures { IsTrue result ↔ IsSmall node.now }
{
    node.eqns.len() as u64 <= MOST && node.variables.len() as u64 <= MOST
}
