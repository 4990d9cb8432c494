ghost use Rattle.std.specs.Prelude.{◌≡◌, ◌++◌, ◌≤◌, ◌<◌, ◌∷◌, [], map, length, IfOk, OnOk, ℕ, List};
ghost use Rattle.std.specs.List.{IsDistinct};
ghost use Rattle.std.specs.Str.{bytes_eq};
ghost use Rattle.hp_obc.specs.Form.{TypesForm, constructors_of};
ghost use Rattle.hp_obc.specs.Machines.{ObcType};
ghost use Rattle.hp_exec.specs.Naming.{names_in};
ghost use Rattle.hp_exec.specs.Typing.{HoldsTypes, constant_in, first_in, constructors_from, all_constructors, first_constructors, value_at, kind_found};
ghost use Rattle.hp_base.specs.Kinds.{kind_seen};

use crate::names::{add, find};
use hp_base::{Const, Kind, Name, Ty, Value, copy_names};
use hp_obc::ObcType;
use indexmap::IndexSet;
use std::alloc::{AllocError, Global};

/// The types of a file, ready to be looked up.
#[derive(Drop)]
pub struct Types<'a> {
    declared: &'a [ObcType],
    names: IndexSet<&'a [u8]>,
    /// The first constructor of each type.
    firsts: Vec<Value>,
    constructors: IndexSet<&'a [u8]>,
    /// The constructors as values.
    values: Vec<Value>,
}

/// Adds the constructors of the type with a number.
#[tactic(auto, using(crate::proofs::Rules::namings))]
fn add_constructors<'a>(
    number: u16,
    cons: &'a [Name],
    constructors: &mut IndexSet<&'a [u8]>,
    values: &mut Vec<Value>,
) -> Result<(), AllocError>
    requires few { length cons.now ≤ 64 }
    requires distinct { IsDistinct bytes_eq (names_in constructors.old ++ cons.now) }
    ensures constructors { OnOk result (names_in constructors.new ≡ names_in constructors.old ++ cons.now) }
    ensures values { OnOk result (values.new.items ≡ values.old.items ++ constructors_from number 0 cons.now) }
{
    for (c, name) in cons.iter().enumerate() {
        add(constructors, name)?;
        values.push(Value::E(number, c as u8))?;
    }
    Ok(())
}

impl<'a> Types<'a> {
    /// The types of a file.
    #[tactic(auto, using(crate::proofs::Rules::namings))]
    pub fn new(alloc: Global, types: &'a [ObcType]) -> Result<Types<'a>, AllocError>
        requires { TypesForm types.now }
        ensures { IfOk result (HoldsTypes types.now) }
    {
        let mut names = IndexSet::new(alloc);
        let mut firsts = Vec::new(alloc);
        let mut constructors = IndexSet::new(alloc);
        let mut values = Vec::new(alloc);
        for (n, declared) in types.iter().enumerate() {
            let number = n as u16;
            add(&mut names, &declared.name)?;
            firsts.push(Value::E(number, 0))?;
            add_constructors(number, &declared.cons, &mut constructors, &mut values)?;
        }
        Ok(Types {
            declared: types,
            names,
            firsts,
            constructors,
            values,
        })
    }

    /// The kind of a type that is declared.
    pub fn kind(&self, alloc: Global, ty: &Ty) -> Result<Kind, AllocError>
        ensures { IfOk result (λ kind. kind_seen kind ≡ kind_found self.now ty.now) }
    {
        match ty {
            Ty::Bool => Ok(Kind::Bool),
            Ty::Int => Ok(Kind::Int),
            Ty::Enum(name) => match find(&self.names, name) {
                Some(n) if n < self.declared.len() && n < 65_536 => {
                    let declared = &self.declared[n];
                    Ok(Kind::Enum {
                        number: n as u16,
                        cons: copy_names(alloc, &declared.cons)?,
                    })
                }
                _ => Ok(Kind::Bool),
            },
        }
    }

    /// The value of a constant.
    pub fn constant(&self, constant: &Const) -> Value
        ensures { result ≡ constant_in self.now constant.now }
    {
        match constant {
            Const::B(b) => Value::B(*b),
            Const::I(n) => Value::I(*n),
            Const::E(name) => value_at(find(&self.constructors, name), &self.values),
        }
    }

    /// What a variable of the type holds before the commands of a step.
    pub fn first(&self, ty: &Ty) -> Value
        ensures { result ≡ first_in self.now ty.now }
    {
        match ty {
            Ty::Bool => Value::B(false),
            Ty::Int => Value::I(0),
            Ty::Enum(name) => value_at(find(&self.names, name), &self.firsts),
        }
    }
}

fn value_at(place: Option<usize>, values: &[Value]) -> Value
    ensures { result ≡ value_at place values.now }
{
    place
        .and_then(|k| values.get(k).copied())
        .unwrap_or(Value::Absent)
}
