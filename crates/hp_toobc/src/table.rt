//! Variables by their numbers, and types by theirs.
ghost use Rattle.std.specs.Prelude.{◌≡◌, [], length, get_or, map, IfOk};
ghost use Rattle.hp_toobc.specs.Tables.{name_of, variable_type, type_at, type_of, width_of, constructor_at, constant, argument};

use hp_base::{Const, Name, Ty, Value};
use hp_flat::{Atom, FlatTy, Variable};
use hp_obc::{Arg, ObcType};
use std::alloc::{AllocError, Global};

/// The types of a program and the variables of a node, each by its number.
#[derive(Clone, Copy)]
pub struct Tables<'a> {
    pub types: &'a [ObcType],
    pub variables: &'a [Variable],
}

impl Tables<'_> {
    /// The name of the variable; none has the empty name.
    pub fn name(&self, alloc: Global, variable: usize) -> Result<Name, AllocError>
        ensures { IfOk result (λ name. name ≡ name_of self.now.variables.now variable) }
    {
        if variable < self.variables.len() {
            self.variables[variable].name.copy(alloc)
        } else {
            Name::new(alloc, &[])
        }
    }

    #[tactic(auto, using(crate::proofs::Rules::mapped))]
    pub fn names(&self, alloc: Global, variables: &[usize]) -> Result<Vec<Name>, AllocError>
        ensures { IfOk result (λ names. names.items ≡ map (name_of self.now.variables.now) variables.now) }
    {
        let mut names = Vec::with_capacity(alloc, variables.len())?;
        for variable in variables {
            names.push(self.name(alloc, *variable)?)?;
        }
        Ok(names)
    }

    /// The type of the variable; an integer where there is none.
    pub fn variable_type(&self, variable: usize) -> FlatTy
        ensures { result ≡ variable_type self.now.variables.now variable }
    {
        if variable < self.variables.len() {
            self.variables[variable].ty
        } else {
            FlatTy::Int
        }
    }

    fn type_name(&self, alloc: Global, number: u16) -> Result<Name, AllocError>
        ensures { IfOk result (λ name. name ≡ (type_at self.now.types.now number).name) }
    {
        let number = usize::from(number);
        if number < self.types.len() {
            let ty = &self.types[number];
            ty.name.copy(alloc)
        } else {
            Name::new(alloc, &[])
        }
    }

    pub fn ty(&self, alloc: Global, ty: FlatTy) -> Result<Ty, AllocError>
        ensures { IfOk result (λ made. made ≡ type_of self.now.types.now ty) }
    {
        match ty {
            FlatTy::Bool => Ok(Ty::Bool),
            FlatTy::Int => Ok(Ty::Int),
            FlatTy::Enum(number) => Ok(Ty::Enum(self.type_name(alloc, number)?)),
        }
    }

    fn constructor_count(&self, number: u16) -> usize
        ensures { result ≡ length (type_at self.now.types.now number).cons }
    {
        let number = usize::from(number);
        if number < self.types.len() {
            let ty = &self.types[number];
            ty.cons.len()
        } else {
            0
        }
    }

    /// How many arms a case over the variable has.
    pub fn width(&self, variable: usize) -> usize
        ensures { result ≡ width_of self.now.types.now (variable_type self.now.variables.now variable) }
    {
        match self.variable_type(variable) {
            FlatTy::Bool => 2,
            FlatTy::Int => 0,
            FlatTy::Enum(number) => self.constructor_count(number),
        }
    }

    fn constructor(&self, alloc: Global, number: u16, place: u8) -> Result<Name, AllocError>
        ensures { IfOk result (λ name. name ≡ constructor_at self.now.types.now number place) }
    {
        let number = usize::from(number);
        if number < self.types.len() {
            let ty = &self.types[number];
            name_at(alloc, &ty.cons, usize::from(place))
        } else {
            Name::new(alloc, &[])
        }
    }

    pub fn constant(&self, alloc: Global, value: Value) -> Result<Const, AllocError>
        ensures { IfOk result (λ made. made ≡ constant self.now.types.now value) }
    {
        match value {
            Value::B(b) => Ok(Const::B(b)),
            Value::I(n) => Ok(Const::I(n)),
            Value::E(number, place) => Ok(Const::E(self.constructor(alloc, number, place)?)),
            Value::Absent | Value::Nil | Value::Star => Ok(Const::B(false)),
        }
    }

    pub fn argument(&self, alloc: Global, atom: Atom) -> Result<Arg, AllocError>
        ensures { IfOk result (λ arg. arg ≡ argument self.now.types.now self.now.variables.now atom) }
    {
        match atom {
            Atom::Variable(variable) => Ok(Arg::Name(self.name(alloc, variable)?)),
            Atom::Value(value) => Ok(Arg::Const(self.constant(alloc, value)?)),
        }
    }

    #[tactic(auto, using(crate::proofs::Rules::mapped))]
    pub fn arguments(&self, alloc: Global, atoms: &[Atom]) -> Result<Vec<Arg>, AllocError>
        ensures { IfOk result (λ args. args.items ≡ map (argument self.now.types.now self.now.variables.now) atoms.now) }
    {
        let mut args = Vec::with_capacity(alloc, atoms.len())?;
        for atom in atoms {
            args.push(self.argument(alloc, *atom)?)?;
        }
        Ok(args)
    }
}

/// The name at a place; the empty name where there is none.
fn name_at(alloc: Global, names: &[Name], place: usize) -> Result<Name, AllocError>
    ensures { IfOk result (λ name. name ≡ get_or names.now place []) }
{
    if place < names.len() {
        names[place].copy(alloc)
    } else {
        Name::new(alloc, &[])
    }
}
