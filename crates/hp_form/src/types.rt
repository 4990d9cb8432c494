//! The types of a file, ready to be looked up.
ghost use Rattle.std.specs.Prelude.{◌≡◌, ◌++◌, ◌∷◌, [], true, Ok, is_some, option_map, length, IfOk, IfSome};
ghost use Rattle.std.specs.Bool.{Decides};
ghost use Rattle.std.specs.List.{list_all};
ghost use Rattle.hp_obc.specs.Values.{kind_of};
ghost use Rattle.hp_obc.specs.Form.{TypesForm, constructors_of, constant_kind, arms_for, is_constructor};
ghost use Rattle.hp_form.specs.declared.kind.Kind.TheVariants.{Enum};
ghost use Rattle.hp_form.specs.Kinds.{maybe_at, kind_at, cons_at, numbered, held, all_at, has_few_constructors};
ghost use Rattle.hp_form.specs.Declaring.{keys, IsNew, TypeIsNew, TypesAreNew, ConstructorsAreNew};

use crate::kind::Kind;
use crate::numbers::Numbers;
use crate::spelling::{is_constructor, is_name};
use hp_base::{Const, Name, Ty};
use hp_obc::ObcType;
use std::alloc::{AllocError, Global};

/// The types of a file, by their names and by those of their constructors.
#[derive(Drop)]
pub struct Types<'a> {
    pub declared: &'a [ObcType],
    names: Numbers<'a>,
    constructors: Numbers<'a>,
    ghost named: { names ≡ numbered 0 declared.now },
    ghost holding: { constructors ≡ held 0 declared.now },
}

fn add_type<'a>(
    declared: &'a ObcType,
    number: usize,
    names: &mut Numbers<'a>,
) -> Result<bool, AllocError>
    ensures new { IfOk result (λ b. Decides b (TypeIsNew (keys names.old) declared.now)) }
    ensures added { result ≡ Ok true → names.new ≡ names.old ++ (declared.now.name, number) ∷ [] }
{
    if !is_name(&declared.name) {
        return Ok(false);
    }
    let fresh = names.add(&declared.name, number)?;
    Ok(fresh)
}

/// Numbers the types by their names, and answers whether these are names that differ.
fn add_types<'a>(types: &'a [ObcType], names: &mut Numbers<'a>) -> Result<bool, AllocError>
    requires { names.old ≡ [] }
    ensures new { IfOk result (λ b. Decides b (TypesAreNew [] types.now)) }
    ensures added { result ≡ Ok true → names.new ≡ numbered 0 types.now }
{
    for i in 0..types.len() {
        let declared = &types[i];
        if !add_type(declared, i, names)? {
            return Ok(false);
        }
    }
    Ok(true)
}

fn add_constructor<'a>(
    name: &'a Name,
    number: usize,
    constructors: &mut Numbers<'a>,
) -> Result<bool, AllocError>
    ensures new { IfOk result (λ b. Decides b (IsNew is_constructor (keys constructors.old) name.now)) }
    ensures added { result ≡ Ok true → constructors.new ≡ constructors.old ++ (name.now, number) ∷ [] }
{
    if !is_constructor(name) {
        return Ok(false);
    }
    let fresh = constructors.add(name, number)?;
    Ok(fresh)
}

fn add_constructors_of<'a>(
    names: &'a [Name],
    number: usize,
    constructors: &mut Numbers<'a>,
) -> Result<bool, AllocError>
    ensures new { IfOk result (λ b. Decides b (ConstructorsAreNew (keys constructors.old) names.now)) }
    ensures added { result ≡ Ok true → constructors.new ≡ constructors.old ++ all_at number names.now }
{
    for i in 0..names.len() {
        let name = &names[i];
        if !add_constructor(name, number, constructors)? {
            return Ok(false);
        }
    }
    Ok(true)
}

/// Gives constructors the numbers of their types, and answers whether these are names that differ.
fn add_constructors<'a>(
    types: &'a [ObcType],
    constructors: &mut Numbers<'a>,
) -> Result<bool, AllocError>
    requires { constructors.old ≡ [] }
    ensures new { IfOk result (λ b. Decides b (ConstructorsAreNew [] (constructors_of types.now))) }
    ensures added { result ≡ Ok true → constructors.new ≡ held 0 types.now }
{
    for i in 0..types.len() {
        let declared = &types[i];
        if !add_constructors_of(&declared.cons, i, constructors)? {
            return Ok(false);
        }
    }
    Ok(true)
}

fn has_few_constructors(declared: &ObcType) -> bool
    ensures { result ≡ has_few_constructors declared.now }
{
    1 <= declared.cons.len() && declared.cons.len() <= 64
}

fn have_few_constructors(types: &[ObcType]) -> bool
    ensures { result ≡ list_all has_few_constructors types.now }
{
    types.iter().all(|declared| has_few_constructors(declared))
}

/// Numbers types and constructors by their names, and answers whether the types have form.
fn add_all<'a>(
    types: &'a [ObcType],
    names: &mut Numbers<'a>,
    constructors: &mut Numbers<'a>,
) -> Result<bool, AllocError>
    requires names { names.old ≡ [] }
    requires constructors { constructors.old ≡ [] }
    ensures form { IfOk result (λ b. Decides b (TypesForm types.now)) }
    ensures names { result ≡ Ok true → names.new ≡ numbered 0 types.now }
    ensures constructors { result ≡ Ok true → constructors.new ≡ held 0 types.now }
{
    if types.len() > 1000 {
        return Ok(false);
    }
    if !have_few_constructors(types) {
        return Ok(false);
    }
    if !add_types(types, names)? {
        return Ok(false);
    }
    let new = add_constructors(types, constructors)?;
    Ok(new)
}

/// The kind of the type with a number, if there is one.
fn numbered_kind(number: Option<usize>) -> Option<Kind>
    ensures { result ≡ option_map Enum number }
{
    match number {
        None => None,
        Some(number) => Some(Kind::Enum(number)),
    }
}

/// How many constructors the type with a number has.
fn count(types: &[ObcType], number: usize) -> usize
    ensures { result ≡ length (cons_at types.now number) }
{
    match types.get(number) {
        None => 0,
        Some(declared) => declared.cons.len(),
    }
}

impl<'a> Types<'a> {
    /// The types, where they have form.
    pub fn new(alloc: Global, types: &'a [ObcType]) -> Result<Option<Types<'a>>, AllocError>
        ensures form { IfOk result (λ o. Decides (is_some o) (TypesForm types.now)) }
        ensures of { IfOk result (λ o. IfSome o (λ t. t.declared.now ≡ types.now)) }
    {
        let mut names = Numbers::new(alloc);
        let mut constructors = Numbers::new(alloc);
        if !add_all(types, &mut names, &mut constructors)? {
            return Ok(None);
        }
        Ok(Some(Types {
            declared: types,
            names,
            constructors,
        }))
    }

    /// The kind of a type, if it is declared.
    #[tactic(auto, using(crate::proofs::Rules::told))]
    pub fn kind(&self, ty: &Ty) -> Option<Kind>
        ensures { maybe_at self.now.declared.now result ≡ kind_of self.now.declared.now ty.now }
    {
        match ty {
            Ty::Bool => Some(Kind::Bool),
            Ty::Int => Some(Kind::Int),
            Ty::Enum(name) => numbered_kind(self.names.get(name)),
        }
    }

    /// The kind of a constant, if it has one.
    #[tactic(auto, using(crate::proofs::Rules::told))]
    pub fn constant(&self, constant: &Const) -> Option<Kind>
        ensures { maybe_at self.now.declared.now result ≡ constant_kind self.now.declared.now constant.now }
    {
        match constant {
            Const::B(_) => Some(Kind::Bool),
            Const::I(n) => {
                let _integer = *n;
                Some(Kind::Int)
            }
            Const::E(name) => numbered_kind(self.constructors.get(name)),
        }
    }

    /// How many arms a case over a kind has.
    pub fn arms(&self, kind: Kind) -> Option<usize>
        ensures { result ≡ arms_for (kind_at self.now.declared.now kind) }
    {
        match kind {
            Kind::Bool => Some(2),
            Kind::Int => None,
            Kind::Enum(number) => Some(count(self.declared, number)),
        }
    }
}
