//! What is known at a place of a node.
ghost use Rattle.std.specs.Prelude.{◌≡◌, option_map, IfOk, OnOk};
ghost use Rattle.hp_automata.specs.Lowering.{declaring, type_of, first_of, first_constructor, some_constant};
ghost use Rattle.hp_automata.specs.Names.{is_name};
ghost use Rattle.hp_automata.specs.Held.{said, read_in, kept_in};
ghost use Rattle.hp_automata.specs.Lists.{names_seen};

use crate::names::Names;
use crate::new_names::value_name;
use hp_base::known::Known;
use hp_base::{Const, Name, Ty};
use hp_tables::renaming::Renaming;
use hp_tree::{Decl, TypeDecl};
use std::alloc::{AllocError, Global};

/// The enumerations of a program.
pub type Enums<'a> = Known<'a, TypeDecl>;

/// A state of an automaton, whose names have values of their own.
#[derive(Drop)]
pub struct Layer<'a> {
    /// The names that the automaton defines.
    pub names: Names<'a>,
    /// How many automata are around it.
    pub depth: u64,
    /// The number of the state.
    pub state: u64,
}

impl<'a> Layer<'a> {
    pub fn new(
        alloc: Global,
        names: &[&'a Name],
        depth: u64,
        state: u64,
    ) -> Result<Layer<'a>, AllocError>
        ensures names { IfOk result (λ layer. is_name (names_seen layer.names.names.items) ≡ is_name (names_seen names.now)) }
        ensures depth { IfOk result (λ layer. layer.depth ≡ depth) }
        ensures state { IfOk result (λ layer. layer.state ≡ state) }
    {
        let names = Names::once(alloc, names)?;
        Ok(Layer {
            names,
            depth,
            state,
        })
    }
}

/// What stands for the name where these layers are, the outermost first.
#[tactic(auto, using(crate::proofs::Rules::layers))]
pub fn said(alloc: Global, layers: &[Layer<'_>], name: &Name) -> Result<Name, AllocError>
    ensures { IfOk result (λ other. other ≡ said layers.now name.now) }
{
    let mut i = layers.len();
    while i > 0 {
        i -= 1;
        let layer = &layers[i];
        if layer.names.has(name) {
            return value_name(alloc, layer.depth, layer.state, name.bytes());
        }
    }
    name.copy(alloc)
}

/// The states around a place, the outermost first, whose values stand for names that are read.
#[derive(Clone, Copy)]
pub struct States<'t> {
    pub layers: &'t [Layer<'t>],
}

impl Renaming for States<'_> {
    ghost reads = { read_in };

    ghost declares = { kept_in };

    fn read(&self, alloc: Global, name: &Name) -> Result<Name, AllocError> {
        said(alloc, self.layers, name)
    }

    fn declared(&self, alloc: Global, name: &Name) -> Result<Name, AllocError> {
        name.copy(alloc)
    }
}

/// What is known at a place of a node.
#[derive(Drop)]
pub struct Around<'a> {
    /// The types of the variables in scope.
    pub types: Known<'a, Ty>,
    /// The states around, the outermost first.
    pub layers: Vec<Layer<'a>>,
}

/// Puts the variables in scope.
#[tactic(auto, using(crate::proofs::Rules::declared))]
pub fn declare<'a>(types: &mut Known<'a, Ty>, decls: &'a [Decl]) -> Result<(), AllocError>
    ensures { OnOk result (types.new ≡ declaring types.old decls.now) }
{
    for decl in decls {
        types.add(&decl.name, &decl.ty)?;
    }
    Ok(())
}

fn first_name(alloc: Global, names: &[Name]) -> Result<Name, AllocError>
    ensures { IfOk result (λ name. name ≡ first_of names.now) }
{
    match names {
        [] => Name::new(alloc, &[]),
        [first, ..] => first.copy(alloc),
    }
}

/// The first constructor.
fn first_constructor(alloc: Global, declared: Option<&TypeDecl>) -> Result<Name, AllocError>
    ensures { IfOk result (λ name. name ≡ first_constructor (option_map (λ t. t.now) declared.entry)) }
{
    match declared {
        None => Name::new(alloc, &[]),
        Some(declared) => first_name(alloc, &declared.cons),
    }
}

/// A constant of the type.
pub fn some_constant(alloc: Global, enums: &Enums<'_>, ty: &Ty) -> Result<Const, AllocError>
    ensures { IfOk result (λ constant. constant ≡ some_constant enums.now ty.now) }
{
    match ty {
        Ty::Bool => Ok(Const::B(false)),
        Ty::Int => Ok(Const::I(0)),
        Ty::Enum(name) => Ok(Const::E(first_constructor(alloc, enums.get(name))?)),
    }
}

/// The type of a name in scope.
pub fn type_of(alloc: Global, types: &Known<'_, Ty>, name: &Name) -> Result<Ty, AllocError>
    ensures { IfOk result (λ ty. ty ≡ type_of types.now name.now) }
{
    match types.get(name) {
        None => Ok(Ty::Bool),
        Some(ty) => ty.copy(alloc),
    }
}
