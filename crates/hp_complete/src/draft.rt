//! A node in the making.
ghost use Rattle.std.specs.Prelude.{◌≡◌, ◌∷◌, [], None, Some, codes, nat_eq, length, IfOk, OnOk};
ghost use Rattle.hp_base.specs.declared.value.Value.TheVariants.{B};
ghost use Rattle.hp_flat.specs.declared.equation.Atom.TheVariants.{Variable as Read, Value as Fixed};
ghost use Rattle.hp_flat.specs.declared.node.FlatTy.TheVariants.{Bool};
ghost use Rattle.hp_flat.specs.Equations.{operator, register};
ghost use Rattle.hp_flat.specs.EquationView.{right_seen};
ghost use Rattle.hp_obc.specs.declared.command.ObcOp.TheVariants.{Copy};
ghost use Rattle.law_equations.specs.Made.Making.{atom_of, bind, block_flag, cons_number, constant_value, copy_of, first_value, flag_at, flat_type, mux_at, named_value, new_flag, next, nothing_made, read_at, register_at, type_at, type_of_value, value_of, with_eqn, with_flag, with_new, with_variable};
ghost use Rattle.hp_complete.specs.Drafts.{place_of, sketch_of};
ghost use Rattle.hp_complete.specs.Places.{sees, start};
ghost use Rattle.hp_tables.specs.Declarations.Seen.{node_seen};
ghost use Rattle.hp_complete.specs.Tables.{known_in};

use crate::declared::Declared;
use crate::layer::{Entry, Layer, sight};
use crate::naming::new_name;
use hp_base::{Const, Name, Ty, Value};
use hp_flat::{Atom, FlatEqn, FlatRight, FlatTy, Variable};
use hp_obc::ObcOp;
use hp_tree::{Cons, Node};
use smallvec::SmallVec;
use std::alloc::{AllocError, Global};

/// The variables and equations of a node that are made so far, and the place of the tree at which the next ones are made.
#[derive(Drop)]
pub struct Draft<'d, 'a> {
    pub alloc: Global,
    pub declared: &'d Declared<'a>,
    pub variables: Vec<Variable>,
    pub eqns: Vec<FlatEqn>,
    /// What names stand for around the innermost block or control equation, the outermost first.
    pub layers: Vec<Layer<'a>>,
    /// What they stand for in it.
    pub own: Layer<'a>,
    /// The clock of the place, outermost first, of which the block has the first `base` steps.
    pub clock: Vec<(usize, u8)>,
    pub base: usize,
    /// The variables at which the place begins anew.
    pub restart: Vec<usize>,
    /// Whether the block is there for the first time since it began anew.
    pub flag: Option<usize>,
}

/// What reads a variable, where there is one.
fn atom(variable: Option<usize>) -> Atom
    ensures { result ≡ atom_of variable }
{
    match variable {
        None => Atom::Value(Value::Absent),
        Some(number) => Atom::Variable(number),
    }
}

/// The first value of a type.
pub fn first_value(ty: FlatTy) -> Value
    ensures { result ≡ first_value ty }
{
    match ty {
        FlatTy::Bool => Value::B(false),
        FlatTy::Int => Value::I(0),
        FlatTy::Enum(number) => Value::E(number, 0),
    }
}

/// The type of a value.
fn type_of(value: Value) -> FlatTy
    ensures { result ≡ type_of_value value }
{
    match value {
        Value::I(_) => FlatTy::Int,
        Value::E(number, _) => FlatTy::Enum(number),
        _ => FlatTy::Bool,
    }
}

impl<'d, 'a> Draft<'d, 'a> {
    #[tactic(auto, unfolding(crate::specs::Drafts::place_of, crate::specs::Drafts::sketch_of))]
    pub fn new(alloc: Global, declared: &'d Declared<'a>) -> Draft<'d, 'a>
        ensures sketch { sketch_of result ≡ nothing_made }
        ensures place { place_of result ≡ start (known_in declared.now) }
    {
        Draft {
            alloc,
            declared,
            variables: Vec::new(alloc),
            eqns: Vec::new(alloc),
            layers: Vec::new(alloc),
            own: Layer::new(alloc),
            clock: Vec::new(alloc),
            base: 0,
            restart: Vec::new(alloc),
            flag: None,
        }
    }

    /// How many variables there are.
    #[tactic(auto, unfolding(crate::specs::Drafts::sketch_of))]
    pub fn len(&self) -> usize
        ensures { result ≡ next (sketch_of self.now) }
    {
        self.variables.len()
    }

    /// The type of a variable.
    #[tactic(auto, unfolding(crate::specs::Drafts::sketch_of))]
    pub fn ty(&self, variable: usize) -> FlatTy
        ensures { result ≡ type_at (sketch_of self.now) variable }
    {
        if variable < self.variables.len() {
            return self.variables[variable].ty;
        }
        FlatTy::Bool
    }

    /// The type by its number.
    #[tactic(auto, unfolding(crate::specs::Drafts::place_of))]
    pub fn flat_ty(&self, ty: &Ty) -> FlatTy
        ensures { result ≡ flat_type (place_of self.now).known.types ty.now }
    {
        self.declared.ty(ty)
    }

    /// The value of a constant.
    #[tactic(auto, unfolding(crate::specs::Drafts::place_of))]
    pub fn value_of(&self, constant: &Const) -> Value
        ensures { result ≡ constant_value (place_of self.now).known constant.now }
    {
        self.declared.constant(constant)
    }

    /// The number of what a clock or an arm compares with.
    #[tactic(auto, unfolding(crate::specs::Drafts::place_of))]
    pub fn number(&self, cons: &Cons) -> u8
        ensures { result ≡ cons_number (place_of self.now).known cons.now }
    {
        self.declared.number(cons)
    }

    /// The node of a name.
    #[tactic(auto, unfolding(crate::specs::Drafts::place_of))]
    pub fn node(&self, name: &Name) -> Option<&'a Node>
        ensures { node_seen result ≡ (place_of self.now).known.nodes name.now }
    {
        self.declared.node(name)
    }

    /// What the name stands for.
    #[tactic(auto, unfolding(crate::specs::Drafts::place_of), using(crate::proofs::Rules::sights))]
    pub fn sight(&self, name: &[u8]) -> Entry
        ensures ty { result.ty ≡ (sees (place_of self.now) name.now).ty }
        ensures value { result.value ≡ (sees (place_of self.now) name.now).value }
        ensures last { result.last ≡ (sees (place_of self.now) name.now).last }
        ensures is_local { result.is_local ≡ (sees (place_of self.now) name.now).is_local }
    {
        match self.own.of(name) {
            None => sight(&self.layers, name),
            Some(entry) => entry,
        }
    }

    /// One more variable, and its number.
    #[tactic(auto, unfolding(crate::specs::Drafts::place_of, crate::specs::Drafts::sketch_of))]
    fn add_variable(&mut self, name: Name, ty: FlatTy) -> Result<usize, AllocError>
        ensures sketch { OnOk result (sketch_of self.new ≡ with_variable name ty (sketch_of self.old)) }
        ensures number { IfOk result (λ x. x ≡ next (sketch_of self.old)) }
        ensures place { OnOk result (place_of self.new ≡ place_of self.old) }
    {
        let number = self.variables.len();
        self.variables.push(Variable { name, ty })?;
        Ok(number)
    }

    /// One more variable, of this name.
    pub fn add_named(&mut self, name: &Name, ty: FlatTy) -> Result<usize, AllocError>
        ensures sketch { OnOk result (sketch_of self.new ≡ with_variable name.now ty (sketch_of self.old)) }
        ensures number { IfOk result (λ x. x ≡ next (sketch_of self.old)) }
        ensures place { OnOk result (place_of self.new ≡ place_of self.old) }
    {
        let copy = name.copy(self.alloc)?;
        let variable = self.add_variable(copy, ty)?;
        Ok(variable)
    }

    /// One more variable, whose name is made of this one and its number.
    pub fn add_new(&mut self, name: &[u8], ty: FlatTy) -> Result<usize, AllocError>
        ensures sketch { OnOk result (sketch_of self.new ≡ with_new name.now ty (sketch_of self.old)) }
        ensures number { IfOk result (λ x. x ≡ next (sketch_of self.old)) }
        ensures place { OnOk result (place_of self.new ≡ place_of self.old) }
    {
        let number = self.len() as u64;
        let made = new_name(self.alloc, name, number)?;
        let variable = self.add_variable(made, ty)?;
        Ok(variable)
    }

    /// An equation at this place.
    #[tactic(auto, unfolding(crate::specs::Drafts::place_of, crate::specs::Drafts::sketch_of))]
    pub fn add_eqn(&mut self, targets: Vec<usize>, right: FlatRight) -> Result<(), AllocError>
        ensures sketch { OnOk result (sketch_of self.new ≡ with_eqn (place_of self.old).site targets.items (right_seen right) (sketch_of self.old)) }
        ensures place { OnOk result (place_of self.new ≡ place_of self.old) }
    {
        let clock = SmallVec::from_slice(self.alloc, &self.clock)?;
        let restart = Vec::from_slice(self.alloc, &self.restart)?;
        self.eqns.push(FlatEqn {
            targets,
            clock,
            right,
            restart,
            at: 0,
        })?;
        Ok(())
    }

    /// The equation of one variable.
    fn define(&mut self, target: usize, right: FlatRight) -> Result<(), AllocError>
        ensures sketch { OnOk result (sketch_of self.new ≡ with_eqn (place_of self.old).site (target ∷ []) (right_seen right) (sketch_of self.old)) }
        ensures place { OnOk result (place_of self.new ≡ place_of self.old) }
    {
        let mut targets = Vec::new(self.alloc);
        targets.push(target)?;
        self.add_eqn(targets, right)?;
        Ok(())
    }

    /// A new variable, whose name is made of this one, with its equation.
    fn named_value(
        &mut self,
        name: &[u8],
        ty: FlatTy,
        right: FlatRight,
    ) -> Result<usize, AllocError>
        ensures sketch { OnOk result (sketch_of self.new ≡ (named_value (place_of self.old).site name.now ty (right_seen right) (sketch_of self.old)).0) }
        ensures number { IfOk result (λ x. x ≡ (named_value (place_of self.old).site name.now ty (right_seen right) (sketch_of self.old)).1) }
        ensures place { OnOk result (place_of self.new ≡ place_of self.old) }
    {
        let variable = self.add_new(name, ty)?;
        self.define(variable, right)?;
        Ok(variable)
    }

    /// A new variable for the value of an expression, with its equation.
    fn value(&mut self, ty: FlatTy, right: FlatRight) -> Result<usize, AllocError>
        ensures sketch { OnOk result (sketch_of self.new ≡ (value_of (place_of self.old).site ty (right_seen right) (sketch_of self.old)).0) }
        ensures number { IfOk result (λ x. x ≡ (value_of (place_of self.old).site ty (right_seen right) (sketch_of self.old)).1) }
        ensures place { OnOk result (place_of self.new ≡ place_of self.old) }
    {
        let variable = self.named_value(b"e", ty, right)?;
        Ok(variable)
    }

    /// The variable takes the value of this atom.
    fn assign(&mut self, target: usize, atom: Atom) -> Result<(), AllocError>
        ensures sketch { OnOk result (sketch_of self.new ≡ with_eqn (place_of self.old).site (target ∷ []) (copy_of atom) (sketch_of self.old)) }
        ensures place { OnOk result (place_of self.new ≡ place_of self.old) }
    {
        let mut args = Vec::new(self.alloc);
        args.push(atom)?;
        self.define(target, FlatRight::Op(ObcOp::Copy, args))?;
        Ok(())
    }

    /// The variable takes the value of another.
    pub fn copy_to(&mut self, target: usize, source: usize) -> Result<(), AllocError>
        ensures sketch { OnOk result (sketch_of self.new ≡ with_eqn (place_of self.old).site (target ∷ []) (copy_of (Read source)) (sketch_of self.old)) }
        ensures place { OnOk result (place_of self.new ≡ place_of self.old) }
    {
        self.assign(target, Atom::Variable(source))?;
        Ok(())
    }

    /// The variable, if there is one, takes the value of another, if there is one, and else is absent.
    pub fn bind(&mut self, target: Option<usize>, source: Option<usize>) -> Result<(), AllocError>
        ensures sketch { OnOk result (sketch_of self.new ≡ bind (place_of self.old).site target source (sketch_of self.old)) }
        ensures place { OnOk result (place_of self.new ≡ place_of self.old) }
    {
        match target {
            None => Ok(()),
            Some(target) => {
                self.assign(target, atom(source))?;
                Ok(())
            }
        }
    }

    /// The value of a variable, if there is one, at this place.
    pub fn read(&mut self, source: Option<usize>, ty: FlatTy) -> Result<usize, AllocError>
        ensures sketch { OnOk result (sketch_of self.new ≡ (read_at (place_of self.old).site source ty (sketch_of self.old)).0) }
        ensures number { IfOk result (λ x. x ≡ (read_at (place_of self.old).site source ty (sketch_of self.old)).1) }
        ensures place { OnOk result (place_of self.new ≡ place_of self.old) }
    {
        let mut args = Vec::new(self.alloc);
        args.push(atom(source))?;
        let variable = self.value(ty, FlatRight::Op(ObcOp::Copy, args))?;
        Ok(variable)
    }

    /// A constant at this place.
    pub fn constant(&mut self, value: Value) -> Result<usize, AllocError>
        ensures sketch { OnOk result (sketch_of self.new ≡ (value_of (place_of self.old).site (type_of_value value) (copy_of (Fixed value)) (sketch_of self.old)).0) }
        ensures number { IfOk result (λ x. x ≡ (value_of (place_of self.old).site (type_of_value value) (copy_of (Fixed value)) (sketch_of self.old)).1) }
        ensures place { OnOk result (place_of self.new ≡ place_of self.old) }
    {
        let mut args = Vec::new(self.alloc);
        args.push(Atom::Value(value))?;
        let variable = self.value(type_of(value), FlatRight::Op(ObcOp::Copy, args))?;
        Ok(variable)
    }

    /// An operator on one variable.
    pub fn one(&mut self, op: ObcOp, ty: FlatTy, a: usize) -> Result<usize, AllocError>
        ensures sketch { OnOk result (sketch_of self.new ≡ (value_of (place_of self.old).site ty (operator op (Read a ∷ [])) (sketch_of self.old)).0) }
        ensures number { IfOk result (λ x. x ≡ (value_of (place_of self.old).site ty (operator op (Read a ∷ [])) (sketch_of self.old)).1) }
        ensures place { OnOk result (place_of self.new ≡ place_of self.old) }
    {
        let mut args = Vec::new(self.alloc);
        args.push(Atom::Variable(a))?;
        let variable = self.value(ty, FlatRight::Op(op, args))?;
        Ok(variable)
    }

    /// An operator on two variables.
    pub fn two(&mut self, op: ObcOp, ty: FlatTy, a: usize, b: usize) -> Result<usize, AllocError>
        ensures sketch { OnOk result (sketch_of self.new ≡ (value_of (place_of self.old).site ty (operator op (Read a ∷ Read b ∷ [])) (sketch_of self.old)).0) }
        ensures number { IfOk result (λ x. x ≡ (value_of (place_of self.old).site ty (operator op (Read a ∷ Read b ∷ [])) (sketch_of self.old)).1) }
        ensures place { OnOk result (place_of self.new ≡ place_of self.old) }
    {
        let mut args = Vec::new(self.alloc);
        args.push(Atom::Variable(a))?;
        args.push(Atom::Variable(b))?;
        let variable = self.value(ty, FlatRight::Op(op, args))?;
        Ok(variable)
    }

    /// The value of `a` where the condition is true, and else that of `b`.
    pub fn mux(&mut self, condition: usize, a: usize, b: usize) -> Result<usize, AllocError>
        ensures sketch { OnOk result (sketch_of self.new ≡ (mux_at (place_of self.old).site condition a b (sketch_of self.old)).0) }
        ensures number { IfOk result (λ x. x ≡ (mux_at (place_of self.old).site condition a b (sketch_of self.old)).1) }
        ensures place { OnOk result (place_of self.new ≡ place_of self.old) }
    {
        let ty = self.ty(a);
        let mut args = Vec::new(self.alloc);
        args.push(Atom::Variable(condition))?;
        args.push(Atom::Variable(a))?;
        args.push(Atom::Variable(b))?;
        let variable = self.value(ty, FlatRight::Op(ObcOp::Mux, args))?;
        Ok(variable)
    }

    /// The value that a variable had at the last instant, and this one where there was none.
    pub fn register(&mut self, first: Value, next: usize) -> Result<usize, AllocError>
        ensures sketch { OnOk result (sketch_of self.new ≡ (register_at (place_of self.old).site first next (sketch_of self.old)).0) }
        ensures number { IfOk result (λ x. x ≡ (register_at (place_of self.old).site first next (sketch_of self.old)).1) }
        ensures place { OnOk result (place_of self.new ≡ place_of self.old) }
    {
        let ty = self.ty(next);
        let variable = self.value(
            ty,
            FlatRight::Register {
                first,
                next: Atom::Variable(next),
            },
        )?;
        Ok(variable)
    }

    /// A new variable for the last value of another, if there is one.
    pub fn last(
        &mut self,
        ty: FlatTy,
        first: Value,
        next: Option<usize>,
    ) -> Result<usize, AllocError>
        ensures sketch { OnOk result (sketch_of self.new ≡ (named_value (place_of self.old).site (codes "last") ty (register first (atom_of next)) (sketch_of self.old)).0) }
        ensures number { IfOk result (λ x. x ≡ (named_value (place_of self.old).site (codes "last") ty (register first (atom_of next)) (sketch_of self.old)).1) }
        ensures place { OnOk result (place_of self.new ≡ place_of self.old) }
    {
        let variable = self.named_value(
            b"last",
            ty,
            FlatRight::Register {
                first,
                next: atom(next),
            },
        )?;
        Ok(variable)
    }

    /// A new flag, which is true where this place is there for the first time since it began anew.
    fn new_flag(&mut self) -> Result<usize, AllocError>
        ensures sketch { OnOk result (sketch_of self.new ≡ (new_flag (place_of self.old).site (sketch_of self.old)).0) }
        ensures number { IfOk result (λ x. x ≡ (new_flag (place_of self.old).site (sketch_of self.old)).1) }
        ensures place { OnOk result (place_of self.new ≡ place_of self.old) }
    {
        let flag = self.named_value(
            b"first",
            FlatTy::Bool,
            FlatRight::Register {
                first: Value::B(true),
                next: Atom::Value(Value::B(false)),
            },
        )?;
        Ok(flag)
    }

    /// The flag of the block, if it has one.
    #[tactic(auto, unfolding(crate::specs::Drafts::sketch_of))]
    pub fn flag(&self) -> Option<usize>
        ensures { result ≡ (sketch_of self.now).flag }
    {
        self.flag
    }

    #[tactic(auto, unfolding(crate::specs::Drafts::place_of, crate::specs::Drafts::sketch_of))]
    pub fn set_flag(&mut self, flag: Option<usize>)
        ensures sketch { sketch_of self.new ≡ with_flag flag (sketch_of self.old) }
        ensures place { place_of self.new ≡ place_of self.old }
    {
        self.flag = flag;
    }

    /// The flag of the block, which it has from now on.
    fn block_flag(&mut self) -> Result<usize, AllocError>
        ensures sketch { OnOk result (sketch_of self.new ≡ (block_flag (place_of self.old).site (sketch_of self.old).flag (sketch_of self.old)).0) }
        ensures number { IfOk result (λ x. x ≡ (block_flag (place_of self.old).site (sketch_of self.old).flag (sketch_of self.old)).1) }
        ensures place { OnOk result (place_of self.new ≡ place_of self.old) }
    {
        match self.flag() {
            Some(flag) => Ok(flag),
            None => {
                let flag = self.new_flag()?;
                self.set_flag(Some(flag));
                Ok(flag)
            }
        }
    }

    /// Whether the place is on the clock of its block.
    #[tactic(auto, unfolding(crate::specs::Drafts::place_of))]
    fn is_on_own_clock(&self) -> bool
        ensures { result ≡ nat_eq (length (place_of self.now).site.clock) (place_of self.now).site.base }
    {
        self.clock.len() == self.base
    }

    /// A flag of this place. All places on the clock of the block have the same.
    pub fn first_time(&mut self) -> Result<usize, AllocError>
        ensures sketch { OnOk result (sketch_of self.new ≡ (flag_at (place_of self.old).site (sketch_of self.old)).0) }
        ensures number { IfOk result (λ x. x ≡ (flag_at (place_of self.old).site (sketch_of self.old)).1) }
        ensures place { OnOk result (place_of self.new ≡ place_of self.old) }
    {
        if self.is_on_own_clock() {
            let flag = self.block_flag()?;
            return Ok(flag);
        }
        let flag = self.new_flag()?;
        Ok(flag)
    }
}
