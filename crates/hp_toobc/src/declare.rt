//! What a machine declares.
ghost use Rattle.std.specs.Prelude.{◌≡◌, ◌<◌, ◌++◌, ◌∷◌, [], ℕ, true, false, length, get_or, map, drop, IfOk, OnOk};
ghost use Rattle.hp_flat.specs.EquationView.{right_seen};
ghost use Rattle.hp_toobc.specs.Tables.{variable_at};
ghost use Rattle.hp_toobc.specs.Making.{declared, first_type, mem_of, mems, inst_of, insts, atom_variables, atoms_variables, clock_variables, right_variables, named, is_local, locals_from};
ghost use Rattle.hp_toobc.specs.Flags.{marked, all_marked, one_if, flagged};
ghost use Rattle.std.proofs.Math.ListN.{set};

use crate::place::instance_name;
use crate::table::Tables;
use hp_base::Name;
use hp_flat::{Atom, FlatEqn, FlatNode, FlatRight, FlatTy, Variable};
use hp_obc::{Mem, Var};
use std::alloc::{AllocError, Global};

impl Tables<'_> {
    fn first_type(&self, targets: &[usize]) -> FlatTy
        ensures { result ≡ first_type self.now.variables.now targets.now }
    {
        match targets {
            [] => FlatTy::Int,
            [target, ..] => self.variable_type(*target),
        }
    }

    fn declared(&self, alloc: Global, variable: &Variable) -> Result<Var, AllocError>
        ensures { IfOk result (λ var. var ≡ declared self.now.types.now variable.now) }
    {
        let name = variable.name.copy(alloc)?;
        let ty = self.ty(alloc, variable.ty)?;
        Ok(Var { name, ty })
    }

    /// The declaration of the variable of a number; one with no name where there is none.
    fn declared_at(&self, alloc: Global, variable: usize) -> Result<Var, AllocError>
        ensures { IfOk result (λ var. var ≡ declared self.now.types.now (variable_at self.now.variables.now variable)) }
    {
        let name = self.name(alloc, variable)?;
        let ty = self.ty(alloc, self.variable_type(variable))?;
        Ok(Var { name, ty })
    }

    /// The declarations of some variables.
    #[tactic(auto, using(crate::proofs::Rules::mapped))]
    pub fn all_declared(
        &self,
        alloc: Global,
        variables: &[Variable],
    ) -> Result<Vec<Var>, AllocError>
        ensures { IfOk result (λ vars. vars.items ≡ map (declared self.now.types.now) variables.now) }
    {
        let mut vars = Vec::with_capacity(alloc, variables.len())?;
        for variable in variables {
            vars.push(self.declared(alloc, variable)?)?;
        }
        Ok(vars)
    }

    /// The declarations of the variables of some numbers.
    #[tactic(auto, using(crate::proofs::Rules::mapped))]
    pub fn all_declared_at(&self, alloc: Global, numbers: &[usize]) -> Result<Vec<Var>, AllocError>
        ensures { IfOk result (λ vars. vars.items ≡ map (λ x. declared self.now.types.now (variable_at self.now.variables.now x)) numbers.now) }
    {
        let mut vars = Vec::with_capacity(alloc, numbers.len())?;
        for number in numbers {
            vars.push(self.declared_at(alloc, *number)?)?;
        }
        Ok(vars)
    }

    fn add_mem(
        &self,
        alloc: Global,
        place: usize,
        eqn: &FlatEqn,
        into: &mut Vec<Mem>,
    ) -> Result<(), AllocError>
        ensures { OnOk result (into.new.items ≡ into.old.items ++ mem_of self.now.types.now self.now.variables.now place eqn.now.targets eqn.now.right) }
    {
        if let FlatRight::Register { first, next: _ } = &eqn.right {
            let name = self.memory_name(alloc, &eqn.targets, place)?;
            let ty = self.ty(alloc, self.first_type(&eqn.targets))?;
            let first = self.constant(alloc, *first)?;
            into.push(Mem { name, ty, first })?;
        }
        Ok(())
    }

    /// The memories of the registers.
    #[tactic(auto, using(crate::proofs::Rules::mems))]
    pub fn mems(&self, alloc: Global, eqns: &[FlatEqn]) -> Result<Vec<Mem>, AllocError>
        ensures { IfOk result (λ made. made.items ≡ mems self.now.types.now self.now.variables.now 0 eqns.now) }
    {
        let mut mems = Vec::new(alloc);
        for i in 0..eqns.len() {
            self.add_mem(alloc, i, &eqns[i], &mut mems)?;
        }
        Ok(mems)
    }

    /// Adds the declaration of the variable, where it has a flag.
    fn add_flagged(
        &self,
        alloc: Global,
        flag: bool,
        variable: &Variable,
        into: &mut Vec<Var>,
    ) -> Result<(), AllocError>
        ensures { OnOk result (into.new.items ≡ into.old.items ++ map (declared self.now.types.now) (one_if flag variable.now)) }
    {
        if flag {
            into.push(self.declared(alloc, variable)?)?;
        }
        Ok(())
    }

    /// The declarations of the variables from a number on that have a flag.
    #[tactic(auto, using(crate::proofs::Rules::flagged))]
    fn flagged(&self, alloc: Global, flags: &[bool], from: usize) -> Result<Vec<Var>, AllocError>
        ensures { IfOk result (λ vars. vars.items ≡ map (declared self.now.types.now) (flagged (drop from flags.now) (drop from self.now.variables.now))) }
    {
        let mut vars = Vec::new(alloc);
        for i in from..self.variables.len().min(flags.len()) {
            self.add_flagged(alloc, flags[i], &self.variables[i], &mut vars)?;
        }
        Ok(vars)
    }

    /// The declarations of the variables that an equation defines or reads, and that are neither inputs nor outputs.
    pub fn locals(&self, alloc: Global, node: &FlatNode) -> Result<Vec<Var>, AllocError>
        ensures { IfOk result (λ vars. vars.items ≡ map (declared self.now.types.now) (locals_from node.now node.now.inputs (drop node.now.inputs self.now.variables.now))) }
    {
        let flags = local_flags(alloc, node, self.variables.len())?;
        let vars = self.flagged(alloc, &flags, node.inputs)?;
        Ok(vars)
    }
}

fn add_inst(
    alloc: Global,
    place: usize,
    right: &FlatRight,
    into: &mut Vec<(Name, Name)>,
) -> Result<(), AllocError>
    ensures { OnOk result (into.new.items ≡ into.old.items ++ inst_of place (right_seen right.now)) }
{
    if let FlatRight::Call { node, args: _ } = right {
        let name = instance_name(alloc, node, place)?;
        into.push((name, node.copy(alloc)?))?;
    }
    Ok(())
}

/// The instances of the calls, each with its machine.
#[tactic(auto, using(crate::proofs::Rules::insts))]
pub fn insts(alloc: Global, eqns: &[FlatEqn]) -> Result<Vec<(Name, Name)>, AllocError>
    ensures { IfOk result (λ made. made.items ≡ insts 0 eqns.now) }
{
    let mut made = Vec::new(alloc);
    for i in 0..eqns.len() {
        let eqn = &eqns[i];
        add_inst(alloc, i, &eqn.right, &mut made)?;
    }
    Ok(made)
}

/// Sets the flags of some numbers.
#[tactic(auto, using(crate::proofs::Rules::marks))]
fn mark(flags: &mut [bool], numbers: &[usize], value: bool)
    ensures { flags.new ≡ marked value numbers.now flags.old }
{
    for number in numbers {
        if *number < flags.len() {
            flags[*number] = value;
        }
    }
}

/// Sets the flag of a number.
#[tactic(auto, using(crate::proofs::Rules::marked))]
fn mark_one(flags: &mut [bool], number: usize)
    ensures { flags.new ≡ set flags.old number true }
{
    if number < flags.len() {
        flags[number] = true;
    }
}

/// Sets the flags of the variables of a clock.
#[tactic(auto, using(crate::proofs::Rules::marked))]
fn mark_clock(flags: &mut [bool], clock: &[(usize, u8)])
    ensures { flags.new ≡ marked true (clock_variables clock.now) flags.old }
{
    for i in 0..clock.len() {
        let (variable, _constructor) = clock[i];
        mark_one(flags, variable);
    }
}

/// Sets the flag of the variable of an argument.
fn mark_atom(flags: &mut [bool], atom: Atom)
    ensures { flags.new ≡ marked true (atom_variables atom) flags.old }
{
    if let Atom::Variable(variable) = atom {
        mark_one(flags, variable);
    }
}

/// Sets the flags of the variables of some arguments.
#[tactic(auto, using(crate::proofs::Rules::marked))]
fn mark_atoms(flags: &mut [bool], args: &[Atom])
    ensures { flags.new ≡ marked true (atoms_variables args.now) flags.old }
{
    for i in 0..args.len() {
        mark_atom(flags, args[i]);
    }
}

fn mark_right(flags: &mut [bool], right: &FlatRight)
    ensures { flags.new ≡ marked true (right_variables (right_seen right.now)) flags.old }
{
    match right {
        FlatRight::Op(_, args) => mark_atoms(flags, args),
        FlatRight::Register { first: _, next } => mark_atom(flags, *next),
        FlatRight::Call { node: _, args } => mark_atoms(flags, args),
    }
}

/// Sets the flags of the variables that an equation defines or reads.
#[tactic(auto, using(crate::proofs::Rules::marked))]
fn mark_eqn(flags: &mut [bool], eqn: &FlatEqn)
    ensures { flags.new ≡ marked true (named eqn.now) flags.old }
{
    mark(flags, &eqn.targets, true);
    mark(flags, &eqn.restart, true);
    mark_clock(flags, &eqn.clock);
    mark_right(flags, &eqn.right);
}

/// Sets the flags of the variables that equations define or read.
#[tactic(auto, using(crate::proofs::Rules::marks))]
fn mark_all(flags: &mut [bool], eqns: &[FlatEqn])
    ensures { flags.new ≡ all_marked eqns.now flags.old }
{
    for eqn in eqns {
        mark_eqn(flags, eqn);
    }
}

/// Sets the flags of the variables that an equation defines or reads, and that are no outputs.
fn mark_locals(flags: &mut [bool], node: &FlatNode)
    ensures { flags.new ≡ marked false node.now.outputs (all_marked node.now.eqns flags.old) }
{
    mark_all(flags, &node.eqns);
    mark(flags, &node.outputs, false);
}

/// For each number whether it is that of a variable that an equation defines or reads, and that is no output.
fn local_flags(alloc: Global, node: &FlatNode, count: usize) -> Result<Vec<bool>, AllocError>
    ensures count { IfOk result (λ flags. length flags.items ≡ count) }
    ensures flags { IfOk result (λ flags. (x : ℕ) → x < count → get_or flags.items x false ≡ is_local node.now x) }
{
    let mut flags = vec![in alloc; false; count]?;
    mark_locals(&mut flags, node);
    Ok(flags)
}
