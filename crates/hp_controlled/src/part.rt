//! The part of a node that some outputs read.
ghost use Rattle.std.specs.Prelude.{◌≡◌, ◌+◌, ◌∷◌, ◌++◌, [], if◌then◌else◌, length, map, slice_index_or, IfOk, OnOk};
ghost use Rattle.std.specs.List.{range_with_len};
ghost use Rattle.hp_flat.specs.EquationView.{right_seen};
ghost use Rattle.hp_controlled.specs.Parts as made;
ghost use Rattle.hp_controlled.specs.Parts.{AreReached, IsPart};
ghost use Rattle.hp_controlled.specs.Reaching as reached;
ghost use Rattle.hp_controlled.specs.Reaching.{Ends, definitions_seen, marks_seen, reaching_seen};

use hp_base::Name;
use hp_flat::{Atom, FlatEqn, FlatNode, FlatRight, Variable};
use smallvec::SmallVec;
use std::alloc::{AllocError, Global};

/// Which variables and equations are in the part, and which variables were not followed yet.
#[derive(Drop)]
struct Reached {
    variables: Vec<bool>,
    eqns: Vec<bool>,
    waiting: Vec<usize>,
}

impl Reached {
    fn new(alloc: Global, node: &FlatNode) -> Result<Reached, AllocError>
        ensures { IfOk result (λ none. reaching_seen none ≡ reached.nothing_marked node.now) }
    {
        Ok(Reached {
            variables: vec![in alloc; false; node.variables.len()]?,
            eqns: vec![in alloc; false; node.eqns.len()]?,
            waiting: Vec::new(alloc),
        })
    }

    /// A variable is read.
    #[tactic(auto, unfolding(crate::specs::Reaching::touched))]
    fn reach(&mut self, variable: usize) -> Result<(), AllocError>
        ensures { OnOk result (reaching_seen self.new ≡ reached.touched variable (reaching_seen self.old)) }
    {
        if variable < self.variables.len() && !self.variables[variable] {
            self.variables[variable] = true;
            self.waiting.push(variable)?;
        }
        Ok(())
    }

    fn reach_atom(&mut self, atom: Atom) -> Result<(), AllocError>
        ensures { OnOk result (reaching_seen self.new ≡ reached.all_touched (made.read_by_atom atom) (reaching_seen self.old)) }
    {
        match atom {
            Atom::Variable(variable) => self.reach(variable),
            Atom::Value(_) => Ok(()),
        }
    }

    #[tactic(auto, using(crate::proofs::Rules::reaching))]
    fn reach_atoms(&mut self, atoms: &[Atom]) -> Result<(), AllocError>
        ensures { OnOk result (reaching_seen self.new ≡ reached.all_touched (made.read_by_atoms atoms.now) (reaching_seen self.old)) }
    {
        for i in 0..atoms.len() {
            self.reach_atom(atoms[i])?;
        }
        Ok(())
    }

    #[tactic(auto, using(crate::proofs::Rules::reaching))]
    fn reach_all(&mut self, variables: &[usize]) -> Result<(), AllocError>
        ensures { OnOk result (reaching_seen self.new ≡ reached.all_touched variables.now (reaching_seen self.old)) }
    {
        for i in 0..variables.len() {
            self.reach(variables[i])?;
        }
        Ok(())
    }

    #[tactic(auto, using(crate::proofs::Rules::reaching))]
    fn reach_clock(&mut self, clock: &[(usize, u8)]) -> Result<(), AllocError>
        ensures { OnOk result (reaching_seen self.new ≡ reached.all_touched (made.tested_by clock.now) (reaching_seen self.old)) }
    {
        for i in 0..clock.len() {
            let (variable, _) = clock[i];
            self.reach(variable)?;
        }
        Ok(())
    }

    /// What the right side reads; of a register also what it takes next.
    fn reach_right(&mut self, right: &FlatRight) -> Result<(), AllocError>
        ensures { OnOk result (reaching_seen self.new ≡ reached.all_touched (made.read_by_right (right_seen right.now)) (reaching_seen self.old)) }
    {
        match right {
            FlatRight::Op(_, args) => self.reach_atoms(args),
            FlatRight::Call { args, .. } => self.reach_atoms(args),
            FlatRight::Register { next, .. } => self.reach_atom(*next),
        }
    }

    /// All variables of an equation.
    #[tactic(auto, using(crate::proofs::Rules::reaching))]
    fn reach_eqn(&mut self, eqn: &FlatEqn) -> Result<(), AllocError>
        ensures { OnOk result (reaching_seen self.new ≡ reached.all_touched (made.variables_of eqn.now) (reaching_seen self.old)) }
    {
        self.reach_all(&eqn.targets)?;
        self.reach_clock(&eqn.clock)?;
        self.reach_all(&eqn.restart)?;
        self.reach_right(&eqn.right)
    }

    /// An equation is in the part, with what it reads and all that it defines.
    #[tactic(auto, unfolding(crate::specs::Reaching::entered))]
    fn enter(&mut self, number: usize, eqn: &FlatEqn) -> Result<(), AllocError>
        ensures { OnOk result (reaching_seen self.new ≡ reached.entered number eqn.now (reaching_seen self.old)) }
    {
        if number < self.eqns.len() && !self.eqns[number] {
            self.eqns[number] = true;
            self.reach_eqn(eqn)?;
        }
        Ok(())
    }

    /// The equation with this number is in the part.
    fn enter_at(&mut self, node: &FlatNode, number: usize) -> Result<(), AllocError>
        ensures { OnOk result (reaching_seen self.new ≡ reached.entered_at node.now number (reaching_seen self.old)) }
    {
        match node.eqns.get(number) {
            None => Ok(()),
            Some(eqn) => self.enter(number, eqn),
        }
    }

    /// The first so many variables are read.
    #[tactic(auto, using(crate::proofs::Rules::reaching))]
    fn reach_inputs(&mut self, inputs: usize) -> Result<(), AllocError>
        ensures { OnOk result (reaching_seen self.new ≡ reached.all_touched (range_with_len 0 inputs) (reaching_seen self.old)) }
    {
        for input in 0..inputs {
            self.reach(input)?;
        }
        Ok(())
    }
}

/// The equations that define each variable, by number.
#[derive(Drop)]
struct Definitions {
    /// Of each variable the place of its last definition among `all`, one more than it, or 0.
    last: Vec<usize>,
    /// A definition: the equation, and the place of the one before it, as above.
    all: Vec<(usize, usize)>,
}

impl Definitions {
    #[tactic(auto, unfolding(crate::specs::Reaching::with_definition))]
    fn add(&mut self, variable: usize, eqn: usize) -> Result<(), AllocError>
        ensures { OnOk result (definitions_seen self.new ≡ reached.with_definition variable eqn (definitions_seen self.old)) }
    {
        if variable < self.last.len() {
            let before = self.last[variable];
            self.all.push((eqn, before))?;
            self.last[variable] = self.all.len();
        }
        Ok(())
    }

    #[tactic(auto, using(crate::proofs::Rules::defining))]
    fn add_all(&mut self, variables: &[usize], eqn: usize) -> Result<(), AllocError>
        ensures { OnOk result (definitions_seen self.new ≡ reached.with_definitions variables.now eqn (definitions_seen self.old)) }
    {
        for i in 0..variables.len() {
            self.add(variables[i], eqn)?;
        }
        Ok(())
    }

    #[tactic(auto, using(crate::proofs::Rules::defining))]
    fn add_eqns(&mut self, eqns: &[FlatEqn]) -> Result<(), AllocError>
        ensures { OnOk result (definitions_seen self.new ≡ reached.with_eqns 0 eqns.now (definitions_seen self.old)) }
    {
        for number in 0..eqns.len() {
            let eqn = &eqns[number];
            self.add_all(&eqn.targets, number)?;
        }
        Ok(())
    }

    fn of(alloc: Global, node: &FlatNode) -> Result<Definitions, AllocError>
        ensures { IfOk result (λ d. definitions_seen d ≡ reached.definitions_of node.now) }
    {
        let mut found = Definitions {
            last: vec![in alloc; 0; node.variables.len()]?,
            all: Vec::new(alloc),
        };
        found.add_eqns(&node.eqns)?;
        Ok(found)
    }

    /// The place of the last definition of a variable, one more than it, or 0.
    fn last_of(&self, variable: usize) -> usize
        ensures { result ≡ slice_index_or (definitions_seen self.now).last variable 0 }
    {
        match self.last.get(variable) {
            None => 0,
            Some(at) => *at,
        }
    }

    /// Enters the equations that define a variable.
    #[tactic(auto, using(crate::proofs::Rules::following))]
    fn follow(
        &self,
        node: &FlatNode,
        variable: usize,
        found: &mut Reached,
    ) -> Result<(), AllocError>
        ensures { OnOk result (reaching_seen found.new ≡ reached.followed node.now (definitions_seen self.now) variable (reaching_seen found.old)) }
    {
        let mut at = self.last_of(variable);
        // Each definition names one before it, so there are no more turns than definitions.
        for _i in 0..self.all.len() {
            if at == 0 {
                return Ok(());
            }
            let Some((eqn, before)) = self.all.get(at - 1) else {
                return Ok(());
            };
            found.enter_at(node, *eqn)?;
            at = *before;
        }
        Ok(())
    }
}

/// Follows all variables that wait, the last one first.
#[tactic(auto, using(crate::proofs::Rules::endings))]
fn follow_all(
    node: &FlatNode,
    definitions: &Definitions,
    found: &mut Reached,
) -> Result<(), AllocError>
    ensures { OnOk result (Ends node.now (definitions_seen definitions.now) (reaching_seen found.old) (reaching_seen found.new)) }
{
    while let Some(variable) = found.waiting.pop() {
        definitions.follow(node, variable, found)?;
    }
    Ok(())
}

/// What some outputs read, one by another. The inputs are in the part, read or not.
fn reached_from(alloc: Global, node: &FlatNode, outputs: &[usize]) -> Result<Reached, AllocError>
    ensures { IfOk result (λ found. AreReached node.now outputs.now (marks_seen found)) }
{
    let definitions = Definitions::of(alloc, node)?;
    let mut found = Reached::new(alloc, node)?;
    found.reach_inputs(node.inputs)?;
    found.reach_all(outputs)?;
    follow_all(node, &definitions, &mut found)?;
    Ok(found)
}

/// The new numbers of the variables in the part.
#[derive(Drop)]
struct Numbers {
    numbers: Vec<usize>,
}

impl Numbers {
    /// The new number of a variable.
    fn of(&self, variable: usize) -> usize
        ensures { result ≡ made.number_at self.now.numbers.items variable }
    {
        match self.numbers.get(variable) {
            None => variable,
            Some(number) => *number,
        }
    }

    fn of_atom(&self, atom: Atom) -> Atom
        ensures { result ≡ made.renumbered_atom (made.number_at self.now.numbers.items) atom }
    {
        match atom {
            Atom::Variable(variable) => Atom::Variable(self.of(variable)),
            Atom::Value(value) => Atom::Value(value),
        }
    }

    #[tactic(auto, using(crate::proofs::Rules::mapped))]
    fn of_atoms(&self, alloc: Global, atoms: &[Atom]) -> Result<Vec<Atom>, AllocError>
        ensures { IfOk result (λ others. others.items ≡ map (made.renumbered_atom (made.number_at self.now.numbers.items)) atoms.now) }
    {
        let mut others = Vec::with_capacity(alloc, atoms.len())?;
        for atom in atoms {
            others.push(self.of_atom(*atom))?;
        }
        Ok(others)
    }

    #[tactic(auto, using(crate::proofs::Rules::mapped))]
    fn of_all(&self, alloc: Global, variables: &[usize]) -> Result<Vec<usize>, AllocError>
        ensures { IfOk result (λ others. others.items ≡ map (made.number_at self.now.numbers.items) variables.now) }
    {
        let mut others = Vec::with_capacity(alloc, variables.len())?;
        for variable in variables {
            others.push(self.of(*variable))?;
        }
        Ok(others)
    }

    #[tactic(auto, using(crate::proofs::Rules::mapped))]
    fn of_clock(
        &self,
        alloc: Global,
        clock: &[(usize, u8)],
    ) -> Result<SmallVec<(usize, u8), 4>, AllocError>
        ensures { IfOk result (λ steps. steps.items ≡ made.renumbered_clock (made.number_at self.now.numbers.items) clock.now) }
    {
        let mut steps = SmallVec::new(alloc);
        for i in 0..clock.len() {
            let (variable, constructor) = clock[i];
            steps.push((self.of(variable), constructor))?;
        }
        Ok(steps)
    }

    fn of_right(&self, alloc: Global, right: &FlatRight) -> Result<FlatRight, AllocError>
        ensures { IfOk result (λ other. right_seen other ≡ made.renumbered_right (made.number_at self.now.numbers.items) (right_seen right.now)) }
    {
        match right {
            FlatRight::Op(op, args) => Ok(FlatRight::Op(*op, self.of_atoms(alloc, args)?)),
            FlatRight::Register { first, next } => Ok(FlatRight::Register {
                first: *first,
                next: self.of_atom(*next),
            }),
            FlatRight::Call { node, args } => {
                let args = self.of_atoms(alloc, args)?;
                Ok(FlatRight::Call {
                    node: node.copy(alloc)?,
                    args,
                })
            }
        }
    }

    fn of_eqn(&self, alloc: Global, eqn: &FlatEqn) -> Result<FlatEqn, AllocError>
        ensures { IfOk result (λ other. other ≡ made.renumbered_eqn (made.number_at self.now.numbers.items) eqn.now) }
    {
        let targets = self.of_all(alloc, &eqn.targets)?;
        let restart = self.of_all(alloc, &eqn.restart)?;
        let clock = self.of_clock(alloc, &eqn.clock)?;
        let right = self.of_right(alloc, &eqn.right)?;
        Ok(FlatEqn {
            targets,
            clock,
            right,
            restart,
            at: eqn.at,
        })
    }
}

/// A copy of a variable.
fn copy_variable(alloc: Global, variable: &Variable) -> Result<Variable, AllocError>
    ensures { IfOk result (λ copy. copy ≡ variable.now) }
{
    Ok(Variable {
        name: variable.name.copy(alloc)?,
        ty: variable.ty,
    })
}

/// Adds a variable, if it is marked.
fn add_variable(
    alloc: Global,
    mark: bool,
    variable: &Variable,
    kept: &mut Vec<Variable>,
) -> Result<(), AllocError>
    ensures { OnOk result (kept.new.items ≡ (if mark then kept.old.items ++ variable.now ∷ [] else kept.old.items)) }
{
    if mark {
        kept.push(copy_variable(alloc, variable)?)?;
    }
    Ok(())
}

/// The variables that are marked.
#[tactic(auto, using(crate::proofs::Rules::marking))]
fn marked_variables(
    alloc: Global,
    marks: &[bool],
    variables: &[Variable],
) -> Result<Vec<Variable>, AllocError>
    ensures { IfOk result (λ kept. kept.items ≡ made.marked marks.now variables.now) }
{
    let mut kept = Vec::new(alloc);
    for i in 0..variables.len().min(marks.len()) {
        add_variable(alloc, marks[i], &variables[i], &mut kept)?;
    }
    Ok(kept)
}

/// The new numbers of the variables that are marked; another one has that of the next one that is.
#[tactic(auto, using(crate::proofs::Rules::marking))]
fn numbers_of(alloc: Global, marks: &[bool]) -> Result<Numbers, AllocError>
    ensures { IfOk result (λ numbers. numbers.numbers.items ≡ made.numbers_from 0 marks.now) }
{
    let mut numbers = Vec::new(alloc);
    let mut next = 0;
    for i in 0..marks.len() {
        numbers.push(next)?;
        if marks[i] {
            next = more(next)?;
        }
    }
    Ok(Numbers { numbers })
}

/// One more. There is no memory for so many variables that one has no number.
fn more(number: usize) -> Result<usize, AllocError>
    ensures { IfOk result (λ next. next ≡ number + 1) }
{
    number.checked_add(1).ok_or(AllocError)
}

/// Adds an equation, if it is marked, with other numbers of variables.
fn add_eqn(
    alloc: Global,
    mark: bool,
    numbers: &Numbers,
    eqn: &FlatEqn,
    kept: &mut Vec<FlatEqn>,
) -> Result<(), AllocError>
    ensures { OnOk result (kept.new.items ≡ (if mark then kept.old.items ++ made.renumbered_eqn (made.number_at numbers.now.numbers.items) eqn.now ∷ [] else kept.old.items)) }
{
    if mark {
        kept.push(numbers.of_eqn(alloc, eqn)?)?;
    }
    Ok(())
}

/// The equations that are marked, with other numbers of variables.
#[tactic(auto, using(crate::proofs::Rules::marking))]
fn marked_eqns(
    alloc: Global,
    marks: &[bool],
    numbers: &Numbers,
    eqns: &[FlatEqn],
) -> Result<Vec<FlatEqn>, AllocError>
    ensures { IfOk result (λ kept. kept.items ≡ map (made.renumbered_eqn (made.number_at numbers.now.numbers.items)) (made.marked marks.now eqns.now)) }
{
    let mut kept = Vec::new(alloc);
    for i in 0..eqns.len().min(marks.len()) {
        add_eqn(alloc, marks[i], numbers, &eqns[i], &mut kept)?;
    }
    Ok(kept)
}

/// Copies of variables.
#[tactic(auto, using(crate::proofs::Rules::mapped))]
fn copy_variables(alloc: Global, variables: &[Variable]) -> Result<Vec<Variable>, AllocError>
    ensures { IfOk result (λ copies. copies.items ≡ variables.now) }
{
    let mut copies = Vec::with_capacity(alloc, variables.len())?;
    for i in 0..variables.len() {
        copies.push(copy_variable(alloc, &variables[i])?)?;
    }
    Ok(copies)
}

/// A copy of an equation.
#[tactic(auto, using(crate::proofs::Rules::copies))]
fn copy_eqn(alloc: Global, eqn: &FlatEqn) -> Result<FlatEqn, AllocError>
    ensures { IfOk result (λ copy. copy ≡ eqn.now) }
{
    let numbers = Vec::new(alloc);
    let same = Numbers { numbers };
    let copy = same.of_eqn(alloc, eqn)?;
    Ok(copy)
}

/// Copies of equations.
#[tactic(auto, using(crate::proofs::Rules::mapped))]
fn copy_eqns(alloc: Global, eqns: &[FlatEqn]) -> Result<Vec<FlatEqn>, AllocError>
    ensures { IfOk result (λ copies. copies.items ≡ eqns.now) }
{
    let mut copies = Vec::with_capacity(alloc, eqns.len())?;
    for i in 0..eqns.len() {
        copies.push(copy_eqn(alloc, &eqns[i])?)?;
    }
    Ok(copies)
}

/// A copy of a node.
pub fn copy_of(alloc: Global, node: &FlatNode) -> Result<FlatNode, AllocError>
    ensures { IfOk result (λ copy. copy ≡ node.now) }
{
    let variables = copy_variables(alloc, &node.variables)?;
    let eqns = copy_eqns(alloc, &node.eqns)?;
    Ok(FlatNode {
        name: node.name.copy(alloc)?,
        variables,
        inputs: node.inputs,
        outputs: Vec::from_slice(alloc, &node.outputs)?,
        eqns,
    })
}

/// The part of a node that these marks say, with other numbers of variables.
fn part_by(
    alloc: Global,
    marks: &Reached,
    node: &FlatNode,
    name: Name,
    outputs: &[usize],
) -> Result<FlatNode, AllocError>
    ensures { IfOk result (λ part. part ≡ made.part_by (marks_seen marks.now) node.now name outputs.now) }
{
    let numbers = numbers_of(alloc, &marks.variables)?;
    let variables = marked_variables(alloc, &marks.variables, &node.variables)?;
    let eqns = marked_eqns(alloc, &marks.eqns, &numbers, &node.eqns)?;
    let outputs = numbers.of_all(alloc, outputs)?;
    Ok(FlatNode {
        name,
        variables,
        inputs: node.inputs,
        outputs,
        eqns,
    })
}

/// A node of this name with these outputs of another one, and with the variables and equations of that which they read, one by another. Its inputs are those of the
/// other.
pub fn part_of(
    alloc: Global,
    node: &FlatNode,
    name: Name,
    outputs: &[usize],
) -> Result<FlatNode, AllocError>
    ensures { IfOk result (IsPart node.now name outputs.now) }
{
    let marks = reached_from(alloc, node, outputs)?;
    let part = part_by(alloc, &marks, node, name, outputs)?;
    Ok(part)
}
