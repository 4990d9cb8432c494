//! How far equations reach: the longest paths of readers from them.
ghost use Rattle.std.specs.Prelude.{◌≡◌, ◌<◌, get_or, length, IfOk, OnOk};
ghost use Rattle.std.specs.List.{flat_map};
ghost use Rattle.std.proofs.Math.ListN.{replicate};
ghost use Rattle.hp_flat.specs.EquationView.{right_seen};
ghost use Rattle.law_equations.specs.Meaning.Fitting.{atom_variables};
ghost use Rattle.law_equations.specs.Meaning.Scheduling.{clock_variables, right_reads, reads};
ghost use Rattle.hp_schedule.specs.ByClock.{control};
ghost use Rattle.hp_schedule.specs.Reaching.{seen_from, met, unmet, raised, raised_all, weight_of, noted_one, noted_all, noted};

use hp_flat::{Atom, FlatEqn, FlatRight};
use std::alloc::AllocError;

/// By what an equation is ordered.
#[derive(Clone, Copy)]
pub struct Weight {
    /// How often controls change on a path of readers from it.
    pub level: usize,
    /// The variable at a depth of its clock, or a number where it has none.
    pub control: usize,
    /// How many equations stand behind it on a path of readers.
    pub height: usize,
}

/// How far the equations reach that read a variable.
#[derive(Clone, Copy)]
pub struct Reach {
    /// The level that an equation has at least that defines the variable.
    pub outside: usize,
    /// The control whose equations may have one level less.
    pub control: usize,
    pub is_lower: bool,
    /// The height that an equation has at least that defines the variable.
    pub height: usize,
}

impl Reach {
    /// Of a variable that no equation reads.
    pub fn unmet() -> Reach
        ensures { result ≡ unmet }
    {
        Reach {
            outside: 0,
            control: 0,
            is_lower: false,
            height: 0,
        }
    }

    /// The level that an equation with this control has at least that defines the variable.
    fn seen_from(self, control: usize) -> usize
        ensures { result ≡ seen_from control self }
    {
        if self.is_lower && self.control == control {
            self.outside.saturating_sub(1)
        } else {
            self.outside
        }
    }

    /// With one equation more that reads the variable.
    fn met(self, weight: Weight) -> Result<Reach, AllocError>
        ensures { IfOk result (λ reach. reach ≡ met weight self) }
    {
        let (Some(next_level), Some(next_height)) = (
            weight.level.checked_add(1),
            weight.height.checked_add(1),
        ) else {
            return Err(AllocError);
        };
        let height = self.height.max(next_height);
        if weight.level < self.outside {
            let is_same = self.control == weight.control || next_level != self.outside;
            Ok(Reach {
                outside: self.outside,
                control: self.control,
                is_lower: self.is_lower && is_same,
                height,
            })
        } else {
            Ok(Reach {
                outside: next_level,
                control: weight.control,
                is_lower: true,
                height,
            })
        }
    }
}

/// What is noted of a variable.
fn reach_of(table: &[Reach], variable: usize) -> Reach
    ensures { result ≡ get_or table.now variable unmet }
{
    if variable < table.len() {
        table[variable]
    } else {
        Reach::unmet()
    }
}

#[tactic(auto, using(crate::proofs::Rules::raising))]
fn raise(table: &[Reach], variable: usize, weight: &mut Weight)
    ensures { weight.new ≡ raised table.now variable weight.old }
{
    let reach = reach_of(table, variable);
    let level = weight.level.max(reach.seen_from(weight.control));
    let height = weight.height.max(reach.height);
    *weight = Weight {
        level,
        control: weight.control,
        height,
    };
}

#[tactic(auto, using(crate::proofs::Rules::raising))]
fn raise_all(table: &[Reach], variables: &[usize], weight: &mut Weight)
    ensures { weight.new ≡ raised_all table.now variables.now weight.old }
{
    for variable in variables {
        raise(table, *variable, weight);
    }
}

/// The variable at a depth of the clock, or the base.
#[tactic(auto, using(crate::proofs::Rules::asking))]
fn control_of(depth: usize, base: usize, eqn: &FlatEqn) -> usize
    ensures { result ≡ control depth base eqn.now }
{
    if depth < eqn.clock.len() {
        eqn.clock[depth].0
    } else {
        base
    }
}

/// The weight of an equation, whose control stands at a depth of its clock, where those are noted that read it.
pub fn weight_of(depth: usize, base: usize, table: &[Reach], eqn: &FlatEqn) -> Weight
    ensures { result ≡ weight_of depth base table.now eqn.now }
{
    let mut weight = Weight {
        level: 0,
        control: control_of(depth, base, eqn),
        height: 0,
    };
    raise_all(table, &eqn.targets, &mut weight);
    weight
}

#[tactic(auto, using(crate::proofs::Rules::noting))]
fn note_one(table: &mut [Reach], weight: Weight, variable: usize) -> Result<(), AllocError>
    ensures { OnOk result (table.new ≡ noted_one weight variable table.old) }
{
    if variable < table.len() {
        let reach = table[variable].met(weight)?;
        table[variable] = reach;
    }
    Ok(())
}

#[tactic(auto, using(crate::proofs::Rules::noting))]
fn note_all(table: &mut [Reach], weight: Weight, variables: &[usize]) -> Result<(), AllocError>
    ensures { OnOk result (table.new ≡ noted_all weight variables.now table.old) }
{
    for variable in variables {
        note_one(table, weight, *variable)?;
    }
    Ok(())
}

#[tactic(auto, using(crate::proofs::Rules::noting))]
fn note_clock(table: &mut [Reach], weight: Weight, clock: &[(usize, u8)]) -> Result<(), AllocError>
    ensures { OnOk result (table.new ≡ noted_all weight (clock_variables clock.now) table.old) }
{
    for (variable, _constructor) in clock {
        note_one(table, weight, *variable)?;
    }
    Ok(())
}

fn note_atom(table: &mut [Reach], weight: Weight, atom: Atom) -> Result<(), AllocError>
    ensures { OnOk result (table.new ≡ noted_all weight (atom_variables atom) table.old) }
{
    if let Atom::Variable(variable) = atom {
        note_one(table, weight, variable)?;
    }
    Ok(())
}

#[tactic(auto, using(crate::proofs::Rules::noting))]
fn note_atoms(table: &mut [Reach], weight: Weight, atoms: &[Atom]) -> Result<(), AllocError>
    ensures { OnOk result (table.new ≡ noted_all weight (flat_map atom_variables atoms.now) table.old) }
{
    for atom in atoms {
        note_atom(table, weight, *atom)?;
    }
    Ok(())
}

/// Notes what the right side reads. A register reads nothing at this instant.
fn note_right(table: &mut [Reach], weight: Weight, right: &FlatRight) -> Result<(), AllocError>
    ensures { OnOk result (table.new ≡ noted_all weight (right_reads (right_seen right.now)) table.old) }
{
    match right {
        FlatRight::Op(_, args) => note_atoms(table, weight, args),
        FlatRight::Register { first: _, next: _ } => Ok(()),
        FlatRight::Call { node: _, args } => note_atoms(table, weight, args),
    }
}

#[tactic(auto, using(crate::proofs::Rules::joining))]
fn note_reads(table: &mut [Reach], weight: Weight, eqn: &FlatEqn) -> Result<(), AllocError>
    ensures { OnOk result (table.new ≡ noted_all weight (reads eqn.now) table.old) }
{
    note_clock(table, weight, &eqn.clock)?;
    note_all(table, weight, &eqn.restart)?;
    note_right(table, weight, &eqn.right)
}

/// Notes what the equation reads.
pub fn note(depth: usize, base: usize, table: &mut [Reach], eqn: &FlatEqn) -> Result<(), AllocError>
    ensures { OnOk result (table.new ≡ noted depth base eqn.now table.old) }
{
    let weight = weight_of(depth, base, table, eqn);
    note_reads(table, weight, eqn)
}
