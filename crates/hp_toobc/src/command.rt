//! Commands that are done where a clock holds, or where a variable is true.
ghost use Rattle.std.specs.Prelude.{◌≡◌, ◌++◌, ◌∷◌, [], map, IfOk, OnOk};
ghost use Rattle.std.proofs.Math.ListN.{replicate};
ghost use Rattle.hp_obc.specs.Commands.{done, case_of, arms_of, cmds_of};
ghost use Rattle.hp_obc.specs.CommandView.{cmd_seen};
ghost use Rattle.hp_toobc.specs.Tables.{name_of, variable_type, width_of};
ghost use Rattle.hp_toobc.specs.Making.{arms_with, where_it_holds, under, where_true};

use crate::table::Tables;
use hp_base::Name;
use hp_obc::{Cmd, Cmds};
use std::alloc::{AllocError, Global};

/// Adds arms in which nothing is done.
#[tactic(auto, using(crate::proofs::Rules::arms))]
fn add_empty(alloc: Global, arms: &mut Vec<Cmds>, count: usize) -> Result<(), AllocError>
    ensures { OnOk result (arms.new.items ≡ arms.old.items ++ replicate count done) }
{
    for _i in 0..count {
        arms.push(Cmds {
            list: Vec::new(alloc),
        })?;
    }
    Ok(())
}

/// So many arms, of which the one at this place has the commands.
#[tactic(auto, using(crate::proofs::Rules::arms))]
fn arms_with(
    alloc: Global,
    width: usize,
    place: usize,
    cmds: Vec<Cmd>,
) -> Result<Vec<Cmds>, AllocError>
    ensures { IfOk result (λ arms. arms_of arms.items ≡ arms_with width place (cmds_of (map cmd_seen cmds.items))) }
{
    let mut arms = Vec::with_capacity(alloc, width)?;
    add_empty(alloc, &mut arms, place.min(width))?;
    if place < width {
        arms.push(Cmds { list: cmds })?;
        add_empty(alloc, &mut arms, width - place - 1)?;
    }
    Ok(arms)
}

impl Tables<'_> {
    /// The commands, done where the variable has the constructor of this number.
    fn where_chosen(
        &self,
        alloc: Global,
        variable: usize,
        constructor: u8,
        cmds: Vec<Cmd>,
    ) -> Result<Vec<Cmd>, AllocError>
        ensures { IfOk result (λ chosen. map cmd_seen chosen.items ≡ under self.now.types.now self.now.variables.now ((variable, constructor) ∷ []) (map cmd_seen cmds.items)) }
    {
        let arms = arms_with(alloc, self.width(variable), usize::from(constructor), cmds)?;
        let name = self.name(alloc, variable)?;
        let mut chosen = Vec::new(alloc);
        chosen.push(Cmd::Case { name, arms })?;
        Ok(chosen)
    }

    /// The commands, done where the clock holds.
    #[tactic(auto, using(crate::proofs::Rules::clocks))]
    pub fn under(
        &self,
        alloc: Global,
        clock: &[(usize, u8)],
        cmds: Vec<Cmd>,
    ) -> Result<Vec<Cmd>, AllocError>
        ensures { IfOk result (λ there. map cmd_seen there.items ≡ under self.now.types.now self.now.variables.now clock.now (map cmd_seen cmds.items)) }
    {
        let mut there = cmds;
        let mut i = clock.len();
        while i > 0 {
            i -= 1;
            let (variable, constructor) = clock[i];
            there = self.where_chosen(alloc, variable, constructor, there)?;
        }
        Ok(there)
    }

    /// The command, done where the variable is true.
    pub fn where_it_holds(
        &self,
        alloc: Global,
        variable: usize,
        cmd: Cmd,
    ) -> Result<Cmd, AllocError>
        ensures { IfOk result (λ chosen. cmd_seen chosen ≡ case_of (name_of self.now.variables.now variable) (where_it_holds (cmd_seen cmd))) }
    {
        let mut list = Vec::new(alloc);
        list.push(cmd)?;
        let mut arms = Vec::new(alloc);
        arms.push(Cmds {
            list: Vec::new(alloc),
        })?;
        arms.push(Cmds { list })?;
        let name = self.name(alloc, variable)?;
        Ok(Cmd::Case { name, arms })
    }
}
