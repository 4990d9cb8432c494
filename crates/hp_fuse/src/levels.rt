//! Neighbouring cases, joined at every level.
ghost use Rattle.std.specs.Prelude.{◌≡◌, map, IfOk, IfErr, OnOk, OnErr};
ghost use Rattle.hp_obc.specs.CommandView.{cmd_seen};
ghost use Rattle.hp_obc.specs.Commands.{cmds_of, arms_of, and_then, done};
ghost use Rattle.hp_fuse.specs.Fusing.{fused_to, all_within, within, in_arms, fused_machine};
ghost use Rattle.hp_fuse.specs.Likeness.{AreAlike, ArmsAreAlike, IsLike};

use crate::error::FuseErr;
use crate::join::join_neighbours;
use hp_obc::{Cmd, Cmds, Machine};
use std::alloc::{AllocError, Global};

/// The levels of commands at which neighbours are joined. A machine that has form has no more.
const LEVELS: u32 = 301;

/// Joins neighbours in commands and in their arms, to so many levels.
#[cycle(fuse)]
fn fuse_cmds(alloc: Global, levels: u32, cmds: &mut Cmds) -> Result<(), AllocError>
    ensures fused { OnOk result (cmds.new ≡ fused_to levels cmds.old) }
    ensures alike { OnErr result (AreAlike cmds.old cmds.new) }
{
    if levels == 0 {
        return Ok(());
    }
    join_neighbours(alloc, cmds)?;
    fuse_each(alloc, levels - 1, &mut cmds.list)
}

#[cycle(fuse)]
fn fuse_each(alloc: Global, levels: u32, cmds: &mut [Cmd]) -> Result<(), AllocError>
    ensures fused { OnOk result (cmds_of (map cmd_seen cmds.new) ≡ all_within (fused_to levels) (cmds_of (map cmd_seen cmds.old))) }
    ensures alike { OnErr result (AreAlike (cmds_of (map cmd_seen cmds.old)) (cmds_of (map cmd_seen cmds.new))) }
{
    for cmd in cmds.iter_mut() {
        fuse_within(alloc, levels, cmd)?;
    }
    Ok(())
}

#[cycle(fuse)]
fn fuse_within(alloc: Global, levels: u32, cmd: &mut Cmd) -> Result<(), AllocError>
    ensures fused { OnOk result (cmd_seen cmd.new ≡ within (fused_to levels) (cmd_seen cmd.old)) }
    ensures alike { OnErr result (AreAlike (and_then (cmd_seen cmd.old) done) (and_then (cmd_seen cmd.new) done)) }
{
    match cmd {
        Cmd::Case { name: _, arms } => fuse_arms(alloc, levels, arms),
        _ => Ok(()),
    }
}

#[cycle(fuse)]
fn fuse_arms(alloc: Global, levels: u32, arms: &mut [Cmds]) -> Result<(), AllocError>
    ensures fused { OnOk result (arms_of arms.new ≡ in_arms (fused_to levels) (arms_of arms.old)) }
    ensures alike { OnErr result (ArmsAreAlike (arms_of arms.old) (arms_of arms.new)) }
{
    for cmds in arms.iter_mut() {
        fuse_cmds(alloc, levels, cmds)?;
    }
    Ok(())
}

/// Joins neighbouring cases on one variable that neither of them sets, also within arms.
/// Where there is no memory for it, it hands back a machine that does the same. The time is linear in commands and levels.
pub fn fuse(alloc: Global, machine: Machine) -> Result<Machine, FuseErr>
    ensures fused { IfOk result (λ m. m ≡ fused_machine machine) }
    ensures like { IfOk result (λ m. IsLike machine m) }
    ensures handed_back { IfErr result (λ e. IsLike machine e.machine) }
{
    let mut machine = machine;
    match fuse_cmds(alloc, LEVELS, &mut machine.step) {
        Ok(()) => Ok(machine),
        Err(_) => Err(FuseErr { machine }),
    }
}
