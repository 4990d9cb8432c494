//! How many cases stand around commands.
ghost use Rattle.std.specs.Prelude.{◌≤◌, map};
ghost use Rattle.std.specs.Bool.{Decides};
ghost use Rattle.hp_obc.specs.CommandView.{cmd_seen};
ghost use Rattle.hp_obc.specs.Commands.{arms_of, no_arm, more_arms};
ghost use Rattle.hp_obc.specs.Form.{depth, depth_of_one, depth_of_arms};

use hp_obc::{Cmd, Cmds};

/// Whether at most so many cases stand around a command. It looks no deeper.
#[cycle(levels)]
#[tactic(auto, using(crate::proofs::Rules::sizes))]
pub fn are_shallow(cmds: &Cmds, levels: u32) -> bool
    ensures { Decides result (depth cmds.now ≤ levels) }
{
    for cmd in &cmds.list {
        if !is_shallow(cmd, levels) {
            return false;
        }
    }
    true
}

#[cycle(levels)]
#[tactic(auto, using(crate::proofs::Rules::sizes))]
fn is_shallow(cmd: &Cmd, levels: u32) -> bool
    ensures { Decides result (depth_of_one (cmd_seen cmd.now) ≤ levels) }
{
    match cmd {
        Cmd::Case { name: _, arms } => arms_are_shallow(arms, levels),
        _ => true,
    }
}

#[cycle(levels)]
#[tactic(auto, using(crate::proofs::Rules::sizes))]
fn arms_are_shallow(arms: &[Cmds], levels: u32) -> bool
    ensures { Decides result (depth_of_arms (arms_of arms.now) ≤ levels) }
{
    for cmds in arms {
        if !arm_is_shallow(cmds, levels) {
            return false;
        }
    }
    true
}

#[cycle(levels)]
#[tactic(auto, using(crate::proofs::Rules::sizes))]
fn arm_is_shallow(cmds: &Cmds, levels: u32) -> bool
    ensures { Decides result (depth_of_arms (more_arms cmds.now no_arm) ≤ levels) }
{
    if cmds.list.is_empty() {
        return true;
    }
    if levels == 0 {
        return false;
    }
    are_shallow(cmds, levels - 1)
}
