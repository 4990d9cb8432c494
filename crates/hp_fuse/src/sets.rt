//! Which names commands set.
ghost use Rattle.std.specs.Prelude.{◌≡◌};
ghost use Rattle.std.specs.Str.{bytes_eq};
ghost use Rattle.hp_obc.specs.CommandView.{cmd_seen};
ghost use Rattle.hp_obc.specs.Commands.{arms_of};
ghost use Rattle.hp_obc.specs.Form.{has_name};
ghost use Rattle.hp_fuse.specs.Fusing.{set_in, set_by, set_in_arms};

use hp_base::Name;
use hp_obc::{Cmd, Cmds};

/// Whether these are one name.
pub fn same_name(name: &Name, other: &Name) -> bool
    ensures { result ≡ bytes_eq name.now other.now }
{
    name.bytes() == other.bytes()
}

fn has_name(names: &[Name], name: &Name) -> bool
    ensures { result ≡ has_name names.now name.now }
{
    for other in names {
        if same_name(other, name) {
            return true;
        }
    }
    false
}

/// Whether commands may set the name.
#[cycle(sets)]
#[tactic(auto, using(crate::proofs::Rules::sizes))]
fn set_in(cmds: &Cmds, name: &Name) -> bool
    ensures { result ≡ set_in cmds.now name.now }
{
    for cmd in &cmds.list {
        if set_by(cmd, name) {
            return true;
        }
    }
    false
}

#[cycle(sets)]
fn set_by(cmd: &Cmd, name: &Name) -> bool
    ensures { result ≡ set_by (cmd_seen cmd.now) name.now }
{
    match cmd {
        Cmd::Set {
            name: target,
            op: _,
            args: _,
        } => same_name(target, name),
        Cmd::Call {
            inst: _,
            outs,
            args: _,
        } => has_name(outs, name),
        Cmd::Restart { inst: _ } => false,
        Cmd::Case { name: _, arms } => set_in_arms(arms, name),
    }
}

/// Whether an arm may set the name.
#[cycle(sets)]
#[tactic(auto, using(crate::proofs::Rules::sizes))]
pub fn set_in_arms(arms: &[Cmds], name: &Name) -> bool
    ensures { result ≡ set_in_arms (arms_of arms.now) name.now }
{
    for cmds in arms {
        if set_in(cmds, name) {
            return true;
        }
    }
    false
}
