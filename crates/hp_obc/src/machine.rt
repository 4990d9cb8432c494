use crate::command::Cmds;
use hp_base::{Const, Name, Ty};
use std::marker::Model;

/// An input, an output or a variable of a step.
#[derive(Debug, Drop)]
pub struct Var {
    pub name: Name,
    pub ty: Ty,
}

/// A memory, which keeps its value between steps.
#[derive(Debug, Drop)]
pub struct Mem {
    pub name: Name,
    pub ty: Ty,
    /// Its value after a reset.
    pub first: Const,
}

/// A machine with a step and a reset.
#[derive(Debug, Drop)]
pub struct Machine {
    pub name: Name,
    pub inputs: Vec<Var>,
    pub outputs: Vec<Var>,
    pub vars: Vec<Var>,
    pub mems: Vec<Mem>,
    /// The names of its instances, and of their machines.
    pub insts: Vec<(Name, Name)>,
    pub step: Cmds,
}

impl Model for Machine {
    ghost use Rattle.hp_obc.specs.Machines.{Machine};
    ghost use Rattle.hp_obc.specs.MachineCode.{machine_code};

    ghost Value = { Machine };

    ghost coded = { machine_code };

    ghost use Rattle.hp_obc.specs.MachineView.{machine_seen};

    ghost view = { machine_seen };
}
