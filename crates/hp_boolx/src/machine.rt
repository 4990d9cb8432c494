ghost use Rattle.std.specs.Prelude.{◌≡◌, ◌≤◌};
ghost use Rattle.hp_boolx.specs.Machine.{IsMachine, variables};

use crate::gate::Gate;
use hp_base::Name;
use std::marker::Model;

/// How many variables there are of each kind, which are numbered in this order.
#[derive(Clone, Copy, Debug, PartialEq, Eq)]
pub struct Counts {
    pub registers: u16,
    pub early: u16,
    pub control: u16,
    pub late: u16,
}

/// A Boolean machine. At each instant the environment chooses early values, then the controller chooses controls, then the environment late values. It keeps that
/// there are at most 65,535 variables, that gates name variables and earlier gates, and that each list has the length that is said of it.
#[derive(Debug, Drop)]
pub struct BoolMachine {
    pub name: Name,
    pub counts: Counts,
    /// How many control bits each controllable variable has, in order.
    pub widths: Vec<u16>,
    /// The preferred value of each control bit.
    pub prefer: Vec<bool>,
    pub gates: Vec<Gate>,
    /// The first value of each register.
    pub init: Vec<bool>,
    /// The gate of the next value of each register.
    pub next: Vec<usize>,
    /// The gate that says that all codes are values.
    pub valid: usize,
    /// The gate of the hypothesis.
    pub hyp: usize,
    /// The gate of the duty.
    pub duty: usize,
}

impl Model for BoolMachine {
    ghost use Rattle.hp_boolx.specs.Machine.{Machine};

    ghost Value = { Machine };

    ghost use Rattle.hp_boolx.specs.MachineView.{machine_seen, InsideIsMachine};

    ghost view = { machine_seen };

    ghost invariant = { InsideIsMachine };
}

impl BoolMachine {
    /// How many variables there are. It takes no memory.
    pub fn vars(&self) -> u16
        ensures vars { result ≡ variables self.now }
        ensures kept { IsMachine self.now }
    {
        let counts = self.counts;
        counts.registers + counts.early + counts.control + counts.late
    }
}
