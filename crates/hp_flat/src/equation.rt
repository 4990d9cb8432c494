use hp_base::{Name, Value};
use hp_obc::ObcOp;
use smallvec::SmallVec;
use std::marker::Model;

/// What an equation reads: a variable of its node, by number, or a constant.
#[derive(Clone, Copy, Debug, PartialEq, Eq)]
pub enum Atom {
    Variable(usize),
    Value(Value),
}

/// What gives the targets of an equation their values.
#[derive(Debug, Drop)]
pub enum FlatRight {
    /// An operator on one, two or three arguments.
    Op(ObcOp, Vec<Atom>),
    /// The value that `next` had at the last instant of the clock since the equation last began anew, and `first` where there was none.
    Register { first: Value, next: Atom },
    /// The outputs of an instance of a node, which takes part at the instants of the clock and begins anew with the equation.
    Call { node: Name, args: Vec<Atom> },
}

/// A clocked equation. Where its clock is there it gives its targets their values. It reads the variables of its clock, of its restart list
/// and of its arguments, but not the next value of a register.
#[derive(Debug, Drop)]
pub struct FlatEqn {
    /// The variables that it defines, by number: one, or of a call as many as there are outputs.
    pub targets: Vec<usize>,
    /// When it is there, outermost first: each variable has the constructor of this number, `false` being 0 and `true` 1.
    pub clock: SmallVec<(usize, u8), 4>,
    pub right: FlatRight,
    /// It begins anew at an instant at which one of these is true, whether it is there or not.
    pub restart: Vec<usize>,
    /// Its place in an order in which each equation stands behind those that it reads.
    pub at: usize,
}

impl Model for FlatEqn {
    ghost use Rattle.hp_flat.specs.Equations.{FlatEqn};
    ghost use Rattle.hp_flat.specs.EquationCode.{eqn_code};

    ghost Value = { FlatEqn };

    ghost coded = { eqn_code };

    ghost use Rattle.hp_flat.specs.EquationView.{eqn_seen};

    ghost view = { eqn_seen };
}
