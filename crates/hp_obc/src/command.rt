use hp_base::{Const, Name};
use std::marker::Model;

/// An argument of an operator or of a call.
#[derive(Debug, Drop)]
pub enum Arg {
    Name(Name),
    Const(Const),
}

/// What computes a value from one, two or three arguments.
#[derive(Clone, Copy, Debug, PartialEq, Eq)]
pub enum ObcOp {
    Copy,
    Not,
    Neg,
    /// The second argument where the first is true, else the third.
    Mux,
    And,
    Or,
    Xor,
    /// Whether the first is false or the second true.
    Imp,
    Eq,
    Ne,
    Lt,
    Le,
    Gt,
    Ge,
    Add,
    Sub,
    Mul,
    Div,
    Rem,
}

/// Commands that are done in order.
#[cycle(command)]
#[derive(Debug, Drop)]
pub struct Cmds {
    pub list: Vec<Cmd>,
}

/// A command of a step.
#[cycle(command)]
#[derive(Debug, Drop)]
pub enum Cmd {
    /// Gives a name the value of an operator.
    Set {
        name: Name,
        op: ObcOp,
        args: Vec<Arg>,
    },
    /// Does one step of an instance, and gives its outputs to the names.
    Call {
        inst: Name,
        outs: Vec<Name>,
        args: Vec<Arg>,
    },
    /// Resets an instance.
    Restart {
        inst: Name,
    },
    /// Does the commands of the arm for the value of the name: `false` before `true`, or constructors in declared order.
    Case {
        name: Name,
        arms: Vec<Cmds>,
    },
}

impl Model for Cmds {
    ghost use Rattle.hp_obc.specs.Commands.{Cmds};
    ghost use Rattle.hp_obc.specs.CommandCode.{cmds_code};

    ghost Value = { Cmds };

    ghost coded = { cmds_code };

    ghost use Rattle.hp_obc.specs.CommandView.{cmds_seen};

    ghost view = { cmds_seen };

    ghost use Rattle.hp_obc.specs.Sizes.{size_of_cmds};

    ghost size = { size_of_cmds };

    ghost use Rattle.hp_obc.specs.CommandFalls.{cmds_smaller};

    ghost size_decreases = { λ a h. cmds_smaller a };
}
