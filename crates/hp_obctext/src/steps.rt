//! Steps as a text has them: each arm of a case with its value.
use hp_base::{Const, Name};
use hp_obc::{Arg, ObcOp};
use std::marker::Model;

/// Steps in order.
#[cycle(steps)]
#[derive(Debug, Drop)]
pub(crate) struct Steps {
    pub list: Vec<Step>,
}

#[cycle(steps)]
#[derive(Debug, Drop)]
pub(crate) enum Step {
    Set {
        name: Name,
        op: ObcOp,
        args: Vec<Arg>,
    },
    Call {
        inst: Name,
        outs: Vec<Name>,
        args: Vec<Arg>,
    },
    Restart {
        inst: Name,
    },
    Case {
        name: Name,
        branches: Vec<Branch>,
    },
}

/// An arm of a case.
#[cycle(steps)]
#[derive(Debug, Drop)]
pub(crate) struct Branch {
    pub label: Const,
    pub steps: Steps,
}

impl Model for Steps {
    ghost use Rattle.hp_obctext.specs.Files.{Steps};
    ghost use Rattle.hp_obctext.specs.StepCode.{steps_code};

    ghost Value = { Steps };

    ghost coded = { steps_code };

    ghost use Rattle.hp_obctext.specs.StepView.{steps_seen, size_of_steps};

    ghost view = { steps_seen };

    ghost size = { size_of_steps };

    ghost use Rattle.hp_obctext.specs.StepFalls.{steps_smaller};

    ghost size_decreases = { λ a h. steps_smaller a };
}
