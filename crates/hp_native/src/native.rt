ghost use Rattle.std.specs.Prelude.{◌≡◌, []};
ghost use Rattle.hp_base.specs.Kinds.{AreOfKinds};
ghost use Rattle.hp_obc.specs.Machines as spec;
ghost use Rattle.hp_native.specs.Natively.{IsNative, ins_of, outs_of, outputs_of};

use hp_base::Value;
use hp_obc::Machine;

/// A function over the outputs of a step.
pub type Answer = Box<dyn Fn(&[Value], &mut [Value])>;

/// What gives the outputs of a machine.
pub trait Answers {
    ghost machine: { Self → spec.Machine };

    fn machine(&self) -> &Machine
        ensures machine { result.now ≡ machine self.now }
        ensures native { IsNative result.now };

    fn answer(&self, args: &[Value], outs: &mut [Value])
        requires ins { AreOfKinds (ins_of (machine self.now)) args.now }
        requires outs { AreOfKinds (outs_of (machine self.now)) outs.old }
        ensures { outs.new ≡ outputs_of [] (machine self.now) args.now };
}

/// A plain machine with a function that gives what its step gives.
#[derive(Drop)]
pub struct Native {
    machine: Machine,
    answer: Answer,
    ghost native: { IsNative machine },
    ghost callable: { (args : _) (outs : _) → AreOfKinds (ins_of machine) args.now → AreOfKinds (outs_of machine) outs.now → Answer.pre answer args outs },
    ghost answers: { (args : _) (outs : _) (left : _) → AreOfKinds (ins_of machine) args.now → AreOfKinds (outs_of machine) outs.now → Answer.post answer args outs tt left → left.now ≡ outputs_of [] machine args.now },
}

impl Native {
    /// A native.
    pub fn new(machine: Machine, answer: Answer) -> Native
        requires native { IsNative machine }
        requires callable { (args : _) (outs : _) → AreOfKinds (ins_of machine) args.now → AreOfKinds (outs_of machine) outs.now → Answer.pre answer args outs }
        requires answers { (args : _) (outs : _) (left : _) → AreOfKinds (ins_of machine) args.now → AreOfKinds (outs_of machine) outs.now → Answer.post answer args outs tt left → left.now ≡ outputs_of [] machine args.now }
        ensures { result.machine ≡ machine }
    {
        Native { machine, answer }
    }
}

impl Answers for Native {
    ghost machine = { λ n. n.machine };

    fn machine(&self) -> &Machine {
        &self.machine
    }

    fn answer(&self, args: &[Value], outs: &mut [Value]) {
        (self.answer)(args, outs);
    }
}
