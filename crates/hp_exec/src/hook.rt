ghost use Rattle.std.specs.Prelude.{◌≡◌};
ghost use Rattle.hp_exec.specs.Hooked.{Hooking, no_hook};

use hp_base::Value;

/// How a call of an instance of a machine goes.
#[derive(Clone, Copy, Debug, PartialEq, Eq)]
pub enum Way {
    /// It does the step of the machine.
    Own,
    /// The hook gives the outputs in place of that step, over their first values: `false`, 0, or the first constructor.
    Instead,
    /// The hook gives the outputs behind that step, over what it gives.
    After,
}

/// What takes part in the calls of a step.
pub trait Hook {
    ghost means: { Self → Hooking };

    /// How a call of an instance of a machine goes, by the place of the machine in its file.
    fn way(&self, machine: usize) -> Way
        ensures { result ≡ (means self.now).way machine };

    /// Gives the outputs of such a call at an instant, over the values that they have. It takes no memory.
    fn call(&self, machine: usize, instant: u64, args: &[Value], outs: &mut [Value])
        ensures { outs.new ≡ (means self.now).answer machine instant args.now outs.old };
}

/// Each machine is left to itself.
#[derive(Clone, Copy, Debug)]
pub struct NoHook;

impl Hook for NoHook {
    ghost means = { λ _. no_hook };

    fn way(&self, _machine: usize) -> Way {
        Way::Own
    }

    fn call(&self, _machine: usize, _instant: u64, _args: &[Value], _outs: &mut [Value]) {}
}
