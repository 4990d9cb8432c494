//! Which machines of a file are answered by natives, as a hook of the executor.
ghost use Rattle.std.specs.Prelude.{◌≡◌, ℕ, None, Some, map, IfOk, IfSome, MatchOption};
ghost use Rattle.hp_exec.specs.Hooked.{Fits, ChangesNothingInKind};
ghost use Rattle.hp_native.specs.Natively.{IsNative};
ghost use Rattle.hp_native.specs.Linking.{IsFirst, ArePlaces, native_at, answer_of, linking};

use crate::commands::same_machine;
use crate::fit::fits;
use crate::native::{Answers, Native};
use hp_base::Value;
use hp_exec::{Hook, Way};
use hp_obc::{Machine, Obc};
use std::alloc::{AllocError, Global};

/// Natives, and which machines of a file they answer.
#[derive(Drop)]
pub struct Linked<'a, N = Native> {
    natives: &'a [N],
    /// For each machine of the file the place of the native that answers it.
    places: Vec<Option<usize>>,
}

/// The place of the first native of a machine.
fn native_of<N: Answers>(natives: &[N], machine: &Machine) -> Option<usize>
    ensures first { IsFirst (map N.machine natives.now) machine.now result }
    ensures native { IfSome result (λ _. IsNative machine.now) }
{
    for i in 0..natives.len() {
        let native = &natives[i];
        let own = native.machine();
        if same_machine(own, machine) {
            return Some(i);
        }
    }
    None
}

/// Links natives to the machines of a file that are theirs, each to the first native that has it.
pub fn link<'a, N: Answers>(
    alloc: Global,
    o: &Obc,
    natives: &'a [N],
) -> Result<Linked<'a, N>, AllocError>
    ensures natives { IfOk result (λ l. l.natives.now ≡ natives.now) }
    ensures places { IfOk result (λ l. ArePlaces (map N.machine natives.now) o.now.machines l.places.items) }

    // An answer in place of a machine is what the machine gives, on arguments of the kinds of its inputs.
    ensures fits { IfOk result (λ l. Fits (linking (map N.machine l.natives.now) l.places.items) o.now.machines) }
    ensures changes_nothing { IfOk result (λ l. (t : ℕ) → ChangesNothingInKind (linking (map N.machine l.natives.now) l.places.items) t o.now) }
{
    let machines = o.machines();
    let mut places = Vec::with_capacity(alloc, machines.len())?;
    for i in 0..machines.len() {
        let machine = &machines[i];
        places.push(native_of(natives, machine))?;
    }
    Ok(Linked { natives, places })
}

/// Answers in place of a machine, where the arguments and the outputs so far are of its kinds.
fn answer_in_kind<N: Answers>(native: &N, args: &[Value], outs: &mut [Value])
    ensures { outs.new ≡ answer_of (Some (N.machine native.now)) args.now outs.old }
{
    let machine = native.machine();
    if fits(&machine.inputs, args) && fits(&machine.outputs, outs) {
        native.answer(args, outs);
    }
}

impl<'a, N: Answers> Linked<'a, N> {
    /// Whether a native answers some machine.
    fn answers_any(&self) -> bool {
        self.places.iter().any(|place| place.is_some())
    }

    /// The same, if a native answers some machine.
    pub(crate) fn if_any(self) -> Option<Linked<'a, N>>
        ensures { IfSome result (λ l. l ≡ self.entry) }
    {
        if self.answers_any() { Some(self) } else { None }
    }

    /// The native that answers a machine, by the place of the machine in its file.
    fn native(&self, machine: usize) -> Option<&N>
        ensures { MatchOption result (native_at (map N.machine self.now.natives.now) self.now.places.items machine ≡ None)
            (λ n. native_at (map N.machine self.now.natives.now) self.now.places.items machine ≡ Some (N.machine n.now)) }
    {
        match self.places.get(machine) {
            Some(Some(place)) => self.natives.get(*place),
            _ => None,
        }
    }
}

impl<'a, N: Answers> Hook for Linked<'a, N> {
    ghost means = { λ l. linking (map N.machine l.natives.now) l.places.items };

    fn way(&self, machine: usize) -> Way {
        match self.places.get(machine) {
            Some(Some(_)) => Way::Instead,
            _ => Way::Own,
        }
    }

    fn call(&self, machine: usize, _instant: u64, args: &[Value], outs: &mut [Value]) {
        if let Some(native) = self.native(machine) {
            answer_in_kind(native, args, outs);
        }
    }
}
