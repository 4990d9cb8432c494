//! What is given to the machine of a circuit: inputs and free values.
ghost use Rattle.std.specs.Prelude.{◌≡◌, ◌<◌, ◌++◌, length, All, IfOk, OnOk};
ghost use Rattle.hp_circuit.specs.Giving.{is_early, slot_given, given_of};

use crate::circuit::{Role, Shape, Slot};
use crate::kind::Kind;
use crate::places::kind_of;
use std::alloc::{AllocError, Global};

/// What is given to a machine at each instant: an input, a comparison or the output of a call.
#[derive(Clone, Copy, Debug)]
pub struct Given {
    pub shape: Shape,
    /// It is known before the controllable variables are chosen.
    pub is_early: bool,
}

/// Whether slots of the kind are known before the controllable variables are chosen.
fn is_early(kind: Kind) -> bool
    ensures { result ≡ is_early kind }
{
    match kind {
        Kind::Early => true,
        Kind::Registers | Kind::Control | Kind::Late => false,
    }
}

/// Adds what a slot is given, if it is an input or free.
fn add_given(slot: Slot, steered: &[bool], given: &mut Vec<Given>) -> Result<(), AllocError>
    requires { slot.wire < length steered.now }
    ensures { OnOk result (given.new.items ≡ given.old.items ++ slot_given steered.now slot) }
{
    match slot.role {
        Role::Register { .. } | Role::Control => Ok(()),
        Role::Input | Role::Free { .. } => {
            given.push(Given {
                shape: slot.shape,
                is_early: is_early(kind_of(slot, steered)),
            })?;
            Ok(())
        }
    }
}

/// What is given, in the order of slots, where it is said of each wire whether it reads a controllable variable.
pub fn given_of(alloc: Global, slots: &[Slot], steered: &[bool]) -> Result<Vec<Given>, AllocError>
    requires { All (λ s. s.wire < length steered.now) slots.now }
    ensures { IfOk result (λ given. given.items ≡ given_of steered.now slots.now) }
{
    let mut given = Vec::new(alloc);
    for i in 0..slots.len() {
        add_given(slots[i], steered, &mut given)?;
    }
    Ok(given)
}
