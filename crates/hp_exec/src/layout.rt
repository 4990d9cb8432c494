ghost use Rattle.std.specs.Prelude.{◌≡◌, ◌++◌, OnOk, IfOk};
ghost use Rattle.hp_exec.specs.Layouts.{layout_at, layout_of, layouts_of};

use crate::code::InstanceSlot;
use crate::routine::Routine;
use hp_base::Value;
use std::alloc::{AllocError, Global};

/// Appends what the memory of an instance holds after a reset.
#[cycle(append)]
#[tactic(auto, using(crate::proofs::Rules::layouts))]
fn append_instance(
    place: InstanceSlot,
    earlier: &[Routine],
    into: &mut Vec<Value>,
) -> Result<(), AllocError>
    ensures { OnOk result (into.new.items ≡ into.old.items ++ (layout_at (layouts_of earlier.now) place).first) }
{
    match earlier.get(place.routine) {
        Some(inner) => append_first(inner, &earlier[..place.routine], into),
        None => Ok(()),
    }
}

/// Appends what the memory of a routine holds after a reset: its own memories, and then those of its instances.
#[cycle(append)]
fn append_first(
    routine: &Routine,
    earlier: &[Routine],
    into: &mut Vec<Value>,
) -> Result<(), AllocError>
    ensures { OnOk result (into.new.items ≡ into.old.items ++ (layout_of (layouts_of earlier.now) routine.now).first) }
{
    into.extend_from_slice(&routine.own)?;
    for part in &routine.parts {
        append_instance(*part, earlier, into)?;
    }
    Ok(())
}

/// What the memory of a routine holds after a reset.
pub fn first_memory(
    alloc: Global,
    routine: &Routine,
    earlier: &[Routine],
) -> Result<Vec<Value>, AllocError>
    ensures { IfOk result (λ first. first.items ≡ (layout_of (layouts_of earlier.now) routine.now).first) }
{
    let mut first = Vec::new(alloc);
    append_first(routine, earlier, &mut first)?;
    Ok(first)
}
