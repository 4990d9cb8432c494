//! Automata, removed from a program: each becomes equations over words of its own. Invariant: no automaton is left, and all other equations stay as they are. Used by `hp_machines`, `hp_controlled`; its specs by the laws.
#![tactic(auto)]

ghost use Rattle.std.specs.Prelude.{◌≡◌, IfOk};
ghost use Rattle.hp_automata.specs.Lowering.{lowered_program};

mod around;
mod blocks;
mod defined;
mod definitions;
mod frame;
mod kept;
mod names;
mod new_names;
mod programs;
mod states;
mod transitions;

use hp_tree::Program;
use programs::{find_enumerations, lower_items};
use std::alloc::{AllocError, Global};

/// The program without automata.
pub fn lower(alloc: Global, program: Program) -> Result<Program, AllocError>
    ensures { IfOk result (λ lowered. lowered ≡ lowered_program program) }
{
    lowered(alloc, &program)
}

/// The program without automata, made of a program that stays.
pub fn lowered(alloc: Global, program: &Program) -> Result<Program, AllocError>
    ensures { IfOk result (λ lowered. lowered ≡ lowered_program program.now) }
{
    let enums = find_enumerations(alloc, &program.items)?;
    let items = lower_items(alloc, &enums, &program.items)?;
    Ok(Program { items })
}
