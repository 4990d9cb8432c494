//! Clocks: which part of the instants each local, equation and expression is there at. Invariant: the clocks that are written are the shortest ones; a refusal names the first unit from which on there are none. Used by `hp_compile`; its specs by `hp_driver` and the laws.
#![tactic(auto)]

ghost use Rattle.std.specs.Prelude.{◌≡◌, IfOk, IfErr};
ghost use Rattle.hp_clocks.specs.declared.error.ClockErr.TheVariants as ClockErr;
ghost use Rattle.hp_clocks.specs.Writing.{AreWritten};
ghost use Rattle.hp_clocks.specs.Answers.{AreNamed, HaveClocks, IsClocked, NoneLong, Refuses};

mod cell;
mod error;
mod expression;
mod layer;
mod length;
mod open;
mod solve;
mod solved;
mod write;

pub use error::ClockErr;
use hp_tree::Program;
use solved::find_clocks;
use std::alloc::Global;
use write::write_program;

fn write_clocks(alloc: Global, program: Program) -> Result<Program, ClockErr>
    ensures written { IfOk result (λ after. AreWritten IsClocked program after) }
    ensures refused { IfErr result (Refuses program) }
{
    let paths = find_clocks(alloc, &program.items)?;
    let mut program = program;
    write_program(alloc, &mut program, paths);
    Ok(program)
}

/// The program with the clock of each declaration written: the shortest that are allowed. Else the first clash of the first node that
/// has one, or where none has one the first node with a clock of more than 64 steps.
pub fn clocks(alloc: Global, program: Program) -> Result<Program, ClockErr>
    ensures written { IfOk result (λ after. AreWritten IsClocked program after) }
    ensures refused { IfErr result (Refuses program) }
    ensures accepted { HaveClocks program → NoneLong program → AreNamed program → IfErr result (λ error. error ≡ ClockErr.OutOfMemory) }
{
    write_clocks(alloc, program)
}
