ghost use Rattle.std.specs.Prelude.{ℕ, List, IfOk, IfErr, MatchResult};
ghost use Rattle.hp_compile.specs.Judged.{IsJudged};
ghost use Rattle.hp_controlled.specs.Chosen.{AreControlledMachines};
ghost use Rattle.hp_tree.specs.declared.program.Item.{Item};
ghost use Rattle.hp_verdicts.specs.Decided.{AreKept};
ghost use Rattle.hp_driver.specs.Compiled.{HasCircuit, IsCompiled, IsFound, IsNotCompiled, MachinesLaw};
ghost use Rattle.hp_driver.specs.Texts.{IsArrangedText, IsOnly};

use crate::compile_error::CompileErr;
use hp_cause::Ordered;
use hp_compile::{arrange, judge};
use hp_controlled::{
    ControlledErr, controlled_machines, machines_do_the_same_among_others, own_machines_do_the_same,
};
use hp_obc::Obc;
use hp_tree::Program;
use hp_verdicts::decide;
use law_controlled::{
    machines_of_texts_choose_the_greatest, machines_that_choose_are_built,
    machines_without_choices_are_of_nodes,
};
use law_decided::{machines_keep_contracts, outcomes_are_so};
use law_history::streams::{
    machines_of_texts_are_built, machines_of_texts_are_within_limits,
    machines_run_the_nodes_of_texts,
};
use std::alloc::{AllocError, Global};

/// A law: what is compiled so does what the program says.
pub(crate) fn machines_do_what_programs_say()
    ensures { MachinesLaw }
{
    machines_of_texts_are_built();
    machines_run_the_nodes_of_texts();
    machines_of_texts_are_within_limits();
    machines_do_the_same_among_others();
    own_machines_do_the_same();
    machines_without_choices_are_of_nodes();
    machines_of_texts_choose_the_greatest();
    machines_keep_contracts();
}

/// The machines of an arranged program whose contracts are kept: of its nodes, which choose the values of their controllable variables, and of its contracts between them.
pub(crate) fn machines_of(alloc: Global, ordered: &Program) -> Result<Obc, AllocError>
    requires arranged { (program : List Item) × IsArrangedText program ordered.now }
    requires kept { AreKept ordered.now ordered.now }
    ensures { IfOk result (AreControlledMachines ordered.now) }
{
    // A law: nothing is in the way of the machines.
    machines_that_choose_are_built();
    match controlled_machines(alloc, ordered) {
        Ok(machines) => Ok(machines),
        Err(ControlledErr::NotBuilt) => unreachable!(),
        Err(ControlledErr::OutOfMemory) => Err(AllocError),
    }
}

/// The machines of an arranged program, if its contracts are kept.
fn compile_ordered(alloc: Global, program: &Program, ordered: Ordered) -> Result<Obc, CompileErr>
    requires { IsArrangedText program.now ordered.program }
    ensures compiled { (text : List ℕ) → IsFound text program.now ordered.program → MatchResult result (IsCompiled text) (IsNotCompiled text) }
    ensures circuits { IfErr result HasCircuit }
{
    // Laws: what is found of contracts says so of their games, and machines do what the program says.
    outcomes_are_so();
    machines_do_what_programs_say();
    decide(alloc, &ordered.program)?;
    let machines = machines_of(alloc, &ordered.program)?;
    Ok(machines)
}

/// The machines of a judged program, if it can be arranged and its contracts are kept, or why it has none.
pub fn compile_program(alloc: Global, program: &Program) -> Result<Obc, CompileErr>
    requires { (text : List ℕ) × IsJudged text program.now }
    ensures compiled { (text : List ℕ) → IsJudged text program.now → IsOnly text program.now → MatchResult result (IsCompiled text) (IsNotCompiled text) }
    ensures circuits { IfErr result HasCircuit }
{
    let ordered = arrange(alloc, program)?;
    compile_ordered(alloc, program, ordered)
}

/// The machines of a source text, or why it has none. For each node there is a machine of its name, and for each with a contract one of its controller, before it, and one that also tells what the contract
/// assumes and enforces, behind it (`f$ctl`, `f`, `f$contract`); `hp_exec::Exec` runs them, and has their signatures.
pub fn compile(alloc: Global, text: &[u8]) -> Result<Obc, CompileErr>
    ensures compiled { MatchResult result (IsCompiled text.now) (IsNotCompiled text.now) }
    ensures circuits { IfErr result HasCircuit }
{
    let program = judge(alloc, text)?;
    compile_program(alloc, &program)
}
