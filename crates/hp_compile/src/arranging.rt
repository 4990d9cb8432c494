ghost use Rattle.std.specs.Prelude.{◌≡◌, ℕ, List, IfOk, IfErr, MatchResult};
ghost use Rattle.hp_tree.specs.declared.program.Item.{Item};
ghost use Rattle.hp_cause.specs.Answers.{lists};
ghost use Rattle.hp_compile.specs.Arranged.{IsArrangeable, IsArranged};
ghost use Rattle.hp_compile.specs.Judged.{IsJudged};
ghost use Rattle.hp_compile.specs.OneCause.{Names};
ghost use Rattle.hp_compile.specs.Refusals.{Causes, IsRefused};
ghost use Rattle.hp_compile.specs.declared.refusal.Refusal.{Refusal};
ghost use Rattle.hp_compile.specs.declared.refusal.Refusal.TheVariants.{OutOfMemory};

use crate::judging::judge;
use crate::laws::one_cause;
use crate::refusal::Refusal;
use hp_cause::{Ordered, order};
use hp_clocks::clocks;
use hp_expand::expand;
use hp_init::init;
use hp_tree::Program;
use std::alloc::Global;

/// A judged program with its inlined calls replaced, the clock of each declaration written and an order of its points, if its contracts
/// have their shapes, its counts are within the limits, and it has clocks, values that are there from the first instant on, and no value
/// that depends on itself at one instant.
pub fn arrange(alloc: Global, program: &Program) -> Result<Ordered, Refusal>
    requires { (text : List ℕ) × IsJudged text program.now }
    ensures arranged { IfOk result (λ o. IsArranged program.now o.program (lists o.ranks.items)) }
    ensures refused { (text : List ℕ) → IsJudged text program.now → IfErr result (IsRefused text) }
    ensures accepted { IsArrangeable program.now → IfErr result (λ e. e ≡ OutOfMemory) }
{
    let expanded = expand(alloc, program)?;
    let initialised = init(alloc, &expanded);
    let clocked = clocks(alloc, expanded)?;
    initialised?;
    let ordered = order(alloc, clocked)?;
    Ok(ordered)
}

/// The one program of a text, judged and arranged, or the first reason why it has none.
fn program_or_refusal(alloc: Global, text: &[u8]) -> Result<Ordered, Refusal>
    ensures arranged { IfOk result (λ o. (program : List Item) × IsJudged text.now program × ((other : List Item) → IsJudged text.now other → other ≡ program)
        × IsArranged program o.program (lists o.ranks.items)) }
    ensures refused { IfErr result (IsRefused text.now) }
    ensures accepted { (program : List Item) → IsJudged text.now program → IsArrangeable program → IfErr result (λ e. e ≡ OutOfMemory) }
{
    let program = judge(alloc, text)?;
    arrange(alloc, &program)
}

/// The same; and no other reason is one.
pub fn front(alloc: Global, text: &[u8]) -> Result<Ordered, Refusal>
    ensures arranged { IfOk result (λ o. (program : List Item) × IsJudged text.now program × ((other : List Item) → IsJudged text.now other → other ≡ program)
        × IsArranged program o.program (lists o.ranks.items)) }
    ensures refused { IfErr result (IsRefused text.now) }
    ensures accepted { (program : List Item) → IsJudged text.now program → IsArrangeable program → IfErr result (λ e. e ≡ OutOfMemory) }
    // Of a text that has a cause this very one is named.
    ensures exact { (cause : Refusal) → Causes text.now cause → MatchResult result (λ o. ⊥) (Names cause) }
{
    one_cause();
    program_or_refusal(alloc, text)
}
