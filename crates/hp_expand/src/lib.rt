//! Inlined calls replaced by equations, the shapes of contracts, and what is counted of a program. Invariant: no inlined call is left, and new names hold a `$`, which no source name does. Used by `hp_compile`, `hp_driver`; its specs by the laws.
#![tactic(auto)]

ghost use Rattle.std.specs.Prelude.{◌≡◌, ◌↔◌, IfErr, IfOk, OnOk};
ghost use Rattle.hp_expand.specs.Refusals.{refusal_of, IsFormed, Names, limit_at, shape_at};
ghost use Rattle.hp_expand.specs.Formed.{HasShapes, KeepsLimits};
ghost use Rattle.hp_expand.specs.Broken.{broken_seen};
ghost use Rattle.hp_expand.specs.Passing.{passing_seen};

mod blocks;
mod callees;
mod calls;
mod error;
mod forms;
mod found;
mod items;
mod laws;
mod limits;
mod names;
mod nodes;
mod number;
mod rename;
mod replace;
mod shapes;
mod size;
mod sizes;
mod table;

pub use error::{ExpandErr, Shape};
use hp_tree::Program;
pub use items::expand;
pub use laws::{
    counts_are_those_of_replaced_nodes, expanded_programs_are_plain, named_breaches_are_first,
    numbers_are_within_places,
};
use limits::{Passing, check_limits};
use shapes::{Broken, check_shapes};
use std::alloc::{AllocError, Global};

/// Whether nothing is said of the program.
fn find_refusal(alloc: Global, p: &Program) -> Result<(), ExpandErr>
    ensures formed { OnOk result (IsFormed p.now) }
    ensures refused { IfErr result (Names (refusal_of p.now)) }
{
    if let Some(broken) = check_shapes(alloc, &p.items)? {
        return Err(broken_shape(alloc, broken)?);
    }
    if let Some(passing) = check_limits(alloc, &p.items)? {
        return Err(passed_limit(alloc, passing)?);
    }
    Ok(())
}

/// Whether the contracts of the program have their shapes and its counts are within the limits, once its inlined calls are replaced.
/// Else the first breach: of shapes in the first node that has one, or where all nodes have theirs the first limit that the first
/// such node passes.
pub fn check_form(alloc: Global, p: &Program) -> Result<(), ExpandErr>
    ensures formed { OnOk result (IsFormed p.now) }
    ensures refused { IfErr result (Names (refusal_of p.now)) }

    // What is said of a program is what keeps its contracts from their shapes or its counts from the limits.
    ensures complete { (HasShapes p.now × KeepsLimits p.now) ↔ IsFormed p.now }
{
    find_refusal(alloc, p)
}

fn broken_shape<'a>(alloc: Global, broken: Broken<'a>) -> Result<ExpandErr, AllocError>
    ensures { IfOk result (λ error. error ≡ shape_at (broken_seen broken.entry)) }
{
    Ok(ExpandErr::Shape {
        node: broken.node.copy(alloc)?,
        span: broken.breach.at,
        shape: broken.breach.shape,
    })
}

fn passed_limit<'a>(alloc: Global, passing: Passing<'a>) -> Result<ExpandErr, AllocError>
    ensures { IfOk result (λ error. error ≡ limit_at (passing_seen passing.entry)) }
{
    Ok(ExpandErr::Limit {
        node: passing.node.copy(alloc)?,
        limit: passing.limit,
    })
}
