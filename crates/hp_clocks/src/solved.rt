//! The nodes of a program, whose clocks are solved one after another.
ghost use Rattle.std.specs.Prelude.{◌≡◌, [], ◌∷◌, All, OnOk, IfOk, IfErr};
ghost use Rattle.hp_tree.specs.declared.program.Item.TheVariants.{NodeItem};
ghost use Rattle.hp_clocks.specs.Solved.{IsSolved};
ghost use Rattle.hp_clocks.specs.Writing.{paths_seen};
ghost use Rattle.hp_clocks.specs.Answers.{AddsOne, AddsSolved, AreSolved, AreShort, ArePaths, IsFirstLong, IsKnown, IsShort, NamesClash, NamesLong, NamesNode, Refuses, all_paths};

use crate::error::ClockErr;
use crate::length::longest;
use crate::solve::{Solution, Unsolved, solve_node};
use crate::write::paths_of;
use hp_base::{Limit, Name, What};
use hp_tree::{Cons, Item, Node};
use std::alloc::{AllocError, Global};

/// A node's name, and what is solved of it.
#[derive(Drop)]
pub struct SolvedNode<'a> {
    pub name: &'a Name,
    pub solution: Solution<'a>,
}

/// What is solved of a node, or the error that names its clash.
fn solve_or_name<'a>(alloc: Global, node: &'a Node) -> Result<Solution<'a>, ClockErr>
    ensures solved { IfOk result (λ solution. IsSolved node.now solution) }
    ensures clash { IfErr result (NamesNode node.now) }
{
    match solve_node(alloc, node) {
        Ok(solution) => Ok(solution),
        Err(Unsolved::OutOfMemory) => Err(ClockErr::OutOfMemory),
        Err(Unsolved::Clash(span)) => Err(ClockErr::Clash {
            node: node.name.copy(alloc)?,
            span,
        }),
    }
}

fn push_node<'a>(
    solved: &mut Vec<SolvedNode<'a>>,
    name: &'a Name,
    solution: Solution<'a>,
) -> Result<(), AllocError>
    ensures { OnOk result (AddsOne name.now solution.entry solved.old.items solved.new.items) }
{
    solved.push(SolvedNode { name, solution })?;
    Ok(())
}

/// Solves a node and adds it, or gives its clash.
fn add_node<'a>(
    alloc: Global,
    node: &'a Node,
    solved: &mut Vec<SolvedNode<'a>>,
) -> Result<(), ClockErr>
    ensures solved { OnOk result (AddsSolved (NodeItem node.now) solved.old.items solved.new.items) }
    ensures clash { IfErr result (NamesNode node.now) }
{
    let solution = solve_or_name(alloc, node)?;
    push_node(solved, &node.name, solution)?;
    Ok(())
}

#[tactic(auto, using(crate::proofs::AnswerRules::answered))]
fn add_item<'a>(
    alloc: Global,
    item: &'a Item,
    solved: &mut Vec<SolvedNode<'a>>,
) -> Result<(), ClockErr>
    ensures solved { OnOk result (AddsSolved item.now solved.old.items solved.new.items) }
    ensures clash { IfErr result (NamesClash (item.now ∷ [])) }
{
    match item {
        Item::TypeItem(_) => Ok(()),
        Item::NodeItem(node) => add_node(alloc, node, solved),
    }
}

/// What is solved of each node, in order, or the first clash.
#[tactic(auto, using(crate::proofs::AnswerRules::answered))]
fn solve_items<'a>(alloc: Global, items: &'a [Item]) -> Result<Vec<SolvedNode<'a>>, ClockErr>
    ensures solved { IfOk result (λ solved. AreSolved items.now solved.items) }
    ensures clash { IfErr result (NamesClash items.now) }
{
    let mut solved = Vec::new(alloc);
    for item in items {
        if let Err(error) = add_item(alloc, item, &mut solved) {
            return Err(error);
        }
    }
    Ok(solved)
}

/// A node with a clock that is too long is refused.
fn check_length(alloc: Global, node: &SolvedNode) -> Result<(), ClockErr>
    requires known { IsKnown node.now.solution }
    ensures short { OnOk result (IsShort node.now.solution) }
    ensures long { IfErr result (NamesLong node.now) }
{
    let found = longest(&node.solution) as u64;
    if found > What::Clock.most() {
        return Err(ClockErr::Limit {
            node: node.name.copy(alloc)?,
            limit: Limit {
                what: What::Clock,
                found,
            },
        });
    }
    Ok(())
}

/// The first node with a clock that is too long is refused.
#[tactic(auto, using(crate::proofs::AnswerRules::answered))]
fn check_lengths(alloc: Global, nodes: &[SolvedNode]) -> Result<(), ClockErr>
    requires known { All (λ s. IsKnown s.solution) nodes.now }
    ensures short { OnOk result (AreShort nodes.now) }
    ensures long { IfErr result (IsFirstLong nodes.now) }
{
    for node in nodes {
        if let Err(error) = check_length(alloc, node) {
            return Err(error);
        }
    }
    Ok(())
}

/// The clocks of all locals, in the order of the text.
#[tactic(auto, using(crate::proofs::AnswerRules::answered))]
fn all_paths(alloc: Global, nodes: &[SolvedNode]) -> Result<Vec<Vec<(Cons, Name)>>, AllocError>
    requires known { All (λ s. IsKnown s.solution) nodes.now }
    ensures { IfOk result (λ paths. paths_seen paths.items ≡ all_paths nodes.now) }
{
    let mut paths = Vec::new(alloc);
    for node in nodes {
        paths_of(alloc, &node.solution, &mut paths)?;
    }
    Ok(paths)
}

/// The clocks of all locals, or the first clash, or where there is none the first node with a clock that is too long.
pub fn find_clocks(alloc: Global, items: &[Item]) -> Result<Vec<Vec<(Cons, Name)>>, ClockErr>
    ensures found { IfOk result (λ paths. ArePaths items.now (paths_seen paths.items)) }
    ensures refused { IfErr result (Refuses items.now) }
{
    let solved = solve_items(alloc, items)?;
    check_lengths(alloc, &solved)?;
    Ok(all_paths(alloc, &solved)?)
}
