//! Initialisation: which names may be Nil at first, and where a value is wanted that may be. Invariant: the classes are the least ones; the refusal is the first unmet want. Used by `hp_compile`; its specs by `hp_driver` and the laws.
#![tactic(auto)]

ghost use Rattle.std.specs.Prelude.{◌≡◌, [], ◌∷◌, None, OnOk, IfOk, IfErr};
ghost use Rattle.hp_init.specs.Asks.{value_of, unmet};
ghost use Rattle.hp_init.specs.Spreading.{valued};
ghost use Rattle.hp_init.specs.Initialised.{IsFound, IsInitialised};
ghost use Rattle.hp_init.specs.Answers.{unmet_by, NamesLate, NamesNode};

mod ask;
mod error;
mod expression;
mod gather;
mod least;
mod table;

use ask::{Ask, Source};
pub use error::InitErr;
use gather::gather_node;
use hp_base::Span;
use hp_tree::{Item, Node, Program};
use least::least_classes;
use std::alloc::{AllocError, Global};

fn is_second(source: Source, second: &[bool]) -> bool
    ensures { result ≡ value_of (valued second.now) source }
{
    match source {
        Source::Always => true,
        Source::Class(number) => match second.get(number) {
            None => false,
            Some(is_second) => *is_second,
        },
    }
}

/// The unit, if it wants something First which is Second.
fn unmet_by(ask: &Ask, second: &[bool]) -> Option<Span>
    ensures { result ≡ unmet_by (valued second.now) ask.now }
{
    match ask {
        Ask::Follows(_, _) => None,
        Ask::First(source, unit) => {
            if is_second(*source, second) {
                Some(*unit)
            } else {
                None
            }
        }
    }
}

/// The first unit that wants something First which is Second.
#[tactic(auto, using(crate::proofs::Rules::wanted))]
fn first_unmet(asks: &[Ask], second: &[bool]) -> Option<Span>
    ensures { result ≡ unmet (valued second.now) asks.now }
{
    for ask in asks {
        if let Some(unit) = unmet_by(ask, second) {
            return Some(unit);
        }
    }
    None
}

/// The first unit of the node with a want that is not met.
fn init_node(alloc: Global, node: &Node) -> Result<Option<Span>, AllocError>
    ensures { IfOk result (λ found. IsFound node.now found) }
{
    let asks = gather_node(alloc, node)?;
    let second = least_classes(alloc, &asks)?;
    Ok(first_unmet(&asks, &second))
}

fn check_node(alloc: Global, node: &Node) -> Result<(), InitErr>
    ensures initialised { OnOk result (IsFound node.now None) }
    ensures late { IfErr result (NamesNode node.now) }
{
    match init_node(alloc, node)? {
        None => Ok(()),
        Some(span) => {
            let node = node.name.copy(alloc)?;
            Err(InitErr::Late { node, span })
        }
    }
}

#[tactic(auto, using(crate::proofs::Rules::answered))]
fn check_item(alloc: Global, item: &Item) -> Result<(), InitErr>
    ensures initialised { OnOk result (IsInitialised (item.now ∷ [])) }
    ensures late { IfErr result (NamesLate (item.now ∷ [])) }
{
    match item {
        Item::TypeItem(_) => Ok(()),
        Item::NodeItem(node) => check_node(alloc, node),
    }
}

#[tactic(auto, using(crate::proofs::Rules::answered))]
fn check_items(alloc: Global, items: &[Item]) -> Result<(), InitErr>
    ensures initialised { OnOk result (IsInitialised items.now) }
    ensures late { IfErr result (NamesLate items.now) }
{
    for item in items {
        if let Err(error) = check_item(alloc, item) {
            return Err(error);
        }
    }
    Ok(())
}

/// Whether each value is there from the first instant on where it is wanted so, and else the first unit where it is not.
pub fn init(alloc: Global, program: &Program) -> Result<(), InitErr>
    ensures initialised { OnOk result (IsInitialised program.now) }
    ensures late { IfErr result (NamesLate program.now) }
    ensures accepted { IsInitialised program.now → IfErr result (λ error. error ≡ InitErr.OutOfMemory) }
{
    check_items(alloc, &program.items)
}
