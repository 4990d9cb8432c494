//! Names that keep their last values.
ghost use Rattle.std.specs.Prelude.{◌≡◌, [], ◌∷◌, map, IfOk, OnOk};
ghost use Rattle.hp_tree.specs.BlockView.{eqn_seen};
ghost use Rattle.hp_automata.specs.Lowering.{kept, all_kept};
ghost use Rattle.hp_automata.specs.Held.{said};
ghost use Rattle.hp_automata.specs.Lists.{names_seen, with_more};

use crate::around::{Layer, said};
use crate::defined::names_of_block;
use crate::definitions::{add_definition, last_value};
use crate::names::add_missing;
use hp_base::{Name, Span};
use hp_tree::{Block, Eqn};
use std::alloc::{AllocError, Global};

/// Adds an equation of a name that keeps its last value.
fn add_one(
    alloc: Global,
    layers: &[Layer<'_>],
    span: Span,
    name: &Name,
    into: &mut Vec<Eqn>,
) -> Result<(), AllocError>
    ensures { OnOk result (map eqn_seen into.new.items ≡ with_more (map eqn_seen into.old.items) (kept (said layers.now) span name.now ∷ [])) }
{
    let last = last_value(alloc, span, name.copy(alloc)?)?;
    let left = said(alloc, layers, name)?;
    add_definition(alloc, span, left, last, into)
}

/// Adds an equation for each of some names that keep their last values.
#[tactic(auto, using(crate::proofs::Rules::kept))]
fn add_each(
    alloc: Global,
    layers: &[Layer<'_>],
    span: Span,
    names: &[&Name],
    into: &mut Vec<Eqn>,
) -> Result<(), AllocError>
    ensures { OnOk result (map eqn_seen into.new.items ≡ with_more (map eqn_seen into.old.items) (map (kept (said layers.now) span) (names_seen names.now))) }
{
    for i in 0..names.len() {
        add_one(alloc, layers, span, names[i], into)?;
    }
    Ok(())
}

/// Adds an equation for each of the names that the block leaves to their last values.
#[tactic(auto, using(crate::proofs::Rules::kept))]
pub fn add_kept(
    alloc: Global,
    layers: &[Layer<'_>],
    span: Span,
    names: &[&Name],
    block: &Block,
    into: &mut Vec<Eqn>,
) -> Result<(), AllocError>
    ensures { OnOk result (map eqn_seen into.new.items ≡ with_more (map eqn_seen into.old.items) (all_kept (said layers.now) span (names_seen names.now) block.now)) }
{
    let own = names_of_block(alloc, block)?;
    let mut left = Vec::new(alloc);
    add_missing(&own, names, &mut left)?;
    add_each(alloc, layers, span, &left, into)
}
