//! The names that equations define, each once.
ghost use Rattle.std.specs.Prelude.{◌≡◌, map, IfOk};
ghost use Rattle.hp_tree.specs.BlockView.{arm_seen, state_seen};
ghost use Rattle.hp_tree.specs.Blocks.{arms_of, states_of};
ghost use Rattle.hp_tables.specs.Defining.Names.{names_of_arms, names_of_states, outer_names};
ghost use Rattle.hp_automata.specs.Names.{is_name, once};
ghost use Rattle.hp_automata.specs.Lists.{names_seen};

use crate::names::Names;
use hp_tables::defining::{
    names_of_arms as all_of_arms, names_of_states as all_of_states, outer_names,
};
use hp_tree::{Arm, Block, State};
use std::alloc::{AllocError, Global};

/// The names that some arms define, each once.
pub fn names_of_arms<'a>(alloc: Global, arms: &'a [Arm]) -> Result<Names<'a>, AllocError>
    ensures { IfOk result (λ found. names_seen found.names.items ≡ once (names_of_arms (arms_of (map arm_seen arms.now)))) }
{
    let names = all_of_arms(alloc, arms)?;
    Names::once(alloc, &names)
}

/// The names that some states define, each once.
pub fn names_of_states<'a>(alloc: Global, states: &'a [State]) -> Result<Names<'a>, AllocError>
    ensures { IfOk result (λ found. names_seen found.names.items ≡ once (names_of_states (states_of (map state_seen states.now)))) }
{
    let names = all_of_states(alloc, states)?;
    Names::once(alloc, &names)
}

/// The names that a block defines for the blocks around it.
pub fn names_of_block<'a>(alloc: Global, block: &'a Block) -> Result<Names<'a>, AllocError>
    ensures { IfOk result (λ found. is_name (names_seen found.names.items) ≡ is_name (outer_names block.now)) }
{
    let names = outer_names(alloc, block)?;
    Names::once(alloc, &names)
}
