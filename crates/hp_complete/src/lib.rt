//! Programs without automata as clocked equations (flattening). Invariant: each expression that is no name has a variable and one equation on its clock, in the order of making. Used by `hp_machines`, `hp_controlled`; its specs by the laws.
#![tactic(auto)]

mod block;
mod clock;
mod declared;
mod definition;
mod draft;
mod error;
mod expression;
mod layer;
mod names;
mod naming;
mod node;
mod order;
mod path;
mod place;

ghost use Rattle.std.specs.Prelude.{◌≡◌, List, ◌++◌, ◌∷◌, [], IfErr, IfOk, OnOk};
ghost use Rattle.hp_tree.specs.declared.program.Item.{Item as ItemSeen};
ghost use Rattle.hp_complete.specs.Declaring.{known_of};
ghost use Rattle.hp_complete.specs.KnownLaw.{KnownLaw};
ghost use Rattle.hp_complete.specs.Laws.{StandsLaw};
ghost use Rattle.hp_complete.specs.Made.{AreMadeOf, HasCircle};
ghost use Rattle.hp_complete.specs.Ordering.{SaysTrue};
ghost use Rattle.hp_complete.specs.Signatures.{AreFlat, places_of};
ghost use Rattle.hp_complete.specs.Tables.{known_in};

use declared::Declared;
pub use error::FlattenErr;
use hp_flat::FlatNode;
use hp_tree::{Item, Program};
use node::flatten_node;
pub use order::order_eqns;
use std::alloc::{AllocError, Global};

/// The nodes of a program as clocked equations, in order. An automaton gives no equations, since it is to be replaced before, and a name
/// that is not known is absent. `Cycle` says that equations of a node read each other in a circle.
pub fn flatten(alloc: Global, program: &Program) -> Result<Vec<FlatNode>, FlattenErr>
    ensures made { IfOk result (λ nodes. AreMadeOf (known_of program.now) program.now nodes.items) }
    ensures flat { IfOk result (λ nodes. AreFlat (places_of program.now) program.now nodes.items) }
    ensures circular { IfErr result (SaysTrue (HasCircle (known_of program.now) program.now)) }
{
    let declared = Declared::of(alloc, &program.items)?;
    match flatten_items(alloc, &declared, &program.items) {
        Ok(nodes) => Ok(nodes),
        Err(error) => Err(error),
    }
}

/// The clocked equations of a node that is made of a ready one stand for those over its flat names. A law, which does nothing.
pub fn flat_nodes_stand_for_flat_names()
    ensures { StandsLaw }
{}

/// What is known of the names of a program agrees with what the program says. A law, which does nothing.
pub fn known_names_agree()
    ensures { KnownLaw }
{}

#[tactic(auto, using(crate::proofs::Rules::made))]
fn flatten_items<'d, 'a>(
    alloc: Global,
    declared: &'d Declared<'a>,
    items: &'a [Item],
) -> Result<Vec<FlatNode>, FlattenErr>
    ensures made { IfOk result (λ nodes. AreMadeOf (known_in declared.now) items.now nodes.items) }
    ensures circular { IfErr result (SaysTrue (HasCircle (known_in declared.now) items.now)) }
{
    let mut nodes = Vec::new(alloc);
    for item in items {
        if let Err(error) = flatten_item(alloc, declared, item, &mut nodes) {
            return Err(error);
        }
    }
    Ok(nodes)
}

#[tactic(auto, using(crate::proofs::Rules::made))]
fn flatten_item<'d, 'a>(
    alloc: Global,
    declared: &'d Declared<'a>,
    item: &'a Item,
    nodes: &mut Vec<FlatNode>,
) -> Result<(), FlattenErr>
    ensures made { (before : List ItemSeen) → AreMadeOf (known_in declared.now) before nodes.old.items → OnOk result (AreMadeOf (known_in declared.now) (before ++ item.now ∷ []) nodes.new.items) }
    ensures circular { IfErr result (SaysTrue (HasCircle (known_in declared.now) (item.now ∷ []))) }
{
    match item {
        Item::TypeItem(_) => Ok(()),
        Item::NodeItem(node) => {
            match flatten_node(alloc, declared, node) {
                Ok(flat) => {
                    add_node(flat, nodes)?;
                    Ok(())
                }
                Err(error) => Err(error),
            }
        }
    }
}

fn add_node(node: FlatNode, nodes: &mut Vec<FlatNode>) -> Result<(), AllocError>
    ensures { OnOk result (nodes.new.items ≡ nodes.old.items ++ node ∷ []) }
{
    nodes.push(node)?;
    Ok(())
}
