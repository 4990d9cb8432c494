//! Programs whose inlined calls are replaced.
ghost use Rattle.std.specs.Prelude.{◌≡◌, ◌++◌, ◌∷◌, List, IfErr, IfOk, OnOk};
ghost use Rattle.hp_tree.specs.declared.program.Item.{Item};
ghost use Rattle.hp_expand.specs.Refusals.{refusal_of, IsFormed, Names};
ghost use Rattle.hp_expand.specs.Numbering.{replaced_node, replaced_items, replaced};
ghost use Rattle.hp_expand.specs.NodeTables.{node_in};
ghost use Rattle.hp_expand.specs.Plain.{ItemsArePlain};

use crate::blocks::replace_node;
use crate::check_form;
use crate::error::ExpandErr;
use crate::nodes::Nodes;
use crate::number::number_node;
use hp_tree::{Item, Node, Program};
use std::alloc::{AllocError, Global};

fn expand_node(alloc: Global, nodes: &Nodes<'_>, node: &Node) -> Result<Node, AllocError>
    ensures { IfOk result (λ other. other ≡ replaced_node (node_in nodes.now) node.now) }
{
    let marked = replace_node(alloc, nodes, node)?;
    let other = number_node(alloc, &marked)?;
    Ok(other)
}

/// Adds the item, its inlined calls replaced.
fn add_item<'a>(alloc: Global, nodes: &mut Nodes<'a>, item: &'a Item) -> Result<(), AllocError>
    ensures { OnOk result ((rest : List Item) → nodes.new.items.items ++ replaced_items (node_in nodes.new) rest ≡ nodes.old.items.items ++ replaced_items (node_in nodes.old) (item.now ∷ rest)) }
{
    match item {
        Item::TypeItem(declared) => {
            let copy = declared.copy(alloc)?;
            nodes.add_type(copy)
        }
        Item::NodeItem(node) => {
            let other = expand_node(alloc, nodes, node)?;
            nodes.add_node(&node.name, other)
        }
    }
}

fn expand_items(alloc: Global, items: &[Item]) -> Result<Vec<Item>, AllocError>
    ensures { IfOk result (λ others. others.items ≡ replaced items.now) }
{
    let mut nodes = Nodes::new(alloc);
    for item in items {
        add_item(alloc, &mut nodes, item)?;
    }
    Ok(nodes.items)
}

/// The program with its inlined calls replaced, or why it is refused, as `check_form` refuses it.
#[tactic(auto, using(crate::proofs::Rules::plain))]
pub fn expand(alloc: Global, program: &Program) -> Result<Program, ExpandErr>
    ensures replaced { IfOk result (λ expanded. expanded ≡ replaced program.now) }
    ensures plain { IfOk result (λ expanded. ItemsArePlain expanded) }
    ensures formed { OnOk result (IsFormed program.now) }
    ensures refused { IfErr result (Names (refusal_of program.now)) }
{
    check_form(alloc, program)?;
    let items = expand_items(alloc, &program.items)?;
    Ok(Program { items })
}
