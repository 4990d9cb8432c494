//! The nodes of a program.
ghost use Rattle.std.specs.Prelude.{◌≡◌, IfOk, OnOk};
ghost use Rattle.hp_tables.specs.Declarations.Items.{with_node, with_nodes};
ghost use Rattle.hp_tables.specs.Declarations.Seen.{node_in};
ghost use Rattle.hp_tables.specs.Declarations.Tables.{nothing, put_at};

use crate::declarations::table::Table;
use hp_tree::{Item, Node};
use std::alloc::{AllocError, Global};

fn put_node<'a>(
    name: &'a [u8],
    node: &'a Node,
    found: &mut Table<'a, &'a Node>,
) -> Result<(), AllocError>
    ensures { OnOk result (node_in found.new ≡ put_at (node_in found.old) name.now node.now) }
{
    found.put(name, node)?;
    Ok(())
}

fn put_item<'a>(item: &'a Item, found: &mut Table<'a, &'a Node>) -> Result<(), AllocError>
    ensures { OnOk result (node_in found.new ≡ with_node (node_in found.old) item.now) }
{
    match item {
        Item::TypeItem(_) => Ok(()),
        Item::NodeItem(node) => put_node(node.name.bytes(), node, found),
    }
}

/// The nodes of the items; of two of one name the last counts.
#[tactic(auto, using(crate::proofs::DeclarationsLemmas::Rules::tables))]
pub fn nodes_of<'a>(alloc: Global, items: &'a [Item]) -> Result<Table<'a, &'a Node>, AllocError>
    ensures { IfOk result (λ found. node_in found ≡ with_nodes nothing items.now) }
{
    let mut found = Table::new(alloc);
    for item in items {
        put_item(item, &mut found)?;
    }
    Ok(found)
}
