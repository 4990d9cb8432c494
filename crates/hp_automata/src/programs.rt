//! Programs without automata.
ghost use Rattle.std.specs.Prelude.{◌≡◌, [], map, option_map, IfOk, OnOk};
ghost use Rattle.hp_automata.specs.Lowering.{enumerations, with_item, lowered_contract, lowered_node, lowered_item, types_of};

use crate::around::{Around, Enums, declare};
use crate::blocks::lower_block;
use hp_base::known::Known;
use hp_tree::{Contract, Expr, Item, Node, copy_decls};
use std::alloc::{AllocError, Global};

/// The enumerations that the items declare, by name.
#[tactic(auto, using(crate::proofs::Rules::enumerated))]
pub fn find_enumerations<'a>(alloc: Global, items: &'a [Item]) -> Result<Enums<'a>, AllocError>
    ensures { IfOk result (λ enums. enums ≡ enumerations [] items.now) }
{
    let mut enums = Known::new(alloc);
    for item in items {
        add_enumeration(&mut enums, item)?;
    }
    Ok(enums)
}

fn add_enumeration<'a>(enums: &mut Enums<'a>, item: &'a Item) -> Result<(), AllocError>
    ensures { OnOk result (enums.new ≡ with_item enums.old item.now) }
{
    match item {
        Item::TypeItem(declared) => enums.add(&declared.name, declared),
        Item::NodeItem(_) => Ok(()),
    }
}

fn copy_condition(alloc: Global, condition: &Option<Expr>) -> Result<Option<Expr>, AllocError>
    ensures { IfOk result (λ copy. copy ≡ condition.now) }
{
    match condition {
        None => Ok(None),
        Some(expr) => Ok(Some(expr.copy(alloc)?)),
    }
}

/// What is known at the outermost block of a node.
fn around_node<'a>(alloc: Global, node: &'a Node) -> Result<Around<'a>, AllocError>
    ensures types { IfOk result (λ around. around.types ≡ types_of node.now) }
    ensures layers { IfOk result (λ around. around.layers.items ≡ []) }
{
    let mut types = Known::new(alloc);
    declare(&mut types, &node.inputs)?;
    declare(&mut types, &node.outputs)?;
    Ok(Around {
        types,
        layers: Vec::new(alloc),
    })
}

fn lower_contract<'a>(
    alloc: Global,
    enums: &Enums<'a>,
    around: &mut Around<'a>,
    contract: &'a Contract,
) -> Result<Contract, AllocError>
    requires { around.old.layers.items ≡ [] }
    ensures contract { IfOk result (λ other. other ≡ lowered_contract enums.now around.old.types contract.now) }
    ensures types { OnOk result (around.new.types ≡ around.old.types) }
    ensures layers { OnOk result (around.new.layers.items ≡ around.old.layers.items) }
{
    Ok(Contract {
        body: lower_block(alloc, enums, around, contract.span, &[], &contract.body)?,
        assume: copy_condition(alloc, &contract.assume)?,
        enforce: copy_condition(alloc, &contract.enforce)?,
        controls: copy_decls(alloc, &contract.controls)?,
        span: contract.span,
    })
}

fn lower_observer<'a>(
    alloc: Global,
    enums: &Enums<'a>,
    around: &mut Around<'a>,
    contract: &'a Option<Contract>,
) -> Result<Option<Contract>, AllocError>
    requires { around.old.layers.items ≡ [] }
    ensures contract { IfOk result (λ other. other ≡ option_map (lowered_contract enums.now around.old.types) contract.now) }
    ensures types { OnOk result (around.new.types ≡ around.old.types) }
    ensures layers { OnOk result (around.new.layers.items ≡ around.old.layers.items) }
{
    match contract {
        None => Ok(None),
        Some(contract) => Ok(Some(lower_contract(alloc, enums, around, contract)?)),
    }
}

fn lower_node<'a>(alloc: Global, enums: &Enums<'a>, node: &'a Node) -> Result<Node, AllocError>
    ensures { IfOk result (λ other. other ≡ lowered_node enums.now node.now) }
{
    let mut around = around_node(alloc, node)?;
    let contract = lower_observer(alloc, enums, &mut around, &node.contract)?;
    let body = lower_block(alloc, enums, &mut around, node.span, &[], &node.body)?;
    Ok(Node {
        name: node.name.copy(alloc)?,
        span: node.span,
        inputs: copy_decls(alloc, &node.inputs)?,
        outputs: copy_decls(alloc, &node.outputs)?,
        contract,
        body,
    })
}

fn lower_item<'a>(alloc: Global, enums: &Enums<'a>, item: &'a Item) -> Result<Item, AllocError>
    ensures { IfOk result (λ other. other ≡ lowered_item enums.now item.now) }
{
    match item {
        Item::TypeItem(declared) => Ok(Item::TypeItem(declared.copy(alloc)?)),
        Item::NodeItem(node) => Ok(Item::NodeItem(lower_node(alloc, enums, node)?)),
    }
}

/// The items without automata, in order.
#[tactic(auto, using(crate::proofs::Rules::more))]
pub fn lower_items<'a>(
    alloc: Global,
    enums: &Enums<'a>,
    items: &'a [Item],
) -> Result<Vec<Item>, AllocError>
    ensures { IfOk result (λ others. others.items ≡ map (lowered_item enums.now) items.now) }
{
    let mut others = Vec::new(alloc);
    for item in items {
        others.push(lower_item(alloc, enums, item)?)?;
    }
    Ok(others)
}
