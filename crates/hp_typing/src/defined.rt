//! The definitions of nodes and programs.
ghost use Rattle.std.specs.Prelude.{◌≡◌, None, OnOk, IfOk};
ghost use Rattle.hp_tree.specs.Meaning.{controls_of};
ghost use Rattle.hp_typing.specs.Scopes.{behind};
ghost use Rattle.hp_typing.specs.Definedness.{in_contract, in_body, in_node, in_item, in_items, definition_claims};
ghost use Rattle.hp_typing.specs.Breaches.{found_after};

use crate::breach::Breach;
use crate::declarations::add_variables;
use crate::definitions::{check_block, check_others, check_variables, enter_block};
use crate::merges::check_condition;
use crate::programs::add_type;
use crate::scope::Scope;
use hp_tree::{Item, Node, controls_of};
use std::alloc::{AllocError, Global};

/// The equations of a contract define neither inputs nor outputs.
#[tactic(auto, using(crate::proofs::Rules::found_in_defined))]
fn check_contract<'a>(
    alloc: Global,
    scope: &mut Scope<'a>,
    node: &'a Node,
    found: &mut Option<Breach<'a>>,
) -> Result<(), AllocError>
    ensures scope { OnOk result (scope.new ≡ scope.old) }
    ensures found { OnOk result (found.new ≡ found_after found.old (in_contract scope.old node.now.inputs node.now.outputs node.now.contract)) }
{
    match &node.contract {
        None => Ok(()),
        Some(contract) => {
            let mark = scope.mark();
            let uses = enter_block(alloc, scope, &contract.body, found)?;
            check_others(&uses, &node.inputs, found);
            check_others(&uses, &node.outputs, found);
            check_condition(alloc, scope, &contract.assume, found)?;
            check_condition(alloc, scope, &contract.enforce, found)?;
            scope.leave(mark);
            Ok(())
        }
    }
}

/// The body of a node defines the outputs, and neither inputs nor controllable variables.
#[tactic(auto, using(crate::proofs::Rules::found_in_defined))]
fn check_body<'a>(
    alloc: Global,
    scope: &mut Scope<'a>,
    node: &'a Node,
    found: &mut Option<Breach<'a>>,
) -> Result<(), AllocError>
    ensures scope { OnOk result (scope.new ≡ scope.old) }
    ensures found { OnOk result (found.new ≡ found_after found.old (in_body scope.old node.now.inputs node.now.outputs (controls_of node.now.contract) node.now.body)) }
{
    let controls = controls_of(&node.contract);
    let mark = scope.mark();
    add_variables(scope, controls)?;
    let uses = check_block(alloc, scope, &node.body, found)?;
    check_others(&uses, &node.inputs, found);
    check_others(&uses, controls, found);
    check_variables(&uses, &node.outputs, found);
    scope.leave(mark);
    Ok(())
}

#[tactic(auto, using(crate::proofs::Rules::found_in_defined))]
fn check_node<'a>(
    alloc: Global,
    scope: &mut Scope<'a>,
    node: &'a Node,
    found: &mut Option<Breach<'a>>,
) -> Result<(), AllocError>
    ensures scope { OnOk result (scope.new ≡ scope.old) }
    ensures found { OnOk result (found.new ≡ found_after found.old (in_node scope.old node.now)) }
{
    let mark = scope.mark();
    add_variables(scope, &node.inputs)?;
    add_variables(scope, &node.outputs)?;
    check_contract(alloc, scope, node, found)?;
    check_body(alloc, scope, node, found)?;
    scope.leave(mark);
    Ok(())
}

/// An item, which is known from here on.
#[tactic(auto, using(crate::proofs::Rules::found_in_defined))]
fn check_item<'a>(
    alloc: Global,
    scope: &mut Scope<'a>,
    item: &'a Item,
    found: &mut Option<Breach<'a>>,
) -> Result<(), AllocError>
    ensures scope { OnOk result (scope.new ≡ behind scope.old item.now) }
    ensures found { OnOk result (found.new ≡ found_after found.old (in_item scope.old item.now)) }
{
    match item {
        Item::TypeItem(decl) => add_type(scope, decl),
        Item::NodeItem(node) => {
            check_node(alloc, scope, node, found)?;
            scope.nodes.add(&node.name, node)
        }
    }
}

/// The first wrong definition of the items, each of which is known from there on.
#[tactic(auto, using(crate::proofs::Rules::found_in_defined_items))]
fn check_each<'a>(
    alloc: Global,
    scope: &mut Scope<'a>,
    items: &'a [Item],
) -> Result<Option<Breach<'a>>, AllocError>
    ensures { IfOk result (λ found. found ≡ found_after None (in_items scope.old items.now)) }
{
    let mut found = None;
    for item in items {
        check_item(alloc, scope, item, &mut found)?;
    }
    Ok(found)
}

/// The first wrong definition of the items.
pub fn check_definitions<'a>(
    alloc: Global,
    items: &'a [Item],
) -> Result<Option<Breach<'a>>, AllocError>
    ensures { IfOk result (λ found. found ≡ found_after None (definition_claims items.now)) }
{
    check_each(alloc, &mut Scope::new(alloc), items)
}
