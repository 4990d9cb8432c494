//! The types of nodes and programs.
ghost use Rattle.std.specs.Prelude.{◌≡◌, ◌++◌, None, OnOk, IfOk};
ghost use Rattle.hp_tree.specs.Meaning.{controls_of};
ghost use Rattle.hp_typing.specs.Scopes.{behind, inside_node, with_constructors, with_type};
ghost use Rattle.hp_typing.specs.Claims.{in_condition, in_contract, in_body, in_node, in_item, in_items, in_decls, claims};
ghost use Rattle.hp_typing.specs.Breaches.{found_after};

use crate::blocks::{check_block, enter_block};
use crate::breach::Breach;
use crate::declarations::{add_variables, check_decls};
use crate::expressions::check_test;
use crate::scope::Scope;
use hp_base::Name;
use hp_base::known::Known;
use hp_tree::{Block, Contract, Decl, Expr, Item, Node, TypeDecl, controls_of};
use std::alloc::{AllocError, Global};

#[tactic(auto, using(crate::proofs::Rules::found))]
fn check_condition<'a>(
    scope: &Scope<'a>,
    condition: &'a Option<Expr>,
    found: &mut Option<Breach<'a>>,
)
    ensures { found.new ≡ found_after found.old (in_condition scope.now condition.now) }
{
    match condition {
        None => {}
        Some(expr) => check_test(scope, expr, found),
    }
}

/// A contract sees the inputs and outputs of its node, and its own variables.
#[tactic(auto, using(crate::proofs::Rules::found_in_nodes))]
fn check_contract<'a>(
    scope: &mut Scope<'a>,
    contract: &'a Option<Contract>,
    found: &mut Option<Breach<'a>>,
) -> Result<(), AllocError>
    ensures scope { OnOk result (scope.new ≡ scope.old) }
    ensures found { OnOk result (found.new ≡ found_after found.old (in_contract scope.old contract.now)) }
{
    match contract {
        None => Ok(()),
        Some(contract) => {
            let mark = scope.mark();
            enter_block(scope, &contract.body, found)?;
            check_condition(scope, &contract.assume, found);
            check_condition(scope, &contract.enforce, found);
            scope.leave(mark);
            Ok(())
        }
    }
}

/// The body of a node sees the controllable variables too.
#[tactic(auto, using(crate::proofs::Rules::found_in_nodes))]
fn check_body<'a>(
    scope: &mut Scope<'a>,
    controls: &'a [Decl],
    body: &'a Block,
    found: &mut Option<Breach<'a>>,
) -> Result<(), AllocError>
    ensures scope { OnOk result (scope.new ≡ scope.old) }
    ensures found { OnOk result (found.new ≡ found_after found.old (in_body scope.old controls.now body.now)) }
{
    let mark = scope.mark();
    add_variables(scope, controls)?;
    check_decls(scope, controls, found);
    check_block(scope, body, found)?;
    scope.leave(mark);
    Ok(())
}

/// Puts the inputs and outputs of a node in scope.
#[tactic(auto, using(crate::proofs::Rules::found_in_nodes))]
fn check_ports<'a>(
    scope: &mut Scope<'a>,
    node: &'a Node,
    found: &mut Option<Breach<'a>>,
) -> Result<(), AllocError>
    ensures scope { OnOk result (scope.new ≡ inside_node scope.old node.now) }
    ensures found { OnOk result (found.new ≡ found_after found.old (in_decls (inside_node scope.old node.now) node.now.inputs ++ in_decls (inside_node scope.old node.now) node.now.outputs)) }
{
    add_variables(scope, &node.inputs)?;
    add_variables(scope, &node.outputs)?;
    check_decls(scope, &node.inputs, found);
    check_decls(scope, &node.outputs, found);
    Ok(())
}

#[tactic(auto, using(crate::proofs::Rules::found_in_nodes))]
fn check_node<'a>(
    scope: &mut Scope<'a>,
    node: &'a Node,
    found: &mut Option<Breach<'a>>,
) -> Result<(), AllocError>
    ensures scope { OnOk result (scope.new ≡ scope.old) }
    ensures found { OnOk result (found.new ≡ found_after found.old (in_node scope.old node.now)) }
{
    let mark = scope.mark();
    check_ports(scope, node, found)?;
    check_contract(scope, &node.contract, found)?;
    check_body(scope, controls_of(&node.contract), &node.body, found)?;
    scope.leave(mark);
    Ok(())
}

/// The constructors of a type are known by its name.
#[tactic(auto, using(crate::proofs::Rules::constructors))]
fn add_constructors<'a>(
    known: &mut Known<'a, Name>,
    ty: &'a Name,
    constructors: &'a [Name],
) -> Result<(), AllocError>
    ensures { OnOk result (known.new ≡ with_constructors known.old ty.now constructors.now) }
{
    for constructor in constructors {
        known.add(constructor, ty)?;
    }
    Ok(())
}

/// A type is known by its name, and its constructors by theirs.
pub fn add_type<'a>(scope: &mut Scope<'a>, decl: &'a TypeDecl) -> Result<(), AllocError>
    ensures { OnOk result (scope.new ≡ with_type scope.old decl.now) }
{
    scope.types.add(&decl.name, decl)?;
    add_constructors(&mut scope.constructors, &decl.name, &decl.cons)
}

/// An item, which is known from here on.
#[tactic(auto, using(crate::proofs::Rules::found_in_nodes))]
fn check_item<'a>(
    scope: &mut Scope<'a>,
    item: &'a Item,
    found: &mut Option<Breach<'a>>,
) -> Result<(), AllocError>
    ensures scope { OnOk result (scope.new ≡ behind scope.old item.now) }
    ensures found { OnOk result (found.new ≡ found_after found.old (in_item scope.old item.now)) }
{
    match item {
        Item::TypeItem(decl) => add_type(scope, decl),
        Item::NodeItem(node) => {
            check_node(scope, node, found)?;
            scope.nodes.add(&node.name, node)
        }
    }
}

/// The first wrong type of the items, each of which is known from there on.
#[tactic(auto, using(crate::proofs::Rules::found_in_items))]
fn check_each<'a>(
    scope: &mut Scope<'a>,
    items: &'a [Item],
) -> Result<Option<Breach<'a>>, AllocError>
    ensures { IfOk result (λ found. found ≡ found_after None (in_items scope.old items.now)) }
{
    let mut found = None;
    for item in items {
        check_item(scope, item, &mut found)?;
    }
    Ok(found)
}

/// The first wrong type of the items.
pub fn check_items<'a>(alloc: Global, items: &'a [Item]) -> Result<Option<Breach<'a>>, AllocError>
    ensures { IfOk result (λ found. found ≡ found_after None (claims items.now)) }
{
    check_each(&mut Scope::new(alloc), items)
}
