ghost use Rattle.std.specs.Prelude.{◌≡◌};
ghost use Rattle.hp_driver.specs.Controls.{has_controls, own_controls, some_variable};
ghost use Rattle.hp_tree.specs.Meaning.{controls_of};

use hp_tree::{Contract, Item, Program};

/// Whether a contract has controllable variables.
fn is_controlled(contract: &Option<Contract>) -> bool
    ensures { result ≡ some_variable (controls_of contract.now) }
{
    match contract {
        None => false,
        Some(contract) => !contract.controls.is_empty(),
    }
}

fn has_own_controls(item: &Item) -> bool
    ensures { result ≡ own_controls item.now }
{
    match item {
        Item::TypeItem(_) => false,
        Item::NodeItem(node) => is_controlled(&node.contract),
    }
}

/// Whether a node of the program has controllable variables.
pub fn has_controls(program: &Program) -> bool
    ensures { result ≡ has_controls program.now }
{
    for item in &program.items {
        if has_own_controls(item) {
            return true;
        }
    }
    false
}
