//! The shapes of contracts in a program.
ghost use Rattle.std.specs.Prelude.{◌≡◌, IfOk, option_map};
ghost use Rattle.hp_expand.specs.Shapes.{breach_in};
ghost use Rattle.hp_expand.specs.Broken.{broken_seen, Shaped};
ghost use Rattle.hp_expand.specs.Tables.{form_in};

use crate::calls::{check_block, check_contract};
use crate::forms::{Form, Forms};
use crate::found::{Breach, Found, breach_among};
use hp_base::Name;
use hp_tree::{Item, Node};
use std::alloc::{AllocError, Global};

/// A node that breaks a shape.
#[derive(Drop)]
pub struct Broken<'a> {
    pub node: &'a Name,
    pub breach: Breach,
}

/// A node as it is seen where it is called, and its first breach.
#[derive(Clone, Copy, Debug)]
pub struct Judged {
    pub form: Form,
    pub breach: Option<Breach>,
}

fn judge_node(forms: &Forms<'_>, node: &Node) -> Judged
    ensures { Shaped (form_in forms.now) node.now result }
{
    let mut contract = Found::nothing();
    check_contract(forms, &node.contract, &mut contract);
    let mut body = Found::nothing();
    check_block(forms, &node.body, &mut body);
    let form = Form {
        has_contract: node.contract.is_some(),
        plain: body.plain,
    };
    Judged {
        form,
        breach: breach_among(contract, body),
    }
}

/// The first node that breaks a shape, and its first breach.
#[tactic(auto, using(crate::proofs::Rules::shapes_of_items))]
pub fn check_shapes<'a>(alloc: Global, items: &'a [Item]) -> Result<Option<Broken<'a>>, AllocError>
    ensures { IfOk result (λ found. option_map broken_seen found ≡ breach_in items.now) }
{
    let mut forms = Forms::new(alloc);
    for item in items {
        if let Item::NodeItem(node) = item {
            let name = &node.name;
            let judged = judge_node(&forms, node);
            match judged.breach {
                None => forms.put(name, judged.form)?,
                Some(breach) => return Ok(Some(Broken { node: name, breach })),
            }
        }
    }
    Ok(None)
}
